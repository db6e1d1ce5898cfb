//! Laws of answers, each as the contract of a function that does nothing.

ghost use Rattle.views.specs.Law.{AnswersAreAlike, AnswersAreOne, LatestAreGreatest, LinesAreAnswers, NoneTie, EntitiesHaveLatest, SilenceIsAnswer};

use attributes::laws::text_tells_events;
use coverage::laws::{numbers_tell_cover_texts, numbers_tell_summaries};
use inbox::laws::sets_are_members;

/// What the question `latest` finds for a source and subject is one of their events, and none is
/// greater by number, then id.
pub fn latest_are_greatest()
    ensures { LatestAreGreatest }
{}

/// The question `latest` finds one event, and just one, of each source and subject that an event
/// has: no two shown events of a set tie by number and id there.
pub fn latest_are_one()
    ensures each { EntitiesHaveLatest }
    ensures one { NoneTie }
{
    text_tells_events();
    sets_are_members();
}

/// The lines of a true answer to a question answer it; a question has one text over a set of
/// events, and where that is empty a true answer has no line; and where two lists have the same
/// events, in whatever order and repetition, it has one text over the sets of both, byte for byte.
pub fn answers_are_alike()
    ensures written { LinesAreAnswers }
    ensures one { AnswersAreOne }
    ensures alike { AnswersAreAlike }
    ensures silent { SilenceIsAnswer }
{
    numbers_tell_cover_texts();
    numbers_tell_summaries();
    sets_are_members();
}
