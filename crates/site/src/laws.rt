//! Laws of sites, each as the contract of a function that does nothing.

ghost use Rattle.site.specs.Key.{ConflictsAreFound};
ghost use Rattle.site.specs.Law.{ArrivalsStay, PagesSkipNone, SitesAnswerAlike, TakingUnites};

use coverage::laws::sets_have_one_summary;
use inbox::laws::{arrivals_unite, sets_are_members, unions_are_sets};
use views::laws::answers_are_alike;

/// Sites that took the same events, in whatever order, grouping and repetition, answer every
/// question with the same bytes, have equal summaries with equal texts, and answer `delta`,
/// `delta_page` and `page` to equal arguments alike.
pub fn sites_answer_alike()
    ensures { SitesAnswerAlike }
{
    sets_are_members();
    answers_are_alike();
    sets_have_one_summary();
}

/// A site that takes a list has what it had and what is in the list, and nothing else.
pub fn taking_unites()
    ensures { TakingUnites }
{
    sets_are_members();
    unions_are_sets();
    arrivals_unite();
}

/// Whoever goes on with a site's pages from a place of key order that was reached skips no event
/// that was there before, whatever was taken meanwhile.
pub fn pages_skip_none()
    ensures { PagesSkipNone }
{
    sets_are_members();
    arrivals_unite();
}

/// The event that came to a site as the n-th is the n-th for ever, whatever is taken: who read the
/// first n goes on behind them.
pub fn arrivals_stay()
    ensures { ArrivalsStay }
{}

/// Whoever asks a site for source and id of a conflict gets the conflict's events, in its order.
pub fn conflicts_are_found()
    ensures { ConflictsAreFound }
{}
