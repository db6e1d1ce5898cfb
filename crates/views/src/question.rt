//! Any question, answered and printed.

ghost use Rattle.std.specs.Prelude.{◌≡◌, ◌≢◌, ◌↔◌, [], IfOk, IsTrue, OnErr};
ghost use Rattle.inbox.specs.Kept.{events};
ghost use Rattle.views.specs.Question.{AreLines, IsAnswer, IsTrueOf, MayWantMemory, query_of};

use crate::laws::answers_are_alike;
use crate::line::{
    print_conflicts, print_conflicts_of, print_cover, print_days, print_events, print_gaps,
    print_kinds, print_lent,
};
use crate::number::{find_gaps, sum_numbers};
use crate::query::{Answer, Query};
use crate::row::{Days, Gaps, Kinds};
use crate::view::{count_days, count_kinds, find_latest, latest_events, shown_events};
use attributes::{Batch, Text};
use coverage::Summary;
use inbox::{Conflicts, Inbox};
use std::alloc::{AllocError, Global};

/// The answer to a question about a set without events. It takes no memory.
fn empty_answer(alloc: Global, query: Query) -> Answer
    ensures query { query_of result ≡ query }
    ensures answer { IsTrueOf [] result }
    ensures lines { IsAnswer query [] [] → AreLines result [] }
{
    match query {
        Query::Cover => Answer::Cover(Summary::empty(alloc)),
        Query::Shown => Answer::Shown(Batch::empty(alloc)),
        Query::Conflicts => Answer::Conflicts(Conflicts::empty(alloc)),
        Query::Latest => Answer::Latest(Batch::empty(alloc)),
        Query::Kinds => Answer::Kinds(Kinds::empty(alloc)),
        Query::Days => Answer::Days(Days::empty(alloc)),
        Query::Gaps => Answer::Gaps(Gaps::empty(alloc)),
    }
}

/// The answer to a question about a set of events, from scratch. Time in proportion to the events,
/// times a logarithm, and to what is copied into the answer; memory in proportion to the events,
/// and to the answer. `AllocError` where memory is refused.
pub fn answer(alloc: Global, inbox: &Inbox, query: Query) -> Result<Answer, AllocError>
    ensures query { IfOk result (λ a. query_of a ≡ query) }
    ensures answer { IfOk result (IsTrueOf (events inbox.now)) }

    // Without events no memory is wanted, nor for conflicts or days where there are none.
    ensures err { OnErr result (events inbox.now ≢ []) }
    ensures rows { OnErr result (MayWantMemory query (events inbox.now)) }
{
    if inbox.len() == 0 {
        return Ok(empty_answer(alloc, query));
    }
    match query {
        Query::Cover => Ok(Answer::Cover(sum_numbers(alloc, inbox)?)),
        Query::Shown => Ok(Answer::Shown(inbox.shown()?)),
        Query::Conflicts => Ok(Answer::Conflicts(inbox.conflicts()?)),
        Query::Latest => Ok(Answer::Latest(find_latest(alloc, inbox)?)),
        Query::Kinds => Ok(Answer::Kinds(count_kinds(alloc, inbox)?)),
        Query::Days => Ok(Answer::Days(count_days(alloc, inbox)?)),
        Query::Gaps => Ok(Answer::Gaps(find_gaps(alloc, inbox)?)),
    }
}

/// Whether an answer to a question has no lines.
fn is_silent(answer: &Answer) -> bool
    ensures { IsTrue result ↔ AreLines answer.now [] }
{
    match answer {
        Answer::Cover(_) => false,
        Answer::Shown(events) => events.is_empty(),
        Answer::Conflicts(conflicts) => conflicts.is_empty(),
        Answer::Latest(events) => events.is_empty(),
        Answer::Kinds(kinds) => kinds.is_empty(),
        Answer::Days(days) => days.is_empty(),
        Answer::Gaps(gaps) => gaps.is_empty(),
    }
}

/// The answer to a question in lines that end with LF; without lines, the empty text. Time and
/// memory in proportion to the text. `AllocError` where memory is refused.
pub fn print(alloc: Global, answer: &Answer) -> Result<Text, AllocError>
    ensures lines { IfOk result (AreLines answer.now) }

    // Memory is wanted for lines alone.
    ensures err { OnErr result (¬ AreLines answer.now []) }
{
    if is_silent(answer) {
        return Ok(Text::from_string(String::new(alloc)));
    }
    match answer {
        Answer::Cover(summary) => print_cover(alloc, summary),
        Answer::Shown(events) => print_events(alloc, events),
        Answer::Conflicts(conflicts) => print_conflicts(alloc, conflicts),
        Answer::Latest(events) => print_events(alloc, events),
        Answer::Kinds(kinds) => print_kinds(alloc, kinds),
        Answer::Days(days) => print_days(alloc, days),
        Answer::Gaps(gaps) => print_gaps(alloc, gaps),
    }
}

/// The lines of the answer to a question about a set of events: what `print` makes of `answer`, but
/// events are printed where they stand, without a copy of each. `AllocError` where memory
/// is refused.
pub fn answer_lines(alloc: Global, inbox: &Inbox, query: Query) -> Result<Text, AllocError>
    ensures lines { IfOk result (IsAnswer query (events inbox.now)) }

    // Without events memory is wanted for lines alone, and so it is without conflicts or days.
    ensures err { OnErr result (IsAnswer query (events inbox.now) [] → events inbox.now ≢ []) }
    ensures rows { OnErr result (IsAnswer query (events inbox.now) []
        → MayWantMemory query (events inbox.now)) }
{
    // A law that the clauses rest on; the call does nothing.
    answers_are_alike();
    if inbox.len() == 0 {
        return print(alloc, &empty_answer(alloc, query));
    }
    match query {
        Query::Shown => {
            let shown = shown_events(alloc, inbox)?;
            print_lent(alloc, &shown)
        }
        Query::Latest => {
            let latest = latest_events(alloc, inbox)?;
            print_lent(alloc, &latest)
        }
        Query::Conflicts => print_conflicts_of(alloc, inbox),
        _ => {
            let found = answer(alloc, inbox, query)?;
            print(alloc, &found)
        }
    }
}
