//! Which numbers the events of each source have, and which are missing.

ghost use Rattle.std.specs.Prelude.{◌≡◌, ◌++◌, ◌∷◌, [], List, filter, map, IfOk, OnOk};
ghost use Rattle.std.specs.Map.Iter.{deref_pair};
ghost use Rattle.coverage.specs.Intervals.{Forms, Interval, IsMissing};
ghost use Rattle.inbox.specs.Kept.{events};
ghost use Rattle.views.specs.Number.{AreGaps, Sums};
ghost use Rattle.views.specs.steps.Gaps.{AreGapsOf, has_gap};

use crate::row::Gaps;
use attributes::Text;
use coverage::{Intervals, Summary};
use inbox::Inbox;
use std::alloc::{AllocError, Global};

/// The answer to `cover`: the numbers of all events, for each source, as a summary of version 1.
/// Time in proportion to the events, times the logarithm of the sources and of the intervals of a
/// source; in key order a source is copied once.
pub(crate) fn sum_numbers(alloc: Global, inbox: &Inbox) -> Result<Summary, AllocError>
    ensures { IfOk result (Sums (events inbox.now)) }
{
    let mut summary = Summary::empty(alloc);
    let mut source = Text::from_string(String::new(alloc));
    for i in 0..inbox.len() {
        let event = inbox.at(i);
        source = text_of(alloc, source, event.event().source())?;
        summary.insert(&source, event.number())?;
    }
    Ok(summary)
}

/// A source's words as a text of its own: the one at hand where they are equal, and else a copy.
fn text_of(alloc: Global, at_hand: Text, words: &str) -> Result<Text, AllocError>
    ensures { IfOk result (λ text. text ≡ words.now) }
{
    if at_hand.as_str() == words {
        return Ok(at_hand);
    }
    Text::of(alloc, words)
}

/// The answer to `gaps`: the numbers missing below the greatest of each source, for the sources
/// that lack any, in byte order. Time as for `sum_numbers`.
pub(crate) fn find_gaps(alloc: Global, inbox: &Inbox) -> Result<Gaps, AllocError>
    ensures { IfOk result (AreGaps (events inbox.now)) }
{
    let summary = sum_numbers(alloc, inbox)?;
    let entries = summary.entries()?;
    Ok(gaps_of(alloc, &entries)?)
}

/// The rows of `gaps`: what sources lack of their numbers, without those that lack nothing.
fn gaps_of(alloc: Global, entries: &[(&str, &Intervals)]) -> Result<Gaps, AllocError>
    ensures { IfOk result (AreGapsOf (map deref_pair entries.now)) }
{
    let mut rows = Gaps::empty(alloc);
    for entry in entries {
        add_gaps(alloc, &mut rows, entry.0, entry.1)?;
    }
    Ok(rows)
}

/// Adds a source to the answer to `gaps` with its missing numbers, if any is missing.
fn add_gaps(
    alloc: Global,
    rows: &mut Gaps,
    source: &str,
    numbers: &Intervals,
) -> Result<(), AllocError>
    ensures { OnOk result ((missing : List Interval) × Forms missing (IsMissing numbers.now)
        × (rows.new ≡ rows.old ++ filter has_gap ((source.now, missing) ∷ []))) }
{
    let missing = numbers.missing()?;
    if missing.is_empty() {
        return Ok(());
    }
    rows.push((Text::of(alloc, source)?, missing))?;
    Ok(())
}
