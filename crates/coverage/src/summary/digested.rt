//! Summaries with the digests of a set's blocks.
ghost use Rattle.std.specs.Prelude.{◌≡◌, ◌≢◌, ℕ, List, [], IfOk, OnErr};
ghost use Rattle.std.specs.List.Sorted.{IsStrictlySortedBy};
ghost use Rattle.inbox.specs.KeyOrder.{key_cmp};
ghost use Rattle.inbox.specs.Sets.{AreEvents, set_of};
ghost use Rattle.block_digests.specs.Kept.{IsKeptOf};
ghost use Rattle.block_digests.specs.Number.{has_number};
ghost use Rattle.coverage.specs.Digests.{Digests};
ghost use Rattle.coverage.specs.Summary.{holds_at};

use super::Summary;
use crate::digests::SourceDigests;
use crate::numbers::Numbers;
use attributes::Batch;
use attributes::laws::text_tells_events;
use block_digests::{Arrivals, Blocks};
use inbox::laws::sets_are_members;
use std::alloc::{AllocError, Global};

impl Summary {
    /// The summary of version 2 of no events. It takes no memory.
    pub fn empty_digested(alloc: Global) -> Summary
        ensures { Digests [] result }
    {
        Summary {
            numbers: Numbers::empty(alloc),
            digests: Some(SourceDigests::empty(alloc)),
        }
    }

    /// The summary of version 2 of events that came, of which this one has the numbers; the blocks
    /// are those of the events. Digests that are stale are made, and not kept: `mend` the blocks
    /// before. Time and memory linear in the sources, the intervals and the blocks, but for a
    /// logarithm in the time, and those of `mend` for stale blocks.
    pub fn digested<E: Arrivals>(&self, blocks: &Blocks, events: &E) -> Result<Summary, AllocError>
        requires events { AreEvents (E.arrivals events.now) }
        requires numbers { (source : List ℕ) (n : ℕ) → holds_at self.now source n
            ≡ has_number (set_of (E.arrivals events.now)) source n }
        requires kept { IsKeptOf (E.arrivals events.now) blocks.now }
        ensures { IfOk result (Digests (set_of (E.arrivals events.now))) }
    {
        sets_are_members();
        let digests = SourceDigests::of_blocks(blocks, events)?;
        let numbers = self.numbers.copy()?;
        Ok(Summary {
            numbers,
            digests: Some(digests),
        })
    }

    /// The summary of version 2 of a set of events in key order: their numbers, and the digests of
    /// the blocks in which they stand. Time n log n in the events, and the hashing of their texts;
    /// memory for their places.
    pub fn of_events(alloc: Global, events: &Batch) -> Result<Summary, AllocError>
        requires { IsStrictlySortedBy key_cmp events.now }
        ensures digests { IfOk result (Digests events.now) }

        // Without events no memory is wanted.
        ensures err { OnErr result (events.now ≢ []) }
    {
        if events.is_empty() {
            return Ok(Summary::empty_digested(alloc));
        }
        let mut numbers = Summary::empty(alloc);
        let mut blocks = Blocks::empty(alloc);
        sets_are_members();
        text_tells_events();
        for i in 0..events.len() {
            let event = events.at(i);
            numbers.insert_str(event.event().source(), event.number())?;
            blocks.note(event, i)?;
        }
        numbers.digested(&blocks, events)
    }
}
