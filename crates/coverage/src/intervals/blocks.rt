//! The blocks that the numbers of a set stand in.
ghost use Rattle.std.specs.Prelude.{◌≡◌, ◌≤◌, ◌<◌, ◌+◌, ◌↔◌, ℕ, true, false, IsTrue, IfOk, MatchOption};
ghost use Rattle.block_digests.specs.Block.{block_of};
ghost use Rattle.coverage.specs.Intervals.{IsCanonical, holds};
ghost use Rattle.coverage.specs.steps.Spans.{IsRunFrom, NoneFrom};
ghost use Rattle.coverage.specs.steps.Fits.{HoldsIn};

use super::map::last_up_to;
use super::merge::append_interval;
use super::{Interval, Intervals};
use std::alloc::{AllocError, Global};

/// The blocks of which the intervals hold a number, as intervals that hold k + 1 for block k.
fn block_intervals(alloc: Global, pairs: &[Interval]) -> Result<Vec<Interval>, AllocError>
    requires { IsCanonical pairs.now }
    ensures canonical { IfOk result (λ v. IsCanonical v.items) }
    ensures members { IfOk result (λ v. (k : ℕ)
        → IsTrue (holds v.items (k + 1)) ↔ HoldsIn pairs.now k) }
{
    let mut found = Vec::new(alloc);
    for interval in pairs {
        append_interval(&mut found, (interval.0 / 1024 + 1, interval.1 / 1024 + 1))?;
    }
    Ok(found)
}

impl Intervals {
    /// The blocks of which some number is held, as a set that holds k + 1 for block k. Time and
    /// memory linear in the intervals, however many blocks they span.
    pub(crate) fn blocks(&self) -> Result<Intervals, AllocError>
        ensures canonical { IfOk result (λ r. IsCanonical r) }
        ensures members { IfOk result (λ r. (k : ℕ)
            → IsTrue (holds r (k + 1)) ↔ HoldsIn self.now k) }
        ensures own { IsCanonical self.now }
    {
        let own = self.pairs()?;
        let found = block_intervals(self.alloc, &own)?;
        Intervals::of_pairs(self.alloc, &found)
    }

    /// Whether the intervals hold every number from the first to the last.
    pub(super) fn holds_span(&self, first: u64, last: u64) -> bool
        ensures all { IsTrue result
            → (n : ℕ) → first ≤ n → n ≤ last → holds self.now n ≡ true }
        ensures lacks { result ≡ false → first ≤ last
            → (n : ℕ) × (first ≤ n) × (n ≤ last) × (holds self.now n ≡ false) }
    {
        match last_up_to(&self.starts, first) {
            Some((_, end)) => last <= end,
            None => false,
        }
    }

    /// The first numbers from one on that the intervals hold in a row, where there are any.
    fn run_from(&self, from: u64) -> Option<Interval>
        ensures { MatchOption result (NoneFrom self.now from) (IsRunFrom self.now from) }
    {
        match last_up_to(&self.starts, from) {
            Some((_, last)) if from <= last => Some((from, last)),
            _ => self.next_span(from),
        }
    }

    /// Whether the intervals hold every number of a block that the other set holds; where not, the
    /// answer may be false. Time goes by the other's intervals in the block, times a logarithm.
    pub(crate) fn covers_block(&self, other: &Intervals, k: u64) -> bool
        requires { k ≤ 9007199254740991 }
        ensures { IsTrue result → (n : ℕ) → block_of n ≡ k
            → holds other.now n ≡ true → holds self.now n ≡ true }
    {
        let end = 1024 * k + 1024;
        let mut from = 1024 * k;
        while from < end {
            let Some((first, last)) = other.run_from(from) else {
                return true;
            };
            if first >= end {
                return true;
            }
            let last = last.min(end - 1);
            if !self.holds_span(first, last) {
                return false;
            }
            from = last + 1;
        }
        true
    }
}
