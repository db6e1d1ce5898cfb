//! What a set is asked.
ghost use Rattle.std.specs.Prelude.{◌≡◌, ◌≤◌, ◌↔◌, ℕ, [], IsTrue, IfSome, MatchOption};
ghost use Rattle.coverage.specs.Intervals.{AllStartBefore, HoldsAll, IsCanonical, IsGreatest};
ghost use Rattle.coverage.specs.Intervals.{IsNextSpan, holds, max_sequence, size_of};

use super::map::last_up_to;
use super::{Interval, Intervals};

impl Intervals {
    /// The greatest number that the intervals hold. Time logarithmic in the count of intervals.
    pub fn greatest(&self) -> Option<u64>
        ensures value { MatchOption result (self.now ≡ []) (IsGreatest self.now) }
        ensures bounded { IfSome result (λ g. g ≤ max_sequence) }
    {
        match self.starts.last_key_value() {
            Some((_, last)) => Some(*last),
            None => None,
        }
    }

    /// How many numbers the intervals hold. Time linear in the intervals.
    pub fn size(&self) -> u64
        ensures size { result ≡ size_of self.now }
        ensures canonical { IsCanonical self.now }
    {
        let mut size = 0;
        for (first, last) in &self.starts {
            size += *last - *first + 1;
        }
        size
    }

    /// The first interval that starts at the number or later. Time logarithmic in the count of
    /// intervals.
    pub fn next_span(&self, from: u64) -> Option<Interval>
        ensures { MatchOption result (AllStartBefore self.now from) (IsNextSpan self.now from) }
    {
        match self.starts.range(from..).next() {
            Some((first, last)) => Some((*first, *last)),
            None => None,
        }
    }

    /// Whether both sets of intervals hold the same numbers. Time linear in the intervals.
    pub fn same(&self, other: &Intervals) -> bool
        ensures equal { IsTrue result ↔ (self.now ≡ other.now) }
        ensures numbers { IsTrue result ↔ ((n : ℕ) → holds self.now n ≡ holds other.now n) }
    {
        self.starts == other.starts
    }

    /// Whether the intervals hold every number of the other set. Time linear in the intervals of
    /// the other, times the logarithm of the own ones.
    pub(crate) fn covers(&self, other: &Intervals) -> bool
        ensures { IsTrue result ↔ HoldsAll self.now other.now }
    {
        for (first, last) in &other.starts {
            let Some((_, end)) = last_up_to(&self.starts, *first) else {
                return false;
            };
            if end < *last {
                return false;
            }
        }
        true
    }
}
