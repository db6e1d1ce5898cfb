//! A set as a map from the start of each interval to its end.
ghost use Rattle.std.specs.Prelude.{◌≡◌, ◌≢◌, ℕ, ◌||◌, ◌==◌, not, false, [], ◌↔◌, IsTrue, IfOk, OnOk};
ghost use Rattle.std.specs.Prelude.{OnErr, MatchOption};
ghost use Rattle.coverage.specs.Intervals.{IsCanonical, holds};
ghost use Rattle.coverage.specs.steps.Starts.{NoneUpTo, IsLastUpTo};

use super::{Interval, Intervals};
use attributes::Sequence;
use std::alloc::{AllocError, Global};
use std::collections::BTreeMap;

/// The last interval of a summary's numbers that starts at the number or before.
pub(super) fn last_up_to(starts: &BTreeMap<u64, u64>, n: u64) -> Option<Interval>
    ensures { MatchOption result (NoneUpTo starts.now.entries n)
        (IsLastUpTo starts.now.entries n) }
{
    match starts.range(..=n).next_back() {
        Some((first, last)) => Some((*first, *last)),
        None => None,
    }
}

impl Intervals {
    /// The empty set, without intervals. It takes no memory.
    pub fn empty(alloc: Global) -> Intervals
        ensures list { result ≡ [] }
        ensures members { (n : ℕ) → holds result n ≡ false }
    {
        Intervals {
            starts: BTreeMap::new(alloc),
            alloc,
        }
    }

    /// Whether the intervals hold the number. Time logarithmic in the count of intervals.
    pub fn contains(&self, number: Sequence) -> bool
        ensures { result ≡ holds self.now number }
    {
        let n = number.number();
        match last_up_to(&self.starts, n) {
            Some((_, last)) => n <= last,
            None => false,
        }
    }

    /// Adds a number, and joins the intervals that it touches. The answer is true where it is new.
    /// Time logarithmic in the count of intervals, in whatever order the numbers come; memory for
    /// one interval at most.
    pub fn insert(&mut self, number: Sequence) -> Result<bool, AllocError>
        ensures new { IfOk result (λ b. b ≡ not (holds self.old number)) }
        ensures members { OnOk result ((m : ℕ)
            → holds self.new m ≡ (holds self.old m || (m == number))) }
        ensures canonical { IsCanonical self.new }
        ensures err { OnErr result (self.new ≡ self.old) }

        // A number that is held needs no memory.
        ensures err_of_new { OnErr result (holds self.old number ≡ false) }
    {
        let n = number.number();
        let mut start = n;
        if let Some((first, last)) = last_up_to(&self.starts, n) {
            if n <= last {
                return Ok(false);
            }
            if last + 1 == n {
                start = first;
            }
        }
        let end = self.starts.get(&(n + 1)).copied().unwrap_or(n);
        self.starts.insert(start, end)?;
        self.starts.remove(&(n + 1));
        Ok(true)
    }

    /// A copy of the intervals. Time and memory linear in them.
    pub fn copy(&self) -> Result<Intervals, AllocError>
        ensures copied { IfOk result (λ r. r ≡ self.now) }
        ensures canonical { IsCanonical self.now }

        // Memory is wanted for numbers alone.
        ensures err { OnErr result (self.now ≢ []) }
    {
        if self.starts.is_empty() {
            return Ok(Intervals::empty(self.alloc));
        }
        Ok(Intervals {
            starts: self.starts.clone()?,
            alloc: self.alloc,
        })
    }

    /// Whether the intervals hold no number.
    pub fn is_empty(&self) -> bool
        ensures { IsTrue result ↔ (self.now ≡ []) }
    {
        self.starts.is_empty()
    }

    /// The set of numbers of these intervals.
    pub(crate) fn of_pairs(alloc: Global, pairs: &[Interval]) -> Result<Intervals, AllocError>
        requires { IsCanonical pairs.now }
        ensures { IfOk result (λ r. r ≡ pairs.now) }
    {
        let mut starts = BTreeMap::new(alloc);
        for interval in pairs {
            starts.insert(interval.0, interval.1)?;
        }
        Ok(Intervals { starts, alloc })
    }

    /// The intervals of a set of numbers, in a list.
    pub(super) fn pairs(&self) -> Result<Vec<Interval>, AllocError>
        ensures pairs { IfOk result (λ v. v.items ≡ self.now) }
        ensures canonical { IsCanonical self.now }
    {
        let mut pairs = Vec::with_capacity(self.alloc, self.starts.len())?;
        for (first, last) in &self.starts {
            pairs.push((*first, *last))?;
        }
        Ok(pairs)
    }
}
