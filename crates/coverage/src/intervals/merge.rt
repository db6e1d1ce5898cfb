//! Sets united, subtracted and completed: passes over their intervals from the front to the end.
ghost use Rattle.std.specs.Prelude.{◌≡◌, ◌≢◌, ℕ, ◌<◌, ◌≤◌, ◌||◌, ◌&&◌, [], false, not, nat_le, ◌⊎◌, length};
ghost use Rattle.std.specs.Prelude.{IsTrue, IfOk, OnErr, OnOk};
ghost use Rattle.coverage.specs.Intervals.{Forms, HoldsAll, IsCanonical, IsMissing, holds, in_interval};
ghost use Rattle.coverage.specs.Intervals.{interval_at, max_sequence};
ghost use Rattle.coverage.specs.steps.Starts.{StartsAtMost};

use super::{Interval, Intervals};
use std::alloc::{AllocError, Global};

/// Adds an interval that starts no earlier than those already there.
pub(super) fn append_interval(
    pairs: &mut Vec<Interval>,
    interval: Interval,
) -> Result<(), AllocError>
    requires canonical { IsCanonical pairs.old.items }
    requires from { 1 ≤ interval.0 }
    requires ordered { interval.0 ≤ interval.1 }
    requires bounded { interval.1 ≤ max_sequence }
    requires last { StartsAtMost pairs.old.items interval.0 }
    ensures canonical { OnOk result (IsCanonical pairs.new.items) }
    ensures members { OnOk result ((n : ℕ) → holds pairs.new.items n
        ≡ (holds pairs.old.items n || in_interval interval n)) }
    ensures starts { OnOk result (StartsAtMost pairs.new.items interval.0) }
{
    match pairs.pop() {
        None => pairs.push(interval)?,
        Some(last) => {
            if interval.0 <= last.1 + 1 {
                pairs.push((last.0, last.1.max(interval.1)))?;
            } else {
                pairs.push(last)?;
                pairs.push(interval)?;
            }
        }
    }
    Ok(())
}

/// Whether the next interval of two sets' lists is the first's, by its start.
fn first_is_next(xs: &[Interval], i: usize, ys: &[Interval], j: usize) -> bool
    requires first_in { i ≤ length xs.now }
    requires second_in { j ≤ length ys.now }
    requires some { (i < length xs.now) ⊎ (j < length ys.now) }
    ensures first { IsTrue result → (i < length xs.now)
        × (j < length ys.now → (interval_at xs.now i).0 ≤ (interval_at ys.now j).0) }
    ensures second { result ≡ false → (j < length ys.now)
        × (i < length xs.now → (interval_at ys.now j).0 ≤ (interval_at xs.now i).0) }
{
    if i == xs.len() {
        return false;
    }
    if j == ys.len() {
        return true;
    }
    xs[i].0 <= ys[j].0
}

/// The numbers of two lists of intervals.
fn merged(alloc: Global, xs: &[Interval], ys: &[Interval]) -> Result<Vec<Interval>, AllocError>
    requires first { IsCanonical xs.now }
    requires second { IsCanonical ys.now }
    ensures canonical { IfOk result (λ v. IsCanonical v.items) }
    ensures members { IfOk result (λ v. (n : ℕ)
        → holds v.items n ≡ (holds xs.now n || holds ys.now n)) }
{
    let mut both = Vec::new(alloc);
    let mut i = 0;
    let mut j = 0;
    while i < xs.len() || j < ys.len() {
        if first_is_next(xs, i, ys, j) {
            append_interval(&mut both, xs[i])?;
            i += 1;
        } else {
            append_interval(&mut both, ys[j])?;
            j += 1;
        }
    }
    Ok(both)
}

/// The numbers from 1 up to the top that no interval holds.
fn gaps(alloc: Global, pairs: &[Interval], top: u64) -> Result<Vec<Interval>, AllocError>
    requires canonical { IsCanonical pairs.now }
    requires bounded { top ≤ max_sequence }
    ensures canonical { IfOk result (λ v. IsCanonical v.items) }
    ensures members { IfOk result (λ v. (n : ℕ)
        → holds v.items n ≡ (nat_le 1 n && (nat_le n top && not (holds pairs.now n)))) }
{
    let mut found = Vec::new(alloc);
    let mut next = 1;
    for interval in pairs {
        if next < interval.0 && next <= top {
            append_interval(&mut found, (next, top.min(interval.0 - 1)))?;
        }
        next = interval.1 + 1;
    }
    if next <= top {
        append_interval(&mut found, (next, top))?;
    }
    Ok(found)
}

impl Intervals {
    /// The intervals of the numbers of either set. Memory linear in the intervals of both, time the
    /// same times the logarithm of their count.
    pub fn union(&self, other: &Intervals) -> Result<Intervals, AllocError>
        ensures canonical { IfOk result (λ r. IsCanonical r) }
        ensures members { IfOk result (λ r. (n : ℕ)
            → holds r n ≡ (holds self.now n || holds other.now n)) }

        // Memory is wanted where either set has a number.
        ensures err { OnErr result ((self.now ≢ []) ⊎ (other.now ≢ [])) }
    {
        if self.is_empty() && other.is_empty() {
            return Ok(Intervals::empty(self.alloc));
        }
        let own = self.pairs()?;
        let others = other.pairs()?;
        let both = merged(self.alloc, &own, &others)?;
        Intervals::of_pairs(self.alloc, &both)
    }

    /// The intervals' numbers that the other doesn't hold. Time and memory as for `union`.
    pub fn minus(&self, other: &Intervals) -> Result<Intervals, AllocError>
        ensures canonical { IfOk result (λ r. IsCanonical r) }
        ensures members { IfOk result (λ r. (n : ℕ)
            → holds r n ≡ (holds self.now n && not (holds other.now n))) }

        // Memory is wanted where a number is left.
        ensures err { OnErr result (¬ HoldsAll other.now self.now) }
    {
        if other.covers(self) {
            return Ok(Intervals::empty(self.alloc));
        }
        let Some(top) = self.greatest() else {
            return Ok(Intervals::empty(self.alloc));
        };
        let own = self.pairs()?;
        let others = other.pairs()?;
        let outside = gaps(self.alloc, &own, top)?;
        let taken = merged(self.alloc, &outside, &others)?;
        let left = gaps(self.alloc, &taken, top)?;
        Intervals::of_pairs(self.alloc, &left)
    }

    /// The numbers from 1 on that the intervals don't hold, up to the greatest that they do. Time
    /// and memory as for `union`.
    pub fn missing(&self) -> Result<Intervals, AllocError>
        ensures missing { IfOk result (λ r. Forms r (IsMissing self.now)) }

        // Memory is wanted where a number is missing.
        ensures err { OnErr result ((n : ℕ) × IsMissing self.now n) }
    {
        let Some(top) = self.greatest() else {
            return Ok(Intervals::empty(self.alloc));
        };
        if self.holds_span(1, top) {
            return Ok(Intervals::empty(self.alloc));
        }
        let own = self.pairs()?;
        let missing = gaps(self.alloc, &own, top)?;
        Intervals::of_pairs(self.alloc, &missing)
    }
}
