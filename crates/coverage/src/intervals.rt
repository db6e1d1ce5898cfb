//! Sets of sequence numbers.

mod blocks;
mod look;
mod map;
mod merge;
mod write;

use std::alloc::Global;
use std::collections::BTreeMap;
use std::marker::Model;

/// The first and the last number of an interval.
pub type Interval = (u64, u64);

/// A set of sequence numbers, kept as its intervals: ascending, disjoint and not adjacent.
#[derive(Debug, Drop)]
pub struct Intervals {
    starts: BTreeMap<u64, u64>,
    alloc: Global,
}

impl Model for Intervals {
    ghost use Rattle.std.specs.Prelude.{List};
    ghost use Rattle.coverage.specs.Intervals.{Interval, IsCanonical};

    ghost Value = { List Interval };

    ghost view = { λ s. s.starts.entries };

    ghost invariant = { λ s. IsCanonical s.starts.entries };
}
