//! Which sequence numbers of which sources have been seen.

mod blocks;
mod compare;
mod entries;
mod join;
pub(crate) mod read;
pub(crate) mod shape;
mod union;
mod write;

use crate::intervals::Intervals;
use std::alloc::Global;
use std::collections::BTreeMap;
use std::marker::Model;

/// Sources in byte order, each with the set of its numbers that have been seen, of which there is
/// at least one.
#[derive(Debug, Drop)]
pub struct Numbers {
    entries: BTreeMap<String, Intervals>,
    alloc: Global,
}

impl Model for Numbers {
    ghost use Rattle.coverage.specs.Numbers.{Entries, AreListed};
    ghost use Rattle.coverage.specs.steps.Entries.{sources_in};

    ghost Value = { Entries };

    ghost view = { λ s. sources_in s.entries.entries };

    ghost invariant = { λ s. AreListed (sources_in s.entries.entries) };
}
