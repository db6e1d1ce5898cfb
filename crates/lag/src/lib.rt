//! How far apart two sites are, by their summaries.
#![tactic(auto)]

mod blocks;

ghost use Rattle.std.specs.Prelude.{◌≡◌, ◌<◌, IfOk};
ghost use Rattle.coverage.specs.Summary.{entries_of, numbers_of};
ghost use Rattle.lag.specs.Lacking.{Lacks, LacksOf};

pub use blocks::differing;
use coverage::{Intervals, Summary};
use std::alloc::AllocError;

/// How far a summary lags at a source: how many of these numbers of it the summary lacks.
fn lacked(own: &Summary, source: &str, numbers: &Intervals) -> Result<u64, AllocError>
    ensures { IfOk result (λ n. LacksOf (numbers_of own.now source.now) numbers.now n) }
{
    match own.of_source(source) {
        Some(held) => Ok(numbers.minus(held)?.size()),
        None => Ok(numbers.size()),
    }
}

/// How far the first summary lags: how many of the second's numbers it lacks, over all sources; the
/// greatest number if more. Time and memory in proportion to sources and intervals of both.
pub fn lacking(own: &Summary, peer: &Summary) -> Result<u64, AllocError>
    ensures { IfOk result (λ n. n < u64.MAX → Lacks own.now (entries_of peer.now) n) }
{
    let entries = peer.entries()?;
    let mut count = 0u64;
    for i in 0..entries.len() {
        let (source, numbers) = entries[i];
        count = count.saturating_add(lacked(own, source, numbers)?);
    }
    Ok(count)
}
