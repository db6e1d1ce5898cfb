//! In how many blocks two summaries differ.

ghost use Rattle.std.specs.Prelude.{◌≡◌, ◌≤◌, ◌<◌, ◌-◌, filter, length, option_copied, IfOk, IsTrue};
ghost use Rattle.block_digests.specs.Digest.{is_one_digest};
ghost use Rattle.coverage.specs.Digests.{block_digest_at};
ghost use Rattle.coverage.specs.Summary.{entries_of, version_of};
ghost use Rattle.lag.specs.Blocks.{apart, apart_in, apart_of, differing, is_apart, span};

use coverage::{Intervals, Summary};
use std::alloc::AllocError;

/// Whether a block's digests in both summaries, of which the distance is told, are there and equal.
fn is_one_digest(digest: Option<&[u8; 32]>, other: Option<&[u8; 32]>) -> bool
    ensures { result ≡ is_one_digest (option_copied digest.entry) (option_copied other.entry) }
{
    match (digest, other) {
        (Some(digest), Some(other)) => digest == other,
        _ => false,
    }
}

/// Whether a block of the first summary counts as apart: where it is alone, one that the second has
/// no digest of, and else one of which the second hasn't the same.
fn is_apart(first: &Summary, second: &Summary, alone: bool, source: &str, block: u64) -> bool
    ensures { result ≡ is_apart first.now second.now alone source.now block }
{
    if alone {
        return second.digest_of(source, block).is_none();
    }
    !is_one_digest(
        first.digest_of(source, block),
        second.digest_of(source, block),
    )
}

/// How many blocks of two summaries count as apart from one on and below another.
fn apart_in(first: &Summary, second: &Summary, alone: bool, source: &str, from: u64, to: u64) -> u64
    ensures count { result ≡ apart_in first.now second.now alone source.now (span from (to - from)) }
{
    let mut count = 0u64;
    for block in from..to {
        if is_apart(first, second, alone, source, block) {
            count += 1;
        }
    }
    count
}

/// How many blocks of a source count as apart, of which the first summary has these numbers.
fn apart_of(
    first: &Summary,
    second: &Summary,
    alone: bool,
    source: &str,
    numbers: &Intervals,
) -> u64
    ensures { result < u64.MAX
        → result ≡ apart_of first.now second.now alone source.now numbers.now }
{
    let mut count = 0u64;
    let mut from = 0u64;
    let mut block = 0u64;
    for i in 0..numbers.size() {
        let Some((low, high)) = numbers.next_span(from) else {
            return count;
        };
        let to = high / 1024 + 1;
        let more = apart_in(first, second, alone, source, block.max(low / 1024), to);
        count = count.saturating_add(more);
        block = block.max(to);
        from = high + 1;
    }
    count
}

/// How many blocks of the first summary count as apart; the greatest number where they are more.
fn apart(first: &Summary, second: &Summary, alone: bool) -> Result<u64, AllocError>
    ensures { IfOk result (λ n. n < u64.MAX
        → n ≡ apart first.now second.now alone (entries_of first.now)) }
{
    let entries = first.entries()?;
    let mut count = 0u64;
    for i in 0..entries.len() {
        let (source, numbers) = entries[i];
        count = count.saturating_add(apart_of(first, second, alone, source, numbers));
    }
    Ok(count)
}

/// How many blocks differ, or are on one side alone, of two summaries of version 2; 0 where one is of
/// version 1, which tells of no block. The greatest number where they are more. Time in proportion to
/// the sources, intervals and blocks of both, and a logarithm for each block.
pub fn differing(own: &Summary, peer: &Summary) -> Result<u64, AllocError>
    ensures untold { version_of own.now ≡ 1 → IfOk result (λ n. n ≡ 0) }
    ensures untold_of_peer { version_of peer.now ≡ 1 → IfOk result (λ n. n ≡ 0) }
    ensures count { version_of own.now ≡ 2 → version_of peer.now ≡ 2
        → IfOk result (λ n. n < u64.MAX → n ≡ differing own.now peer.now) }
{
    if own.version() == 1 || peer.version() == 1 {
        return Ok(0);
    }
    let ours = apart(own, peer, false)?;
    Ok(ours.saturating_add(apart(peer, own, true)?))
}
