//! Blocks of a source's numbers, and their digests.

ghost use Rattle.std.specs.Prelude.{◌≡◌, IfOk, OnErr, map, true};
ghost use Rattle.sha2.specs.Sha256.{sha256};
ghost use Rattle.block_digests.specs.Block as spec;
ghost use Rattle.block_digests.specs.Digest.{digest_in};
ghost use Rattle.block_digests.specs.steps.Rows.{joined, numbered_texts_of};

use attributes::{Batch, Sequence, Sequenced};
use sha2::{Digest, Sha256};
use std::alloc::{AllocError, Global};
use std::collections::BTreeSet;

/// The block that a number stands in: block k has the numbers from 1024 k to 1024 k + 1023. So
/// there are blocks from 0 to 9,007,199,254,740,991.
pub fn block_of(number: Sequence) -> u64
    ensures { result ≡ spec.block_of number }
{
    number.number() / 1024
}

/// Whether an event has the block's source, and a number of the block.
fn is_in_block(event: &Sequenced, source: &str, k: u64) -> bool
    ensures { result ≡ spec.is_in_block source.now k event.now }
{
    event.event().source() == source && block_of(event.number()) == k
}

/// Whether one of the events stands in the block of a source.
fn has_block(events: &Batch, source: &str, k: u64) -> bool
    ensures { result ≡ spec.has_block events.now source.now k }
{
    for i in 0..events.len() {
        if is_in_block(events.at(i), source, k) {
            return true;
        }
    }
    false
}

/// The numbers and texts of the events of a block of a source, in order, each once.
fn rows<'a>(
    alloc: Global,
    events: &'a Batch,
    source: &str,
    k: u64,
) -> Result<BTreeSet<(u64, &'a str)>, AllocError>
    ensures { IfOk result (λ set.
        map (λ r. (r.0, r.1.now)) set.keys ≡ numbered_texts_of events.now source.now k) }
{
    let mut set = BTreeSet::new(alloc);
    for i in 0..events.len() {
        let event = events.at(i);
        if is_in_block(event, source, k) {
            set.insert((event.number().number(), event.event().text()))?;
        }
    }
    Ok(set)
}

/// A block's digest: SHA-256 of the texts of rows, each followed by a line feed. Takes no memory.
pub(crate) fn digest_of_rows(rows: &BTreeSet<(u64, &str)>) -> [u8; 32]
    ensures { result ≡ sha256 (joined (map (λ r. (r.0, r.1.now)) rows.now.keys)) }
{
    let mut hasher = Sha256::new();
    for row in rows {
        hasher.update(row.1);
        hasher.update("\n");
    }
    hasher.finalize()
}

/// The digest of a block of a set of events, of which the batch has the events in any order and
/// with repeats; none where no event of it stands in the block, and no memory is wanted then.
///
/// The SHA-256 (FIPS 180-4) of their canonical texts by number and then text, each followed by a
/// line feed. Costs a look at each event of the batch, a sort of those of the block with memory for
/// their places, and the hashing of their texts, which are read where they are.
pub fn digest_of_block(
    alloc: Global,
    events: &Batch,
    source: &str,
    k: u64,
) -> Result<Option<[u8; 32]>, AllocError>
    ensures ok { IfOk result (λ digest. digest ≡ digest_in events.now source.now k) }
    ensures err { OnErr result (spec.has_block events.now source.now k ≡ true) }
{
    if !has_block(events, source, k) {
        return Ok(None);
    }
    let rows = rows(alloc, events, source, k)?;
    Ok(Some(digest_of_rows(&rows)))
}
