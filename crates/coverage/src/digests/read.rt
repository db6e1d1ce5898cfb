//! Digests of blocks, read from their JSON.
ghost use Rattle.std.specs.Prelude.{◌≡◌, ◌≤◌, ◌+◌, ◌↔◌, ℕ, List, [], true, is_some, IsTrue, IfOk, IfSome, IsSomeAnd, MatchOption, OnOk};
ghost use Rattle.std.specs.BTreeMap.{insert_entry};
ghost use Rattle.hex.specs.Hex.{encode_lower};
ghost use Rattle.serde_json.specs.Data.{array};
ghost use Rattle.serde_json.specs.View.{view, items_view};
ghost use Rattle.attributes.specs.Bytes.{byte_cmp};
ghost use Rattle.coverage.specs.BlockDigests.{Blocks, IsDigest, block_digest};
ghost use Rattle.coverage.specs.DigestsText.{blocks_items};
ghost use Rattle.coverage.specs.Intervals.{IsCanonical, holds, max_sequence};
ghost use Rattle.coverage.specs.steps.Fits.{AreAscending, AreJust, Fits};

use super::SourceDigests;
use crate::intervals::Intervals;
use crate::numbers::shape::block_in;
use attributes::{MAX_SEQUENCE, Sequence};
use hex::FromHex;
use serde_json::Value;
use std::alloc::{AllocError, Global};
use std::collections::BTreeMap;

/// The digest in a summary's text, in hexadecimal digits of either case.
fn read_digest(text: &str) -> Option<[u8; 32]>
    ensures { MatchOption result ((d : List ℕ) → IsDigest d → text.now ≡ encode_lower d → ⊥)
        (λ r. IsDigest r × ((d : List ℕ) → IsDigest d → text.now ≡ encode_lower d → r ≡ d)) }
{
    match <[u8; 32] as FromHex>::from_hex(text) {
        Ok(digest) => Some(digest),
        Err(_) => None,
    }
}

/// The digests of blocks of which these are a summary's JSON, where they are that of any.
fn read_list(alloc: Global, list: &[Value]) -> Result<Option<BTreeMap<u64, [u8; 32]>>, AllocError>
    ensures ascending { IfOk result (λ o. IfSome o (λ m. AreAscending m.entries)) }
    ensures complete { IfOk result (λ o. (bs : Blocks) → AreAscending bs
        → items_view list.now ≡ blocks_items bs → IsSomeAnd o (λ m. m.entries ≡ bs)) }
{
    let mut blocks = BTreeMap::new(alloc);
    for item in list {
        let Some((k, text)) = block_in(item) else {
            return Ok(None);
        };
        let Some(digest) = read_digest(text) else {
            return Ok(None);
        };
        blocks.insert(k, digest)?;
    }
    Ok(Some(blocks))
}

/// The number that stands for a block in a summary's set of blocks, where there is one.
fn place_of(k: u64) -> Option<Sequence>
    ensures { MatchOption result (max_sequence ≤ k) (λ n. n ≡ k + 1) }
{
    if k >= MAX_SEQUENCE {
        return None;
    }
    Sequence::of_u64(k + 1)
}

/// A summary's blocks, as a set that holds k + 1 for block k; none where one is past the last.
fn numbers_of_blocks(
    alloc: Global,
    blocks: &BTreeMap<u64, [u8; 32]>,
) -> Result<Option<Intervals>, AllocError>
    ensures { IfOk result (λ o. MatchOption o
        ((k : ℕ) × ((max_sequence ≤ k) × (is_some (block_digest blocks.now.entries k) ≡ true)))
        (λ i. IsCanonical i × ((k : ℕ)
        → holds i (k + 1) ≡ is_some (block_digest blocks.now.entries k)))) }
{
    let mut found = Intervals::empty(alloc);
    for (k, _) in blocks {
        let Some(place) = place_of(*k) else {
            return Ok(None);
        };
        found.insert(place)?;
    }
    Ok(Some(found))
}

/// Whether a summary has a digest of just the blocks of which some number is held. Time and memory
/// go by the digests and the intervals that are there, not by the blocks that these span.
fn are_just(
    alloc: Global,
    blocks: &BTreeMap<u64, [u8; 32]>,
    numbers: &Intervals,
) -> Result<bool, AllocError>
    ensures { IfOk result (λ b. IsTrue b ↔ AreJust numbers.now blocks.now.entries) }
{
    let due = numbers.blocks()?;
    match numbers_of_blocks(alloc, blocks)? {
        Some(found) => Ok(due.same(&found)),
        None => Ok(false),
    }
}

/// The summary's digests of just the blocks of the numbers, of which this is the JSON, where it is
/// that of any.
pub(crate) fn read_blocks(
    alloc: Global,
    value: &Value,
    numbers: &Intervals,
) -> Result<Option<BTreeMap<u64, [u8; 32]>>, AllocError>
    ensures fit { IfOk result (λ o. IfSome o (λ m. Fits numbers.now m.entries)) }
    ensures complete { IfOk result (λ o. (bs : Blocks) → Fits numbers.now bs
        → view value.now ≡ array (blocks_items bs) → IsSomeAnd o (λ m. m.entries ≡ bs)) }
{
    let Some(list) = value.as_array() else {
        return Ok(None);
    };
    let Some(blocks) = read_list(alloc, list)? else {
        return Ok(None);
    };
    if !are_just(alloc, &blocks, numbers)? {
        return Ok(None);
    }
    Ok(Some(blocks))
}

impl SourceDigests {
    /// The digests of a summary that has none. They take no memory.
    pub(crate) fn empty(alloc: Global) -> SourceDigests
        ensures { result ≡ [] }
    {
        SourceDigests {
            sources: BTreeMap::new(alloc),
            alloc,
        }
    }

    /// Sets the summary's digests of a source. Time logarithmic in the sources.
    pub(crate) fn put(
        &mut self,
        source: &str,
        blocks: BTreeMap<u64, [u8; 32]>,
    ) -> Result<(), AllocError>
        ensures { OnOk result
            (self.new ≡ insert_entry byte_cmp self.old source.now blocks.entries) }
    {
        let key = String::from_str(self.alloc, source)?;
        self.sources.insert(key, blocks)?;
        Ok(())
    }
}
