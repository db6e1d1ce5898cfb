//! The digests of blocks of sources' numbers.
ghost use Rattle.std.specs.Prelude.{◌≡◌, ◌≢◌, ◌↔◌, ◌++◌, ℕ, List, [], IfOk, OnErr, OnOk, IsTrue, option_copied};
ghost use Rattle.inbox.specs.Sets.{AreEvents};
ghost use Rattle.block_digests.specs.Kept.{IsKeptOf};
ghost use Rattle.coverage.specs.BlockDigests.{block_digest, blocks_of};
ghost use Rattle.coverage.specs.steps.Blocks.{AreDigestsIn};
ghost use Rattle.coverage.specs.steps.Tokens.{blocks_tokens, digest_tokens, digests_tokens};

mod join;
pub(crate) mod read;

use block_digests::{Arrivals, Blocks};
use json::Writer;
use std::alloc::{AllocError, Global};
use std::collections::BTreeMap;
use std::marker::Model;

/// Sources in byte order, each with the SHA-256 of the texts of its blocks by their numbers.
#[derive(Debug, Drop)]
pub struct SourceDigests {
    sources: BTreeMap<String, BTreeMap<u64, [u8; 32]>>,
    alloc: Global,
}

impl Model for SourceDigests {
    ghost use Rattle.coverage.specs.BlockDigests.{SourceBlocks};
    ghost use Rattle.coverage.specs.steps.Blocks.{blocks_in};

    ghost Value = { SourceBlocks };

    ghost view = { λ s. blocks_in s.sources.entries };
}

/// A copy of the digests of a source's blocks in a summary.
fn copy_blocks(
    alloc: Global,
    blocks: &BTreeMap<u64, [u8; 32]>,
) -> Result<BTreeMap<u64, [u8; 32]>, AllocError>
    ensures { IfOk result (λ r. r.entries ≡ blocks.now.entries) }
{
    let mut own = BTreeMap::new(alloc);
    for (k, digest) in blocks {
        own.insert(*k, *digest)?;
    }
    Ok(own)
}

/// Writes a source's blocks in a summary, each as an array of its number and its digest.
fn write_blocks(
    alloc: Global,
    out: &mut Writer,
    blocks: &BTreeMap<u64, [u8; 32]>,
) -> Result<(), AllocError>
    ensures before { OnOk result (out.new.before ≡ out.old.before) }
    ensures tokens { OnOk result (out.new.tokens
        ≡ out.old.tokens ++ blocks_tokens blocks.now.entries) }
{
    for (k, digest) in blocks {
        let text = hex::encode(alloc, *digest)?;
        out.begin_array()?;
        out.u64(*k)?;
        out.string(text.as_str())?;
        out.end_array()?;
    }
    Ok(())
}

/// Writes a source of a summary's text, and then its blocks.
fn write_source(
    alloc: Global,
    out: &mut Writer,
    source: &str,
    blocks: &BTreeMap<u64, [u8; 32]>,
) -> Result<(), AllocError>
    ensures before { OnOk result (out.new.before ≡ out.old.before) }
    ensures tokens { OnOk result (out.new.tokens
        ≡ out.old.tokens ++ digest_tokens (source.now, blocks.now.entries)) }
{
    out.key(source)?;
    out.begin_array()?;
    write_blocks(alloc, out, blocks)?;
    out.end_array()?;
    Ok(())
}

impl SourceDigests {
    /// The summary's digests of the blocks of events that came; those that are stale are made, and
    /// not kept. Time and memory linear in the sources and the blocks, but for a logarithm in the
    /// time, and those of `mend` for stale blocks.
    pub fn of_blocks<E: Arrivals>(blocks: &Blocks, events: &E) -> Result<SourceDigests, AllocError>
        ensures { AreEvents (E.arrivals events.now)
            → IsKeptOf (E.arrivals events.now) blocks.now
            → IfOk result (AreDigestsIn (E.arrivals events.now)) }
    {
        Ok(SourceDigests {
            sources: blocks.digests(events)?,
            alloc: blocks.allocator(),
        })
    }

    /// Writes each source of a summary with an array of its blocks, without an object around them.
    /// Time and memory linear in the sources and the blocks.
    pub fn write(&self, out: &mut Writer) -> Result<(), AllocError>
        ensures before { OnOk result (out.new.before ≡ out.old.before) }
        ensures tokens { OnOk result (out.new.tokens
            ≡ out.old.tokens ++ digests_tokens self.now) }
    {
        for (source, digests) in &self.sources {
            write_source(self.alloc, out, source.as_str(), digests)?;
        }
        Ok(())
    }

    /// The summary's digest of a block of a source, where it has one. Time logarithmic in the
    /// sources and in the blocks of the source.
    pub fn digest_of(&self, source: &str, k: u64) -> Option<&[u8; 32]>
        ensures { option_copied result ≡ block_digest (blocks_of self.now source.now) k }
    {
        match self.sources.get(source) {
            Some(digests) => digests.get(&k),
            None => None,
        }
    }

    /// A copy of the summary's digests. Time and memory linear in the sources and the blocks, but
    /// for a logarithm in the time.
    pub fn copy(&self) -> Result<SourceDigests, AllocError>
        ensures copied { IfOk result (λ r. r ≡ self.now) }
        ensures err { OnErr result (self.now ≢ []) }
    {
        if self.sources.is_empty() {
            return Ok(SourceDigests::empty(self.alloc));
        }
        let mut sources = BTreeMap::new(self.alloc);
        for (source, digests) in &self.sources {
            let key = String::from_str(self.alloc, source.as_str())?;
            sources.insert(key, copy_blocks(self.alloc, digests)?)?;
        }
        Ok(SourceDigests {
            sources,
            alloc: self.alloc,
        })
    }

    /// Whether both summaries have the same blocks of the same sources, with the same digests. Time
    /// linear in the sources and the blocks.
    pub fn same(&self, other: &SourceDigests) -> bool
        ensures { IsTrue result ↔ (self.now ≡ other.now) }
    {
        self.sources == other.sources
    }
}
