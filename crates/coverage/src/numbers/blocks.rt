//! The digests of a summary's blocks, read from their JSON.
ghost use Rattle.std.specs.Prelude.{◌≡◌, IfOk, IfSome, IsSomeAnd};
ghost use Rattle.serde_json.specs.Data.{object};
ghost use Rattle.serde_json.specs.View.{view};
ghost use Rattle.coverage.specs.BlockDigests.{AreDigests, SourceBlocks};
ghost use Rattle.coverage.specs.DigestsText.{blocks_members};
ghost use Rattle.coverage.specs.Numbers.{AreListed};

use super::Numbers;
use crate::digests::SourceDigests;
use crate::digests::read::read_blocks;
use serde_json::Value;
use std::alloc::AllocError;

impl Numbers {
    /// The summary's digests of just the blocks of these numbers, of which the value is the JSON,
    /// where it is that of any. Time and memory linear in the value and the intervals, but for a
    /// logarithm in the time.
    pub(super) fn read_digests(&self, blocks: &Value) -> Result<Option<SourceDigests>, AllocError>
        ensures exact { IfOk result (λ o. IfSome o (λ d. AreDigests self.now d)) }
        ensures complete { IfOk result (λ o. (ds : SourceBlocks) → AreDigests self.now ds
            → view blocks.now ≡ object (blocks_members ds) → IsSomeAnd o (λ d. d ≡ ds)) }
        ensures listed { AreListed self.now }
    {
        let mut digests = SourceDigests::empty(self.alloc);
        for (source, numbers) in &self.entries {
            let Some(list) = blocks.get(source.as_str()) else {
                return Ok(None);
            };
            let Some(own) = read_blocks(self.alloc, list, numbers)? else {
                return Ok(None);
            };
            digests.put(source.as_str(), own)?;
        }
        Ok(Some(digests))
    }
}
