//! The digests of two summaries, each source whole from one of them.
ghost use Rattle.std.specs.Prelude.{◌≡◌, ◌≢◌, ◌⊎◌, [], is_some, IfOk, OnErr};
ghost use Rattle.std.specs.BTreeMap.{is_at};
ghost use Rattle.std.specs.List.Sorted.{IsStrictlySortedBy};
ghost use Rattle.std.specs.Map.{keys_of, lookup};
ghost use Rattle.attributes.specs.Bytes.{byte_cmp};
ghost use Rattle.coverage.specs.steps.Joins.{IsJoinOf};

use super::{SourceDigests, copy_blocks};
use std::alloc::AllocError;

impl SourceDigests {
    /// What both summaries' digests tell, each source whole: the own blocks where it stands here,
    /// and else the other's. Time and memory linear in the sources and the blocks of both, but for
    /// a logarithm in the time.
    pub fn join(&self, other: &SourceDigests) -> Result<SourceDigests, AllocError>
        ensures joined { IfOk result (λ r. IsJoinOf r self.now other.now) }
        ensures order { IsStrictlySortedBy byte_cmp (keys_of self.now)
            → IfOk result (λ r. IsStrictlySortedBy byte_cmp (keys_of r)) }
        ensures err { OnErr result ((self.now ≢ []) ⊎ (other.now ≢ [])) }
    {
        if self.sources.is_empty() && other.sources.is_empty() {
            return Ok(SourceDigests::empty(self.alloc));
        }
        let mut both = self.copy()?;
        for (source, digests) in &other.sources {
            let text = source.as_str();
            if !both.has(text) {
                both.put(text, copy_blocks(self.alloc, digests)?)?;
            }
        }
        Ok(both)
    }

    /// Whether the summary has digests of the source. Time logarithmic in the sources.
    fn has(&self, source: &str) -> bool
        ensures { result ≡ is_some (lookup (is_at (byte_cmp source.now)) self.now) }
    {
        self.sources.contains_key(source)
    }
}
