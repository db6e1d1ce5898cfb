//! The summary of a whole whose parts have summaries of their own.
ghost use Rattle.std.specs.Prelude.{◌≡◌, ◌≢◌, ◌⊎◌, ℕ, List, [], IfOk, OnErr};
ghost use Rattle.coverage.specs.Digests.{block_digest_at};
ghost use Rattle.coverage.specs.Join.{chosen, joined_version};
ghost use Rattle.coverage.specs.Summary.{IsSummary, entries_of, numbers_of, version_of};

use super::Summary;
use std::alloc::AllocError;

impl Summary {
    /// What both tell, each source whole: its numbers and its blocks are the own ones where it
    /// stands in this summary, and else the other's. Of version 2 where both are. Time and memory
    /// linear in the sources, the intervals and the blocks of both, but for a logarithm in the
    /// time.
    pub fn join(&self, other: &Summary) -> Result<Summary, AllocError>
        ensures summary { IfOk result (λ r. IsSummary r) }
        ensures numbers { IfOk result (λ r. (s : List ℕ)
            → numbers_of r s
            ≡ chosen (numbers_of self.now s) (numbers_of self.now s) (numbers_of other.now s)) }
        ensures version { IfOk result (λ r.
            version_of r ≡ joined_version (version_of self.now) (version_of other.now)) }
        ensures digests { version_of self.now ≡ 2 → version_of other.now ≡ 2
            → IfOk result (λ r. (s : List ℕ) (k : ℕ)
            → block_digest_at r s k
            ≡ chosen (numbers_of self.now s) (block_digest_at self.now s k) (block_digest_at other.now s k)) }

        // Memory is wanted where either has a source.
        ensures err { OnErr result ((entries_of self.now ≢ []) ⊎ (entries_of other.now ≢ [])) }
    {
        let numbers = self.numbers.join(&other.numbers)?;
        let digests = match (&self.digests, &other.digests) {
            (Some(own), Some(others)) => Some(own.join(others)?),
            _ => None,
        };
        Ok(Summary { numbers, digests })
    }
}
