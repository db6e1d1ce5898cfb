//! The numbers of two summaries, each source whole from one of them.
ghost use Rattle.std.specs.Prelude.{◌≡◌, ◌≢◌, ◌⊎◌, List, [], is_some, IfOk, OnErr};
ghost use Rattle.std.specs.BTreeMap.{is_at};
ghost use Rattle.std.specs.Map.{lookup};
ghost use Rattle.coverage.specs.Numbers.{AreListed, byte_cmp};
ghost use Rattle.coverage.specs.steps.Joins.{IsJoinOf};

use super::Numbers;
use std::alloc::AllocError;

impl Numbers {
    /// What both summaries tell, each source whole: the own numbers where it stands here, and else
    /// the other's. Time and memory linear in the sources and the intervals of both, but for a
    /// logarithm in the time.
    pub fn join(&self, other: &Numbers) -> Result<Numbers, AllocError>
        ensures summary { IfOk result (λ r. AreListed r) }
        ensures own { AreListed self.now }
        ensures joined { IfOk result (λ r. IsJoinOf r self.now other.now) }
        ensures err { OnErr result ((self.now ≢ []) ⊎ (other.now ≢ [])) }
    {
        if self.entries.is_empty() && other.entries.is_empty() {
            return Ok(Numbers::empty(self.alloc));
        }
        let mut both = self.copy()?;
        for (source, numbers) in &other.entries {
            let text = source.as_str();
            if !both.has(text) {
                both.put(text, numbers.copy()?)?;
            }
        }
        Ok(both)
    }

    /// Whether the summary has numbers of the source. Time logarithmic in the sources.
    fn has(&self, source: &str) -> bool
        ensures { result ≡ is_some (lookup (is_at (byte_cmp source.now)) self.now) }
    {
        self.entries.contains_key(source)
    }
}
