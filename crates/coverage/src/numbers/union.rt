//! The union of two summaries.
ghost use Rattle.std.specs.Prelude.{◌≡◌, ◌≢◌, ◌⊎◌, ℕ, ◌||◌, ◌&&◌, List, [], bytes_eq, IfOk, OnErr, OnOk};
ghost use Rattle.coverage.specs.Intervals.{holds};
ghost use Rattle.coverage.specs.Numbers.{IsEntry, AreListed, holds_in};

use super::Numbers;
use crate::intervals::Intervals;
use std::alloc::AllocError;

impl Numbers {
    /// The numbers of either summary, for each source. Time and memory linear in the sources and
    /// the intervals of both, but for a logarithm in the time.
    pub fn union(&self, other: &Numbers) -> Result<Numbers, AllocError>
        ensures summary { IfOk result (λ r. AreListed r) }
        ensures members { IfOk result (λ r. (s : List ℕ) (m : ℕ)
            → holds_in r s m ≡ (holds_in self.now s m || holds_in other.now s m)) }
        ensures err { OnErr result ((self.now ≢ []) ⊎ (other.now ≢ [])) }
    {
        if self.entries.is_empty() && other.entries.is_empty() {
            return Ok(Numbers::empty(self.alloc));
        }
        let mut both = self.copy()?;
        for (source, numbers) in &other.entries {
            both.add_all(source.as_str(), numbers)?;
        }
        Ok(both)
    }

    /// Adds numbers of a source to the summary.
    fn add_all(&mut self, source: &str, numbers: &Intervals) -> Result<(), AllocError>
        requires { IsEntry (source.now, numbers.now) }
        ensures summary { AreListed self.new }
        ensures members { OnOk result ((s : List ℕ) (m : ℕ)
            → holds_in self.new s m
            ≡ (holds_in self.old s m || (bytes_eq s source.now && holds numbers.now m))) }
    {
        if let Some(own) = self.entries.get_mut(source) {
            *own = own.union(numbers)?;
            return Ok(());
        }
        let key = String::from_str(self.alloc, source)?;
        self.entries.insert(key, numbers.copy()?)?;
        Ok(())
    }
}
