//! Summaries compared.
ghost use Rattle.std.specs.Prelude.{◌≡◌, ◌↔◌, ℕ, List, IsTrue};
ghost use Rattle.coverage.specs.Numbers.{AreCovered, AreListed, holds_in};
ghost use Rattle.coverage.specs.NumbersText.{numbers_text};

use super::Numbers;

impl Numbers {
    /// Whether this summary holds all that the other holds. Time linear in the sources and the
    /// intervals of the other, times the logarithm of the own ones.
    pub fn covers(&self, other: &Numbers) -> bool
        ensures { IsTrue result ↔ AreCovered self.now other.now }
    {
        for (source, numbers) in &other.entries {
            let Some(own) = self.of_source(source.as_str()) else {
                return false;
            };
            if !own.covers(numbers) {
                return false;
            }
        }
        true
    }

    /// Whether both summaries hold the same numbers of the same sources. Time linear in the sources
    /// and the intervals.
    pub fn same(&self, other: &Numbers) -> bool
        ensures equal { IsTrue result ↔ (self.now ≡ other.now) }
        ensures numbers { IsTrue result ↔ ((s : List ℕ) (m : ℕ)
            → holds_in self.now s m ≡ holds_in other.now s m) }
        ensures texts { IsTrue result ↔ (numbers_text self.now ≡ numbers_text other.now) }
        ensures listed { AreListed self.now }
        ensures other { AreListed other.now }
    {
        let mut others = other.entries.iter();
        for (source, numbers) in &self.entries {
            let Some((other_source, other_numbers)) = others.next() else {
                return false;
            };
            if source.as_str() != other_source.as_str() || !numbers.same(other_numbers) {
                return false;
            }
        }
        others.next().is_none()
    }
}
