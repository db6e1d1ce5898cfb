//! A summary's entries: made, looked up, added and copied.
ghost use Rattle.std.specs.Prelude.{◌≡◌, ◌≢◌, ◌<◌, ℕ, ◌||◌, ◌&&◌, ◌==◌, ◌++◌, ◌∷◌, true, false, not, List, [], length, map, slice_get, bytes_eq, Some, IfOk, IfSome, MatchOption, OnOk, OnErr};
ghost use Rattle.std.specs.BTreeMap.{insert_entry};
ghost use Rattle.std.specs.Map.Iter.{deref_pair};
ghost use Rattle.attributes.specs.Character.{is_filled};
ghost use Rattle.coverage.specs.Intervals.{IsCanonical};
ghost use Rattle.coverage.specs.Numbers.{IsEntry, AreListed, byte_cmp, holds_in, numbers_in, names_in};
ghost use Rattle.coverage.specs.steps.Places.{EndsBefore};

use super::Numbers;
use crate::intervals::Intervals;
use attributes::{Sequence, Text};
use std::alloc::{AllocError, Global};
use std::collections::BTreeMap;

impl Numbers {
    /// The summary without sources and numbers. It takes no memory.
    pub fn empty(alloc: Global) -> Numbers
        ensures entries { result ≡ [] }
        ensures members { (s : List ℕ) (m : ℕ) → holds_in result s m ≡ false }
        ensures summary { AreListed result }
    {
        Numbers {
            entries: BTreeMap::new(alloc),
            alloc,
        }
    }

    /// Whether the summary holds the number for the source. Time logarithmic in the sources and in
    /// the intervals of the source.
    pub fn contains(&self, source: &str, number: Sequence) -> bool
        ensures { result ≡ holds_in self.now source.now number }
    {
        match self.entries.get(source) {
            Some(numbers) => numbers.contains(number),
            None => false,
        }
    }

    /// Adds a number of an allowed source to the summary. The answer is true where it is new. Time
    /// logarithmic in the sources and in the intervals of the source, in whatever order they come;
    /// a source is copied where it is new.
    pub fn insert(&mut self, source: &str, number: Sequence) -> Result<bool, AllocError>
        requires { is_filled source.now ≡ true }
        ensures new { IfOk result (λ b. b ≡ not (holds_in self.old source.now number)) }
        ensures members { OnOk result ((s : List ℕ) (m : ℕ)
            → holds_in self.new s m
            ≡ (holds_in self.old s m || (bytes_eq s source.now && (m == number)))) }
        ensures summary { AreListed self.new }
        ensures err { OnErr result (self.new ≡ self.old) }
        ensures err_of_new { OnErr result (holds_in self.old source.now number ≡ false) }
    {
        if let Some(numbers) = self.entries.get_mut(source) {
            return numbers.insert(number);
        }
        let mut first = Intervals::empty(self.alloc);
        first.insert(number)?;
        let key = String::from_str(self.alloc, source)?;
        self.entries.insert(key, first)?;
        Ok(true)
    }

    /// Adds a source behind all others of the summary, with its numbers.
    pub(super) fn append(&mut self, source: &str, numbers: Intervals) -> Result<(), AllocError>
        requires entry { IsEntry (source.now, numbers) }
        requires last { EndsBefore self.old source.now }
        ensures { OnOk result (self.new ≡ self.old ++ (source.now, numbers) ∷ []) }
    {
        self.put(source, numbers)
    }

    /// Sets the summary's numbers of a source. Time logarithmic in the sources.
    pub(super) fn put(&mut self, source: &str, numbers: Intervals) -> Result<(), AllocError>
        requires { IsEntry (source.now, numbers) }
        ensures { OnOk result (self.new ≡ insert_entry byte_cmp self.old source.now numbers) }
    {
        let key = String::from_str(self.alloc, source)?;
        self.entries.insert(key, numbers)?;
        Ok(())
    }

    /// The summary's numbers of the source, where it has any. Time logarithmic in the sources.
    pub fn of_source(&self, source: &str) -> Option<&Intervals>
        ensures numbers { MatchOption result (numbers_in self.now source.now ≡ [])
            (λ i. i.now ≡ numbers_in self.now source.now) }
        ensures some { IfSome result (λ i. i.now ≢ []) }
        ensures canonical { IfSome result (λ i. IsCanonical i.now) }
    {
        self.entries.get(source)
    }

    /// How many sources the summary's numbers have.
    pub fn len(&self) -> u64
        ensures len { result ≡ length (names_in self.now) }
        ensures summary { AreListed self.now }
    {
        self.entries.len() as u64
    }

    /// The summary's source at a place of the byte order, from 0 on. Time linear in the place:
    /// whoever wants all of them takes `entries`.
    pub fn source_at(&self, i: u64) -> &str
        requires { i < length (names_in self.now) }
        ensures { slice_get (names_in self.now) i ≡ Some result.now }
    {
        self.entries.keys().nth(i as usize).unwrap().as_str()
    }

    /// The summary's sources in byte order, with their numbers. Time and memory linear in them.
    pub fn entries(&self) -> Result<Vec<(&str, &Intervals)>, AllocError>
        ensures entries { IfOk result (λ v. map deref_pair v.items ≡ self.now) }
        ensures summary { AreListed self.now }
    {
        let mut entries = Vec::with_capacity(self.alloc, self.entries.len())?;
        for (source, numbers) in &self.entries {
            entries.push((source.as_str(), numbers))?;
        }
        Ok(entries)
    }

    /// A copy of a summary's numbers. Time and memory linear in the sources and the intervals, but
    /// for a logarithm in the time.
    pub fn copy(&self) -> Result<Numbers, AllocError>
        ensures copied { IfOk result (λ r. r ≡ self.now) }
        ensures summary { AreListed self.now }
        ensures err { OnErr result (self.now ≢ []) }
    {
        if self.entries.is_empty() {
            return Ok(Numbers::empty(self.alloc));
        }
        let mut own = Numbers::empty(self.alloc);
        for (source, numbers) in &self.entries {
            own.append(source.as_str(), numbers.copy()?)?;
        }
        Ok(own)
    }
}
