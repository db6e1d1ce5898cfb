//! Which sequence numbers of which sources have been seen.

mod digested;
mod join;

ghost use Rattle.std.specs.Prelude.{◌≡◌, ◌≢◌, ◌<◌, ◌↔◌, ◌⊎◌, ℕ, ◌||◌, ◌&&◌, ◌==◌, true, false, not, List, [], length, map, slice_get, bytes_eq, Err, Some, option_copied, IsTrue, IfOk, IfErr, IfSome, MatchOption, MatchResult, OnOk, OnErr};
ghost use Rattle.std.specs.Map.Iter.{deref_pair};
ghost use Rattle.serde_json.specs.View.{view};
ghost use Rattle.attributes.specs.Character.{is_filled};
ghost use Rattle.attributes.specs.Event.{EventValue, source_of};
ghost use Rattle.attributes.specs.JsonText.{IsJsonText};
ghost use Rattle.attributes.specs.Sequence.{number_of};
ghost use Rattle.block_digests.specs.Block.{block_of};
ghost use Rattle.block_digests.specs.Digest.{is_one_digest};
ghost use Rattle.coverage.specs.Intervals.{IsCanonical};
ghost use Rattle.coverage.specs.Digests.{Digests, block_digest_at, is_lacking, is_wanted};
ghost use Rattle.coverage.specs.Summary.{Covers, IsSummary, Sources, entries_of, holds_at, numbers_of, sources_of, version_of};
ghost use Rattle.coverage.specs.CoverText.{IsCoverText};
ghost use Rattle.coverage.specs.Refusals.{ReadsBack, RefusesSummary};
ghost use Rattle.coverage.specs.SummaryShape as shape;
ghost use Rattle.coverage.specs.SummaryText.{summary_text};

use crate::digests::SourceDigests;
use crate::fault::SummaryFault;
use crate::intervals::Intervals;
use crate::numbers::Numbers;
use crate::numbers::read::parse;
use crate::numbers::shape::version_of as version_in;
use attributes::{Sequence, Text};
use block_digests::block_of;
use serde_json::Value;
use std::alloc::{AllocError, Global};
use std::marker::Model;

/// Sources in byte order, each with the set of its numbers that have been seen, of which there is
/// at least one; in version 2 also with the digest of each block that holds one of them.
#[derive(Debug, Drop)]
pub struct Summary {
    numbers: Numbers,
    digests: Option<SourceDigests>,
}

impl Model for Summary {
    ghost use Rattle.coverage.specs.BlockDigests.{HasDigests};
    ghost use Rattle.coverage.specs.Summary.{Sources};

    ghost Value = { Sources };

    ghost view = { λ s. record { entries = s.numbers; digests = s.digests } };

    ghost invariant = { λ s. HasDigests s.numbers s.digests };
}

/// Whether both digests of a block in summaries are there and equal.
fn is_one_digest(digest: Option<&[u8; 32]>, other: Option<&[u8; 32]>) -> bool
    ensures { result ≡ is_one_digest (option_copied digest.entry) (option_copied other.entry) }
{
    match (digest, other) {
        (Some(digest), Some(other)) => digest == other,
        _ => false,
    }
}

impl Summary {
    /// The summary of version 1 without sources. It takes no memory.
    pub fn empty(alloc: Global) -> Summary
        ensures entries { entries_of result ≡ [] }
        ensures version { version_of result ≡ 1 }
        ensures members { (s : List ℕ) (m : ℕ) → holds_at result s m ≡ false }
        ensures summary { IsSummary result }
    {
        Summary {
            numbers: Numbers::empty(alloc),
            digests: None,
        }
    }

    /// Whether the summary holds the number for the source. Time logarithmic in the sources and in
    /// the intervals of the source.
    pub fn contains(&self, source: &str, number: Sequence) -> bool
        ensures { result ≡ holds_at self.now source.now number }
    {
        self.numbers.contains(source, number)
    }

    /// Adds a number of an allowed source and leaves a summary of version 1, also where the number
    /// is held. The answer is true where it is new. Time logarithmic in the sources and in the
    /// intervals of the source, in whatever order they come, and linear in digests it drops;
    /// a source is copied where it is new.
    pub fn insert(&mut self, source: &Text, number: Sequence) -> Result<bool, AllocError>
        requires { is_filled source.now ≡ true }
        ensures new { IfOk result (λ b. b ≡ not (holds_at self.old source.now number)) }
        ensures members { OnOk result ((s : List ℕ) (m : ℕ)
            → holds_at self.new s m
            ≡ (holds_at self.old s m || (bytes_eq s source.now && (m == number)))) }
        ensures summary { IsSummary self.new }
        ensures err { OnErr result (self.new ≡ self.old) }

        // A number that is held needs no memory.
        ensures err_of_new { OnErr result (holds_at self.old source.now number ≡ false) }

        // Digests say nothing any more, also where the number is held.
        ensures version { OnOk result (version_of self.new ≡ 1) }
    {
        self.insert_str(source.as_str(), number)
    }

    /// The summary's `insert` for a source that is lent.
    pub fn insert_str(&mut self, source: &str, number: Sequence) -> Result<bool, AllocError>
        requires { is_filled source.now ≡ true }
        ensures new { IfOk result (λ b. b ≡ not (holds_at self.old source.now number)) }
        ensures members { OnOk result ((s : List ℕ) (m : ℕ)
            → holds_at self.new s m
            ≡ (holds_at self.old s m || (bytes_eq s source.now && (m == number)))) }
        ensures summary { IsSummary self.new }
        ensures err { OnErr result (self.new ≡ self.old) }
        ensures err_of_new { OnErr result (holds_at self.old source.now number ≡ false) }
        ensures version { OnOk result (version_of self.new ≡ 1) }
    {
        match self.numbers.insert(source, number) {
            Ok(new) => {
                self.digests = None;
                Ok(new)
            }
            Err(error) => Err(error),
        }
    }

    /// The summary's numbers of the source, where it has any. Time logarithmic in the sources.
    pub fn of_source(&self, source: &str) -> Option<&Intervals>
        ensures numbers { MatchOption result (numbers_of self.now source.now ≡ [])
            (λ i. i.now ≡ numbers_of self.now source.now) }
        ensures some { IfSome result (λ i. i.now ≢ []) }
        ensures canonical { IfSome result (λ i. IsCanonical i.now) }
    {
        self.numbers.of_source(source)
    }

    /// How many sources the summary has.
    pub fn len(&self) -> u64
        ensures len { result ≡ length (sources_of self.now) }
        ensures summary { IsSummary self.now }
    {
        self.numbers.len()
    }

    /// The summary's source at a place of the byte order, from 0 on. Time linear in the place:
    /// whoever wants all of them takes `entries`.
    pub fn source_at(&self, i: u64) -> &str
        requires { i < length (sources_of self.now) }
        ensures { slice_get (sources_of self.now) i ≡ Some result.now }
    {
        self.numbers.source_at(i)
    }

    /// The summary's sources in byte order, with their numbers. Time and memory linear in them.
    pub fn entries(&self) -> Result<Vec<(&str, &Intervals)>, AllocError>
        ensures entries { IfOk result (λ v. map deref_pair v.items ≡ entries_of self.now) }
        ensures summary { IsSummary self.now }
    {
        self.numbers.entries()
    }

    /// A copy of the summary, of the same version. Time and memory linear in the sources, the
    /// intervals and the blocks, but for a logarithm in the time.
    pub fn copy(&self) -> Result<Summary, AllocError>
        ensures copied { IfOk result (λ r. r ≡ self.now) }
        ensures summary { IsSummary self.now }

        // Memory is wanted for sources alone.
        ensures err { OnErr result (entries_of self.now ≢ []) }
    {
        let numbers = self.numbers.copy()?;
        let digests = match &self.digests {
            Some(digests) => Some(digests.copy()?),
            None => None,
        };
        Ok(Summary { numbers, digests })
    }

    /// The numbers of either summary, for each source, as a summary of version 1. Time and memory
    /// linear in the sources and the intervals of both, but for a logarithm in the time.
    pub fn union(&self, other: &Summary) -> Result<Summary, AllocError>
        ensures summary { IfOk result (λ r. IsSummary r) }
        ensures members { IfOk result (λ r. (s : List ℕ) (m : ℕ)
            → holds_at r s m ≡ (holds_at self.now s m || holds_at other.now s m)) }
        ensures version { IfOk result (λ r. version_of r ≡ 1) }

        // Memory is wanted where either has a source.
        ensures err { OnErr result ((entries_of self.now ≢ []) ⊎ (entries_of other.now ≢ [])) }
    {
        Ok(Summary {
            numbers: self.numbers.union(&other.numbers)?,
            digests: None,
        })
    }

    /// Whether this summary holds all that the other holds. Time linear in the sources and the
    /// intervals of the other, times the logarithm of the own ones.
    pub fn covers(&self, other: &Summary) -> bool
        ensures { IsTrue result ↔ Covers self.now other.now }
    {
        self.numbers.covers(&other.numbers)
    }

    /// Whether both summaries are of one version, hold the same numbers of the same sources, and
    /// have the same digests. Time linear in the sources, the intervals and the blocks.
    pub fn same(&self, other: &Summary) -> bool
        ensures equal { IsTrue result ↔ (self.now ≡ other.now) }
        ensures numbers { version_of self.now ≡ 1 → version_of other.now ≡ 1
            → IsTrue result ↔ ((s : List ℕ) (m : ℕ)
            → holds_at self.now s m ≡ holds_at other.now s m) }
        ensures texts { IsTrue result ↔ (summary_text self.now ≡ summary_text other.now) }
    {
        self.is_equal(other)
    }

    /// 2 where the summary has digests of blocks, and else 1. It takes no memory.
    pub fn version(&self) -> u64
        ensures { result ≡ version_of self.now }
    {
        match self.digests {
            Some(_) => 2,
            None => 1,
        }
    }

    /// The summary's digest of a source's block: none in version 1, and where it holds no number of
    /// the block. Time logarithmic in the sources and in the blocks of the source.
    pub fn digest_of(&self, source: &str, k: u64) -> Option<&[u8; 32]>
        ensures { option_copied result ≡ block_digest_at self.now source.now k }
    {
        match &self.digests {
            Some(digests) => digests.digest_of(source, k),
            None => None,
        }
    }

    /// Whether a site whose own summary is the other has to send its events of the source and
    /// number to the one that told this summary: where it doesn't hold the number, or in version 2
    /// hasn't the own digest of the number's block. Time logarithmic in the sources, the intervals
    /// and the blocks of the source.
    pub fn wants(&self, own: &Summary, source: &str, number: Sequence) -> bool
        ensures plain { result ≡ is_wanted self.now own.now source.now number }

        // Of a set that the own summary digests, these are the events that the peer lacks.
        ensures delta { (E : List EventValue) (e : EventValue) → Digests E own.now
            → source_of e ≡ source.now → number_of e ≡ Some number
            → result ≡ is_lacking E self.now e }
    {
        self.lacks(own, source, number)
    }

    /// The summary's text, of its version: a JSON object without white space that has the sources
    /// in byte order, each with the arrays of the first and the last number of its intervals, and
    /// in version 2 each with the arrays of the number and the digest of its blocks too. Time and
    /// memory linear in the sources, the intervals and the blocks.
    pub fn to_text(&self) -> Result<Text, AllocError>
        ensures text { IfOk result (λ t. t ≡ summary_text self.now) }
        ensures cover_text { version_of self.now ≡ 1
            → IfOk result (IsCoverText (holds_at self.now)) }
        ensures summary { IsSummary self.now }
    {
        match &self.digests {
            Some(digests) => self.numbers.to_text_with(digests),
            None => self.numbers.to_text(),
        }
    }

    /// The summary of which these are the text, byte for byte as `to_text` writes it. Tested in
    /// this order: `NotJson`; `Shape`, where there is no version; `Version`, where it is neither 1
    /// nor 2; `Shape`, where the members are others than the version's; `NotCanonical`, where a
    /// space, another order or spelling, an interval that doesn't ascend or touches the one before,
    /// an empty list, a source that isn't allowed, a block that holds no number of its source, or
    /// one that is missing makes the bytes no summary's text. The digests are taken as given: of
    /// events they say nothing. Memory linear in the bytes, time the same times a logarithm.
    pub fn of_text(alloc: Global, bytes: &[u8]) -> Result<Summary, SummaryFault>
        ensures text { IfOk result (λ s. bytes.now ≡ summary_text s) }
        ensures summary { IfOk result (λ s. IsSummary s) }
        ensures refused { IfErr result (RefusesSummary bytes.now) }
        ensures accepted { ReadsBack bytes.now result }

        // No bytes are refused without memory.
        ensures none { bytes.now ≡ [] → result ≡ Err SummaryFault.NotJson }
    {
        if bytes.is_empty() {
            return Err(SummaryFault::NotJson);
        }
        let value = parse(alloc, bytes)?;
        let Some(version) = version_in(&value) else {
            return Err(SummaryFault::Shape);
        };
        if version == 1 {
            return Summary::of_version_1(alloc, value, bytes);
        }
        if version == 2 {
            return Summary::of_version_2(alloc, value, bytes);
        }
        Err(SummaryFault::Version)
    }

    /// The summary's `of_text` for a value of version 1.
    fn of_version_1(alloc: Global, value: Value, bytes: &[u8]) -> Result<Summary, SummaryFault>
        requires json { IsJsonText bytes.now (view value) }
        requires version { shape.version_of (view value) ≡ Some 1 }
        ensures text { IfOk result (λ s. bytes.now ≡ summary_text s) }
        ensures summary { IfOk result (λ s. IsSummary s) }
        ensures refused { IfErr result (RefusesSummary bytes.now) }
        ensures accepted { ReadsBack bytes.now result }
    {
        match Numbers::of_value(alloc, value, bytes) {
            Ok(numbers) => Ok(Summary {
                numbers,
                digests: None,
            }),
            Err(fault) => Err(fault),
        }
    }

    /// The summary's `of_text` for a value of version 2.
    fn of_version_2(alloc: Global, value: Value, bytes: &[u8]) -> Result<Summary, SummaryFault>
        requires json { IsJsonText bytes.now (view value) }
        requires version { shape.version_of (view value) ≡ Some 2 }
        ensures text { IfOk result (λ s. bytes.now ≡ summary_text s) }
        ensures summary { IfOk result (λ s. IsSummary s) }
        ensures refused { IfErr result (RefusesSummary bytes.now) }
        ensures accepted { ReadsBack bytes.now result }
    {
        match Numbers::of_value_with(alloc, value, bytes) {
            Ok((numbers, digests)) => Ok(Summary {
                numbers,
                digests: Some(digests),
            }),
            Err(fault) => Err(fault),
        }
    }

    /// Whether both are one summary.
    fn is_equal(&self, other: &Summary) -> bool
        ensures equal { IsTrue result ↔ (self.now ≡ other.now) }
        ensures summary { IsSummary self.now }
        ensures other { IsSummary other.now }
    {
        if !self.numbers.same(&other.numbers) {
            return false;
        }
        match (&self.digests, &other.digests) {
            (Some(own), Some(others)) => own.same(others),
            (None, None) => true,
            _ => false,
        }
    }

    /// Whether the summary needs no event of a source that stands in the block of a number, going
    /// by the own summary of a site and the numbers that the site has: it holds each of them that
    /// is in the block, and in version 2 has the own digest of the block. Where it isn't so, the
    /// answer may be false. Time logarithmic in the sources, the intervals and the blocks of the
    /// source, and linear in the intervals of the block.
    pub fn wants_none_beside(
        &self,
        own: &Summary,
        numbers: &Summary,
        source: &str,
        number: Sequence,
    ) -> bool
        ensures { IsTrue result → (n : ℕ) → block_of n ≡ block_of number
            → holds_at numbers.now source.now n ≡ true
            → is_wanted self.now own.now source.now n ≡ false }
    {
        // The number bounds the block.
        let _number = number.number();
        let k = block_of(number);
        if let Some(digests) = &self.digests {
            if !is_one_digest(digests.digest_of(source, k), own.digest_of(source, k)) {
                return false;
            }
        }
        let Some(held) = numbers.of_source(source) else {
            return true;
        };
        match self.of_source(source) {
            Some(own) => own.covers_block(held, k),
            None => false,
        }
    }

    /// Whether the summary lacks the number, or the other's digest of its block.
    fn lacks(&self, own: &Summary, source: &str, number: Sequence) -> bool
        ensures { result ≡ is_wanted self.now own.now source.now number }
    {
        if !self.numbers.contains(source, number) {
            return true;
        }
        let Some(digests) = &self.digests else {
            return false;
        };
        let k = block_of(number);
        !is_one_digest(digests.digest_of(source, k), own.digest_of(source, k))
    }
}
