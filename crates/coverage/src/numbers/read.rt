//! A summary read from its text.
ghost use Rattle.std.specs.Prelude.{codes, option_map, ◌≡◌, ◌≢◌, ◌↔◌, ◌≤◌, true, Some, List, [], IsTrue, IfOk, IfErr, IfSome, IsSomeAnd, MatchResult, OnErr};
ghost use Rattle.serde_json.specs.Data.{array, object};
ghost use Rattle.serde_json.specs.Find.{as_object, get_member};
ghost use Rattle.serde_json.specs.View.{view, items_view, members_view};
ghost use Rattle.attributes.specs.Character.{is_filled};
ghost use Rattle.attributes.specs.JsonText.{IsJsonText};
ghost use Rattle.coverage.specs.BlockDigests.{AreDigests, SourceBlocks};
ghost use Rattle.coverage.specs.DigestsText.{digests_data, digests_text};
ghost use Rattle.coverage.specs.Intervals.{Interval, IsCanonical, fits_from};
ghost use Rattle.coverage.specs.Numbers.{AreListed, Entries};
ghost use Rattle.coverage.specs.NumbersText.{intervals_items, sources_members, numbers_data, numbers_text};
ghost use Rattle.coverage.specs.SummaryShape.{version_of};
ghost use Rattle.coverage.specs.Refusals.{IsSummaryText, RefusesSummary};
ghost use Rattle.coverage.specs.steps.Places.{EndsBefore};

use super::Numbers;
use super::shape::{interval_in, is_shaped, is_shaped_with_blocks};
use crate::digests::SourceDigests;
use crate::fault::SummaryFault;
use crate::intervals::{Interval, Intervals};
use attributes::{Sequence, Text};
use serde_json::{Map, Value};
use std::alloc::{AllocError, Global};
use std::cmp::Ordering;

/// The bytes of a summary's text as a JSON value.
pub(crate) fn parse(alloc: Global, bytes: &[u8]) -> Result<Value, SummaryFault>
    ensures value { IfOk result (λ v. IsJsonText bytes.now (view v)) }
    ensures refused { IfErr result (RefusesSummary bytes.now) }
    ensures accepted { IsSummaryText bytes.now
        → OnErr result (result ≡ Err SummaryFault.OutOfMemory) }
{
    match Value::from_slice(alloc, bytes) {
        Ok(value) => Ok(value),
        Err(error) => {
            if error.is_memory() {
                return Err(SummaryFault::OutOfMemory);
            }
            Err(SummaryFault::NotJson)
        }
    }
}

/// Whether the pair is a summary's interval of sequence numbers that starts at the number or later.
fn fits_from(from: u64, pair: Interval) -> bool
    requires { 1 ≤ from }
    ensures { result ≡ fits_from from pair }
{
    from <= pair.0 && pair.0 <= pair.1 && Sequence::of_u64(pair.1).is_some()
}

/// The intervals of which these are a summary's JSON, where they are that of any.
fn read_pairs(alloc: Global, list: &[Value]) -> Result<Option<Vec<Interval>>, AllocError>
    ensures canonical { IfOk result (λ o. IfSome o (λ v. IsCanonical v.items)) }
    ensures complete { IfOk result (λ o. (ps : List Interval) → IsCanonical ps
        → items_view list.now ≡ intervals_items ps → IsSomeAnd o (λ v. v.items ≡ ps)) }
{
    let mut pairs = Vec::with_capacity(alloc, list.len())?;
    let mut from = 1;
    for item in list {
        let Some(pair) = interval_in(item) else {
            return Ok(None);
        };
        if !fits_from(from, pair) {
            return Ok(None);
        }
        from = pair.1 + 2;
        pairs.push(pair)?;
    }
    Ok(Some(pairs))
}

/// The set of numbers of which this is a summary's JSON, where it is that of any.
fn read_intervals(alloc: Global, value: Value) -> Result<Option<Intervals>, AllocError>
    ensures canonical { IfOk result (λ o. IfSome o (λ i. IsCanonical i)) }
    ensures complete { IfOk result (λ o. (ps : List Interval) → IsCanonical ps
        → view value ≡ array (intervals_items ps) → IsSomeAnd o (λ i. i ≡ ps)) }
{
    let Value::Array(list) = value else {
        return Ok(None);
    };
    match read_pairs(alloc, &list)? {
        Some(pairs) => Ok(Some(Intervals::of_pairs(alloc, &pairs)?)),
        None => Ok(None),
    }
}

/// The summary of which these members are the JSON of the sources, where they are that of any. The
/// tree of each member is given back as soon as its numbers stand.
fn read_entries(alloc: Global, sources: Map<String, Value>) -> Result<Option<Numbers>, AllocError>
    ensures summary { IfOk result (λ o. IfSome o (λ s. AreListed s)) }
    ensures complete { IfOk result (λ o. (s : Entries) → AreListed s
        → members_view sources.entries ≡ sources_members s → IsSomeAnd o (λ r. r ≡ s)) }
{
    let mut summary = Numbers::empty(alloc);
    for (name, list) in sources {
        let Some(numbers) = read_intervals(alloc, list)? else {
            return Ok(None);
        };
        let source = Text::from_string(name);
        if !summary.may_end_with(&source, &numbers) {
            return Ok(None);
        }
        summary.append(source.as_str(), numbers)?;
    }
    Ok(Some(summary))
}

/// The members of a JSON object of a summary, taken out of the value.
fn members_of(value: Value) -> Option<Map<String, Value>>
    ensures { option_map (λ m. members_view m.entries) result ≡ as_object (view value) }
{
    match value {
        Value::Object(members) => Some(members),
        _ => None,
    }
}

/// The numbers of which a summary's member `sources` is the JSON, where it is that of any.
fn take_sources(alloc: Global, members: Map<String, Value>) -> Result<Option<Numbers>, AllocError>
    ensures summary { IfOk result (λ o. IfSome o (λ s. AreListed s)) }
    ensures complete { IfOk result (λ o. (s : Entries) → AreListed s
        → get_member (codes "sources") (members_view members.entries)
        ≡ Some (object (sources_members s)) → IsSomeAnd o (λ r. r ≡ s)) }
{
    let mut members = members;
    let Some(member) = members.remove("sources") else {
        return Ok(None);
    };
    let Some(sources) = members_of(member) else {
        return Ok(None);
    };
    read_entries(alloc, sources)
}

/// The summary's numbers of which this is the JSON, where it is that of any.
fn read_numbers(alloc: Global, value: Value) -> Result<Option<Numbers>, AllocError>
    ensures summary { IfOk result (λ o. IfSome o (λ s. AreListed s)) }
    ensures complete { IfOk result (λ o. (s : Entries) → AreListed s
        → view value ≡ numbers_data s → IsSomeAnd o (λ r. r ≡ s)) }
{
    match members_of(value) {
        Some(members) => take_sources(alloc, members),
        None => Ok(None),
    }
}

/// The summary's numbers and the digests of just their blocks of which this is the JSON, where it
/// is that of any.
fn read_both(alloc: Global, value: Value) -> Result<Option<(Numbers, SourceDigests)>, AllocError>
    ensures summary { IfOk result (λ o. IfSome o (λ r. AreListed r.0 × AreDigests r.0 r.1)) }
    ensures complete { IfOk result (λ o. (es : Entries) (ds : SourceBlocks) → AreListed es
        → AreDigests es ds → view value ≡ digests_data es ds
        → IsSomeAnd o (λ r. (r.0 ≡ es) × (r.1 ≡ ds))) }
{
    let Some(mut members) = members_of(value) else {
        return Ok(None);
    };
    let Some(blocks) = members.remove("blocks") else {
        return Ok(None);
    };
    let Some(numbers) = take_sources(alloc, members)? else {
        return Ok(None);
    };
    let Some(digests) = numbers.read_digests(&blocks)? else {
        return Ok(None);
    };
    Ok(Some((numbers, digests)))
}

/// Whether the bytes are the summary's text.
fn is_text(text: &Text, bytes: &[u8]) -> bool
    ensures { IsTrue result ↔ (text.now ≡ bytes.now) }
{
    text.as_str().as_bytes() == bytes
}

impl Numbers {
    /// The summary's numbers of which these are the text, version 1, byte for byte as `to_text`
    /// writes it; the value is that of the bytes.
    pub fn of_value(alloc: Global, value: Value, bytes: &[u8]) -> Result<Numbers, SummaryFault>
        requires json { IsJsonText bytes.now (view value) }
        requires version { version_of (view value) ≡ Some 1 }
        ensures text { IfOk result (λ s. bytes.now ≡ numbers_text s) }
        ensures summary { IfOk result (λ s. AreListed s) }
        ensures refused { IfErr result (RefusesSummary bytes.now) }
        ensures accepted { (s : Entries) → AreListed s → bytes.now ≡ numbers_text s
            → MatchResult result (λ r. r ≡ s) (λ e. e ≡ SummaryFault.OutOfMemory) }
    {
        if !is_shaped(&value) {
            return Err(SummaryFault::Shape);
        }
        let Some(numbers) = read_numbers(alloc, value)? else {
            return Err(SummaryFault::NotCanonical);
        };
        let text = numbers.to_text()?;
        if !is_text(&text, bytes) {
            return Err(SummaryFault::NotCanonical);
        }
        Ok(numbers)
    }

    /// The summary's numbers and digests of which these are the text, version 2, byte for byte as
    /// `to_text_with` writes it; the value is that of the bytes.
    pub fn of_value_with(
        alloc: Global,
        value: Value,
        bytes: &[u8],
    ) -> Result<(Numbers, SourceDigests), SummaryFault>
        requires json { IsJsonText bytes.now (view value) }
        requires version { version_of (view value) ≡ Some 2 }
        ensures text { IfOk result (λ r. bytes.now ≡ digests_text r.0 r.1) }
        ensures summary { IfOk result (λ r. AreListed r.0 × AreDigests r.0 r.1) }
        ensures refused { IfErr result (RefusesSummary bytes.now) }
        ensures accepted { (es : Entries) (ds : SourceBlocks) → AreListed es → AreDigests es ds
            → bytes.now ≡ digests_text es ds → MatchResult result
            (λ r. (r.0 ≡ es) × (r.1 ≡ ds)) (λ e. e ≡ SummaryFault.OutOfMemory) }
    {
        if !is_shaped_with_blocks(&value) {
            return Err(SummaryFault::Shape);
        }
        let Some((numbers, digests)) = read_both(alloc, value)? else {
            return Err(SummaryFault::NotCanonical);
        };
        let written = numbers.to_text_with(&digests)?;
        if !is_text(&written, bytes) {
            return Err(SummaryFault::NotCanonical);
        }
        Ok((numbers, digests))
    }

    /// Whether the source comes after all others of the summary.
    fn ends_before(&self, source: &str) -> bool
        ensures { IsTrue result ↔ EndsBefore self.now source.now }
    {
        match self.entries.last_key_value() {
            Some((last, _)) => match last.as_str().cmp(source) {
                Ordering::Less => true,
                _ => false,
            },
            None => true,
        }
    }

    /// Whether this may be the summary's last entry: allowed source after all others, some number.
    fn may_end_with(&self, source: &Text, numbers: &Intervals) -> bool
        ensures { IsTrue result ↔ ((is_filled source.now ≡ true) × (numbers.now ≢ [])
            × EndsBefore self.now source.now) }
    {
        if !source.is_source() || numbers.is_empty() {
            return false;
        }
        self.ends_before(source.as_str())
    }
}
