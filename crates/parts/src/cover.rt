//! Covers of parts: which numbers of which sources each has.

ghost use Rattle.std.specs.Prelude.{◌≡◌, ◌<◌, ◌↔◌, ℕ, List, IfErr, IfNone, IfOk, IfSome, IsFalse, IsTrue, OnErr, OnOk, Some, false, true, length, map, slice_get, string_bytes};
ghost use Rattle.std.specs.BTreeSet.{contains_text};
ghost use Rattle.attributes.specs.Event.{EventValue};
ghost use Rattle.coverage.specs.Summary.{Sources};
ghost use Rattle.views.specs.Line.{cover_line};
ghost use Rattle.views.specs.Question.{IsAnswer};
ghost use Rattle.views.specs.declared.query.Query.TheVariants as query;
ghost use Rattle.parts.specs.Combined.{AreAnswers, AreApart, AreApartCovers, AreCovers, HasSource, HoldsUnion, IsNoLineOf, IsOfFirstVersion, IsOfVersion, KeepsSources, RefusesCovers, RefusesRead, ShareNone};

use crate::fault::CombineFault;
use attributes::Text;
use coverage::laws::texts_tell_summaries;
use coverage::{Summary, SummaryFault};
use std::alloc::{AllocError, Global};
use std::collections::BTreeSet;
use views::laws::answers_are_alike;
use views::{Answer, print};

/// The summary of a version that a part's text tells in a line, where it does.
pub(crate) fn read_of_version(
    alloc: Global,
    text: &str,
    version: u64,
) -> Result<Option<Summary>, CombineFault>
    ensures some { IfOk result (λ o. IfSome o (λ s. IsOfVersion version s
        × (text.now ≡ cover_line s))) }
    ensures none { IfOk result (λ o. IfNone o (IsNoLineOf version text.now)) }
    ensures err { OnErr result (result ≡ Err CombineFault.OutOfMemory) }
{
    let Some((last, words)) = text.as_bytes().split_last() else {
        return Ok(None);
    };
    if *last != b'\n' {
        return Ok(None);
    }
    match Summary::of_text(alloc, words) {
        Ok(summary) => {
            if summary.version() == version {
                Ok(Some(summary))
            } else {
                Ok(None)
            }
        }
        Err(SummaryFault::OutOfMemory) => Err(CombineFault::OutOfMemory),
        Err(_) => Ok(None),
    }
}

/// The summaries that the texts of parts answer `cover` with.
pub(crate) fn read_covers(alloc: Global, covers: &[&str]) -> Result<Vec<Summary>, CombineFault>
    ensures read { IfOk result (λ v. AreCovers (map (λ t. t.now) covers.now) v.items) }
    ensures refused { IfErr result (RefusesCovers (map (λ t. t.now) covers.now)) }
{
    let mut summaries = Vec::new(alloc);
    for i in 0..covers.len() {
        let cover = covers[i];
        match read_of_version(alloc, cover, 1)? {
            Some(summary) => summaries.push(summary)?,
            None => return Err(CombineFault::NotACover { part: i as u64 }),
        }
    }
    Ok(summaries)
}

/// Whether the cover of a part has a number of the source.
fn has_source(summary: &Summary, source: &str) -> bool
    ensures { IsTrue result ↔ HasSource summary.now source.now }
{
    match summary.of_source(source) {
        Some(numbers) => numbers.greatest().is_some(),
        None => false,
    }
}

/// A source with numbers in the summaries of two parts, if there is one: the first in byte order.
fn shared_source(
    alloc: Global,
    first: &Summary,
    second: &Summary,
) -> Result<Option<String>, AllocError>
    ensures some { IfOk result (λ o. IfSome o (λ name. HasSource first.now (string_bytes name)
        × HasSource second.now (string_bytes name))) }
    ensures none { IfOk result (λ o. IfNone o (ShareNone first.now second.now)) }
{
    let entries = second.entries()?;
    for i in 0..entries.len() {
        let (source, _numbers) = entries[i];
        if has_source(first, source) && has_source(second, source) {
            return Ok(Some(String::from_str(alloc, source)?));
        }
    }
    Ok(None)
}

/// Whether the part shares no source with one before it; else the overlap, with the first of those.
fn check_part(alloc: Global, summaries: &[Summary], second: u64) -> Result<(), CombineFault>
    requires { second < length summaries.now }
    ensures apart { OnOk result ((i : ℕ) → i < second → (s t : Sources)
        → slice_get summaries.now i ≡ Some s → slice_get summaries.now second ≡ Some t
        → ShareNone s t) }
    ensures refused { IfErr result (RefusesRead summaries.now) }
{
    for i in 0..second {
        if let Some(name) = shared_source(
            alloc,
            &summaries[i as usize],
            &summaries[second as usize],
        )? {
            return Err(CombineFault::Overlap {
                name,
                first: i,
                second,
            });
        }
    }
    Ok(())
}

/// Whether a source of the summary is one of these.
fn has_any(summary: &Summary, sources: &BTreeSet<String>) -> Result<bool, AllocError>
    ensures { IfOk result (λ any. IsFalse any → (source : List ℕ) → HasSource summary.now source
        → contains_text sources.now source ≡ false) }
{
    let entries = summary.entries()?;
    for i in 0..entries.len() {
        let (source, _numbers) = entries[i];
        if sources.contains(source) {
            return Ok(true);
        }
    }
    Ok(false)
}

/// Adds the summary's sources to these.
fn add_sources(
    alloc: Global,
    summary: &Summary,
    sources: &mut BTreeSet<String>,
) -> Result<(), AllocError>
    ensures has { OnOk result ((source : List ℕ) → HasSource summary.now source
        → contains_text sources.new source ≡ true) }
    ensures keeps { OnOk result (KeepsSources sources.old sources.new) }
{
    let entries = summary.entries()?;
    for i in 0..entries.len() {
        let (source, _numbers) = entries[i];
        let name = String::from_str(alloc, source)?;
        sources.insert(name)?;
    }
    Ok(())
}

/// Whether no source has numbers in two parts; else the first overlap. A part is compared with each
/// one before it only where a source of it was met.
pub(crate) fn check_apart(alloc: Global, summaries: &[Summary]) -> Result<(), CombineFault>
    ensures apart { OnOk result (AreApart summaries.now) }
    ensures refused { IfErr result (RefusesRead summaries.now) }
{
    let mut sources = BTreeSet::new(alloc);
    for i in 0..summaries.len() {
        let summary = &summaries[i];
        if has_any(summary, &sources)? {
            check_part(alloc, summaries, i as u64)?;
        }
        add_sources(alloc, summary, &mut sources)?;
    }
    Ok(())
}

/// What all of the parts' summaries hold, as one of version 1. Each is copied once for each halving.
#[cycle(halves)]
pub(crate) fn unite(alloc: Global, summaries: &[Summary]) -> Result<Summary, AllocError>
    ensures first { IfOk result (λ all. IsOfFirstVersion all) }
    ensures united { IfOk result (HoldsUnion summaries.now) }
{
    match summaries.len() {
        0 => Ok(Summary::empty(alloc)),
        1 => Summary::empty(alloc).union(&summaries[0]),
        n => {
            let (first, rest) = summaries.split_at(n / 2);
            let left = unite(alloc, first)?;
            let right = unite(alloc, rest)?;
            left.union(&right)
        }
    }
}

/// `combine_covers`, without what is told of the parts of a set in error.
fn unite_texts(alloc: Global, covers: &[&str]) -> Result<Text, CombineFault>
    ensures combined { (p : List ℕ → ℕ) (E : List EventValue)
        → AreAnswers query.Cover p E (map (λ t. t.now) covers.now)
        → IfOk result (IsAnswer query.Cover E) }
    ensures apart { OnOk result (AreApartCovers (map (λ t. t.now) covers.now)) }
    ensures refused { IfErr result (RefusesCovers (map (λ t. t.now) covers.now)) }
{
    // Laws that the clauses rest on; the calls do nothing.
    answers_are_alike();
    texts_tell_summaries();
    let summaries = read_covers(alloc, covers)?;
    check_apart(alloc, &summaries)?;
    let all = unite(alloc, &summaries)?;
    Ok(print(alloc, &Answer::Cover(all))?)
}

/// The answer to `cover` over the whole, from the answers of its parts, in any order of the parts.
/// Refused are a text that is no such answer, and then a source that stands in two parts. Time in
/// proportion to the sources and intervals and to the parts, times a logarithm; memory to the texts.
pub(crate) fn combine_covers(alloc: Global, covers: &[&str]) -> Result<Text, CombineFault>
    ensures combined { (p : List ℕ → ℕ) (E : List EventValue)
        → AreAnswers query.Cover p E (map (λ t. t.now) covers.now)
        → IfOk result (IsAnswer query.Cover E) }
    ensures apart { OnOk result (AreApartCovers (map (λ t. t.now) covers.now)) }
    ensures refused { IfErr result (RefusesCovers (map (λ t. t.now) covers.now)) }

    // Answers over the parts of a set want memory alone.
    ensures taken { (p : List ℕ → ℕ) (E : List EventValue)
        → AreAnswers query.Cover p E (map (λ t. t.now) covers.now)
        → OnErr result (result ≡ Err CombineFault.OutOfMemory) }
{
    // A law that the clauses rest on; the call does nothing.
    texts_tell_summaries();
    unite_texts(alloc, covers)
}
