//! Summaries of version 2 of parts: which numbers of which sources each has, and the digests of
//! their blocks.

ghost use Rattle.std.specs.Prelude.{◌≡◌, ℕ, List, IfErr, IfOk, OnErr, OnOk, length, map};
ghost use Rattle.std.specs.List.{AllByRecursion};
ghost use Rattle.attributes.specs.Event.{EventValue};
ghost use Rattle.parts.specs.Summaries.{AreApartSummaries, AreSummaries, AreSummaryLines, IsJoined, IsSecond, IsSummaryOf, RefusesSummaries, summary_line};

use crate::cover::{check_apart, read_of_version};
use crate::fault::CombineFault;
use attributes::Text;
use coverage::Summary;
use coverage::laws::texts_tell_summaries;
use std::alloc::{AllocError, Global};

/// The summaries of version 2 that the texts of parts tell, each in a line.
fn read_summaries(alloc: Global, texts: &[&str]) -> Result<Vec<Summary>, CombineFault>
    ensures read { IfOk result (λ v. AreSummaryLines (map (λ t. t.now) texts.now) v.items) }
    ensures refused { IfErr result (RefusesSummaries (map (λ t. t.now) texts.now)) }
{
    let mut summaries = Vec::new(alloc);
    for i in 0..texts.len() {
        let text = texts[i];
        match read_of_version(alloc, text, 2)? {
            Some(summary) => summaries.push(summary)?,
            None => return Err(CombineFault::NotAnAnswer { part: i as u64 }),
        }
    }
    Ok(summaries)
}

/// What all summaries of parts tell, each source as the one that has it does. Each is copied once
/// for each halving.
#[cycle(halves)]
fn join_all(alloc: Global, summaries: &[Summary]) -> Result<Summary, AllocError>
    requires { AllByRecursion IsSecond summaries.now }
    ensures second { IfOk result (λ all. IsSecond all) }
    ensures joined { IfOk result (IsJoined summaries.now (length summaries.now)) }
{
    match summaries.len() {
        0 => Ok(Summary::empty_digested(alloc)),
        1 => summaries[0].copy(),
        n => {
            let (first, rest) = summaries.split_at(n / 2);
            let left = join_all(alloc, first)?;
            let right = join_all(alloc, rest)?;
            let all = left.join(&right)?;
            Ok(all)
        }
    }
}

/// The text of the summary that parts combine to, in a line.
fn print_summary(summary: &Summary) -> Result<Text, AllocError>
    ensures { IfOk result (λ t. t ≡ summary_line summary.now) }
{
    let mut line = summary.to_text()?.into_string();
    line.push_str("\n")?;
    Ok(Text::from_string(line))
}

/// `combine_summaries`, without what is told of the parts of a set in error.
fn join_texts(alloc: Global, summaries: &[&str]) -> Result<Text, CombineFault>
    ensures combined { (p : List ℕ → ℕ) (E : List EventValue)
        → AreSummaries p E (map (λ t. t.now) summaries.now) → IfOk result (IsSummaryOf E) }
    ensures apart { OnOk result (AreApartSummaries (map (λ t. t.now) summaries.now)) }
    ensures refused { IfErr result (RefusesSummaries (map (λ t. t.now) summaries.now)) }
{
    // A law that the clauses rest on; the call does nothing.
    texts_tell_summaries();
    let read = read_summaries(alloc, summaries)?;
    check_apart(alloc, &read)?;
    let all = join_all(alloc, &read)?;
    Ok(print_summary(&all)?)
}

/// The summary of the whole, of version 2, from those of its parts, in any order of the parts.
/// Refused are a text that is no summary of version 2 with its line end, and then a source that
/// stands in two parts. Time in proportion to the sources, intervals and blocks and to the parts,
/// times a logarithm; memory to the texts.
pub fn combine_summaries(alloc: Global, summaries: &[&str]) -> Result<Text, CombineFault>
    ensures combined { (p : List ℕ → ℕ) (E : List EventValue)
        → AreSummaries p E (map (λ t. t.now) summaries.now) → IfOk result (IsSummaryOf E) }
    ensures apart { OnOk result (AreApartSummaries (map (λ t. t.now) summaries.now)) }
    ensures refused { IfErr result (RefusesSummaries (map (λ t. t.now) summaries.now)) }

    // Summaries of the parts of a set want memory alone.
    ensures taken { (p : List ℕ → ℕ) (E : List EventValue)
        → AreSummaries p E (map (λ t. t.now) summaries.now)
        → OnErr result (result ≡ Err CombineFault.OutOfMemory) }
{
    // A law that the clauses rest on; the call does nothing.
    texts_tell_summaries();
    join_texts(alloc, summaries)
}
