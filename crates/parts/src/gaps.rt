//! Gaps of the whole, from those of its parts.

ghost use Rattle.std.specs.Prelude.{◌≡◌, ◌∷◌, ◌++◌, ◌⊎◌, [], ℕ, List, IfErr, IfOk, OnOk, false, filter, length, map, true};
ghost use Rattle.std.specs.Map.Iter.{deref_pair};
ghost use Rattle.attributes.specs.Event.{EventValue};
ghost use Rattle.coverage.specs.Intervals.{Forms, Interval, IsMissing};
ghost use Rattle.views.specs.Question.{IsAnswer};
ghost use Rattle.views.specs.declared.query.Query.TheVariants as query;
ghost use Rattle.views.specs.steps.Gaps.{AreGapsOf, has_gap};
ghost use Rattle.parts.specs.Combined.{AreAnswers, AreCovers};
ghost use Rattle.parts.specs.Counts.{AreBeside, RefusesBeside};
ghost use Rattle.parts.specs.Gaps.{AreGapTexts, AreGapsBeside, RefusesGaps, TellsGaps, TellsOther};

use crate::counts::read_beside;
use crate::cover::unite;
use crate::fault::CombineFault;
use attributes::Text;
use coverage::laws::texts_tell_summaries;
use coverage::{Intervals, Summary};
use std::alloc::{AllocError, Global};
use views::laws::answers_are_alike;
use views::{Answer, Gaps, print};

/// Adds a source of a part with what is missing of its numbers, if anything is.
fn add_gaps(
    alloc: Global,
    rows: &mut Gaps,
    source: &str,
    numbers: &Intervals,
) -> Result<(), AllocError>
    ensures { OnOk result ((missing : List Interval) × Forms missing (IsMissing numbers.now)
        × (rows.new ≡ rows.old ++ filter has_gap ((source.now, missing) ∷ []))) }
{
    let missing = numbers.missing()?;
    if missing.is_empty() {
        return Ok(());
    }
    rows.push((Text::of(alloc, source)?, missing))?;
    Ok(())
}

/// What the sources of a part lack of their numbers, without those that lack nothing.
fn gaps_of(alloc: Global, entries: &[(&str, &Intervals)]) -> Result<Gaps, AllocError>
    ensures { IfOk result (AreGapsOf (map deref_pair entries.now)) }
{
    let mut rows = Gaps::empty(alloc);
    for entry in entries {
        add_gaps(alloc, &mut rows, entry.0, entry.1)?;
    }
    Ok(rows)
}

/// The gaps of a part whose events have just the numbers of its summary, in lines.
fn gaps_text(alloc: Global, summary: &Summary) -> Result<Text, AllocError>
    ensures { IfOk result (TellsGaps summary.now) }
{
    let entries = summary.entries()?;
    let rows = gaps_of(alloc, &entries)?;
    print(alloc, &Answer::Gaps(rows))
}

/// Whether a part's text answers `gaps` over the sets that have just the numbers of its summary.
fn tells_gaps(alloc: Global, text: &str, summary: &Summary) -> Result<bool, AllocError>
    ensures some { IfOk result (λ b. b ≡ true → TellsGaps summary.now text.now) }
    ensures none { IfOk result (λ b. b ≡ false → TellsOther summary.now text.now) }
{
    // A law that the clauses rest on; the call does nothing.
    answers_are_alike();
    let own = gaps_text(alloc, summary)?;
    Ok(own.as_str() == text)
}

/// Whether each part's text answers `gaps` over the sets that have just the numbers of the summary
/// at its place; else the first that doesn't.
fn check_gaps(alloc: Global, texts: &[&str], summaries: &[Summary]) -> Result<(), CombineFault>
    requires { length texts.now ≡ length summaries.now }
    ensures told { OnOk result (AreGapTexts (map (λ t. t.now) texts.now) summaries.now) }
    ensures refused { (covers : List (List ℕ)) → AreCovers covers summaries.now
        → IfErr result (RefusesGaps (map (λ t. t.now) texts.now) covers) }
{
    for i in 0..texts.len() {
        let text = texts[i];
        if !tells_gaps(alloc, text, &summaries[i])? {
            return Err(CombineFault::NotAnAnswer { part: i as u64 });
        }
    }
    Ok(())
}

/// The answer to `gaps` over the whole, from the answers of its parts, beside each of which stands
/// the part's answer to `cover`: a source without a gap has no line, so an overlap is seen in the
/// covers. Refused are covers that are more or fewer than the answers, then what `combine_covers`
/// refuses of them, then a text that isn't the answer beside its cover. Time in proportion to the
/// texts, and for the covers as `combine_covers`; memory to the texts.
pub(crate) fn combine_gaps(
    alloc: Global,
    answers: &[&str],
    covers: &[&str],
) -> Result<Text, CombineFault>
    ensures combined { (p : List ℕ → ℕ) (E : List EventValue)
        → AreAnswers query.Cover p E (map (λ t. t.now) covers.now)
        → IfOk result (IsAnswer query.Gaps E) }
    ensures told { OnOk result (AreGapsBeside (map (λ t. t.now) answers.now)
        (map (λ t. t.now) covers.now)) }
    ensures apart { OnOk result (AreBeside (map (λ t. t.now) answers.now)
        (map (λ t. t.now) covers.now)) }
    ensures refused { IfErr result (λ f.
        RefusesBeside (map (λ t. t.now) answers.now) (map (λ t. t.now) covers.now) f
        ⊎ RefusesGaps (map (λ t. t.now) answers.now) (map (λ t. t.now) covers.now) f) }
{
    // A law that the clauses rest on; the call does nothing.
    texts_tell_summaries();
    let summaries = read_beside(alloc, answers, covers)?;
    check_gaps(alloc, answers, &summaries)?;
    let all = unite(alloc, &summaries)?;
    Ok(gaps_text(alloc, &all)?)
}
