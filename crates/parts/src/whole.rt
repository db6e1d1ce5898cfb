//! Any answer over the whole, from the answers of its parts.

ghost use Rattle.std.specs.Prelude.{◌≡◌, ◌⊎◌, ℕ, List, IfErr, IfOk, OnErr, OnOk, map};
ghost use Rattle.attributes.specs.Event.{EventValue};
ghost use Rattle.views.specs.Question.{IsAnswer};
ghost use Rattle.parts.specs.Combined.{AreAnswers};
ghost use Rattle.parts.specs.Counts.{AreBeside, RefusesBeside};
ghost use Rattle.parts.specs.Told.{AreToldApart, IsHeld, IsOfEvents, RefusesTold};
ghost use Rattle.parts.specs.Whole.{AreApartIn, ArePartsOf, RefusesParts, has_covers, no_answer};

use crate::counts::check_beside;
use crate::cover::combine_covers;
use crate::days::combine_days;
use crate::fault::CombineFault;
use crate::gaps::combine_gaps;
use crate::kinds::combine_kinds;
use crate::told::combine_events;
use attributes::Text;
use attributes::laws::{exact_json_reads_back, text_tells_events};
use coverage::laws::texts_tell_summaries;
use std::alloc::Global;
use views::Query;

/// The answer to a question over the whole, from the answers of its parts, in any order of the
/// parts. Answers to `cover` and `shown` show each source of their parts; beside the others stand
/// the parts' answers to `cover`, one each and in the same order, in which a source that stands in
/// two parts is seen. For `cover` and `shown` no covers are looked at.
///
/// Refused are covers that are more or fewer than the answers, then a cover that is none, then a
/// source that stands in two parts, then a text that answers the question over no set, then a sum
/// of counts above 2^64 - 1; without covers the text comes before the source. Time in proportion to
/// the texts and the parts, times a logarithm; memory to the texts.
pub fn combine(
    alloc: Global,
    query: Query,
    answers: &[&str],
    covers: &[&str],
) -> Result<Text, CombineFault>
    ensures combined { (p : List ℕ → ℕ) (E : List EventValue) → IsHeld E
        → ArePartsOf query p E (map (λ t. t.now) answers.now) (map (λ t. t.now) covers.now)
        → IfOk result (IsAnswer query E) }
    ensures apart { OnOk result (AreApartIn query
        (map (λ t. t.now) answers.now) (map (λ t. t.now) covers.now)) }
    ensures refused { IfErr result (RefusesParts query
        (map (λ t. t.now) answers.now) (map (λ t. t.now) covers.now)) }

    // Answers over the parts of a set want memory alone.
    ensures taken { (p : List ℕ → ℕ) (E : List EventValue) → IsHeld E
        → ArePartsOf query p E (map (λ t. t.now) answers.now) (map (λ t. t.now) covers.now)
        → OnErr result (result ≡ Err CombineFault.OutOfMemory) }
{
    // Laws that the clauses rest on; the calls do nothing.
    texts_tell_summaries();
    text_tells_events();
    exact_json_reads_back();
    match query {
        Query::Cover => combine_covers(alloc, answers),
        Query::Shown => combine_events(alloc, Query::Shown, answers),
        Query::Conflicts => combine_beside(alloc, Query::Conflicts, answers, covers),
        Query::Latest => combine_beside(alloc, Query::Latest, answers, covers),
        Query::Kinds => combine_kinds(alloc, answers, covers),
        Query::Days => combine_days(alloc, answers, covers),
        Query::Gaps => combine_gaps(alloc, answers, covers),
    }
}

/// `combine_events`, with a part's cover beside each of the parts' answers.
fn combine_beside(
    alloc: Global,
    query: Query,
    answers: &[&str],
    covers: &[&str],
) -> Result<Text, CombineFault>
    requires { IsOfEvents query }
    ensures combined { (p : List ℕ → ℕ) (E : List EventValue) → IsHeld E
        → AreAnswers query p E (map (λ t. t.now) answers.now) → IfOk result (IsAnswer query E) }
    ensures told { OnOk result (AreToldApart query (map (λ t. t.now) answers.now)) }
    ensures apart { OnOk result (AreBeside (map (λ t. t.now) answers.now)
        (map (λ t. t.now) covers.now)) }
    ensures refused { IfErr result (λ f.
        RefusesBeside (map (λ t. t.now) answers.now) (map (λ t. t.now) covers.now) f
        ⊎ RefusesTold query (map (λ t. t.now) answers.now) f) }
{
    check_beside(alloc, answers, covers)?;
    combine_events(alloc, query, answers)
}

/// Whether the covers of the parts stand beside their answers to the question.
pub fn has_covers(query: Query) -> bool
    ensures { result ≡ has_covers query }
{
    match query {
        Query::Cover | Query::Shown => false,
        Query::Conflicts | Query::Latest | Query::Kinds | Query::Days | Query::Gaps => true,
    }
}

/// The fault of a part's answer that is none to the question.
pub fn no_answer(query: Query, part: u64) -> CombineFault
    ensures { result ≡ no_answer query part }
{
    match query {
        Query::Cover => CombineFault::NotACover { part },
        _ => CombineFault::NotAnAnswer { part },
    }
}
