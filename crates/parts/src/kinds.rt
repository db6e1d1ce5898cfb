//! How often types are shown, in the whole from its parts.

ghost use Rattle.std.specs.Prelude.{◌≡◌, ◌<◌, ◌^◌, ◌↔◌, ◌⊎◌, IfErr, IfNone, IfOk, IfSome, IsTrue, List, OnOk, Some, ℕ, length, map};
ghost use Rattle.std.specs.declared.cmp.Ordering.TheVariants.{Less};
ghost use Rattle.serde_json.specs.Written.{compact_text};
ghost use Rattle.attributes.specs.Bytes.{byte_cmp};
ghost use Rattle.attributes.specs.Event.{EventValue};
ghost use Rattle.views.specs.Line.{kind_data};
ghost use Rattle.views.specs.Question.{IsAnswer};
ghost use Rattle.views.specs.declared.query.Answer.TheVariants as answer_of;
ghost use Rattle.views.specs.declared.query.Query.TheVariants as query;
ghost use Rattle.parts.specs.Combined.{AreAnswers};
ghost use Rattle.parts.specs.Counts.{AreBeside, AreCounts, AreKindLines, AreKinds, IsCounted, IsSummed, RefusesBeside, RefusesCounts, RefusesSums, TellsNoRows};
ghost use Rattle.parts.specs.Lines.{AreJoined};
ghost use Rattle.parts.specs.Merge.{added};

use crate::counts::{CountRow, add, check_beside, read_counts};
use crate::fault::CombineFault;
use crate::lines::{Row, read_rows, read_value, whole_at, word_at};
use attributes::Text;
use attributes::laws::exact_json_reads_back;
use std::alloc::{AllocError, Global};
use std::collections::BTreeMap;
use views::{Answer, KindCount, Kinds, print};

/// The type and the count that a line of a part's answer tells.
fn read_kind(alloc: Global, line: &str) -> Result<Option<KindCount>, AllocError>
    ensures { IfOk result (λ o. (row : List ℕ × ℕ) → IsCounted row
        → line.now ≡ compact_text (kind_data row.0 row.1) → o ≡ Some row) }
{
    let Some(value) = read_value(alloc, line)? else {
        return Ok(None);
    };
    let Some(kind) = word_at(&value, 0) else {
        return Ok(None);
    };
    let Some(count) = whole_at(&value, 1) else {
        return Ok(None);
    };
    Ok(Some((Text::of(alloc, kind)?, count)))
}

impl Row for KindCount {
    ghost use Rattle.std.specs.Prelude.{◌≡◌};
    ghost use Rattle.serde_json.specs.Written.{compact_text};
    ghost use Rattle.views.specs.Line.{kind_data};
    ghost use Rattle.parts.specs.Counts.{IsCounted};

    ghost is_line = { λ row l. IsCounted row × (l ≡ compact_text (kind_data row.0 row.1)) };

    fn read(alloc: Global, line: &str) -> Result<Option<KindCount>, AllocError> {
        read_kind(alloc, line)
    }
}

/// Whether a row of a part's answer to `kinds` comes before another, by type as bytes.
fn is_before(row: &KindCount, other: &KindCount) -> bool
    ensures { IsTrue result ↔ (byte_cmp row.now.0 other.now.0 ≡ Less) }
{
    row.0.as_str() < other.0.as_str()
}

/// Whether in a part's rows each type comes after the one before, as bytes, each count at least 1.
fn are_counts(rows: &Kinds) -> bool
    ensures { IsTrue result ↔ AreCounts byte_cmp rows.now }
{
    for i in 0..rows.len() {
        if rows.at(i).1 == 0 {
            return false;
        }
        if i > 0 && !is_before(rows.at(i - 1), rows.at(i)) {
            return false;
        }
    }
    true
}

/// The types and counts of a part's answer to `kinds`.
fn kinds_in(answer: Answer) -> Option<Kinds>
    ensures { (rows : List (List ℕ × ℕ)) → answer ≡ answer_of.Kinds rows → result ≡ Some rows }
{
    match answer {
        Answer::Kinds(rows) => Some(rows),
        _ => None,
    }
}

/// The types and counts that a part's text tells, where it is such an answer.
fn read_kinds(alloc: Global, text: &str) -> Result<Option<Kinds>, AllocError>
    ensures some { IfOk result (λ o. IfSome o (AreKinds text.now)) }
    ensures none { IfOk result (λ o. IfNone o (TellsNoRows AreKinds text.now)) }
{
    // A law that the clauses rest on; the call does nothing.
    exact_json_reads_back();
    let Some(rows) = read_rows::<KindCount>(alloc, text)? else {
        return Ok(None);
    };
    if !are_counts(&rows) {
        return Ok(None);
    }
    let answer = Answer::Kinds(rows);
    let printed = print(alloc, &answer)?;
    if printed.as_str() != text {
        return Ok(None);
    }
    Ok(kinds_in(answer))
}

impl CountRow for KindCount {
    ghost use Rattle.parts.specs.Counts.{AreKinds};

    ghost tells = { AreKinds };

    fn read_text(alloc: Global, text: &str) -> Result<Option<Kinds>, AllocError> {
        read_kinds(alloc, text)
    }
}

/// The sums over all parts of the counts of each type.
fn sum_kinds(alloc: Global, rows: &[KindCount]) -> Result<Kinds, CombineFault>
    ensures sums { IfOk result (λ sums. sums ≡ added byte_cmp rows.now) }
    ensures err { IfErr result (RefusesSums byte_cmp rows.now) }
{
    let mut table = BTreeMap::new(alloc);
    for row in rows {
        add(&mut table, row.0.as_str(), row.1)?;
    }
    Ok(listed_kinds(alloc, &table)?)
}

/// The rows of the table of types that sums the parts.
fn listed_kinds(alloc: Global, table: &BTreeMap<&str, u64>) -> Result<Kinds, AllocError>
    ensures { IfOk result (λ rows. rows ≡ map (λ e. (e.0.now, e.1)) table.now.entries) }
{
    let mut rows = Kinds::empty(alloc);
    for (kind, count) in table {
        rows.push((Text::of(alloc, kind)?, *count))?;
    }
    Ok(rows)
}

/// The sums of the counts by type that the answers of all parts tell, in lines.
fn sum_answers(alloc: Global, answers: &[&str]) -> Result<Text, CombineFault>
    ensures summed { IfOk result (IsSummed AreKinds byte_cmp AreKindLines
        (map (λ t. t.now) answers.now)) }
    ensures refused { IfErr result (RefusesCounts AreKinds byte_cmp (map (λ t. t.now) answers.now)) }
{
    let all = read_counts::<KindCount>(alloc, answers)?;
    let sums = sum_kinds(alloc, all.as_slice())?;
    Ok(print(alloc, &Answer::Kinds(sums))?)
}

/// The answer to `kinds` over the whole, from the answers of its parts. They have no sources, so
/// the answer of each part to `cover` is given too, in which a source that stands in two parts is
/// seen. Refused are covers that are more or fewer than the answers, then what `combine_covers`
/// refuses of them, then a text that is no answer to `kinds`. Time in proportion to the texts,
/// times a logarithm, and for the covers as `combine_covers`; memory to the texts.
pub(crate) fn combine_kinds(
    alloc: Global,
    answers: &[&str],
    covers: &[&str],
) -> Result<Text, CombineFault>
    ensures combined { (p : List ℕ → ℕ) (E : List EventValue) → length E < 2 ^ 64
        → AreAnswers query.Kinds p E (map (λ t. t.now) answers.now)
        → IfOk result (IsAnswer query.Kinds E) }
    ensures told { OnOk result ((rows : List (List ℕ × ℕ))
        × AreJoined AreKinds (map (λ t. t.now) answers.now) rows) }
    ensures apart { OnOk result (AreBeside (map (λ t. t.now) answers.now)
        (map (λ t. t.now) covers.now)) }
    ensures refused { IfErr result (λ f.
        RefusesBeside (map (λ t. t.now) answers.now) (map (λ t. t.now) covers.now) f
        ⊎ RefusesCounts AreKinds byte_cmp (map (λ t. t.now) answers.now) f) }
{
    // A law that the clauses rest on; the call does nothing.
    exact_json_reads_back();
    check_beside(alloc, answers, covers)?;
    sum_answers(alloc, answers)
}
