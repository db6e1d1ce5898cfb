//! How often types are shown by day, in the whole from its parts.

ghost use Rattle.std.specs.Prelude.{◌≡◌, ◌<◌, ◌^◌, ◌++◌, ◌↔◌, ◌⊎◌, ℕ, ℤ, List, IfErr, IfNone, IfOk, IfSome, IsTrue, OnOk, Some, length, map, string_bytes};
ghost use Rattle.std.specs.declared.cmp.Ordering.TheVariants.{Less};
ghost use Rattle.attributes.specs.Event.{EventValue};
ghost use Rattle.serde_json.specs.Written.{compact_text};
ghost use Rattle.views.specs.Day.{IsDayText};
ghost use Rattle.views.specs.Line.{AreDayLines, IsDayLine, day_data, line};
ghost use Rattle.views.specs.Question.{IsAnswer};
ghost use Rattle.views.specs.Tally.{day_cmp};
ghost use Rattle.views.specs.declared.query.Query.TheVariants as query;
ghost use Rattle.parts.specs.Combined.{AreAnswers};
ghost use Rattle.parts.specs.Counts.{AreBeside, AreCounts, AreDays, IsCounted, IsSummed, RefusesBeside, RefusesCounts, RefusesSums, TellsNoRows};
ghost use Rattle.parts.specs.Lines.{AreJoined};
ghost use Rattle.parts.specs.Merge.{added};

use crate::civil_day::CivilDay;
use crate::counts::{CountRow, add, check_beside, read_counts};
use crate::fault::CombineFault;
use crate::lines::{Row, read_rows, read_value, whole_at, word_at};
use attributes::laws::exact_json_reads_back;
use attributes::{List, Text};
use json::Writer;
use std::alloc::{AllocError, Global};
use std::collections::BTreeMap;

/// A type and a day, and how many events have both.
type DayCount = ((Text, CivilDay), u64);

/// The type, the day and the count that a line of a part's answer tells.
fn read_day(alloc: Global, line: &str) -> Result<Option<DayCount>, AllocError>
    ensures { IfOk result (λ o. (row : (List ℕ × ℤ) × ℕ) (day : List ℕ) → IsCounted row
        → IsDayText row.0.1 day → line.now ≡ compact_text (day_data row.0.0 day row.1)
        → o ≡ Some row) }
{
    let Some(value) = read_value(alloc, line)? else {
        return Ok(None);
    };
    let Some(kind) = word_at(&value, 0) else {
        return Ok(None);
    };
    let Some(word) = word_at(&value, 1) else {
        return Ok(None);
    };
    let Some(count) = whole_at(&value, 2) else {
        return Ok(None);
    };
    let Some(day) = CivilDay::of_text(word) else {
        return Ok(None);
    };
    Ok(Some(((Text::of(alloc, kind)?, day), count)))
}

impl Row for DayCount {
    ghost use Rattle.std.specs.Prelude.{◌≡◌, ℕ, List};
    ghost use Rattle.serde_json.specs.Written.{compact_text};
    ghost use Rattle.views.specs.Day.{IsDayText};
    ghost use Rattle.views.specs.Line.{day_data};
    ghost use Rattle.parts.specs.Counts.{IsCounted};

    ghost is_line = { λ row l. IsCounted row × ((day : List ℕ) × IsDayText row.0.1 day
        × (l ≡ compact_text (day_data row.0.0 day row.1))) };

    fn read(alloc: Global, line: &str) -> Result<Option<DayCount>, AllocError> {
        read_day(alloc, line)
    }
}

/// Whether a row of a part's answer to `days` comes before another by type, then day.
fn is_before(row: &DayCount, other: &DayCount) -> bool
    ensures { IsTrue result ↔ (day_cmp row.now.0 other.now.0 ≡ Less) }
{
    let kinds = row.0.0.as_str().cmp(other.0.0.as_str());
    kinds.then(row.0.1.cmp(&other.0.1)).is_lt()
}

/// Whether in a part's rows each type and day comes after the one before, each count at least 1.
fn are_counts(rows: &List<DayCount>) -> bool
    ensures { IsTrue result ↔ AreCounts day_cmp rows.now }
{
    for i in 0..rows.len() {
        if rows.at(i).1 == 0 {
            return false;
        }
        if i > 0 && !is_before(rows.at(i - 1), rows.at(i)) {
            return false;
        }
    }
    true
}

/// The text `["TYPE","YYYY-MM-DD",N]` in an answer that parts combine to.
fn row_text(alloc: Global, kind: &str, day: &str, count: u64) -> Result<Text, AllocError>
    ensures { IfOk result (λ t. t ≡ compact_text (day_data kind.now day.now count)) }
{
    let mut out = Writer::new(Vec::new(alloc));
    out.begin_array()?;
    out.string(kind)?;
    out.string(day)?;
    out.u64(count)?;
    out.end_array()?;
    let text = String::from_utf8(out.into_inner()).unwrap();
    Ok(Text::from_string(text))
}

/// Adds a line to an answer that parts combine to.
fn end_line(out: &mut String, text: &str) -> Result<(), AllocError>
    ensures { OnOk result (string_bytes out.new ≡ string_bytes out.old ++ line text.now) }
{
    out.push_str(text)?;
    out.push_str("\n")
}

/// Adds the line of a type and a day to an answer that parts combine to.
fn add_line(alloc: Global, out: &mut String, row: &DayCount) -> Result<(), AllocError>
    ensures { OnOk result ((l : List ℕ) × IsDayLine row.now l
        × (string_bytes out.new ≡ string_bytes out.old ++ l)) }
{
    let day = row.0.1.text(alloc)?;
    let text = row_text(alloc, row.0.0.as_str(), day.as_str(), row.1)?;
    end_line(out, text.as_str())
}

/// For each row of parts or their sums `["TYPE","YYYY-MM-DD",N]` in a line.
fn print_days(alloc: Global, rows: &List<DayCount>) -> Result<Text, AllocError>
    ensures { IfOk result (AreDayLines rows.now) }
{
    let mut out = String::new(alloc);
    for i in 0..rows.len() {
        add_line(alloc, &mut out, rows.at(i))?;
    }
    Ok(Text::from_string(out))
}

/// The types, days and counts that a part's text tells, where it is such an answer.
fn read_days(alloc: Global, text: &str) -> Result<Option<List<DayCount>>, AllocError>
    ensures some { IfOk result (λ o. IfSome o (AreDays text.now)) }
    ensures none { IfOk result (λ o. IfNone o (TellsNoRows AreDays text.now)) }
{
    // A law that the clauses rest on; the call does nothing.
    exact_json_reads_back();
    let Some(rows) = read_rows::<DayCount>(alloc, text)? else {
        return Ok(None);
    };
    if !are_counts(&rows) {
        return Ok(None);
    }
    let printed = print_days(alloc, &rows)?;
    if printed.as_str() != text {
        return Ok(None);
    }
    Ok(Some(rows))
}

impl CountRow for DayCount {
    ghost use Rattle.parts.specs.Counts.{AreDays};

    ghost tells = { AreDays };

    fn read_text(alloc: Global, text: &str) -> Result<Option<List<DayCount>>, AllocError> {
        read_days(alloc, text)
    }
}

/// The sums over all parts of the counts of each type and day.
fn sum_days(alloc: Global, rows: &[DayCount]) -> Result<List<DayCount>, CombineFault>
    ensures sums { IfOk result (λ sums. sums ≡ added day_cmp rows.now) }
    ensures err { IfErr result (RefusesSums day_cmp rows.now) }
{
    let mut table = BTreeMap::new(alloc);
    for row in rows {
        add(&mut table, (row.0.0.as_str(), row.0.1), row.1)?;
    }
    Ok(listed_days(alloc, &table)?)
}

/// The rows of the table of types and days that sums the parts.
fn listed_days(
    alloc: Global,
    table: &BTreeMap<(&str, CivilDay), u64>,
) -> Result<List<DayCount>, AllocError>
    ensures { IfOk result (λ rows. rows ≡ map (λ e. ((e.0.0.now, e.0.1), e.1)) table.now.entries) }
{
    let mut rows = List::empty(alloc);
    for (key, count) in table {
        rows.push(((Text::of(alloc, key.0)?, key.1), *count))?;
    }
    Ok(rows)
}

/// The sums of the counts by day that the answers of all parts tell, in lines.
fn sum_answers(alloc: Global, answers: &[&str]) -> Result<Text, CombineFault>
    ensures summed { IfOk result (IsSummed AreDays day_cmp AreDayLines
        (map (λ t. t.now) answers.now)) }
    ensures refused { IfErr result (RefusesCounts AreDays day_cmp (map (λ t. t.now) answers.now)) }
{
    let all = read_counts::<DayCount>(alloc, answers)?;
    let sums = sum_days(alloc, all.as_slice())?;
    Ok(print_days(alloc, &sums)?)
}

/// The answer to `days` over the whole, from the answers of its parts, as `combine_kinds`.
pub(crate) fn combine_days(
    alloc: Global,
    answers: &[&str],
    covers: &[&str],
) -> Result<Text, CombineFault>
    ensures combined { (p : List ℕ → ℕ) (E : List EventValue) → length E < 2 ^ 64
        → AreAnswers query.Days p E (map (λ t. t.now) answers.now)
        → IfOk result (IsAnswer query.Days E) }
    ensures told { OnOk result ((rows : List ((List ℕ × ℤ) × ℕ))
        × AreJoined AreDays (map (λ t. t.now) answers.now) rows) }
    ensures apart { OnOk result (AreBeside (map (λ t. t.now) answers.now)
        (map (λ t. t.now) covers.now)) }
    ensures refused { IfErr result (λ f.
        RefusesBeside (map (λ t. t.now) answers.now) (map (λ t. t.now) covers.now) f
        ⊎ RefusesCounts AreDays day_cmp (map (λ t. t.now) answers.now) f) }
{
    // A law that the clauses rest on; the call does nothing.
    exact_json_reads_back();
    check_beside(alloc, answers, covers)?;
    sum_answers(alloc, answers)
}
