//! Answers in lines.

ghost use Rattle.std.specs.Prelude.{◌≡◌, ◌≢◌, ◌<◌, [], ◌∷◌, ◌++◌, IfOk, OnErr, OnOk, List, Some, true, ℕ, length, map, slice_get, string_bytes};
ghost use Rattle.std.specs.List.{join_with_byte};
ghost use Rattle.attributes.specs.Event.{EventValue, text};
ghost use Rattle.inbox.specs.Conflicts.{conflicts, conflicts_of, is_first_of_several};
ghost use Rattle.inbox.specs.Kept.{events};
ghost use Rattle.jiff_core.specs.Date.{epoch_day};
ghost use Rattle.serde_json.specs.Written.{compact_text};
ghost use Rattle.views.specs.Day.{IsDayText};
ghost use Rattle.views.specs.Line.{AreDayLines, IsDayLine, conflict_line, conflict_lines, cover_line, day_data, event_lines, gap_data, gap_line, gap_lines, kind_data, kind_line, kind_lines, line, string_text};
ghost use Rattle.views.specs.steps.Joined.{separated};

use crate::day::Day;
use crate::row::{DayCount, Days, Gaps, Kinds, SourceGaps};
use crate::view::{lent, lent_from};
use attributes::{Batch, Sequenced, Text};
use coverage::{Intervals, Summary};
use inbox::{Conflict, Conflicts, Inbox};
use jiff::civil;
use jiff_core::civil::Date;
use json::Writer;
use std::alloc::{AllocError, Global};

/// Adds a line of an answer to a question.
fn end_line(out: &mut String, text: &str) -> Result<(), AllocError>
    ensures { OnOk result (string_bytes out.new ≡ string_bytes out.old ++ line text.now) }
{
    out.push_str(text)?;
    out.push_str("\n")
}

/// The line that answers the question `cover`: the text of a summary.
pub(crate) fn print_cover(alloc: Global, summary: &Summary) -> Result<Text, AllocError>
    ensures { IfOk result (λ t. t ≡ cover_line summary.now) }
{
    let mut out = String::new(alloc);
    end_line(&mut out, summary.to_text()?.as_str())?;
    Ok(Text::from_string(out))
}

/// Lines of answers: canonical texts of events, one a line. Time and memory in proportion to them.
pub(crate) fn print_events(alloc: Global, events: &Batch) -> Result<Text, AllocError>
    ensures { IfOk result (λ t. t ≡ event_lines events.now) }
{
    let mut out = String::new(alloc);
    for i in 0..events.len() {
        end_line(&mut out, events.at(i).event().text())?;
    }
    Ok(Text::from_string(out))
}

/// Canonical texts of events lent to an answer, one a line. Time and memory in proportion to them.
pub(crate) fn print_lent(alloc: Global, events: &[&Sequenced]) -> Result<Text, AllocError>
    ensures { IfOk result (λ t. t ≡ event_lines (map (λ e. e.now) events.now)) }
{
    let mut out = String::new(alloc);
    for event in events {
        end_line(&mut out, event.event().text())?;
    }
    Ok(Text::from_string(out))
}

/// Adds a text to the line of an answer, with a comma before it unless it is the first.
fn push_text(out: &mut String, is_first: bool, text: &str) -> Result<(), AllocError>
    ensures { OnOk result (string_bytes out.new
        ≡ string_bytes out.old ++ separated is_first text.now) }
{
    if !is_first {
        out.push_str(",")?;
    }
    out.push_str(text)
}

/// Adds canonical texts, joined by commas, to the line of a conflict in an answer.
fn push_texts(out: &mut String, events: &[&Sequenced]) -> Result<(), AllocError>
    ensures { OnOk result (string_bytes out.new
        ≡ string_bytes out.old ++ join_with_byte 44 (map text (map (λ e. e.now) events.now))) }
{
    for i in 0..events.len() {
        push_text(out, i == 0, events[i].event().text())?;
    }
    Ok(())
}

/// A text as a JSON string in the line of an answer.
fn string_text(alloc: Global, words: &str) -> Result<Text, AllocError>
    ensures { IfOk result (λ t. t ≡ string_text words.now) }
{
    let mut out = Writer::new(Vec::new(alloc));
    out.string(words)?;
    let text = String::from_utf8(out.into_inner()).unwrap();
    Ok(Text::from_string(text))
}

/// Adds to an answer the line of the conflict of events of a source and id. The canonical texts are
/// added as they are.
fn add_conflict(
    alloc: Global,
    out: &mut String,
    source: &str,
    id: &str,
    events: &[&Sequenced],
) -> Result<(), AllocError>
    ensures { OnOk result (string_bytes out.new ≡ string_bytes out.old ++ conflict_line (record {
      source = source.now;
      id = id.now;
      events = map (λ e. e.now) events.now;
    })) }
{
    let id = string_text(alloc, id)?;
    let source = string_text(alloc, source)?;
    out.push_str("{\"events\":[")?;
    push_texts(out, events)?;
    out.push_str("],\"id\":")?;
    out.push_str(id.as_str())?;
    out.push_str(",\"source\":")?;
    out.push_str(source.as_str())?;
    out.push_str("}")?;
    out.push_str("\n")?;
    Ok(())
}

/// The lines that answer `conflicts`: for each `{"events":[T1,T2,..],"id":ID,"source":SOURCE}`.
/// Time and memory in proportion to the texts.
pub(crate) fn print_conflicts(alloc: Global, rows: &Conflicts) -> Result<Text, AllocError>
    ensures { IfOk result (λ t. t ≡ conflict_lines rows.now) }
{
    let mut out = String::new(alloc);
    for i in 0..rows.len() {
        add_row(alloc, &mut out, rows.at(i))?;
    }
    Ok(Text::from_string(out))
}

/// Adds the line of a conflict to the answer to `conflicts`.
fn add_row(alloc: Global, out: &mut String, row: &Conflict) -> Result<(), AllocError>
    ensures { OnOk result (string_bytes out.new ≡ string_bytes out.old ++ conflict_line row.now) }
{
    let events = lent(alloc, &row.events)?;
    add_conflict(alloc, out, row.source.as_str(), row.id.as_str(), &events)
}

/// Adds to the answer to `conflicts` the line of the conflict of the key of the event at place i,
/// if that is the first of several.
fn add_conflict_at(alloc: Global, out: &mut String, inbox: &Inbox, i: u64) -> Result<(), AllocError>
    requires in_range { i < length (events inbox.now) }
    ensures line { OnOk result ((e : EventValue) → slice_get (events inbox.now) i ≡ Some e
        → string_bytes out.new
        ≡ string_bytes out.old ++ conflict_lines (conflicts_of (events inbox.now) (e ∷ []))) }
    ensures err { OnErr result ((e : EventValue) → slice_get (events inbox.now) i ≡ Some e
        → is_first_of_several (events inbox.now) e ≡ true) }
{
    if !inbox.is_shown(i) {
        return Ok(());
    }
    let n = inbox.key_len(i);
    if n > 1 {
        let events = lent_from(alloc, inbox, i, n)?;
        let event = inbox.at(i).event();
        add_conflict(alloc, out, event.source(), event.id(), &events)?;
    }
    Ok(())
}

/// What `print_conflicts` makes of a set's conflicts, the events printed where they stand.
pub(crate) fn print_conflicts_of(alloc: Global, inbox: &Inbox) -> Result<Text, AllocError>
    ensures lines { IfOk result (λ t. t ≡ conflict_lines (conflicts (events inbox.now))) }
    ensures err { OnErr result (conflicts (events inbox.now) ≢ []) }
{
    let mut out = String::new(alloc);
    for i in 0..inbox.len() {
        add_conflict_at(alloc, &mut out, inbox, i)?;
    }
    Ok(Text::from_string(out))
}

/// The text `["TYPE",N]` of a line that answers `kinds`.
fn kind_text(alloc: Global, kind: &str, count: u64) -> Result<Text, AllocError>
    ensures { IfOk result (λ t. t ≡ compact_text (kind_data kind.now count)) }
{
    let mut out = Writer::new(Vec::new(alloc));
    out.begin_array()?;
    out.string(kind)?;
    out.u64(count)?;
    out.end_array()?;
    let text = String::from_utf8(out.into_inner()).unwrap();
    Ok(Text::from_string(text))
}

/// The lines that answer `kinds`: for each row `["TYPE",N]`.
pub(crate) fn print_kinds(alloc: Global, kinds: &Kinds) -> Result<Text, AllocError>
    ensures { IfOk result (λ t. t ≡ kind_lines kinds.now) }
{
    let mut out = String::new(alloc);
    for i in 0..kinds.len() {
        let row = kinds.at(i);
        let text = kind_text(alloc, row.0.as_str(), row.1)?;
        end_line(&mut out, text.as_str())?;
    }
    Ok(Text::from_string(out))
}

/// The date that has the day number by which `days` counts.
fn date_of(day: Day) -> civil::Date
    ensures { epoch_day result ≡ day }
{
    let date = Date::from_unix_epoch_day(day.number() as i64).unwrap();
    civil::Date::from_plain(date)
}

/// The day as YYYY-MM-DD, as an answer to `days` prints it.
fn day_text(alloc: Global, day: Day) -> Result<String, AllocError>
    ensures { IfOk result (λ t. IsDayText day (string_bytes t)) }
{
    let date = date_of(day);
    Ok(format!(in alloc; "{date}")?)
}

/// The text `["TYPE","YYYY-MM-DD",N]` of a line that answers `days`.
fn day_row_text(alloc: Global, kind: &str, day: &str, count: u64) -> Result<Text, AllocError>
    ensures { IfOk result (λ t. t ≡ compact_text (day_data kind.now day.now count)) }
{
    let mut out = Writer::new(Vec::new(alloc));
    out.begin_array()?;
    out.string(kind)?;
    out.string(day)?;
    out.u64(count)?;
    out.end_array()?;
    let text = String::from_utf8(out.into_inner()).unwrap();
    Ok(Text::from_string(text))
}

/// Adds the line of a type and a day to the answer to `days`.
fn add_day(alloc: Global, out: &mut String, row: &DayCount) -> Result<(), AllocError>
    ensures { OnOk result ((l : List ℕ) × IsDayLine row.now l
        × (string_bytes out.new ≡ string_bytes out.old ++ l)) }
{
    let day = day_text(alloc, row.0.1)?;
    let text = day_row_text(alloc, row.0.0.as_str(), day.as_str(), row.1)?;
    end_line(out, text.as_str())
}

/// The lines that answer `days`: for each row `["TYPE","YYYY-MM-DD",N]`.
pub(crate) fn print_days(alloc: Global, days: &Days) -> Result<Text, AllocError>
    ensures { IfOk result (AreDayLines days.now) }
{
    let mut out = String::new(alloc);
    for i in 0..days.len() {
        add_day(alloc, &mut out, days.at(i))?;
    }
    Ok(Text::from_string(out))
}

/// The text `["SOURCE",[[a,b],..]]` of a line that answers `gaps`.
fn gap_text(alloc: Global, source: &str, missing: &Intervals) -> Result<Text, AllocError>
    ensures { IfOk result (λ t. t ≡ compact_text (gap_data (source.now, missing.now))) }
{
    let mut out = Writer::new(Vec::new(alloc));
    out.begin_array()?;
    out.string(source)?;
    out.begin_array()?;
    missing.write(&mut out)?;
    out.end_array()?;
    out.end_array()?;
    let text = String::from_utf8(out.into_inner()).unwrap();
    Ok(Text::from_string(text))
}

/// Adds the line of a source with its gaps to the answer to `gaps`.
fn add_gap(alloc: Global, out: &mut String, row: &SourceGaps) -> Result<(), AllocError>
    ensures { OnOk result (string_bytes out.new ≡ string_bytes out.old ++ gap_line row.now) }
{
    let text = gap_text(alloc, row.0.as_str(), &row.1)?;
    end_line(out, text.as_str())
}

/// The lines that answer `gaps`: for each row `["SOURCE",[[a,b],..]]`.
pub(crate) fn print_gaps(alloc: Global, gaps: &Gaps) -> Result<Text, AllocError>
    ensures { IfOk result (λ t. t ≡ gap_lines gaps.now) }
{
    let mut out = String::new(alloc);
    for i in 0..gaps.len() {
        add_gap(alloc, &mut out, gaps.at(i))?;
    }
    Ok(Text::from_string(out))
}
