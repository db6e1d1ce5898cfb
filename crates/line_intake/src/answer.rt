//! The lines by which lines are acknowledged.

ghost use Rattle.std.specs.Prelude.{◌≡◌, ◌-◌, length, IfOk, string_bytes};
ghost use Rattle.line_intake.specs.Answers.{answer_line, answers_text, fault_line, kept_line};

use crate::words::words_of;
use attributes::{Batch, List, Text};
use event_files::ReportFault;
use std::alloc::{AllocError, Global};

/// Which line is acknowledged, counted from 1, and why none of its events is taken, if so.
#[derive(Clone, Copy, Debug, PartialEq, Eq, Drop)]
pub struct Told {
    pub line: u64,
    pub fault: Option<ReportFault>,
}

/// `follow` acknowledges a line of which so many events were new, and so many there.
fn kept_line(alloc: Global, line: u64, fresh: u64, repeated: u64) -> Result<String, AllocError>
    ensures { IfOk result (λ text. string_bytes text ≡ kept_line line fresh repeated) }
{
    let text = format!(in alloc; "{{\"line\":{line},\"new\":{fresh},\"repeated\":{repeated}}}\n")?;
    Ok(text)
}

/// The acknowledgement by `follow` of a line at fault.
fn fault_line(alloc: Global, line: u64, fault: ReportFault) -> Result<String, AllocError>
    ensures { IfOk result (λ text. string_bytes text ≡ fault_line line fault) }
{
    let words = words_of(alloc, fault)?;
    let text = format!(in alloc; "{{\"line\":{line},\"fault\":\"{words}\"}}\n")?;
    Ok(text)
}

/// The acknowledgement of a line of so many events, of which so many were new.
fn answer_line(alloc: Global, told: Told, events: u64, fresh: u64) -> Result<String, AllocError>
    ensures { IfOk result (λ text. string_bytes text ≡ answer_line told events fresh) }
{
    match told.fault {
        None => kept_line(alloc, told.line, fresh, events.saturating_sub(fresh)),
        Some(fault) => fault_line(alloc, told.line, fault),
    }
}

/// The acknowledgements of lines, one behind the other: each with the events that it has, and how
/// many of them were new.
pub fn answers(
    alloc: Global,
    tells: &List<Told>,
    lists: &List<Batch>,
    each: &List<u64>,
) -> Result<Text, AllocError>
    requires lists { length lists.now ≡ length tells.now }
    requires each { length each.now ≡ length tells.now }
    ensures { IfOk result (λ text. text ≡ answers_text tells.now lists.now each.now) }
{
    let mut text = String::new(alloc);
    for i in 0..tells.len() {
        let line = answer_line(alloc, *tells.at(i), lists.at(i).len(), *each.at(i))?;
        text.push_str(line.as_str())?;
    }
    Ok(Text::from_string(text))
}
