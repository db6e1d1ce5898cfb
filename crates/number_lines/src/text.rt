//! What is written of lines: their events with their numbers, and why lines are refused.

ghost use Rattle.std.specs.Prelude.{◌≡◌, length, IfOk, string_bytes};
ghost use Rattle.number_lines.specs.Texts.{refused_line_text, fault_text, line_text, numbered_text, refusal_text};

use crate::refusal::{LineRefusal, Told};
use crate::words::words_of;
use attributes::{Batch, List, Text};
use event_json::write_sequenced;
use std::alloc::{AllocError, Global};

/// The batch of a line's events with their numbers as a line; nothing of one that is refused.
fn line_text(
    alloc: Global,
    fault: Option<LineRefusal>,
    answer: &Batch,
) -> Result<String, AllocError>
    ensures { IfOk result (λ text. string_bytes text ≡ line_text fault answer.now) }
{
    if fault.is_some() {
        return Ok(String::new(alloc));
    }
    let mut line = write_sequenced(alloc, answer)?.into_string();
    line.push_str("\n")?;
    Ok(line)
}

/// The lines of the events of gathered lines with their numbers, one behind the other.
pub fn numbered_text(
    alloc: Global,
    tells: &List<Told>,
    answers: &List<Batch>,
) -> Result<Text, AllocError>
    requires { length answers.now ≡ length tells.now }
    ensures { IfOk result (λ text. text ≡ numbered_text tells.now answers.now) }
{
    let mut text = String::new(alloc);
    for i in 0..tells.len() {
        let line = line_text(alloc, tells.at(i).fault, answers.at(i))?;
        text.push_str(line.as_str())?;
    }
    Ok(Text::from_string(text))
}

/// The line that says why a line of events without numbers is refused.
fn fault_line(alloc: Global, line: u64, refusal: LineRefusal) -> Result<String, AllocError>
    ensures { IfOk result (λ text. string_bytes text ≡ refused_line_text line refusal) }
{
    let words = words_of(alloc, refusal)?;
    let text = format!(in alloc; "{{\"line\":{line},\"fault\":\"{words}\"}}\n")?;
    Ok(text)
}

/// The error line of a line to be numbered that is refused; nothing of any other.
fn refusal_text(alloc: Global, told: Told) -> Result<String, AllocError>
    ensures { IfOk result (λ text. string_bytes text ≡ refusal_text told.line told.fault) }
{
    match told.fault {
        Some(refusal) => fault_line(alloc, told.line, refusal),
        None => Ok(String::new(alloc)),
    }
}

/// The error lines of the lines to be numbered that are refused, one behind the other.
pub fn fault_text(alloc: Global, tells: &List<Told>) -> Result<Text, AllocError>
    ensures { IfOk result (λ text. text ≡ fault_text tells.now) }
{
    let mut text = String::new(alloc);
    for i in 0..tells.len() {
        let line = refusal_text(alloc, *tells.at(i))?;
        text.push_str(line.as_str())?;
    }
    Ok(Text::from_string(text))
}
