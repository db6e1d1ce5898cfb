//! The words of refusals.

ghost use Rattle.std.specs.Prelude.{◌≡◌, IfOk, string_bytes};
ghost use Rattle.number_lines.specs.Words.{number_words, words_of_refusal};

use crate::refusal::LineRefusal;
use event_files::ReportFault;
use numbers::NumberFault;
use std::alloc::{AllocError, Global};

/// `event I: NAME`, of an event that can't be numbered.
fn number_words(alloc: Global, fault: NumberFault) -> Result<String, AllocError>
    ensures { IfOk result (λ words. string_bytes words ≡ number_words fault) }
{
    match fault {
        NumberFault::OutOfMemory => String::from_str(alloc, "out of memory"),
        NumberFault::HasSequence { index } => {
            let words = format!(in alloc; "event {index}: HasSequence")?;
            Ok(words)
        }
        NumberFault::TooLarge { index } => {
            let words = format!(in alloc; "event {index}: TooLarge")?;
            Ok(words)
        }
        NumberFault::Full { index } => {
            let words = format!(in alloc; "event {index}: Full")?;
            Ok(words)
        }
    }
}

/// The words of why a line isn't numbered; those of bytes that spell no events are as of a file.
pub(crate) fn words_of(alloc: Global, refusal: LineRefusal) -> Result<String, AllocError>
    ensures { IfOk result (λ words. string_bytes words ≡ words_of_refusal refusal) }
{
    match refusal {
        LineRefusal::Read(why) => line_intake::words_of(alloc, ReportFault::Read(why)),
        LineRefusal::Number(why) => number_words(alloc, why),
        LineRefusal::Aside { index } => {
            let words = format!(in alloc; "event {index}: Aside")?;
            Ok(words)
        }
    }
}
