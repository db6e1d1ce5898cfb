//! How a run of the program ends, as a value, and what writes it.
ghost use Rattle.std.specs.Prelude.{◌≡◌, List, ℕ, IfSome, IsNone};
ghost use Rattle.std.specs.Io.KnownBytes.{Appends};
ghost use Rattle.line_intake.specs.Written.{Wrote};
ghost use Rattle.site_commands.specs.Endings.{Ends, EndsPages, GrowsBy, SaysRefusal, Writes};
ghost use Rattle.site_commands.specs.Names.{lent};
ghost use Rattle.site_commands.specs.Comes.{IsLine, IsToldBeside};

use crate::hint::Hint;
use crate::line::{Refusal, line_of, made_lines};
use crate::names::Names;
use crate::progress::Progress;
use attributes::Text;
use databases::EventPages;
use line_intake::put;
use std::alloc::Global;
use std::io::Write;
use std::mem;

/// The status of a run that printed a result.
pub const DONE: u8 = 0;
/// The status of a run that was refused, or whose output could not be written.
pub const REFUSED: u8 = 1;
/// The status of words that are at fault, or ask for help or the version.
const FAULTY: u8 = 2;

/// What is said where memory ran out.
const NO_MEMORY: &str = "site: out of memory\n";

/// What a run comes to, before anything is written.
#[derive(Drop)]
pub enum Ending {
    /// The answer, for standard output: status 0.
    Answer(Text),
    /// The answer, for standard output, and the lines of what was made for it, for standard error:
    /// status 0.
    Told { text: Text, made: Text },
    /// The answer in pages, each a line that is made when it is written, for standard output:
    /// status 0. Memory that runs out between two pages ends it with 1 and a line on
    /// standard error.
    Pages(EventPages),
    /// What a check found to be at fault, for standard output: status 1.
    Findings(Text),
    /// Help or the version, asked for, for standard output: status 2.
    Help(Text),
    /// What is said of faulty words, for standard error: status 2.
    Faulty(Text),
    /// Why there is no answer, one line for standard error: status 1. Who looks on gets the hint
    /// too, where there is one.
    Refused { line: Text, hint: Option<Hint> },
    /// Why the answers of parts make none of the whole, one line for standard error: status 1. Who
    /// looks on gets the hint too, where there is one.
    Uncombined { line: Text, hint: Option<Hint> },
    /// Which part's file couldn't be written, one line for standard error: status 1. Who looks on
    /// gets the hint too, where there is one.
    Unsaved { line: Text, hint: Option<Hint> },
    /// Memory ran out, which a line on standard error says: status 1.
    NoMemory,
}

/// A line that stands on standard error: a hint is given behind it alone.
#[derive(Clone, Copy)]
pub struct Shown {
    _private: (),
}

/// Writes the ending to the stream that it is for, and answers the status; what was made is told
/// first, on standard error. A write that fails ends with 1, and nothing more is written.
pub fn finish<O: Write, E: Write, P: Progress>(
    ending: Ending,
    out: &mut O,
    err: &mut E,
    progress: &P,
) -> u8
    ensures { Ends ending result (O.contents out.old) (O.contents out.new) (E.contents err.old)
        (E.contents err.new) }
{
    match ending {
        Ending::Answer(text) => print(out, text.as_str(), DONE),
        Ending::Told { text, made } => {
            tell(err, made.as_str());
            print(out, text.as_str(), DONE)
        }
        Ending::Pages(mut pages) => {
            let status = print_pages(out, err, &mut pages);
            // The program ends next: the memory of the events is left to the operating system.
            mem::forget(pages);
            status
        }
        Ending::Findings(text) => print(out, text.as_str(), REFUSED),
        Ending::Help(text) => print(out, text.as_str(), FAULTY),
        Ending::Faulty(text) => print(err, text.as_str(), FAULTY),
        Ending::Refused { line, hint } => refuse(err, line.as_str(), hint, progress),
        Ending::Uncombined { line, hint } => refuse(err, line.as_str(), hint, progress),
        Ending::Unsaved { line, hint } => refuse(err, line.as_str(), hint, progress),
        Ending::NoMemory => print(err, NO_MEMORY, REFUSED),
    }
}

/// Writes to standard output the pages that are left, each as it is made.
fn print_pages<O: Write, E: Write>(out: &mut O, err: &mut E, left: &mut EventPages) -> u8
    ensures { EndsPages left.old result (O.contents out.old) (O.contents out.new)
        (E.contents err.old) (E.contents err.new) }
{
    let most = left.most();
    for page in 0..most {
        match left.next_line() {
            Ok(Some(line)) => match put(out, line.as_str().as_bytes()) {
                Ok(()) => {}
                Err(_) => return REFUSED,
            },
            Ok(None) => return DONE,
            Err(_) => return print(err, NO_MEMORY, REFUSED),
        }
    }
    DONE
}

/// Writes a text to a stream. The answer is the exit status, or a refusal's if the writing fails.
fn print<W: Write>(to: &mut W, text: &str, status: u8) -> u8
    ensures { Writes result status (W.contents to.old) (W.contents to.new) text.now }
{
    match put(to, text.as_bytes()) {
        Ok(()) => status,
        Err(_) => REFUSED,
    }
}

/// Writes to standard error what was made, as far as it can be written.
fn tell<E: Write>(err: &mut E, made: &str)
    ensures { GrowsBy (E.contents err.old) (E.contents err.new) made.now }
{
    let _told = put(err, made.as_bytes());
}

/// Writes the error line of a refusal, and behind it gives the hint, where there is one.
fn refuse<E: Write, P: Progress>(err: &mut E, line: &str, hint: Option<Hint>, progress: &P) -> u8
    ensures { Writes result 1 (E.contents err.old) (E.contents err.new) line.now }
{
    if let Some(shown) = show(err, line) {
        if let Some(hint) = hint {
            progress.hint(shown, hint.as_str());
        }
    }
    REFUSED
}

/// Writes an error line; none is shown where it couldn't be written whole.
fn show<E: Write>(err: &mut E, line: &str) -> Option<Shown>
    ensures some { IfSome result
        (λ _. Appends (E.contents err.old) (E.contents err.new) line.now) }
    ensures none { IsNone result → (rest : List ℕ)
        × Wrote (E.contents err.old) (E.contents err.new) line.now rest }
{
    match put(err, line.as_bytes()) {
        Ok(()) => Some(Shown { _private: () }),
        Err(_) => None,
    }
}

/// The ending of a refusal of a program's plan that names these: its error line, where memory is
/// left for it, and the hint behind it.
pub fn refused(alloc: Global, names: Names<'_>, refusal: Refusal, hint: Option<Hint>) -> Ending
    ensures { IsLine (lent names.entry) refusal result }
{
    match line_of(alloc, names, refusal) {
        Ok(line) => Ending::Refused { line, hint },
        Err(_) => Ending::NoMemory,
    }
}

/// The ending of a plan's answer, for which the file of that database was made, or a service in it,
/// or neither.
pub fn answered(
    alloc: Global,
    db: &str,
    text: Text,
    is_file_made: bool,
    is_service_made: bool,
) -> Ending
    ensures { IsToldBeside db.now is_file_made is_service_made text result }
{
    if !is_file_made && !is_service_made {
        return Ending::Answer(text);
    }
    match made_lines(alloc, db, is_file_made, is_service_made) {
        Ok(made) => Ending::Told { text, made },
        Err(_) => Ending::NoMemory,
    }
}

/// Writes the error line of a refusal of a plan that names these, or, where memory is wanted for
/// it, the line that says so; behind the line it gives the hint.
pub fn say<E: Write, P: Progress>(
    alloc: Global,
    names: Names<'_>,
    refusal: Refusal,
    hint: Option<Hint>,
    err: &mut E,
    progress: &P,
) -> u8
    ensures { SaysRefusal (lent names.entry) refusal result (E.contents err.old)
        (E.contents err.new) }
{
    match line_of(alloc, names, refusal) {
        Ok(line) => refuse(err, line.as_str(), hint, progress),
        Err(_) => print(err, NO_MEMORY, REFUSED),
    }
}
