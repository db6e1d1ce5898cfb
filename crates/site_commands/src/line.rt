//! The lines of refusals on standard error.
ghost use Rattle.std.specs.Prelude.{◌≡◌, ◌<◌, ◌++◌, [], ◌∷◌, IfOk, OnOk, if◌then◌else◌, string_bytes};
ghost use Rattle.std.specs.Char.{digit_char};
ghost use Rattle.line_intake.specs.Words.{words_of};
ghost use Rattle.site_commands.specs.Names.{lent};
ghost use Rattle.site_commands.specs.Lines.{database_fault_line, file_fault_line, file_line, line_name, line_of, lines_line, made_lines, name_char, order_line, other_char, printed_name, summary_fault_line, unread_line};

use crate::names::Names;
use crate::pieces::RefusedLine;
use attributes::Text;
use coverage::SummaryFault;
use databases::CommandFault;
use event_files::{Refused, ReportFault, Unread, UnreadAt};
use event_json::ReadFault;
use line_intake::words_of;
use std::alloc::{AllocError, Global};

/// Why there is no answer.
#[derive(Clone, Copy, PartialEq, Eq, Debug)]
pub enum Refusal {
    /// The first file that was not read.
    Unread(UnreadAt),
    /// The first file at fault, where all were read.
    File(Refused),
    /// The first line at fault, where all files were read.
    Line(RefusedLine),
    /// The file spells no summary.
    Summary(SummaryFault),
    /// The command over the database.
    Database(CommandFault),
    /// A thread couldn't be started.
    NoThread,
    /// So many lines of an input were at fault; the others are kept.
    Lines(u64),
    /// No number is left for a source of a numberer.
    NoNumber,
}

/// The error line of a refusal of a plan that names these.
pub fn line_of(alloc: Global, names: Names<'_>, refusal: Refusal) -> Result<Text, AllocError>
    ensures { IfOk result (λ text. text ≡ line_of (lent names.entry) refusal) }
{
    match refusal {
        Refusal::Unread(at) => unread_line(alloc, names.file(at.file), at.why),
        Refusal::File(refused) => fault_line(alloc, names.file(refused.file), refused.fault),
        Refusal::Line(refused) => {
            let name = line_name(alloc, names.file(refused.at.file), refused.at.line)?;
            fault_line(alloc, name.as_str(), refused.fault)
        }
        Refusal::Summary(why) => summary_line(alloc, names.file(0), why),
        Refusal::Database(why) => database_line(alloc, names.db, names.order, why),
        Refusal::NoThread => Text::of(alloc, "site: no thread\n"),
        Refusal::Lines(faults) => lines_line(alloc, faults),
        Refusal::NoNumber => file_line(alloc, names.db, "Full"),
    }
}

/// `FILE line N`, which names a line of a file in an error line of the program.
pub fn line_name(alloc: Global, name: &str, number: u64) -> Result<Text, AllocError>
    ensures { IfOk result (λ text. text ≡ line_name name.now number) }
{
    let name = format!(in alloc; "{name} line {number}")?;
    Ok(Text::from_string(name))
}

/// The program's lines of what was made: the file of that database, a service in it.
pub fn made_lines(
    alloc: Global,
    db: &str,
    is_file_made: bool,
    is_service_made: bool,
) -> Result<Text, AllocError>
    ensures { IfOk result (λ text. text ≡ made_lines is_file_made is_service_made db.now) }
{
    let file = line_if(alloc, is_file_made, db, "made, it wasn't there")?;
    let service = line_if(
        alloc,
        is_service_made,
        db,
        "a service /orders was made in it",
    )?;
    let mut lines = String::new(alloc);
    lines.push_str(file.as_str())?;
    lines.push_str(service.as_str())?;
    Ok(Text::from_string(lines))
}

/// The error line `site: FILE: WORDS`, ended with LF, where that is so, and else nothing.
fn line_if(alloc: Global, is_so: bool, name: &str, words: &str) -> Result<Text, AllocError>
    ensures { IfOk result (λ text.
        text ≡ (if is_so then file_line name.now words.now else [])) }
{
    if is_so {
        return file_line(alloc, name, words);
    }
    Text::of(alloc, "")
}

/// The program's error line of a file that was not read.
fn unread_line(alloc: Global, name: &str, why: Unread) -> Result<Text, AllocError>
    ensures { IfOk result (λ text. text ≡ unread_line name.now why) }
{
    match why {
        Unread::OutOfMemory => Text::of(alloc, "site: out of memory\n"),
        Unread::CannotRead => file_line(alloc, name, "cannot read"),
        Unread::TooLarge => file_line(alloc, name, "too large"),
    }
}

/// The program's error line of a file at fault.
fn fault_line(alloc: Global, name: &str, fault: ReportFault) -> Result<Text, AllocError>
    ensures { IfOk result (λ text. text ≡ file_fault_line name.now fault) }
{
    match fault {
        ReportFault::OutOfMemory => Text::of(alloc, "site: out of memory\n"),
        ReportFault::Read(ReadFault::OutOfMemory) => Text::of(alloc, "site: out of memory\n"),
        ReportFault::Read(ReadFault::NotJson) => words_line(alloc, name, fault),
        ReportFault::Read(ReadFault::NotEvent) => words_line(alloc, name, fault),
        ReportFault::Read(ReadFault::InputTooLarge) => words_line(alloc, name, fault),
        ReportFault::Read(ReadFault::BadEvent { .. }) => words_line(alloc, name, fault),
        ReportFault::Event { .. } => words_line(alloc, name, fault),
    }
}

/// The program's error line of a file with the words of its fault.
fn words_line(alloc: Global, name: &str, fault: ReportFault) -> Result<Text, AllocError>
    ensures { IfOk result (λ text. text ≡ file_line name.now (words_of fault)) }
{
    let words = words_of(alloc, fault)?;
    file_line(alloc, name, words.as_str())
}

/// The error line `site: N lines refused`.
fn lines_line(alloc: Global, faults: u64) -> Result<Text, AllocError>
    ensures { IfOk result (λ text. text ≡ lines_line faults) }
{
    let line = format!(in alloc; "site: {faults} lines refused\n")?;
    Ok(Text::from_string(line))
}

/// The program's error line of a summary at fault.
fn summary_line(alloc: Global, name: &str, why: SummaryFault) -> Result<Text, AllocError>
    ensures { IfOk result (λ text. text ≡ summary_fault_line name.now why) }
{
    match why {
        SummaryFault::OutOfMemory => Text::of(alloc, "site: out of memory\n"),
        SummaryFault::NotJson => file_line(alloc, name, "not JSON"),
        SummaryFault::Shape => file_line(alloc, name, "Shape"),
        SummaryFault::Version => file_line(alloc, name, "Version"),
        SummaryFault::NotCanonical => file_line(alloc, name, "NotCanonical"),
    }
}

/// The error line of a command over a database: it names the order where its state is at fault, and
/// the database where that is.
fn database_line(
    alloc: Global,
    db: &str,
    number: u64,
    why: CommandFault,
) -> Result<Text, AllocError>
    ensures { IfOk result (λ text. text ≡ database_fault_line db.now number why) }
{
    match why {
        CommandFault::OutOfMemory => Text::of(alloc, "site: out of memory\n"),
        CommandFault::Store => file_line(alloc, db, "Store"),
        CommandFault::Foreign => file_line(alloc, db, "Foreign"),
        CommandFault::OrderExists => order_line(alloc, number, "OrderExists"),
        CommandFault::NoOrder => order_line(alloc, number, "NoOrder"),
        CommandFault::WrongState => order_line(alloc, number, "WrongState"),
        CommandFault::Full => order_line(alloc, number, "Full"),
        CommandFault::RouteFailed => Text::of(alloc, "site: route failed\n"),
        CommandFault::AnotherSource => file_line(alloc, db, "another source"),
        CommandFault::CannotRead => file_line(alloc, db, "cannot read"),
        CommandFault::Cache => Text::of(
            alloc,
            "site: SITE_CACHE_MIB isn't a whole number from 1 to 1048576\n",
        ),
    }
}

/// The error line of a refused order, by its number and the name of the fault: `site: order N: NAME`
fn order_line(alloc: Global, number: u64, name: &str) -> Result<Text, AllocError>
    ensures { IfOk result (λ text. text ≡ order_line number name.now) }
{
    let digits = format!(in alloc; "{number}")?;
    let mut line = String::new(alloc);
    line.push_str("site: order ")?;
    line.push_str(digits.as_str())?;
    line.push_str(": ")?;
    line.push_str(name)?;
    line.push_str("\n")?;
    Ok(Text::from_string(line))
}

/// The error line `site: FILE: WORDS`, ended with LF.
pub fn file_line(alloc: Global, name: &str, words: &str) -> Result<Text, AllocError>
    ensures { IfOk result (λ text. text ≡ file_line name.now words.now) }
{
    let mut line = String::new(alloc);
    line.push_str("site: ")?;
    push_name(&mut line, name)?;
    line.push_str(": ")?;
    line.push_str(words)?;
    line.push_str("\n")?;
    Ok(Text::from_string(line))
}

/// Appends a file's name to an error line, its control characters as in a JSON string.
pub fn push_name(line: &mut String, name: &str) -> Result<(), AllocError>
    ensures { OnOk result (string_bytes line.new
        ≡ string_bytes line.old ++ printed_name name.now) }
{
    for c in name.chars() {
        push_char(line, c)?;
    }
    Ok(())
}

/// Appends a character of a file's name to an error line.
fn push_char(line: &mut String, c: char) -> Result<(), AllocError>
    ensures { OnOk result (string_bytes line.new ≡ string_bytes line.old ++ name_char c) }
{
    match c {
        '\u{8}' => line.push_str("\\b"),
        '\t' => line.push_str("\\t"),
        '\n' => line.push_str("\\n"),
        '\u{c}' => line.push_str("\\f"),
        '\r' => line.push_str("\\r"),
        _ => push_other(line, c),
    }
}

/// Appends a character of a name in an error line that has no short escape.
fn push_other(line: &mut String, c: char) -> Result<(), AllocError>
    ensures { OnOk result (string_bytes line.new ≡ string_bytes line.old ++ other_char c) }
{
    if c.is_control() {
        let code = c as u32;
        line.push_str("\\u00")?;
        push_hex(line, code / 16 % 16)?;
        return push_hex(line, code % 16);
    }
    line.push(c)
}

/// Appends a hexadecimal digit to an error line, a letter in lower case.
fn push_hex(line: &mut String, digit: u32) -> Result<(), AllocError>
    requires { digit < 16 }
    ensures { OnOk result (string_bytes line.new
        ≡ string_bytes line.old ++ digit_char digit ∷ []) }
{
    match char::from_digit(digit, 16) {
        Some(c) => line.push(c),
        None => Ok(()),
    }
}
