//! The words of faults.

ghost use Rattle.std.specs.Prelude.{◌≡◌, IfOk, string_bytes};
ghost use Rattle.line_intake.specs.Words.{event_words, name_of_event_fault, words_of};

use attributes::Fault;
use event_files::ReportFault;
use event_json::ReadFault;
use std::alloc::{AllocError, Global};

/// The name of a fault, as acknowledgements of lines and other texts print it.
pub fn fault_name<'a>(fault: Fault) -> &'a str
    ensures { result.now ≡ name_of_event_fault fault }
{
    match fault {
        Fault::OutOfMemory => "OutOfMemory",
        Fault::SpecVersion => "SpecVersion",
        Fault::Id => "Id",
        Fault::Source => "Source",
        Fault::Kind => "Kind",
        Fault::Subject => "Subject",
        Fault::Time => "Time",
        Fault::ContentType => "ContentType",
        Fault::Schema => "Schema",
        Fault::ExtensionName => "ExtensionName",
        Fault::ExtensionValue => "ExtensionValue",
        Fault::TwoData => "TwoData",
        Fault::Base64 => "Base64",
        Fault::DataNumber => "DataNumber",
        Fault::TooDeep => "TooDeep",
        Fault::TooLarge => "TooLarge",
        Fault::NoSequence => "NoSequence",
        Fault::BadSequence => "BadSequence",
    }
}

/// `event I: NAME`, as an acknowledgement tells it of a line.
fn event_words(alloc: Global, index: u64, fault: Fault) -> Result<String, AllocError>
    ensures { IfOk result (λ words. string_bytes words ≡ event_words index fault) }
{
    let name = fault_name(fault);
    let words = format!(in alloc; "event {index}: {name}")?;
    Ok(words)
}

/// The words of the fault of a line in its acknowledgement, as of a file.
pub fn words_of(alloc: Global, fault: ReportFault) -> Result<String, AllocError>
    ensures { IfOk result (λ words. string_bytes words ≡ words_of fault) }
{
    match fault {
        ReportFault::OutOfMemory => String::from_str(alloc, "out of memory"),
        ReportFault::Read(ReadFault::OutOfMemory) => String::from_str(alloc, "out of memory"),
        ReportFault::Read(ReadFault::NotJson) => String::from_str(alloc, "not JSON"),
        ReportFault::Read(ReadFault::NotEvent) => {
            String::from_str(alloc, "not an event or a batch")
        }
        ReportFault::Read(ReadFault::InputTooLarge) => String::from_str(alloc, "too large"),
        ReportFault::Read(ReadFault::BadEvent { index, fault }) => event_words(alloc, index, fault),
        ReportFault::Event { index, fault } => event_words(alloc, index, fault),
    }
}
