//! The words of lines that tell faults.

ghost use Rattle.std.specs.Prelude.{◌≡◌};
ghost use Rattle.std.specs.Option.{option_copied};
ghost use Rattle.fault_lines.specs.Words.{attribute_name, fault_name, hint, whole_hint, whole_words};

use attributes::Fault;
use event_json::ReadFault;

/// The name of an event's fault, as it is printed in a line about a file.
pub(crate) fn fault_name<'a>(fault: Fault) -> &'a str
    ensures { result.now ≡ fault_name fault }
{
    match fault {
        Fault::OutOfMemory => "OutOfMemory",
        Fault::SpecVersion => "SpecVersion",
        Fault::Id => "Id",
        Fault::Source => "Source",
        Fault::Kind => "Kind",
        Fault::Subject => "Subject",
        Fault::Time => "Time",
        Fault::ContentType => "ContentType",
        Fault::Schema => "Schema",
        Fault::ExtensionName => "ExtensionName",
        Fault::ExtensionValue => "ExtensionValue",
        Fault::TwoData => "TwoData",
        Fault::Base64 => "Base64",
        Fault::DataNumber => "DataNumber",
        Fault::TooDeep => "TooDeep",
        Fault::TooLarge => "TooLarge",
        Fault::NoSequence => "NoSequence",
        Fault::BadSequence => "BadSequence",
    }
}

/// The member to tell in a fault's line, where the fault is always of the same one.
pub(crate) fn attribute_name<'a>(fault: Fault) -> Option<&'a str>
    ensures { option_copied result ≡ attribute_name fault }
{
    match fault {
        Fault::OutOfMemory => None,
        Fault::SpecVersion => Some("specversion"),
        Fault::Id => Some("id"),
        Fault::Source => Some("source"),
        Fault::Kind => Some("type"),
        Fault::Subject => Some("subject"),
        Fault::Time => Some("time"),
        Fault::ContentType => Some("datacontenttype"),
        Fault::Schema => Some("dataschema"),
        Fault::ExtensionName => None,
        Fault::ExtensionValue => None,
        Fault::TwoData => Some("data_base64"),
        Fault::Base64 => Some("data_base64"),
        Fault::DataNumber => Some("data"),
        Fault::TooDeep => Some("data"),
        Fault::TooLarge => None,
        Fault::NoSequence => Some("sequence"),
        Fault::BadSequence => Some("sequence"),
    }
}

/// What to do about the fault of an event, in words of people, for a line about a file.
pub(crate) fn hint<'a>(fault: Fault) -> &'a str
    ensures { result.now ≡ hint fault }
{
    match fault {
        Fault::OutOfMemory => "memory ran out",
        Fault::SpecVersion => "an event is an object whose specversion is the text 1.0",
        Fault::Id => "an id is a text with at least one character and no control character",
        Fault::Source => "a source is a text with at least one character and no control character",
        Fault::Kind => "a type is a text with at least one character and no control character",
        Fault::Subject =>
            "a subject has at least one character and no control character, or is left out",
        Fault::Time =>
            "a time is written as in RFC 3339, such as 2026-11-24T10:00:00Z, or left out",
        Fault::ContentType =>
            "a content type has at least one character and no control character, or is left out",
        Fault::Schema =>
            "a schema has at least one character and no control character, or is left out",
        Fault::ExtensionName => "names have only the letters a to z and the digits 0 to 9",
        Fault::ExtensionValue =>
            "attributes are truth values, 32-bit whole numbers or texts; put others into data",
        Fault::TwoData => "an event has data or data_base64, and not both",
        Fault::Base64 => "data_base64 is a text in Base64, of the standard alphabet and padded",
        Fault::DataNumber => "numbers in data are whole and fit 64 bits; write others as texts",
        Fault::TooDeep => "arrays and objects in data nest at most 120 deep",
        Fault::TooLarge =>
            "the canonical text of an event has at most 262,144 bytes; keep large data elsewhere",
        Fault::NoSequence =>
            "an event needs a sequence of twenty digits, such as 00000000000000000001",
        Fault::BadSequence =>
            "a sequence is a text of twenty digits, from 1 to 9223372036854775807: pad it with zeros on the left",
    }
}

/// Why a file's bytes are refused as a whole, for its line.
pub(crate) fn whole_words<'a>(fault: ReadFault) -> &'a str
    ensures { result.now ≡ whole_words fault }
{
    match fault {
        ReadFault::OutOfMemory => "out of memory",
        ReadFault::NotJson => "not JSON",
        ReadFault::NotEvent => "not an event or a batch",
        ReadFault::BadEvent { .. } => "not an event or a batch",
        ReadFault::InputTooLarge => "too large",
    }
}

/// What to do about a file's bytes that are refused as a whole, in words of people, for its line.
pub(crate) fn whole_hint<'a>(fault: ReadFault) -> &'a str
    ensures { result.now ≡ whole_hint fault }
{
    match fault {
        ReadFault::OutOfMemory => "memory ran out",
        ReadFault::NotJson =>
            "a file is one JSON text in UTF-8; where events stand one a line, --lines reads them so, or jq -s . makes one",
        ReadFault::NotEvent => "a file is an event, which is an object, or an array of events",
        ReadFault::BadEvent { .. } =>
            "a file is an event, which is an object, or an array of events",
        ReadFault::InputTooLarge => "a file has at most 33,554,432 bytes; split it",
    }
}
