//! Why parts are no event, and why an event has no number.

ghost use Rattle.std.specs.Prelude.{◌≡◌};
ghost use Rattle.attributes.specs.Fault.{fault_number};
ghost use Rattle.attributes.specs.declared.fault.Fault.TheVariants.{OutOfMemory};

use std::alloc::{AllocError, AllocFailed};
use thiserror::Error;

/// The faults in the order in which they are tested. Each is printed as its name.
#[derive(Clone, Copy, PartialEq, Eq, Debug, Error)]
pub enum Fault {
    #[error("OutOfMemory")]
    OutOfMemory,
    /// `specversion` isn't the text `1.0`.
    #[error("SpecVersion")]
    SpecVersion,
    /// `id` is missing, no text, empty or has a control character.
    #[error("Id")]
    Id,
    /// The same of `source`.
    #[error("Source")]
    Source,
    /// The same of `type`.
    #[error("Kind")]
    Kind,
    /// `subject` is there and is no text, empty or has a control character.
    #[error("Subject")]
    Subject,
    /// `time` is there and is no time.
    #[error("Time")]
    Time,
    /// The same as `Subject`, of `datacontenttype`.
    #[error("ContentType")]
    ContentType,
    /// The same as `Subject`, of `dataschema`.
    #[error("Schema")]
    Schema,
    /// A name has other characters than lower-case letters and digits of ASCII, is empty or is
    /// `data`.
    #[error("ExtensionName")]
    ExtensionName,
    /// A value is no truth value, no whole number of 32 bits and no text without control
    /// characters.
    #[error("ExtensionValue")]
    ExtensionValue,
    /// Both payload members are there.
    #[error("TwoData")]
    TwoData,
    /// `data_base64` is no Base64.
    #[error("Base64")]
    Base64,
    /// The data has a number that isn't a whole one of 64 bits.
    #[error("DataNumber")]
    DataNumber,
    /// The data nests deeper than 120.
    #[error("TooDeep")]
    TooDeep,
    /// The canonical text has more than 262,144 bytes.
    #[error("TooLarge")]
    TooLarge,
    /// There is no attribute `sequence`.
    #[error("NoSequence")]
    NoSequence,
    /// `sequence` isn't twenty digits whose number is in 1..=9,223,372,036,854,775,807.
    #[error("BadSequence")]
    BadSequence,
}

impl From<AllocError> for Fault {
    ghost from_gives = { λ _ e. e ≡ OutOfMemory };

    fn from(_error: AllocError) -> Fault {
        Fault::OutOfMemory
    }
}

impl<T: Drop> From<AllocFailed<T>> for Fault {
    ghost from_gives = { λ _ e. e ≡ OutOfMemory };

    fn from(_error: AllocFailed<T>) -> Fault {
        Fault::OutOfMemory
    }
}

impl Fault {
    /// The number that an event's fault is known by, 1 to 18.
    pub fn number(self) -> u8
        ensures { result ≡ fault_number self }
    {
        match self {
            Fault::OutOfMemory => 1,
            Fault::SpecVersion => 2,
            Fault::Id => 3,
            Fault::Source => 4,
            Fault::Kind => 5,
            Fault::Subject => 6,
            Fault::Time => 7,
            Fault::ContentType => 8,
            Fault::Schema => 9,
            Fault::ExtensionName => 10,
            Fault::ExtensionValue => 11,
            Fault::TwoData => 12,
            Fault::Base64 => 13,
            Fault::DataNumber => 14,
            Fault::TooDeep => 15,
            Fault::TooLarge => 16,
            Fault::NoSequence => 17,
            Fault::BadSequence => 18,
        }
    }
}
