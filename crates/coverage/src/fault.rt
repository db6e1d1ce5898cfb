//! Why bytes are no summary's text.
ghost use Rattle.std.specs.Prelude.{◌≡◌};
ghost use Rattle.coverage.specs.Fault.{fault_number};
ghost use Rattle.coverage.specs.declared.fault.SummaryFault.TheVariants.{OutOfMemory};

use std::alloc::AllocError;
use thiserror::Error;

/// The refusals in the order in which they are tested. Each is printed as its name.
#[derive(Clone, Copy, PartialEq, Eq, Debug, Error)]
pub enum SummaryFault {
    #[error("OutOfMemory")]
    OutOfMemory,
    /// The bytes are no JSON text.
    #[error("NotJson")]
    NotJson,
    /// The value is no object with a version, or isn't shaped as a summary of its version.
    #[error("Shape")]
    Shape,
    /// The version is neither 1 nor 2.
    #[error("Version")]
    Version,
    /// The bytes aren't the text that a summary is written as.
    #[error("NotCanonical")]
    NotCanonical,
}

impl From<AllocError> for SummaryFault {
    ghost from_gives = { λ _ e. e ≡ OutOfMemory };

    /// Want of memory while a summary is read.
    fn from(_error: AllocError) -> SummaryFault {
        SummaryFault::OutOfMemory
    }
}

impl SummaryFault {
    /// The number that the summary's refusal is known by, 1 to 5.
    pub fn number(self) -> u8
        ensures { result ≡ fault_number self }
    {
        match self {
            SummaryFault::OutOfMemory => 1,
            SummaryFault::NotJson => 2,
            SummaryFault::Shape => 3,
            SummaryFault::Version => 4,
            SummaryFault::NotCanonical => 5,
        }
    }
}
