//! Why a question about files has no answer.
ghost use Rattle.std.specs.Prelude.{◌≡◌};
ghost use Rattle.event_files.specs.declared.refusal.ReportFault.TheVariants.{OutOfMemory};

use attributes::Fault;
use event_json::ReadFault;
use std::alloc::{AllocError, AllocFailed};
use thiserror::Error;

/// Why a file's events gave no answer. In a file that spells no events the reader's fault is told,
/// not that of an event without a number.
#[derive(Clone, Copy, PartialEq, Eq, Debug, Error)]
pub enum ReportFault {
    #[error("out of memory")]
    OutOfMemory,
    /// The file spells no events. Never with the reader's want of memory.
    #[error("{0}")]
    Read(ReadFault),
    /// The event at `index`, from 0, is the first of the file that has no number.
    #[error("event {index}: {fault}")]
    Event { index: u64, fault: Fault },
}

impl ReportFault {
    ghost use Rattle.event_files.specs.Numbers.{fault_number};

    /// The number, from 1, of the reason why a file's events gave no answer.
    pub fn number(self) -> u8
        ensures { result ≡ fault_number self }
    {
        match self {
            ReportFault::OutOfMemory => 1,
            ReportFault::Read(_) => 2,
            ReportFault::Event { .. } => 3,
        }
    }
}

impl From<AllocError> for ReportFault {
    ghost from_gives = { λ _ e. e ≡ OutOfMemory };

    fn from(_error: AllocError) -> ReportFault {
        ReportFault::OutOfMemory
    }
}

impl<T: Drop> From<AllocFailed<T>> for ReportFault {
    ghost from_gives = { λ _ e. e ≡ OutOfMemory };

    fn from(_error: AllocFailed<T>) -> ReportFault {
        ReportFault::OutOfMemory
    }
}

/// The first file at fault, counted from 0, and its first fault. Where memory ran out the file says
/// nothing.
#[derive(Clone, Copy, PartialEq, Eq, Debug)]
pub struct Refused {
    pub file: u64,
    pub fault: ReportFault,
}

impl From<AllocError> for Refused {
    ghost from_gives = { λ _ refused. refused.fault ≡ OutOfMemory };

    fn from(_error: AllocError) -> Refused {
        Refused {
            file: 0,
            fault: ReportFault::OutOfMemory,
        }
    }
}

impl<T: Drop> From<AllocFailed<T>> for Refused {
    ghost from_gives = { λ _ refused. refused.fault ≡ OutOfMemory };

    fn from(_error: AllocFailed<T>) -> Refused {
        Refused {
            file: 0,
            fault: ReportFault::OutOfMemory,
        }
    }
}
