//! Why bytes are not read as events.
use attributes::Fault;
use std::alloc::{AllocError, AllocFailed};
use thiserror::Error;

/// Why bytes were not read as events, tested in the order `InputTooLarge`, `NotJson`, `NotEvent`,
/// `BadEvent`. Want of memory may come in place of any but `InputTooLarge`.
#[derive(Clone, Copy, PartialEq, Eq, Debug, Error)]
pub enum ReadFault {
    #[error("out of memory")]
    OutOfMemory,
    /// Not UTF-8, not a JSON text, nested deeper than 127, or with a number that is too large for
    /// a float.
    #[error("not JSON")]
    NotJson,
    /// Neither an object nor an array.
    #[error("not an event or a batch")]
    NotEvent,
    /// The first member of the batch, counted from 0, that is no event, and its first fault. The
    /// index of a lone event is 0.
    #[error("event {index}: {fault}")]
    BadEvent { index: u64, fault: Fault },
    /// More than 33,554,432 bytes.
    #[error("too large")]
    InputTooLarge,
}

impl ReadFault {
    ghost use Rattle.std.specs.Prelude.{◌≡◌};
    ghost use Rattle.event_json.specs.Fault.{fault_number};

    /// The number that the kind of a batch's or event's refusal is known by, 1 to 5.
    pub fn number(self) -> u8
        ensures { result ≡ fault_number self }
    {
        match self {
            ReadFault::OutOfMemory => 1,
            ReadFault::NotJson => 2,
            ReadFault::NotEvent => 3,
            ReadFault::BadEvent { index: _, fault: _ } => 4,
            ReadFault::InputTooLarge => 5,
        }
    }
}

impl From<AllocError> for ReadFault {
    ghost use Rattle.std.specs.Prelude.{◌≡◌};
    ghost use Rattle.event_json.specs.declared.fault.ReadFault.TheVariants.{OutOfMemory};

    ghost from_gives = { λ _ e. e ≡ OutOfMemory };

    /// Want of memory while JSON is read into events.
    fn from(_refused: AllocError) -> ReadFault {
        ReadFault::OutOfMemory
    }
}

impl<T: Drop> From<AllocFailed<T>> for ReadFault {
    ghost use Rattle.std.specs.Prelude.{◌≡◌};
    ghost use Rattle.event_json.specs.declared.fault.ReadFault.TheVariants.{OutOfMemory};

    ghost from_gives = { λ _ e. e ≡ OutOfMemory };

    /// Want of memory while JSON is read into events, whatever was to be kept.
    fn from(_refused: AllocFailed<T>) -> ReadFault {
        ReadFault::OutOfMemory
    }
}
