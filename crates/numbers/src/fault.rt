//! Why a numberer refuses a call.

ghost use Rattle.std.specs.Prelude.{◌≡◌};
ghost use Rattle.numbers.specs.declared.fault.NumberFault.TheVariants.{OutOfMemory};

use std::alloc::{AllocError, AllocFailed};

/// Why a numberer refuses a call. An index is that of the event, from 0.
#[derive(Clone, Copy, PartialEq, Eq, Debug, thiserror::Error)]
pub enum NumberFault {
    #[error("out of memory")]
    OutOfMemory,
    /// An event has an attribute `sequence`.
    #[error("event {index} has a sequence")]
    HasSequence { index: u64 },
    /// The text of an event would have more than 262,144 bytes with its number.
    #[error("event {index} is too large")]
    TooLarge { index: u64 },
    /// No number up to 2^63 - 1 is left for an event's source.
    #[error("event {index} has no number left")]
    Full { index: u64 },
}

impl From<AllocError> for NumberFault {
    ghost from_gives = { λ _ f. f ≡ OutOfMemory };

    /// Want of memory while events are numbered.
    fn from(_refused: AllocError) -> NumberFault {
        NumberFault::OutOfMemory
    }
}

impl<T: Drop> From<AllocFailed<T>> for NumberFault {
    ghost from_gives = { λ _ f. f ≡ OutOfMemory };

    /// Want of memory while events are numbered, whatever was to be kept.
    fn from(_refused: AllocFailed<T>) -> NumberFault {
        NumberFault::OutOfMemory
    }
}
