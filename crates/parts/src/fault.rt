//! Why texts aren't combined.

use std::alloc::{AllocError, AllocFailed};
use thiserror::Error;

/// Why the answers of parts weren't combined. Parts are counted from 0, in the order given.
#[derive(Debug, Drop, Error)]
pub enum CombineFault {
    #[error("out of memory")]
    OutOfMemory,
    /// The text of the part is no answer to `cover`.
    #[error("part {part}: not an answer to cover")]
    NotACover {
        part: u64,
    },
    /// The text of the part is no answer to the question; where summaries are combined, no summary
    /// of version 2.
    #[error("part {part}: not an answer to the question")]
    NotAnAnswer {
        part: u64,
    },
    /// Beside answers that have no sources there are more or fewer covers than answers.
    #[error("{covers} covers beside {answers} answers")]
    CoverCount {
        answers: u64,
        covers: u64,
    },
    /// A sum is above 2^64 - 1.
    #[error("a count above 18446744073709551615")]
    TooMany,
    /// The source `name` has numbers in two parts, of which `first` comes before `second`.
    #[error("{name}: in parts {first} and {second}")]
    Overlap {
        name: String,
        first: u64,
        second: u64,
    },
}

impl From<AllocError> for CombineFault {
    ghost use Rattle.std.specs.Prelude.{◌≡◌};
    ghost use Rattle.parts.specs.declared.fault.CombineFault.TheVariants.{OutOfMemory};

    ghost from_gives = { λ _ e. e ≡ OutOfMemory };

    /// Want of memory while answers of parts are put together.
    fn from(_refused: AllocError) -> CombineFault {
        CombineFault::OutOfMemory
    }
}

impl<T: Drop> From<AllocFailed<T>> for CombineFault {
    ghost use Rattle.std.specs.Prelude.{◌≡◌};
    ghost use Rattle.parts.specs.declared.fault.CombineFault.TheVariants.{OutOfMemory};

    ghost from_gives = { λ _ e. e ≡ OutOfMemory };

    /// Want of memory while answers of parts are put together.
    fn from(_refused: AllocFailed<T>) -> CombineFault {
        CombineFault::OutOfMemory
    }
}
