//! Why a table refuses a call.

ghost use Rattle.std.specs.Prelude.{◌≡◌, ◌⊎◌};
ghost use Rattle.inbox_table.specs.Fault.{IsOfStore, fault_number};
ghost use Rattle.inbox_table.specs.declared.fault.TableFault.TheVariants.{OutOfMemory};

use sqlite::{Error, ErrorCode};
use std::alloc::{AllocError, AllocFailed};

/// Why a table refuses a call.
#[derive(Clone, Copy, PartialEq, Eq, Debug, thiserror::Error)]
pub enum TableFault {
    #[error("out of memory")]
    OutOfMemory,
    /// Another refusal of the database: the disk failed, a transaction is open, there are other
    /// tables beside ours and a service's, or no place is left.
    #[error("store")]
    Store,
    /// At a making: a table of the name is there, of either version. Elsewhere: there is none, or
    /// one of each version, or its rows aren't those that the calls leave.
    #[error("foreign")]
    Foreign,
}

impl TableFault {
    /// The number that the refusal of an inbox's table is known by, 1 to 3.
    pub fn number(self) -> u8
        ensures { result ≡ fault_number self }
    {
        match self {
            TableFault::OutOfMemory => 1,
            TableFault::Store => 2,
            TableFault::Foreign => 3,
        }
    }
}

impl From<AllocError> for TableFault {
    ghost from_gives = { λ _ f. f ≡ OutOfMemory };

    /// Want of memory in a call of an inbox's table.
    fn from(_refused: AllocError) -> TableFault {
        TableFault::OutOfMemory
    }
}

impl<T: Drop> From<AllocFailed<T>> for TableFault {
    ghost from_gives = { λ _ f. f ≡ OutOfMemory };

    /// Want of memory in a call of an inbox's table, whatever was to be kept.
    fn from(_refused: AllocFailed<T>) -> TableFault {
        TableFault::OutOfMemory
    }
}

impl From<Error> for TableFault {
    ghost from_gives = { λ _ f. IsOfStore f };

    /// Want of memory, or another refusal of the store, in a call of an inbox's table.
    fn from(error: Error) -> TableFault {
        match error {
            Error::SqliteFailure(ErrorCode::OutOfMemory) => TableFault::OutOfMemory,
            _ => TableFault::Store,
        }
    }
}
