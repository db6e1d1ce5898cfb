//! Why a service refuses a call.

ghost use Rattle.std.specs.Prelude.{◌≡◌, ◌⊎◌};
ghost use Rattle.outbox.specs.Fault.{fault_number};
ghost use Rattle.outbox.specs.declared.fault.OutboxFault.TheVariants.{OutOfMemory, Store};

use sqlite::ErrorCode;
use std::alloc::{AllocError, AllocFailed};
use thiserror::Error;

/// Why a service refuses a call, in the order of testing. It prints as its name.
#[derive(Clone, Copy, PartialEq, Eq, Debug, Drop, Error)]
pub enum OutboxFault {
    /// Memory was refused. It says nothing of the command.
    #[error("OutOfMemory")]
    OutOfMemory,
    /// `place`: the order is there.
    #[error("OrderExists")]
    OrderExists,
    /// `ship`, `cancel`: the order isn't there.
    #[error("NoOrder")]
    NoOrder,
    /// `ship`, `cancel`: the order was shipped or cancelled.
    #[error("WrongState")]
    WrongState,
    /// The number of the last row, or the base where there is no row, is 2^63-1.
    #[error("Full")]
    Full,
    /// The database refused a statement, or stands inside a transaction.
    #[error("Store")]
    Store,
    /// `create`: a table of a service is there. `adopt`, and `open` where one is there: another is
    /// missing, or the rows aren't those that the calls of a service leave.
    #[error("Foreign")]
    Foreign,
}

impl From<AllocError> for OutboxFault {
    ghost from_gives = { λ _ e. e ≡ OutOfMemory };

    fn from(_error: AllocError) -> OutboxFault {
        OutboxFault::OutOfMemory
    }
}

impl<T: Drop> From<AllocFailed<T>> for OutboxFault {
    ghost from_gives = { λ _ e. e ≡ OutOfMemory };

    fn from(_error: AllocFailed<T>) -> OutboxFault {
        OutboxFault::OutOfMemory
    }
}

impl From<sqlite::Error> for OutboxFault {
    ghost from_gives = { λ _ e. (e ≡ OutOfMemory) ⊎ (e ≡ Store) };

    fn from(error: sqlite::Error) -> OutboxFault {
        match error {
            sqlite::Error::SqliteFailure(ErrorCode::OutOfMemory) => OutboxFault::OutOfMemory,
            _ => OutboxFault::Store,
        }
    }
}

impl OutboxFault {
    /// The number that the fault of an outbox is known by, 1 to 7.
    pub fn number(self) -> u8
        ensures { result ≡ fault_number self }
    {
        match self {
            OutboxFault::OutOfMemory => 1,
            OutboxFault::OrderExists => 2,
            OutboxFault::NoOrder => 3,
            OutboxFault::WrongState => 4,
            OutboxFault::Full => 5,
            OutboxFault::Store => 6,
            OutboxFault::Foreign => 7,
        }
    }
}
