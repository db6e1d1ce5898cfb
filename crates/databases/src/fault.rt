//! Why a command over a database has no answer.
ghost use Rattle.std.specs.Prelude.{◌≡◌};
ghost use Rattle.databases.specs.Fault.{of_outbox, of_relay, of_table};
ghost use Rattle.databases.specs.declared.fault.CommandFault.TheVariants.{OutOfMemory};

use inbox_table::TableFault;
use outbox::OutboxFault;
use relay::RelayFault;
use std::alloc::{AllocError, AllocFailed};
use thiserror::Error;

/// Why a command over a database has no answer. It prints as its name.
#[derive(Clone, Copy, PartialEq, Eq, Debug, Drop, Error)]
pub enum CommandFault {
    #[error("OutOfMemory")]
    OutOfMemory,
    /// The file is no database, or another program has it, or a statement was refused.
    #[error("Store")]
    Store,
    /// The tables, or their rows, aren't those that these commands leave.
    #[error("Foreign")]
    Foreign,
    /// The order that is placed is there.
    #[error("OrderExists")]
    OrderExists,
    /// The order that is shipped or cancelled isn't there.
    #[error("NoOrder")]
    NoOrder,
    /// The order was shipped or cancelled before.
    #[error("WrongState")]
    WrongState,
    /// The outbox has no number left.
    #[error("Full")]
    Full,
    /// A route didn't take the rows.
    #[error("RouteFailed")]
    RouteFailed,
    /// The service has another source than the one that was named.
    #[error("AnotherSource")]
    AnotherSource,
    /// There is no file of that name, and the command makes none.
    #[error("CannotRead")]
    CannotRead,
    /// The variable that limits the cache doesn't say how large it may be.
    #[error("Cache")]
    Cache,
}

impl From<AllocError> for CommandFault {
    ghost from_gives = { λ _ e. e ≡ OutOfMemory };

    fn from(_error: AllocError) -> CommandFault {
        CommandFault::OutOfMemory
    }
}

impl<T: Drop> From<AllocFailed<T>> for CommandFault {
    ghost from_gives = { λ _ e. e ≡ OutOfMemory };

    fn from(_error: AllocFailed<T>) -> CommandFault {
        CommandFault::OutOfMemory
    }
}

/// The fault of a command over a database that one of an inbox's table is.
pub fn of_table(fault: TableFault) -> CommandFault
    ensures { result ≡ of_table fault }
{
    match fault {
        TableFault::OutOfMemory => CommandFault::OutOfMemory,
        TableFault::Store => CommandFault::Store,
        TableFault::Foreign => CommandFault::Foreign,
    }
}

/// The fault of a command over a database that one of a service is.
pub fn of_outbox(fault: OutboxFault) -> CommandFault
    ensures { result ≡ of_outbox fault }
{
    match fault {
        OutboxFault::OutOfMemory => CommandFault::OutOfMemory,
        OutboxFault::OrderExists => CommandFault::OrderExists,
        OutboxFault::NoOrder => CommandFault::NoOrder,
        OutboxFault::WrongState => CommandFault::WrongState,
        OutboxFault::Full => CommandFault::Full,
        OutboxFault::Store => CommandFault::Store,
        OutboxFault::Foreign => CommandFault::Foreign,
    }
}

/// The fault of a command over a database that one of a relay's step is. A step in the program's
/// own thread is refused by a route, by the database, or for want of memory.
pub fn of_relay(fault: RelayFault) -> CommandFault
    ensures { result ≡ of_relay fault }
{
    match fault {
        RelayFault::OutOfMemory => CommandFault::OutOfMemory,
        RelayFault::RouteFailed => CommandFault::RouteFailed,
        _ => CommandFault::Store,
    }
}
