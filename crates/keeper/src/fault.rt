//! Why a keeper refuses a call.

ghost use Rattle.std.specs.Prelude.{◌≡◌};
ghost use Rattle.keeper.specs.Fault.{fault_number, of_table};
ghost use Rattle.keeper.specs.declared.fault.KeepFault.TheVariants.{OutOfMemory};

use inbox_table::TableFault;
use site::DeskFault;
use std::marker::Model;

/// Why a keeper refuses a call.
#[derive(Clone, Copy, PartialEq, Eq, Debug, thiserror::Error)]
pub enum KeepFault {
    #[error("out of memory")]
    OutOfMemory,
    /// The database refused: the disk failed, a transaction is open, or no place is left.
    #[error("store")]
    Store,
    /// The rows aren't those that the calls of a table leave. It comes where a table is loaded, and
    /// only if the disk gives back what was not written.
    #[error("foreign")]
    Foreign,
}

impl KeepFault {
    /// The number that a keeper's refusal is known by, 1 to 3.
    pub fn number(self) -> u8
        ensures { result ≡ fault_number self }
    {
        match self {
            KeepFault::OutOfMemory => 1,
            KeepFault::Store => 2,
            KeepFault::Foreign => 3,
        }
    }
}

/// That keeping was refused, and why. Only a keeper's refusal makes one, so whoever has one tells no
/// refusal that didn't come. Contracts see it as its fault.
#[derive(Clone, Copy, Debug)]
pub struct Stop {
    fault: KeepFault,
}

impl Model for Stop {
    ghost use Rattle.keeper.specs.declared.fault.KeepFault.{KeepFault};

    ghost Value = { KeepFault };

    ghost view = { λ s. s.fault };

    ghost inverse = { λ f. record { fault = f } };
}

impl Stop {
    /// That a keeper was refused so in keeping arrivals.
    pub(crate) fn of(fault: KeepFault) -> Stop
        ensures { result ≡ fault }
    {
        Stop { fault }
    }

    /// Why a keeper was refused in keeping arrivals.
    pub fn fault(self) -> KeepFault
        ensures { result ≡ self }
    {
        self.fault
    }
}

impl From<TableFault> for KeepFault {
    ghost from_gives = { λ fault kept. kept ≡ of_table fault };

    /// The keeper's refusal that one of the table is.
    fn from(fault: TableFault) -> KeepFault {
        match fault {
            TableFault::OutOfMemory => KeepFault::OutOfMemory,
            TableFault::Store => KeepFault::Store,
            TableFault::Foreign => KeepFault::Foreign,
        }
    }
}

impl From<DeskFault> for KeepFault {
    ghost from_gives = { λ _ kept. kept ≡ OutOfMemory };

    /// A site refuses a keeper for want of memory alone.
    fn from(_fault: DeskFault) -> KeepFault {
        KeepFault::OutOfMemory
    }
}
