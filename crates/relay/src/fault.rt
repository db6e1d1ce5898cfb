//! Why a relay stops.

ghost use Rattle.std.specs.Prelude.{◌≡◌, ◌⊎◌};
ghost use Rattle.relay.specs.Fault.{fault_number, of_outbox};
ghost use Rattle.relay.specs.declared.fault.RelayFault.TheVariants.{OutOfMemory, RouteFailed, Store};

use outbox::OutboxFault;
use thiserror::Error;

/// Why a relay stops. The mark is then as it was. It prints as its name.
#[derive(Clone, Copy, PartialEq, Eq, Debug, Drop, Error)]
pub enum RelayFault {
    /// Memory was refused. It says nothing of the rows.
    #[error("OutOfMemory")]
    OutOfMemory,
    /// The route failed; its failures rose.
    #[error("RouteFailed")]
    RouteFailed,
    /// The outcome is of another site, or of other rows than the next ones.
    #[error("Stranger")]
    Stranger,
    /// The database refused a statement.
    #[error("Store")]
    Store,
    /// A thread couldn't be started.
    #[error("NoThread")]
    NoThread,
    /// The gate was shut.
    #[error("GateShut")]
    GateShut,
}

impl RelayFault {
    /// The number that the fault of a relay is known by, 1 to 6.
    pub fn number(self) -> u8
        ensures { result ≡ fault_number self }
    {
        match self {
            RelayFault::OutOfMemory => 1,
            RelayFault::RouteFailed => 2,
            RelayFault::Stranger => 3,
            RelayFault::Store => 4,
            RelayFault::NoThread => 5,
            RelayFault::GateShut => 6,
        }
    }
}

/// The fault of a relay to a route whose service refused.
pub fn fault_of(fault: OutboxFault) -> RelayFault
    ensures kind { (result ≡ OutOfMemory) ⊎ (result ≡ Store) }
    ensures exact { result ≡ of_outbox fault }
{
    match fault {
        OutboxFault::OutOfMemory => RelayFault::OutOfMemory,
        _ => RelayFault::Store,
    }
}
