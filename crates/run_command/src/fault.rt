//! Why a run has no answer.
ghost use Rattle.std.specs.Prelude.{◌≡◌};
ghost use Rattle.run_command.specs.Fault.{of_keep, of_serve};

use databases::CommandFault;
use event_json::ReadFault;
use feeds::ServeFault;
use keeper::{KeepFault, Stop};

/// Why a run has no answer. What was taken and kept by then stays.
#[derive(Clone, Copy, PartialEq, Eq, Debug)]
pub enum RunFault {
    /// The database, or want of memory.
    Database(CommandFault),
    /// A thread couldn't be started.
    NoThread,
    /// A feed's bytes weren't read; it took nothing. Its place among the feeds, from 0.
    Feed { feed: u64, fault: ReadFault },
}

/// The fault of a run that a keeper's refusal is.
pub fn of_keep(stop: Stop) -> RunFault
    ensures { result ≡ of_keep stop }
{
    match stop.fault() {
        KeepFault::OutOfMemory => RunFault::Database(CommandFault::OutOfMemory),
        KeepFault::Store => RunFault::Database(CommandFault::Store),
        KeepFault::Foreign => RunFault::Database(CommandFault::Foreign),
    }
}

/// The fault of a run that one of the workers as a whole is.
pub fn of_serve(fault: ServeFault) -> RunFault
    ensures { result ≡ of_serve fault }
{
    match fault {
        ServeFault::OutOfMemory => RunFault::Database(CommandFault::OutOfMemory),
        ServeFault::NoThread => RunFault::NoThread,
    }
}
