//! What reports come to together.
ghost use Rattle.std.specs.Prelude.{◌≡◌};
ghost use Rattle.run_command.specs.Fault.{of_end};
ghost use Rattle.run_command.specs.Tally.{first_fault, read_in, refused_in};

use crate::fault::RunFault;
use databases::CommandFault;
use feeds::{Report, WorkerEnd};

/// The fault of a run's worker, by its place and why it ended; so many of those from its place on
/// are feeds. Nothing shuts the gate of a run, and a peer has no input.
fn of_end(place: u64, feeds: u64, ended: WorkerEnd) -> Option<RunFault>
    ensures { result ≡ of_end place feeds ended }
{
    match ended {
        WorkerEnd::Done => None,
        WorkerEnd::OutOfMemory => Some(RunFault::Database(CommandFault::OutOfMemory)),
        WorkerEnd::GateShut => Some(RunFault::Database(CommandFault::OutOfMemory)),
        WorkerEnd::BadInput(fault) => {
            if feeds == 0 {
                return Some(RunFault::Database(CommandFault::OutOfMemory));
            }
            Some(RunFault::Feed { feed: place, fault })
        }
    }
}

/// The fault of a run's first worker that has one; so many are feeds, which come first.
pub fn first_fault(reports: &[Report], feeds: u64) -> Option<RunFault>
    ensures { result ≡ first_fault 0 feeds reports.now }
{
    for (place, report) in reports.iter().enumerate() {
        let place = place as u64;
        if let Some(fault) = of_end(place, feeds.saturating_sub(place), report.ended) {
            return Some(fault);
        }
    }
    None
}

/// How many events a run's workers read, and how many of them had no number.
pub fn counts(reports: &[Report]) -> (u128, u128)
    ensures read { result.0 ≡ read_in reports.now }
    ensures refused { result.1 ≡ refused_in reports.now }
{
    let mut read: u128 = 0;
    let mut refused: u128 = 0;
    for report in reports {
        read += report.read as u128;
        refused += report.refused as u128;
    }
    (read, refused)
}
