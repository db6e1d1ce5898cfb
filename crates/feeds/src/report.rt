//! What a worker reports at its end.

ghost use Rattle.std.specs.Prelude.{◌≡◌, ◌+◌, ◌<◌, ◌^◌};
ghost use Rattle.feeds.specs.Report.{reported};

use event_json::ReadFault;

/// Why a worker ended.
#[derive(Clone, Copy, PartialEq, Eq, Debug)]
pub enum WorkerEnd {
    /// All was done.
    Done,
    /// Memory was wanted. What was taken by then stays taken.
    OutOfMemory,
    /// The gate was shut before the next call. What was taken by then stays taken.
    GateShut,
    /// The input spells no events. Nothing was taken. It is never want of memory.
    BadInput(ReadFault),
}

/// How many events a worker read, and what became of them: `read` is the sum of `fresh`, which were
/// new, `repeated`, which were there, and `refused`, which have no valid number.
#[derive(Clone, Copy, PartialEq, Eq, Debug)]
pub struct Report {
    pub read: u64,
    pub fresh: u64,
    pub repeated: u64,
    pub refused: u64,
    pub ended: WorkerEnd,
}

/// What a worker counts as it goes: its calls, and the events that it brought or passed over.
#[derive(Clone, Copy, Debug)]
pub(crate) struct Tally {
    pub calls: u64,
    pub fresh: u64,
    pub repeated: u64,
    pub refused: u64,
}

impl Tally {
    /// The tally of a worker before its first call.
    pub(crate) fn start() -> Tally
        ensures { result ≡ record { calls = 0; fresh = 0; repeated = 0; refused = 0 } }
    {
        Tally {
            calls: 0,
            fresh: 0,
            repeated: 0,
            refused: 0,
        }
    }

    /// The report of a worker that ends so.
    pub(crate) fn report(&self, ended: WorkerEnd) -> Report
        requires { self.now.fresh + self.now.repeated + self.now.refused < 2 ^ 64 }
        ensures { result ≡ reported self.now ended }
    {
        Report {
            read: self.fresh + self.repeated + self.refused,
            fresh: self.fresh,
            repeated: self.repeated,
            refused: self.refused,
            ended,
        }
    }
}
