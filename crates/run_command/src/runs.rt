//! Runs over databases by the names of their files.
ghost use Rattle.std.specs.Prelude.{◌≤◌, ◌+◌, length, List, IfErr, IfOk};
ghost use Rattle.std.specs.Thread.{IsSync};
ghost use Rattle.attributes.specs.Event.{EventValue};
ghost use Rattle.run_command.specs.Fault.{IsNamedFault};
ghost use Rattle.run_command.specs.Outcome.{IsOutcome};
ghost use Rattle.run_command.specs.Run.{IsFeedFault, SaysRun};

use crate::fault::RunFault;
use attributes::Text;
use feeds::Jobs;
use inbox_table::Watch;
use std::alloc::Global;
use std::sync::Wait;
use std::thread::Threads;

/// Runs over databases, by the names of their files. The file is made where there is none, and
/// closed in the end. What it holds no clause can say: that of [`crate::run`] does.
pub trait Runs {
    /// Runs workers over the database's file, as [`crate::run`]. `growth` is about how many bytes
    /// will be added, for the size of the cache alone.
    fn run<R: Threads + Wait + Sync, W: Watch>(
        &self,
        rt: &R,
        alloc: Global,
        name: &str,
        jobs: Jobs,
        growth: u64,
        watch: &W,
    ) -> Result<Text, RunFault>
        requires few { length jobs.feeds + length jobs.peers + length jobs.asks ≤ 16 }
        requires sync { IsSync R.row }
        ensures left { IsOutcome jobs.feeds jobs.peers result }
        ensures said { IfOk result (λ text.
            (arrivals : List EventValue) × SaysRun jobs.feeds arrivals text) }
        ensures feed { IfErr result (IsFeedFault jobs.feeds) }
        ensures database { IfErr result IsNamedFault };

    /// The same runs, whose database is tried again where another process has it open, for so many
    /// seconds at most.
    fn waiting(&self, seconds: u64) -> Self;
}
