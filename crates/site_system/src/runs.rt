//! Runs over the databases of the operating system.
ghost use Rattle.std.specs.Prelude.{◌≡◌};
ghost use Rattle.database_commands.specs.OfFile.{Closes};

use attributes::Text;
use database_commands::{Opener, close};
use databases::Databases;
use feeds::Jobs;
use inbox_table::Watch;
use run_command::{RunEnd, RunFault, Runs, run};
use site::Wide;
use sqlite_std_file::File;
use sqlite_store::FileStore;
use std::alloc::Global;
use std::sync::Wait;
use std::thread::Threads;

/// Runs over the databases of the operating system, which an [`Opener`] opens.
#[derive(Clone, Copy)]
pub struct FileRuns<'a> {
    opener: Opener<'a>,
}

impl<'a> FileRuns<'a> {
    /// Runs over the databases that this opener opens.
    pub fn over(opener: Opener<'a>) -> FileRuns<'a> {
        FileRuns { opener }
    }
}

impl<'a> Runs for FileRuns<'a> {
    fn run<R: Threads + Wait + Sync, W: Watch>(
        &self,
        rt: &R,
        alloc: Global,
        name: &str,
        jobs: Jobs,
        growth: u64,
        watch: &W,
    ) -> Result<Text, RunFault> {
        match self.opener.open(name, growth) {
            Ok(conn) => closed(run(rt, alloc, conn, jobs, &Wide, watch)),
            Err(fault) => Err(RunFault::Database(fault)),
        }
    }

    fn waiting(&self, seconds: u64) -> FileRuns<'a> {
        FileRuns {
            opener: self.opener.waiting(seconds),
        }
    }
}

/// Closes the database of a run, opened by its name, and answers what it came to.
fn closed(ended: RunEnd<FileStore<File>>) -> Result<Text, RunFault>
    ensures answer { result ≡ ended.outcome }
    ensures closes { Closes ended.conn }
{
    let RunEnd {
        conn,
        outcome,
        stopped: _,
    } = ended;
    close(conn);
    outcome
}
