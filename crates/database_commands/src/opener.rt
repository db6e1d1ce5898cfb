//! The opener of databases of the operating system, which may wait for one.
ghost use Rattle.std.specs.Prelude.{◌≡◌, IfErr, IfOk, IsErrOf};
ghost use Rattle.sqlite_wal.specs.Files.{image_at};
ghost use Rattle.databases.specs.Fault.{IsOfNamed};
ghost use Rattle.databases.specs.Name.{IsNoFile};
ghost use Rattle.database_commands.specs.OfFile.{IsOver, RefusesFiles, RefusesFilesFor};
ghost use Rattle.databases.specs.Trouble.{IsOfOpening};
ghost use Rattle.databases.specs.declared.fault.CommandFault.TheVariants as CommandFault;
ghost use Rattle.databases.specs.declared.trouble.Trouble.TheVariants as trouble;

use crate::file::{is_no_file, is_there, opened};
use databases::{CommandFault, Trouble};
use sqlite::Connection;
use sqlite_disk::{Start, Unknown};
use sqlite_std_file::File;
use sqlite_store::FileStore;
use std::thread::sleep;
use std::time::Duration;

/// How often a database is tried in a second of waiting.
const TRIES: u64 = 20;
/// The milliseconds between two tries.
const PAUSE: u64 = 50;

/// The databases of the operating system, by the names of their files. One that another process has
/// open is tried again, for so many seconds at most; nothing else is waited for, and a command that
/// was begun is never given again.
#[derive(Clone, Copy)]
pub struct Opener<'a> {
    pub(crate) rt: &'a HostRuntime,
    seconds: u64,
}

impl<'a> Opener<'a> {
    /// Databases, opened by their names, that are tried once.
    pub fn new(rt: &'a HostRuntime) -> Opener<'a> {
        Opener { rt, seconds: 0 }
    }

    /// The same databases, each tried again on opening for so many seconds at most.
    pub(crate) fn tried_for(self, seconds: u64) -> Opener<'a> {
        Opener {
            rt: self.rt,
            seconds,
        }
    }

    /// As [`crate::open`] of a database, once no other process has the file open.
    pub fn open(&self, name: &str, growth: u64) -> Result<Connection<FileStore<File>>, CommandFault>
        ensures over { IfOk result (IsOver (image_at ⟦<Unknown as Start>⟧)) }
        ensures refused { RefusesFilesFor (image_at ⟦<Unknown as Start>⟧) result }
        ensures none { IsNoFile name.now → IsErrOf result CommandFault.Store }
        ensures named { IfErr result IsOfNamed }
    {
        if is_no_file(name) {
            return Err(CommandFault::Store);
        }
        match self.opened(name, growth) {
            Ok(conn) => Ok(conn),
            Err(why) => Err(why.fault()),
        }
    }

    /// Opens a database for a command that makes none, once no other process has the file open; or
    /// says what is the matter: `CannotRead` if there is none.
    pub(crate) fn found(&self, name: &str) -> Result<Connection<FileStore<File>>, Trouble>
        ensures over { IfOk result (IsOver (image_at ⟦<Unknown as Start>⟧)) }
        ensures refused { RefusesFiles (image_at ⟦<Unknown as Start>⟧) result }
        ensures none { IsNoFile name.now → IsErrOf result trouble.NoFile }
        ensures name { IfErr result (λ why. why ≡ trouble.NoFile → IsNoFile name.now) }
    {
        is_there(self.rt, name)?;
        self.opened(name, 0)
    }

    /// Opens a database's file, and tries again while another process has it.
    fn opened(&self, name: &str, growth: u64) -> Result<Connection<FileStore<File>>, Trouble>
        ensures over { IfOk result (IsOver (image_at ⟦<Unknown as Start>⟧)) }
        ensures refused { RefusesFiles (image_at ⟦<Unknown as Start>⟧) result }
        ensures opening { IfErr result IsOfOpening }
    {
        for _ in 0..self.seconds.saturating_mul(TRIES) {
            match opened(self.rt, name, growth, Unknown) {
                Ok(conn) => return Ok(conn),
                Err(Trouble::Busy) => sleep(self.rt, Duration::from_millis(PAUSE)),
                Err(why) => return Err(why),
            }
        }
        opened(self.rt, name, growth, Unknown)
    }
}
