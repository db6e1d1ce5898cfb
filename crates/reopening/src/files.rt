//! A database's two files, after a crash of the machine.

ghost use Rattle.std.specs.Prelude.{IfErr, IfOk, IsTrue};
ghost use Rattle.sqlite.specs.Files.{IsCleanLeft, file_state};
ghost use Rattle.sqlite.specs.Opening.{is_open_error};
ghost use Rattle.sqlite.specs.State.{HasCleanDisk};
ghost use Rattle.reopening.specs.Crash.{FailsToReopen, IsCrashed, IsReopened};

use sqlite::{Connection, Error, FileStore, Files, Leftover, Options};
use sqlite_disk::Crash;
use std::alloc::Global;

/// Lets the machine crash, wherever the connection is: between two calls, after a call that was
/// stopped at a write, or shut. Each file is then what a crash at this moment may leave of it; what
/// was not committed is lost. No memory is taken, and no call can fail.
pub fn crashed<D: Crash + Drop>(conn: Connection<FileStore<D>>) -> Files<D>
    ensures { IsCrashed conn result }
{
    let mut files = conn.into_store().close();
    files.log.crash();
    files.db.crash();
    files
}

/// Lets the machine crash, as [`crashed`], and opens the files again: the log is recovered, and the
/// schema, each page and each row are read and tested.
///
/// The errors are those of [`Connection::open_files`] but for one: that the files are no database
/// comes only where the disk gave back what was not written. Time and memory are those of an open.
pub fn reopened<D: Crash + Drop>(
    alloc: Global,
    conn: Connection<FileStore<D>>,
    options: Options,
) -> Result<Connection<FileStore<D>>, (Error, Leftover<D>)>
    ensures opened { IfOk result (λ again. HasCleanDisk (file_state again)
        → IsReopened (file_state conn) (file_state again)) }
    ensures refused { IfErr result (λ e. IsCleanLeft e.1 → FailsToReopen conn e.1 e.0) }
    ensures named { IfErr result (λ e. IsTrue (is_open_error e.0)) }
{
    Connection::open_files(alloc, crashed(conn), options)
}
