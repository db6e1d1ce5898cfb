//! A table of events, in files that crashed.

ghost use Rattle.std.specs.Prelude.{IfErr, IfOk};
ghost use Rattle.sqlite.specs.Files.{file_state};
ghost use Rattle.sqlite.specs.State.{HasCleanDisk};
ghost use Rattle.reopening.specs.Lists.{FindsList, FindsNoTable};

use crate::files::reopened;
use database_layout::laws::trees_tell_tables;
use inbox_table::laws::stops_leave_a_list;
use inbox_table::{Loaded, NotMade, Table};
use sqlite::{Connection, Error, FileStore, Leftover, Options};
use sqlite_disk::{Crash, Disk};
use std::alloc::Global;

/// Why no table is found in files that crashed.
#[derive(Drop)]
pub enum NoTable<D: Disk> {
    /// The files weren't opened.
    Unopened(Error, Leftover<D>),
    /// They were, and the table isn't taken.
    Refused(NotMade<FileStore<D>>),
}

/// Lets the machine crash, opens the files again and takes the table in them, with its events:
/// after a call of a table that came to its end or was stopped at any write, they are those of
/// before the call or those that it commits.
///
/// It is refused as [`reopened`] and then [`Table::adopt_and_load`] are, but for one: a list that
/// was there before the call isn't `Foreign`. Time and memory are those of both.
pub fn table_reopened<D: Crash + Drop>(
    alloc: Global,
    conn: Connection<FileStore<D>>,
    options: Options,
) -> Result<Loaded<FileStore<D>>, NoTable<D>>
    ensures found { IfOk result (λ l. HasCleanDisk (file_state l.table.conn)
        → FindsList conn (file_state l.table.conn) l.events) }
    ensures refused { IfErr result (FindsNoTable conn) }
{
    stops_leave_a_list();
    trees_tell_tables();
    let again = match reopened(alloc, conn, options) {
        Ok(again) => again,
        Err((error, left)) => return Err(NoTable::Unopened(error, left)),
    };
    match Table::adopt_and_load(alloc, again) {
        Ok(loaded) => Ok(loaded),
        Err(refused) => Err(NoTable::Refused(refused)),
    }
}
