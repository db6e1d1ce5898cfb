//! A site over the files of a database, which are handed over open.
ghost use Rattle.std.specs.Prelude.{◌≡◌, ◌≤◌, false, true, IfOk, IsTrue};
ghost use Rattle.file_disk.specs.Opened.{IsFresh, IsUnder, is_usable};
ghost use Rattle.sqlite_wal.specs.Files.{image_at};
ghost use Rattle.durable_site.specs.Files.{Closes, IsCacheOf, IsOver, OpensOver, RefusesFiles, RefusesSite, table_fault};

use crate::durable::DurableSite;
use crate::fault::{OpenFault, of_error, of_table};
use file_disk::{FileFrom, files_of};
use inbox_table::NotMade;
use sqlite::Connection;
use sqlite_disk::{Files, Start};
use sqlite_pager::Options;
use sqlite_store::FileStore;
use std::alloc::Global;
use std::{fs, io};

/// The bytes of a database's page.
const PAGE: u64 = 4_096;
/// The fewest pages that are kept in memory.
const LEAST_PAGES: u64 = 200;
/// The most where the caller doesn't say how many, 256 MiB.
const MOST_PAGES: u64 = 65_536;
/// The pages for what comes while the site is open, where the caller doesn't say, 16 MiB.
const GROWTH: u64 = 4_096;
/// The pages of a MiB.
const MIB: u64 = 256;

/// A site over the files of a database.
pub type FileSite<T> = DurableSite<FileStore<FileFrom<T>>>;

/// The two files of a database, open for reading and writing, as [`file_disk::files_of`] takes
/// them: both are locked and nobody else's. They lie in memory as C has a struct of the two numbers
/// by which the system knows them, then three more.
#[repr(C)]
#[derive(Drop)]
pub struct GivenFiles {
    pub log: fs::File,
    pub db: fs::File,
    /// Drawn at random: the secret under which digests are taken.
    pub key: u64,
    /// Drawn at random, for the log's salts.
    pub seed: u64,
    /// How many MiB of the database are kept in memory, which is taken at once; at 0 as much as the
    /// file has now, a tenth and 16 MiB, at most 256 MiB. Of a database past it pages are read
    /// again.
    pub cache_mib: u64,
}

/// Opens a site over its table in the files of a database, as [`DurableSite::open`] does; files
/// that are empty get one without events. What they hold `T` says in clauses, and no code can ask.
pub fn open_files<T: Start>(
    alloc: Global,
    given: GivenFiles,
    start: T,
) -> Result<FileSite<T>, OpenFault>
    ensures opens { IfOk result (OpensOver (image_at T.Start)) }
    ensures refused { RefusesSite (image_at T.Start) result }
{
    let conn = match connect(alloc, given, start) {
        Ok(conn) => conn,
        Err(fault) => return Err(fault),
    };
    match DurableSite::open(alloc, conn) {
        Ok(site) => Ok(site),
        Err(refused) => Err(fault_of(refused)),
    }
}

/// Why no durable site was made of a connection, whose files are closed as they are.
fn fault_of<T: Start>(refused: NotMade<FileStore<FileFrom<T>>>) -> OpenFault
    ensures fault { result ≡ table_fault refused.fault }
    ensures closes { Closes refused.conn }
{
    let NotMade { conn, fault } = refused;
    close(conn);
    of_table(fault)
}

/// Opens the database of a durable site's files; of empty ones a database without tables. The fault
/// is `OutOfMemory`, `System`, `NoDatabase`, `Damaged` or `Store`. What they hold `T` says in
/// clauses, and no code can ask. Time in proportion to the log, and memory to the cache.
pub fn connect<T: Start>(
    alloc: Global,
    given: GivenFiles,
    start: T,
) -> Result<Connection<FileStore<FileFrom<T>>>, OpenFault>
    ensures over { IfOk result (IsOver (image_at T.Start)) }
    ensures refused { RefusesFiles (image_at T.Start) result }
{
    let (files, options) = taken(given, start)?;
    match Connection::open_files(alloc, files, options) {
        Ok(conn) => Ok(conn),
        Err((error, _)) => Err(of_error(error)),
    }
}

/// A durable site's files as disks under the given key, and how a database is opened over them:
/// with the seed that was given, and a cache of the size that was.
fn taken<T: Start>(given: GivenFiles, start: T) -> io::Result<(Files<FileFrom<T>>, Options)>
    ensures log { IfOk result (λ r. IsFresh true r.0.log) }
    ensures db { IfOk result (λ r. IsFresh false r.0.db) }
    ensures log_usable { IfOk result (λ r. IsTrue (is_usable T.Start r.0.log)) }
    ensures db_usable { IfOk result (λ r. IsTrue (is_usable T.Start r.0.db)) }
    ensures keyed { IfOk result (λ r. IsUnder given.key r.0.log × IsUnder given.key r.0.db) }
    ensures seeded { IfOk result (λ r. r.1.seed ≡ given.seed) }
    ensures cached { IfOk result (λ r. IsCacheOf given.cache_mib r.1.cache_pages) }
    ensures spilled { IfOk result (λ r. r.1.cache_pages ≤ r.1.spill_pages) }
{
    let pages = pages_for(given.db.metadata()?.len(), given.cache_mib);
    let mut options = Options::new(given.seed);
    options.cache_pages = pages as usize;
    options.spill_pages = options.spill_pages.max(pages as usize);
    let files = files_of(given.log, given.db, given.key, start)?;
    Ok((files, options))
}

/// Copies the log of a durable site's database into its file, and closes both. Where that fails the
/// log stays beside the file, for the next opening. Time in proportion to the log.
pub fn close<T: Start>(conn: Connection<FileStore<FileFrom<T>>>)
    ensures { Closes conn }
{
    match conn.close_files() {
        Ok(files) => drop(files),
        Err((_, store)) => drop(store.close()),
    }
}

/// A durable site's pages to keep in memory. A page stands in the cache at its number modulo the
/// cache's size, so there is a tenth more than the file has.
fn pages_for(length: u64, cache_mib: u64) -> u64
    ensures { IsCacheOf cache_mib result }
{
    if cache_mib > 0 {
        return cache_mib.min(1_048_576) * MIB;
    }
    let pages = length / PAGE;
    (pages + pages / 10 + GROWTH).clamp(LEAST_PAGES, MOST_PAGES)
}
