//! The files of a database, opened by their name.
ghost use Rattle.std.specs.Prelude.{◌≡◌, ◌≤◌, IfErr, IfOk, IfSome, IsErrOf, IsTrue};
ghost use Rattle.sqlite_wal.specs.Files.{image_at};
ghost use Rattle.databases.specs.Name.{IsNoFile};
ghost use Rattle.database_commands.specs.OfFile.{Closes, IsOver, RefusesFiles, RefusesFilesFor};
ghost use Rattle.databases.specs.Trouble.{IsOfOpening, IsSystemTrouble};
ghost use Rattle.databases.specs.declared.fault.CommandFault.TheVariants as CommandFault;
ghost use Rattle.databases.specs.declared.trouble.Trouble.TheVariants as trouble;

use databases::{CommandFault, Trouble, of_error, of_kind, of_open};
use sqlite::Connection;
use sqlite_disk::{Start, Unknown};
use sqlite_pager::Options;
use sqlite_std_file::{File, FileFrom};
use sqlite_store::FileStore;
use std::env::VarError;
use std::hash::{BuildHasher, RandomState};
use std::io::ErrorKind;
use std::{env, fs};

/// The bytes of a database's page.
const PAGE: u64 = 4_096;
/// The fewest pages that are kept in memory.
const LEAST_PAGES: u64 = 200;
/// The variable of the environment that says how many MiB of a database are kept in memory at most.
const CACHE: &str = "SITE_CACHE_MIB";
/// The most that it may say, 1 TiB.
const MOST_MIB: u64 = 1_048_576;
/// The pages of a MiB.
const MIB: u64 = 256;
/// The most pages that are kept in memory where the variable isn't set, 256 MiB. The cache is made
/// once the first page is found to be a database's, so a huge file that only begins like one may
/// not ask for more; of a database past this size an open reads pages again.
const MOST_PAGES: u64 = 65_536;

/// Whether a database's name means no file to SQLite: the empty one and `:memory:` are databases
/// that go away there, and one that begins with `file:` is a URI.
pub(crate) fn is_no_file(name: &str) -> bool
    ensures some { IsTrue result → IsNoFile name.now }
    ensures none { IsNoFile name.now → IsTrue result }
{
    if name.is_empty() {
        return true;
    }
    if name == ":memory:" {
        return true;
    }
    name.starts_with("file:")
}

/// Opens the database of that name for a command that makes none, whatever its files hold.
pub(crate) fn open_there<T: Start>(
    rt: &HostRuntime,
    name: &str,
    start: T,
) -> Result<Connection<FileStore<FileFrom<T>>>, CommandFault>
    ensures over { IfOk result (IsOver (image_at T.Start)) }
    ensures refused { RefusesFilesFor (image_at T.Start) result }
    ensures none { IsNoFile name.now → IsErrOf result CommandFault.Store }
{
    match found(rt, name, start) {
        Ok(conn) => Ok(conn),
        Err(why) => Err(why.fault()),
    }
}

/// As [`open_there`], with what is the matter where the database of that name isn't opened.
pub(crate) fn found<T: Start>(
    rt: &HostRuntime,
    name: &str,
    start: T,
) -> Result<Connection<FileStore<FileFrom<T>>>, Trouble>
    ensures over { IfOk result (IsOver (image_at T.Start)) }
    ensures refused { RefusesFiles (image_at T.Start) result }
    ensures none { IsNoFile name.now → IsErrOf result trouble.NoFile }
    ensures name { IfErr result (λ why. why ≡ trouble.NoFile → IsNoFile name.now) }
{
    match is_there(rt, name) {
        Ok(()) => opened(rt, name, 0, start),
        Err(why) => Err(why),
    }
}

/// Whether there is something of a database's name: `CannotRead` where there isn't.
pub(crate) fn is_there(rt: &HostRuntime, name: &str) -> Result<(), Trouble>
    ensures none { IsNoFile name.now → IsErrOf result trouble.NoFile }
    ensures name { IfErr result (λ why. why ≡ trouble.NoFile → IsNoFile name.now) }
    ensures refused { IfErr result IsSystemTrouble }
{
    if is_no_file(name) {
        return Err(Trouble::NoFile);
    }
    match fs::metadata(rt, name) {
        Ok(_) => Ok(()),
        Err(error) => match error.kind() {
            ErrorKind::OutOfMemory => Err(Trouble::OutOfMemory),
            _ => Err(Trouble::CannotRead),
        },
    }
}

/// Opens the database of that name, and makes its file where there is none. `growth` is about how
/// many bytes of events will be added, for what is kept in memory alone. A name that means no file
/// to SQLite is `Store`: who knows it would look for their events in vain.
pub fn open(
    rt: &HostRuntime,
    name: &str,
    growth: u64,
) -> Result<Connection<FileStore<File>>, CommandFault>
    ensures { IsNoFile name.now → IsErrOf result CommandFault.Store }
{
    open_over(rt, name, growth, Unknown)
}

/// As [`open`] of a database's name, whatever its files hold: that `T` says, and no code can ask.
pub fn open_over<T: Start>(
    rt: &HostRuntime,
    name: &str,
    growth: u64,
    start: T,
) -> Result<Connection<FileStore<FileFrom<T>>>, CommandFault>
    ensures over { IfOk result (IsOver (image_at T.Start)) }
    ensures refused { RefusesFilesFor (image_at T.Start) result }
    ensures none { IsNoFile name.now → IsErrOf result CommandFault.Store }
{
    if is_no_file(name) {
        return Err(CommandFault::Store);
    }
    match opened(rt, name, growth, start) {
        Ok(conn) => Ok(conn),
        Err(why) => Err(why.fault()),
    }
}

/// As [`open_over`], of a database's name that is a file's, with what is the matter if not opened.
pub(crate) fn opened<T: Start>(
    rt: &HostRuntime,
    name: &str,
    growth: u64,
    start: T,
) -> Result<Connection<FileStore<FileFrom<T>>>, Trouble>
    ensures over { IfOk result (IsOver (image_at T.Start)) }
    ensures refused { RefusesFiles (image_at T.Start) result }
    ensures opening { IfErr result IsOfOpening }
{
    let most = most_pages(rt)?;
    let pages = pages_for(length_of(rt, name), growth, most);
    let options = options(rt, pages, most)?;
    match sqlite_std_file::open(rt, name, start) {
        Ok(files) => match Connection::open_files(rt.alloc(), files, options) {
            Ok(conn) => Ok(conn),
            Err((error, _)) => Err(of_error(error)),
        },
        Err(error) => Err(of_open(error)),
    }
}

/// How long the database file of that name is; 0 where there is none.
fn length_of(rt: &HostRuntime, name: &str) -> u64 {
    match fs::metadata(rt, name) {
        Ok(found) => found.len(),
        Err(_) => 0,
    }
}

/// A database's pages to be kept in memory: all of the file with what is added to it, and a tenth
/// more, since the cache finds a page by its number modulo its size; `most` if that is too much. An
/// open looks each row up in its index, so a page which isn't kept is read over and over.
fn pages_for(length: u64, growth: u64, most: u64) -> u64
    requires { 200 ≤ most }
    ensures { (200 ≤ result) × (result ≤ most) }
{
    let pages = length.saturating_add(growth) / PAGE;
    pages.saturating_add(pages / 10).clamp(LEAST_PAGES, most)
}

/// The most pages of a database that a command keeps in memory.
fn most_pages(rt: &HostRuntime) -> Result<u64, Trouble>
    ensures pages { IfOk result (λ n. 200 ≤ n) }
    ensures refused { IfErr result IsSystemTrouble }
    ensures opening { IfErr result IsOfOpening }
{
    match env::var(rt, CACHE) {
        Ok(text) => match pages_of(text.as_str()) {
            Some(pages) => Ok(pages),
            None => Err(Trouble::Cache),
        },
        Err(VarError::NotPresent) => Ok(MOST_PAGES),
        Err(VarError::OutOfMemory) => Err(Trouble::OutOfMemory),
        Err(VarError::NotUnicode) => Err(Trouble::Cache),
    }
}

/// The pages of a database in so many MiB, of which there is one at least.
fn pages_of(mib: &str) -> Option<u64>
    ensures { IfSome result (λ n. (200 ≤ n) × (n ≤ 268435456)) }
{
    match mib.parse::<u64>() {
        Ok(mib) => {
            if mib == 0 || mib > MOST_MIB {
                return None;
            }
            Some(mib * MIB)
        }
        Err(_) => None,
    }
}

/// How a command opens a database, with a seed drawn at random. What a transaction writes waits in
/// memory for its end, up to three times the pages that are kept, `most` at most: a row takes
/// about three times its event's text, and a page that goes to the log before is read and written
/// again.
fn options(rt: &HostRuntime, pages: u64, most: u64) -> Result<Options, Trouble>
    requires { pages ≤ most }
    ensures memory { IfOk result (λ o. (o.cache_pages ≡ pages) × (pages ≤ o.spill_pages)) }
    ensures refused { IfErr result IsSystemTrouble }
    ensures opening { IfErr result IsOfOpening }
{
    let state = match RandomState::new(rt) {
        Ok(state) => state,
        Err(error) => return Err(of_kind(error.kind())),
    };
    let mut options = Options::new(state.hash_one(&0u8));
    let written = pages.saturating_mul(3).min(most);
    options.cache_pages = pages as usize;
    options.spill_pages = options.spill_pages.max(written as usize);
    Ok(options)
}

/// Copies the log of a database into its file, and closes both. Where that fails the log stays beside
/// the file, for the next opening. Time in proportion to the log.
pub fn close<T: Start>(conn: Connection<FileStore<FileFrom<T>>>)
    ensures { Closes conn }
{
    match conn.close_files() {
        Ok(files) => drop(files),
        Err((_, store)) => drop(store.close()),
    }
}
