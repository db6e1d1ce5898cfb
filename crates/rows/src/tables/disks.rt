//! Databases over two files in memory, of which one may fail from its n-th call on. What is generic
//! over the store is proved from its bounds; each use of it at the store of files is dear, so there
//! is one, in [`ran`].

use crate::said::{Said, line};
use crate::shelf::Shelf;
use crate::tables::acts::{End, Tried, act_all};
use crate::tables::known::Known;
use crate::tables::stops::look_over;
use sqlite::{Alter, Connection, FileStore, Files, Options};
use sqlite_disk::{Crash, Disk, Fuse, Memory};
use std::alloc::Global;
use std::sync::Wait;

/// The bytes of two files.
#[derive(Drop)]
pub struct Image {
    pub log: Vec<u8>,
    pub db: Vec<u8>,
}

/// What is done to a database.
#[derive(Clone, Copy)]
pub enum Act {
    /// The calls, and then the files are closed.
    Call,
    /// The calls, and the files are left without being closed.
    Leave,
    /// It is told what a stop in the calls left, and whether they had answered.
    Look(bool),
}

/// What an act leaves of a connection: it, to be closed, or its store, which isn't to be closed.
#[derive(Drop)]
enum Left<S: Alter + Drop> {
    Open(Connection<S>),
    Store { store: S, end: End },
}

/// The files after a run, what the calls came to, and whether the files were closed without a stop.
#[derive(Drop)]
pub struct Run {
    pub files: Files<Fuse<Memory>>,
    pub end: End,
    pub is_through: bool,
}

/// Does it. What isn't done isn't to be closed.
fn left_by<R: AllocGlobal + Wait, S: Alter + Drop>(
    rt: &R,
    conn: Connection<S>,
    known: &Known,
    act: Act,
    text: &str,
    said: &mut Said,
) -> Left<S> {
    let Tried { conn, end } = match act {
        Act::Look(is_done) => look_over(rt, conn, known, text, is_done, said),
        _ => act_all(rt, conn, known, text, said),
    };
    if end == End::Done && matches!(act, Act::Call) {
        return Left::Open(conn);
    }
    Left::Store {
        store: conn.into_store(),
        end,
    }
}

/// Closes the files, unless a stop is met.
fn closed(conn: Connection<FileStore<Fuse<Memory>>>) -> Run {
    match conn.close_files() {
        Ok(files) => Run {
            files,
            end: End::Done,
            is_through: true,
        },
        Err((_, store)) => Run {
            files: store.close(),
            end: End::Done,
            is_through: false,
        },
    }
}

/// Opens the files, does it and closes them, up to a stop.
pub fn ran<R: AllocGlobal + Wait>(
    rt: &R,
    files: Files<Fuse<Memory>>,
    known: &Known,
    act: Act,
    text: &str,
    said: &mut Said,
) -> Option<Run> {
    let alloc = rt.alloc();
    if !files.may_be_used() {
        return None;
    }
    let conn = match Connection::open_files(alloc, files, Options::new(1)) {
        Ok(conn) => conn,
        Err((_, left)) => {
            return Some(Run {
                files: left.into_files(),
                end: End::Refused,
                is_through: false,
            });
        }
    };
    Some(match left_by(rt, conn, known, act, text, said) {
        Left::Open(conn) => closed(conn),
        Left::Store { store, end } => Run {
            files: store.close(),
            end,
            is_through: false,
        },
    })
}

/// A file with these bytes, which fails after so many calls.
fn file_of(alloc: Global, bytes: &[u8], calls: u64) -> Option<Fuse<Memory>> {
    let mut file = Memory::new(alloc);
    if file.write_at(0, bytes).is_ok() && file.sync().is_ok() {
        Some(Fuse::new(file, calls))
    } else {
        None
    }
}

/// Files with these bytes, each of which fails after so many calls.
pub fn files_of(
    alloc: Global,
    log: &[u8],
    db: &[u8],
    calls: (u64, u64),
) -> Option<Files<Fuse<Memory>>> {
    match (file_of(alloc, log, calls.0), file_of(alloc, db, calls.1)) {
        (Some(log), Some(db)) => Some(Files { log, db }),
        _ => None,
    }
}

/// Puts what was written in the place of an image's file.
fn settle(bytes: &mut Vec<u8>, file: &Fuse<Memory>) -> bool {
    bytes.clear();
    bytes.extend_from_slice(file.inner().bytes()).is_ok()
}

/// `files NAME`: new ones.
pub fn begin(alloc: Global, images: &mut Shelf<Image>, name: &str) -> bool {
    let (log, db) = (Vec::new(alloc), Vec::new(alloc));
    images.put(alloc, name, Image { log, db })
}

/// Calls over files, which don't fail.
pub fn over<R: AllocGlobal + Wait>(
    rt: &R,
    image: &mut Image,
    known: &Known,
    act: Act,
    text: &str,
    said: &mut Said,
) -> bool {
    let alloc = rt.alloc();
    let calls = (u64::MAX, u64::MAX);
    let Some(files) = files_of(alloc, image.log.as_slice(), image.db.as_slice(), calls) else {
        return false;
    };
    let Some(run) = ran(rt, files, known, act, text, said) else {
        return false;
    };
    let end = if run.is_through {
        "closed"
    } else {
        "not closed"
    };
    run.end != End::Untold
        && settle(&mut image.log, &run.files.log)
        && settle(&mut image.db, &run.files.db)
        && line(&mut said.text, end)
}

/// Adds what a stop may have left of a file, each once: what was written, what was synced, and a
/// mixture of both. Answers whether it did.
pub fn add_left(alloc: Global, outcomes: &mut Vec<Vec<u8>>, file: &mut Fuse<Memory>) -> bool {
    let Some(written) = copy(alloc, file.inner().bytes()) else {
        return false;
    };
    file.crash();
    let synced = file.inner().bytes();
    let is_one = written.as_slice() == synced;
    (is_one || add_mixed(alloc, outcomes, &written, synced)) && outcomes.push(written).is_ok()
}

/// Adds a mixture of what was written and what was synced, and the latter.
fn add_mixed(alloc: Global, outcomes: &mut Vec<Vec<u8>>, written: &[u8], synced: &[u8]) -> bool {
    add(outcomes, mixture(alloc, written, synced)) && add(outcomes, copy(alloc, synced))
}

/// Adds bytes, and answers whether there are some.
fn add(outcomes: &mut Vec<Vec<u8>>, bytes: Option<Vec<u8>>) -> bool {
    match bytes {
        Some(bytes) => outcomes.push(bytes).is_ok(),
        None => false,
    }
}

/// A copy of bytes.
fn copy(alloc: Global, bytes: &[u8]) -> Option<Vec<u8>> {
    let mut copy = Vec::new(alloc);
    match copy.extend_from_slice(bytes) {
        Ok(()) => Some(copy),
        Err(_) => None,
    }
}

/// The byte at a place of a mixture: the written one, or at an odd place the one that was synced,
/// or another behind the end of those.
fn mixed(written: u8, synced: &[u8], place: usize) -> u8 {
    if place % 2 == 0 {
        return written;
    }
    match synced.get(place) {
        Some(byte) => *byte,
        None => 0xa5,
    }
}

/// Makes the written bytes a mixture.
fn mix(bytes: &mut [u8], synced: &[u8]) {
    for place in 0..bytes.len() {
        bytes[place] = mixed(bytes[place], synced, place);
    }
}

/// The written bytes, and at odd places those that were synced, or others behind their end. Where
/// both agree nothing may have changed, and so nothing is.
fn mixture(alloc: Global, written: &[u8], synced: &[u8]) -> Option<Vec<u8>> {
    let mut mixture = copy(alloc, written)?;
    mix(mixture.as_mut_slice(), synced);
    Some(mixture)
}
