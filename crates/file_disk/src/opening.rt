//! Two open files taken as those of a database.
ghost use Rattle.std.specs.Prelude.{true, false, IfOk, IsTrue};
ghost use Rattle.file_disk.specs.Opened.{IsFresh, IsUnder, is_usable};

use crate::FileFrom;
use crate::system_file::SystemFile;
use sqlite_disk::{Files, Modelled, Start};
use std::{fs, io};

/// Takes the log and the database file, both open for reading and writing, as those of a database.
/// Whoever opened them holds SQLite's lock on each, has seen to it that neither is anybody else's,
/// and has drawn the key at random: it stands in for a secret, under which digests are taken.
///
/// What the files hold `S` says, which no code can ask. It is used up, so that code over any `S`
/// takes one pair.
pub fn files_of<S: Start>(
    log: fs::File,
    db: fs::File,
    key: u64,
    _start: S,
) -> io::Result<Files<FileFrom<S>>>
    ensures log { IfOk result (λ files. IsFresh true files.log) }
    ensures db { IfOk result (λ files. IsFresh false files.db) }
    ensures keyed { IfOk result (λ files. IsUnder key files.log × IsUnder key files.db) }
    ensures log_usable { IfOk result (λ files. IsTrue (is_usable S.Start files.log)) }
    ensures db_usable { IfOk result (λ files. IsTrue (is_usable S.Start files.db)) }
{
    let log = SystemFile::of_open(log, key)?;
    let db = SystemFile::of_open(db, key)?;
    Ok(Files {
        log: Modelled::new(log, true, key),
        db: Modelled::new(db, false, key),
    })
}
