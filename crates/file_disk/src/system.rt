//! What touches the operating system: a function makes one call and notes it with its answer.
//! Nothing outside this module adds to a file's record, so that these few bodies make the calls
//! that they note is all that has to be read.
ghost use Rattle.std.specs.Prelude.{◌≡◌, ◌<◌, ◌≤◌, ◌^◌, [], ◌∷◌, length, take, true, false, is_ok, IfOk, MatchResult, OnErr, OnOk};
ghost use Rattle.sqlite_disk.specs.Events.{cut, flushed, measured, read, read_under, settled, written};
ghost use Rattle.sqlite_disk.specs.Refusal.{as_number, finds_no_room, is_no_room};
ghost use Rattle.file_disk.specs.File.{calls_of};
ghost use Rattle.file_disk.specs.Note.{event_of_note};

use sqlite_disk::is_no_room;
use std::os::unix::fs::FileExt;
use std::{fs, io};

mod record;

use record::{Note, Record};

// The kinds of calls, by the numbers of their events.
const SETTLED: u64 = 0;

const MEASURED: u64 = 1;

const READ: u64 = 2;

const WRITTEN: u64 = 3;

const CUT: u64 = 4;

const FLUSHED: u64 = 5;

const TESTED: u64 = 6;

/// The last offset that the operating system takes.
const MAX_OFFSET: u64 = (1 << 63) - 1;

/// An open file of the operating system, and what was asked of it. It is closed where it is let go.
#[derive(Drop)]
pub struct OpenFile {
    file: fs::File,
    record: Record,
}

impl OpenFile {
    /// Takes an open file of a disk, of which nothing was asked.
    pub(crate) fn of(file: fs::File) -> OpenFile
        ensures { calls_of result ≡ [] }
    {
        OpenFile {
            file,
            record: Record::new(),
        }
    }

    /// Waits until the device has what the disk's file has, and takes it so, under a key.
    pub(crate) fn settle(&mut self, key: u64) -> io::Result<()>
        ensures settled { OnOk result (calls_of self.new ≡ settled key ∷ calls_of self.old) }
        ensures refused { OnErr result (calls_of self.new ≡ calls_of self.old) }
    {
        self.file.sync_all()?;
        self.note(SETTLED, key, 0, true, &[]);
        Ok(())
    }

    /// How many bytes the disk's file has.
    pub(crate) fn length(&mut self) -> io::Result<usize>
        ensures { MatchResult result
            (λ n. calls_of self.new ≡ measured true n ∷ calls_of self.old)
            (λ _. calls_of self.new ≡ measured false 0 ∷ calls_of self.old) }
    {
        let answer = length_of(&self.file);
        let (length, done) = match answer {
            Ok(length) => (length as u64, true),
            Err(_) => (0, false),
        };
        self.note(MEASURED, length, 0, done, &[]);
        answer
    }

    /// Reads from a disk's file at the offset, one byte or more; where none is there, it fails.
    pub(crate) fn read(&mut self, at: usize, buf: &mut [u8]) -> io::Result<usize>
        ensures count { IfOk result (λ n. (0 < n) × (n ≤ length buf.old) × (at < 2 ^ 63)) }
        ensures noted { MatchResult result
            (λ n. calls_of self.new
            ≡ read at (length buf.old) true (take n buf.new) ∷ calls_of self.old)
            (λ _. calls_of self.new ≡ read at (length buf.old) false [] ∷ calls_of self.old) }
    {
        let note = Note {
            kind: READ,
            at: at as u64,
            count: buf.len() as u64,
            done: false,
            key: 0,
            want: 0,
        };
        self.read_noted(note, buf)
    }

    /// The same read of a disk's file, of bytes that the caller will test against a digest.
    pub(crate) fn read_under(
        &mut self,
        key: u64,
        want: u64,
        at: usize,
        buf: &mut [u8],
    ) -> io::Result<usize>
        ensures count { IfOk result (λ n. (0 < n) × (n ≤ length buf.old) × (at < 2 ^ 63)) }
        ensures noted { MatchResult result
            (λ n. calls_of self.new
            ≡ read_under key want at (length buf.old) true (take n buf.new)
            ∷ calls_of self.old)
            (λ _. calls_of self.new
            ≡ read_under key want at (length buf.old) false [] ∷ calls_of self.old) }
    {
        let note = Note {
            kind: TESTED,
            at: at as u64,
            count: buf.len() as u64,
            done: false,
            key,
            want,
        };
        self.read_noted(note, buf)
    }

    /// Reads from a disk's file as the note says, and adds it with what came to the record.
    fn read_noted(&mut self, note: Note, buf: &mut [u8]) -> io::Result<usize>
        ensures count { IfOk result
            (λ n. (0 < n) × (n ≤ length buf.old) × (note.at < 2 ^ 63)) }
        ensures noted { MatchResult result
            (λ n. calls_of self.new
            ≡ event_of_note (record note { done = true }) (take n buf.new) ∷ calls_of self.old)
            (λ _. calls_of self.new
            ≡ event_of_note (record note { done = false }) [] ∷ calls_of self.old) }
    {
        let answer = read_from(&self.file, note.at, buf);
        let (came, done) = match answer {
            Ok(came) => (came, true),
            Err(_) => (0, false),
        };
        let note = Note { done, ..note };
        self.record = self.record.and(&note, &buf[..came]);
        answer
    }

    /// Writes a disk's file at the offset, one byte or more of these; it fails if none is taken.
    pub(crate) fn write(&mut self, at: usize, bytes: &[u8]) -> io::Result<usize>
        ensures count { IfOk result (λ n. (0 < n) × (n ≤ length bytes.now) × (at < 2 ^ 63)) }
        ensures noted { MatchResult result
            (λ n. calls_of self.new ≡ written at bytes.now true n ∷ calls_of self.old)
            (λ e. calls_of self.new
            ≡ written at bytes.now false (as_number (is_no_room e)) ∷ calls_of self.old) }
    {
        let answer = write_to(&self.file, at as u64, bytes);
        let (count, done) = match answer {
            Ok(count) => (count as u64, true),
            Err(error) => (u64::from(is_no_room(&error)), false),
        };
        self.note(WRITTEN, at as u64, count, done, bytes);
        answer
    }

    /// Makes the disk's file that many bytes long.
    pub(crate) fn resize(&mut self, len: usize) -> io::Result<()>
        ensures { calls_of self.new
            ≡ cut len (is_ok result) (as_number (finds_no_room result)) ∷ calls_of self.old }
    {
        let answer = self.file.set_len(len as u64);
        self.note(CUT, len as u64, no_room_count(&answer), answer.is_ok(), &[]);
        answer
    }

    /// Waits until the device has the bytes of the disk's file.
    pub(crate) fn sync(&mut self) -> io::Result<()>
        ensures { calls_of self.new
            ≡ flushed (is_ok result) (as_number (finds_no_room result)) ∷ calls_of self.old }
    {
        let answer = self.file.sync_data();
        self.note(FLUSHED, 0, no_room_count(&answer), answer.is_ok(), &[]);
        answer
    }

    /// Adds a call on a disk's file, that is no tested read, to the record.
    fn note(&mut self, kind: u64, at: u64, count: u64, done: bool, bytes: &[u8])
        ensures { calls_of self.new ≡ event_of_note (record {
          kind = kind;
          at = at;
          count = count;
          done = done;
          key = 0;
          want = 0;
        }) bytes.now ∷ calls_of self.old }
    {
        let note = Note {
            kind,
            at,
            count,
            done,
            key: 0,
            want: 0,
        };
        self.record = self.record.and(&note, bytes);
    }
}

/// 1 where a call on a disk's file found no room, else 0.
fn no_room_count(answer: &io::Result<()>) -> u64
    ensures { result ≡ as_number (finds_no_room answer.now) }
{
    match answer {
        Ok(()) => 0,
        Err(error) => u64::from(is_no_room(error)),
    }
}

fn length_of(file: &fs::File) -> io::Result<usize> {
    Ok(file.metadata()?.len() as usize)
}

/// Reads from a disk's file from the offset on; that nothing came is an error.
fn read_from(file: &fs::File, at: u64, buf: &mut [u8]) -> io::Result<usize>
    ensures { IfOk result (λ n. (0 < n) × (n ≤ length buf.old) × (at < 2 ^ 63)) }
{
    if at > MAX_OFFSET {
        return Err(io::ErrorKind::InvalidInput.into());
    }
    match file.read_at(buf, at)? {
        0 => Err(io::ErrorKind::UnexpectedEof.into()),
        came => Ok(came),
    }
}

/// Writes at the offset of a disk's file; that nothing was taken is an error.
fn write_to(file: &fs::File, at: u64, bytes: &[u8]) -> io::Result<usize>
    ensures { IfOk result (λ n. (0 < n) × (n ≤ length bytes.now) × (at < 2 ^ 63)) }
{
    if at > MAX_OFFSET {
        return Err(io::ErrorKind::InvalidInput.into());
    }
    match file.write_at(bytes, at)? {
        0 => Err(io::ErrorKind::WriteZero.into()),
        taken => Ok(taken),
    }
}
