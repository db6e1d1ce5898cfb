//! The files of the operating system, by their names.
ghost use Rattle.std.specs.Prelude.{◌≡◌, IfErr, IfOk, List, ℕ};
ghost use Rattle.site_commands.specs.Inputs.{MayBeRead, MayBeUnread, MayGive};

use crate::look::{LOOKED, Look, look_of};
use crate::progress::Progress;
use attributes::Octets;
use event_files::{Shelf, Unread, read_all};
use std::alloc::Global;
use std::cell::Cell;
use std::fs::File;
use std::io::{ErrorKind, Read};
use std::rt::Files;
use std::{fs, io};

/// A shelf whose files can be read as they come.
pub trait Streams: Shelf {
    /// A file that was opened.
    type Input: Read + Drop;

    /// Opens the program's file of that name, to be read from its beginning.
    fn open(&self, name: &str) -> Result<Self::Input, Unread>
        ensures input { IfOk result (λ input. (bytes : List ℕ)
            → MayGive (Self.Input.remaining input) bytes
            → Self.is_content self.now name.now bytes) }
        ensures unread { IfErr result (λ why. Self.is_unread self.now name.now why) };
}

/// A shelf on which one may look what a file seems to be.
pub trait Looks: Shelf {
    /// What the program's file of that name seems to be, for a hint.
    fn look(&self, name: &str) -> Look;
}

/// The files of the operating system; `-` is standard input. Before a file is read, it is told how
/// many of so many are left.
#[derive(Drop)]
pub struct SystemFiles<'a, R, P> {
    rt: &'a R,
    progress: &'a P,
    left: Cell<u64>,
    /// What standard input seemed to be when it was read, since it is read once.
    input: Cell<Look>,
}

impl<'a, R, P> SystemFiles<'a, R, P> {
    /// The program's files on the operating system, of which so many are left to read.
    pub fn new(rt: &'a R, progress: &'a P, left: u64) -> SystemFiles<'a, R, P> {
        SystemFiles {
            rt,
            progress,
            left: Cell::new(left),
            input: Cell::new(Look::Other),
        }
    }
}

impl<'a, R: AllocGlobal + Files, P: Progress> Shelf for SystemFiles<'a, R, P> {
    ghost is_content = { λ _. MayBeRead };

    ghost is_unread = { λ _. MayBeUnread };

    fn content(&self, alloc: Global, name: &str) -> Result<Octets, Unread> {
        let left = self.left.get();
        if left > 0 {
            self.progress.left(left);
            self.left.set(left - 1);
        }
        match File::open(self.rt, path_of(name)) {
            Ok(mut file) => {
                let read = read_all(alloc, &mut file);
                if name == "-" {
                    if let Ok(bytes) = &read {
                        self.input.set(look_of(bytes.as_bytes()));
                    }
                }
                read
            }
            Err(_) => Err(Unread::CannotRead),
        }
    }
}

impl<'a, R: AllocGlobal + Files, P: Progress> Looks for SystemFiles<'a, R, P> {
    fn look(&self, name: &str) -> Look {
        if name == "-" {
            return self.input.get();
        }
        match fs::metadata(self.rt, name) {
            Ok(found) if found.is_dir() => return Look::Folder,
            Ok(_) => {}
            Err(error) => return look_of_error(error.kind()),
        }
        match File::open(self.rt, name) {
            Ok(mut file) => look_into(&mut file),
            Err(error) => look_of_error(error.kind()),
        }
    }
}

/// What a file of the program seems to be that can be read, for a hint.
fn look_into<F: Read>(file: &mut F) -> Look {
    let mut bytes = [0; LOOKED];
    match file.read(&mut bytes) {
        Ok(count) => look_of(&bytes[..count]),
        Err(_) => Look::Other,
    }
}

/// What a file of the program is that isn't opened, for a hint.
fn look_of_error(kind: ErrorKind) -> Look {
    match kind {
        ErrorKind::NotFound => Look::Missing,
        ErrorKind::PermissionDenied => Look::Denied,
        _ => Look::Other,
    }
}

impl<'a, R: AllocGlobal + Files, P: Progress> Streams for SystemFiles<'a, R, P> {
    type Input = WatchedInput<'a, R::File, P>;

    fn open(&self, name: &str) -> Result<WatchedInput<'a, R::File, P>, Unread> {
        match File::open(self.rt, path_of(name)) {
            Ok(file) => Ok(WatchedInput {
                file,
                progress: self.progress,
                lines: 0,
            }),
            Err(_) => Err(Unread::CannotRead),
        }
    }
}

/// A file that is followed. A stream is read on only once all lines that were read whole are done
/// with, so each read tells how many these are.
#[derive(Drop)]
pub struct WatchedInput<'a, F, P> {
    file: F,
    progress: &'a P,
    lines: u64,
}

impl<'a, F: Read, P: Progress> Read for WatchedInput<'a, F, P> {
    fn read(&mut self, buf: &mut [u8]) -> io::Result<usize> {
        self.progress.lines(self.lines);
        let count = self.file.read(buf)?;
        let ends = buf[..count].iter().filter(|b| **b == b'\n').count();
        self.lines = self.lines.saturating_add(ends as u64);
        Ok(count)
    }
}

/// The operating system's path of the program's file: `-` is standard input.
fn path_of(name: &str) -> &str {
    if name == "-" { "/dev/stdin" } else { name }
}
