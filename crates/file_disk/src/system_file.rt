//! An open file whose calls are told as a disk's are.
ghost use Rattle.std.specs.Prelude.{◌≡◌, IfOk};
ghost use Rattle.file_disk.specs.File.{calls_of};

use crate::system::OpenFile;
use sqlite_disk::Calls;
use std::{fs, io};

/// An open file of the operating system, settled.
#[derive(Drop)]
pub struct SystemFile {
    file: OpenFile,
}

impl SystemFile {
    ghost use Rattle.file_disk.specs.Opened.{IsFileSettled};

    /// Takes an open file as a disk, once what was written to it before has reached its device.
    pub(crate) fn of_open(file: fs::File, key: u64) -> io::Result<SystemFile>
        ensures { IfOk result (IsFileSettled key) }
    {
        let mut file = OpenFile::of(file);
        file.settle(key)?;
        Ok(SystemFile { file })
    }
}

impl Calls for SystemFile {
    ghost history = { λ f. calls_of f.file };

    fn len(&mut self) -> io::Result<usize> {
        self.file.length()
    }

    fn read_some(&mut self, at: usize, buf: &mut [u8]) -> io::Result<usize> {
        self.file.read(at, buf)
    }

    fn read_under(&mut self, key: u64, want: u64, at: usize, buf: &mut [u8]) -> io::Result<usize> {
        self.file.read_under(key, want, at, buf)
    }

    fn write_some(&mut self, at: usize, bytes: &[u8]) -> io::Result<usize> {
        self.file.write(at, bytes)
    }

    fn resize(&mut self, len: usize) -> io::Result<()> {
        self.file.resize(len)
    }

    fn sync(&mut self) -> io::Result<()> {
        self.file.sync()
    }
}
