//! Where files are written to, by their names.
ghost use Rattle.std.specs.Prelude.{[], ◌∷◌, List, None, Option, false, true, IfErr, IfOk};
ghost use Rattle.site_commands.specs.Outputs.{GrewBy, Output};

use std::alloc::{AllocError, Global};
use std::fs::{File, OpenFile};
use std::io::Write;
use std::rt::Files;
use std::{fs, io};

/// Why a file wasn't saved.
#[derive(Clone, Copy, PartialEq, Eq, Debug)]
pub enum Unsaved {
    OutOfMemory,
    /// The system refuses to make, to write or to rename it.
    CannotWrite,
}

/// Where files are written to.
///
/// Its list of outputs says what was asked for, in which order, and whether it was done, where that
/// is known; of the files of the operating system no clause can say more.
pub trait Outputs {
    /// The files that were asked to be saved so far, in order, where they are known.
    ghost outputs: { Self → Option (List Output) } = { λ _. None };

    /// Saves an output file of that name with these bytes, in place of what has the name. Where it
    /// can't, what has the name stays as it is.
    fn save(&mut self, alloc: Global, name: &str, bytes: &[u8]) -> Result<(), Unsaved>
        ensures ok { IfOk result (λ _. GrewBy (outputs self.old) (outputs self.new)
            (record { name = name.now; bytes = bytes.now; is_saved = true } ∷ [])) }
        ensures err { IfErr result (λ _. GrewBy (outputs self.old) (outputs self.new)
            (record { name = name.now; bytes = bytes.now; is_saved = false } ∷ [])) };
}

/// The files of the operating system. One is written beside its name, as `NAME.new`, brought to the
/// disk, and then takes the name at once.
#[derive(Drop)]
pub struct SystemOutputs<'a, R> {
    rt: &'a R,
}

impl<'a, R> SystemOutputs<'a, R> {
    /// The output files of this runtime, which the program saves.
    pub fn new(rt: &'a R) -> SystemOutputs<'a, R> {
        SystemOutputs { rt }
    }
}

impl<'a, R: Files> Outputs for SystemOutputs<'a, R> {
    fn save(&mut self, alloc: Global, name: &str, bytes: &[u8]) -> Result<(), Unsaved> {
        match name_beside(alloc, name) {
            Ok(beside) => match write_over(self.rt, name, beside.as_str(), bytes) {
                Ok(()) => Ok(()),
                Err(_) => Err(Unsaved::CannotWrite),
            },
            Err(_) => Err(Unsaved::OutOfMemory),
        }
    }
}

/// The name of a file that the program saves while it is written.
fn name_beside(alloc: Global, name: &str) -> Result<String, AllocError> {
    format!(in alloc; "{name}.new")
}

/// Writes a file that the program saves under the name beside, and gives it its own. Where that
/// fails nothing stays beside.
fn write_over<R: Files>(rt: &R, name: &str, beside: &str, bytes: &[u8]) -> io::Result<()> {
    let file = File::create(rt, beside)?;
    match write_whole(file, bytes) {
        Ok(()) => match fs::rename(rt, beside, name) {
            Ok(()) => Ok(()),
            Err(error) => give_up(rt, beside, error),
        },
        Err(error) => give_up(rt, beside, error),
    }
}

/// Writes the bytes of a file that is saved, and waits until the disk has them.
fn write_whole<F: Write + OpenFile + Drop>(mut file: F, bytes: &[u8]) -> io::Result<()> {
    file.write_all(bytes)?;
    file.sync_all()
}

/// Takes away what was begun of a file to be saved, as far as that can be done.
fn give_up<R: Files>(rt: &R, beside: &str, error: io::Error) -> io::Result<()> {
    let _gone = fs::remove_file(rt, beside);
    Err(error)
}
