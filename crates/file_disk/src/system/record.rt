//! A list of calls that only clauses read.
ghost use Rattle.std.specs.Prelude.{◌≡◌, [], ◌∷◌, List};
ghost use Rattle.std.specs.Borrow.{ftrue};
ghost use Rattle.sqlite_disk.specs.Events.{Event};
ghost use Rattle.file_disk.specs.Note.{event_of_note};

use std::marker::{Model, PhantomData};

/// A call with its answer, by the numbers that an event of `sqlite_disk` has; the bytes that went
/// with it stand beside. A digest and its key belong to a tested read alone.
#[derive(Clone, Copy)]
pub struct Note {
    pub kind: u64,
    pub at: u64,
    pub count: u64,
    pub done: bool,
    pub key: u64,
    pub want: u64,
}

/// What was asked of a file, the newest call first.
#[derive(Drop)]
pub struct Record {
    marker: PhantomData<u8>,
    pub ghost calls: { List Event },
}

impl Model for Record {
    ghost also_owns = { λ _. ftrue };
}

impl Record {
    /// The record of a disk's file of which nothing was asked.
    pub(super) fn new() -> Record
        ensures { result.calls ≡ [] }
    {
        Record {
            marker: PhantomData,
        }
    }

    /// The same calls on a disk's file in the record, and one after them.
    pub(super) fn and(&self, _note: &Note, _bytes: &[u8]) -> Record
        ensures { result.calls ≡ event_of_note _note.now _bytes.now ∷ self.now.calls }
    {
        Record {
            marker: PhantomData,
        }
    }
}
