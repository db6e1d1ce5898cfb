//! The events of one file, each with its number.
ghost use Rattle.std.specs.Prelude.{◌≡◌, ◌≢◌, ◌≤◌, IfErr, IfOk, length};
ghost use Rattle.std.specs.List.Sorted.{IsPermutation};
ghost use Rattle.event_json.specs.Reading.{max_input};
ghost use Rattle.inbox.specs.Sets.{AreEvents};
ghost use Rattle.event_files.specs.Files.{AreSequenced, IsFault, IsUnnumbered, SpellsBatch};

use crate::key_order::sort_events;
use crate::refusal::ReportFault;
use attributes::{Batch, Events, Sequenced};
use event_json::{ReadFault, read_events};
use std::alloc::{AllocError, Global};

/// Reads the events of files: with one thread, or with several.
pub trait EventReader {
    /// What has to hold for it to read: of one that starts threads, that they may share what it has.
    ghost can_read: { Self → Type 0 };

    /// The events that a file's bytes spell, each with its number, in their order, or sorted so that
    /// a site takes them fast: by their keys, or in few runs that each are so. That they are sorted
    /// has no clause, since it serves speed alone. The first fault of the file is answered; want of
    /// memory never of one that is too large.
    fn read(&self, alloc: Global, bytes: &[u8], is_sorted: bool) -> Result<Batch, ReportFault>
        requires { can_read self.now }
        ensures ok { IfOk result (SpellsBatch bytes.now is_sorted) }
        ensures fault { IfErr result (λ why. why ≢ ReportFault.OutOfMemory
            → IsFault bytes.now why) }
        ensures memory { IfErr result (λ why. why ≡ ReportFault.OutOfMemory
            → length bytes.now ≤ max_input) };
}

/// A reader with the thread that calls it, and no other.
#[derive(Clone, Copy)]
pub struct SequentialReader {}

impl EventReader for SequentialReader {
    ghost can_read = { λ _. Unit {0} };

    fn read(&self, alloc: Global, bytes: &[u8], is_sorted: bool) -> Result<Batch, ReportFault> {
        let events = match read_events(alloc, bytes) {
            Ok(events) => sequenced(alloc, events)?,
            Err(ReadFault::OutOfMemory) => return Err(ReportFault::OutOfMemory),
            Err(fault) => return Err(ReportFault::Read(fault)),
        };
        if is_sorted {
            Ok(in_key_order(alloc, events)?)
        } else {
            Ok(batch_of(alloc, events)?)
        }
    }
}

/// The events of a file with their numbers, or the first that has none.
pub fn sequenced(alloc: Global, events: Events) -> Result<Vec<Sequenced>, ReportFault>
    ensures same { IfOk result (λ numbered. numbered.items ≡ events) }
    ensures numbered { IfOk result (λ numbered. AreSequenced numbered.items) }
    ensures events { IfOk result (λ numbered. AreEvents numbered.items) }
    ensures fault { IfErr result (λ why. why ≢ ReportFault.OutOfMemory
        → IsUnnumbered events why) }
{
    let mut numbered = Vec::new(alloc);
    for event in events.into_vec() {
        match Sequenced::of(event) {
            Ok(event) => numbered.push(event)?,
            Err(unsequenced) => {
                let index = numbered.len() as u64;
                let fault = unsequenced.fault;
                return Err(ReportFault::Event { index, fault });
            }
        }
    }
    Ok(numbered)
}

/// The events of a file in key order, in which a site takes them fastest: the search for a place
/// then goes where the last one went, through memory at hand.
pub fn in_key_order(alloc: Global, mut events: Vec<Sequenced>) -> Result<Batch, AllocError>
    ensures { IfOk result (IsPermutation events.items) }
{
    sort_events(alloc, &mut events)?;
    batch_of(alloc, events)
}

/// The events of a file as a batch.
pub fn batch_of(alloc: Global, events: Vec<Sequenced>) -> Result<Batch, AllocError>
    ensures { IfOk result (λ batch. batch ≡ events.items) }
{
    let mut batch = Batch::empty(alloc);
    for event in events {
        batch.push(event)?;
    }
    Ok(batch)
}
