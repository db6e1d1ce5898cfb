//! The events of all files, in one batch.
ghost use Rattle.std.specs.Prelude.{◌≡◌, ◌++◌, IfErr, IfOk, OnOk};
ghost use Rattle.event_files.specs.Files.{FirstFits, IsRefusal, SpellAll};

use crate::batch::EventReader;
use crate::refusal::{Refused, ReportFault};
use attributes::{Batch, Octets};
use std::alloc::{AllocError, Global};

/// The events of all files, one file behind the other, with their repeats. The first file at fault
/// is named, as for a report. Time in proportion to the files' bytes.
pub fn events_of<R: EventReader>(
    alloc: Global,
    reader: &R,
    files: &[Octets],
) -> Result<Batch, Refused>
    requires { R.can_read reader.now }
    ensures ok { IfOk result (SpellAll files.now) }
    ensures err { IfErr result (IsRefusal files.now) }
    ensures memory { IfErr result (λ refused. refused.fault ≡ ReportFault.OutOfMemory
        → FirstFits files.now) }
{
    let mut events = Batch::empty(alloc);
    for (file, bytes) in files.iter().enumerate() {
        match reader.read(alloc, bytes.as_bytes(), false) {
            Ok(more) => append(&mut events, more)?,
            Err(fault) => {
                return Err(Refused {
                    file: file as u64,
                    fault,
                });
            }
        }
    }
    Ok(events)
}

/// Moves the events of a file behind those of a batch of files.
pub fn append(events: &mut Batch, mut more: Batch) -> Result<(), AllocError>
    ensures { OnOk result (events.new ≡ events.old ++ more) }
{
    if events.is_empty() {
        *events = more;
        return Ok(());
    }
    while let Some(event) = more.take_front() {
        events.push(event)?;
    }
    Ok(())
}
