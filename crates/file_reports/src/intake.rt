//! The events of all files, in one site.
ghost use Rattle.std.specs.Prelude.{◌≡◌, ◌≢◌, ◌≤◌, IfErr, IfOk, OnOk, length};
ghost use Rattle.event_json.specs.Reading.{max_input};
ghost use Rattle.event_files.specs.Files.{FirstFits, IsFault, IsRefusal};
ghost use Rattle.file_reports.specs.Reports.{KeepsFiles};
ghost use Rattle.file_reports.specs.steps.Intake.{GainsSet, TakesFile};

use attributes::{Batch, Octets};
use event_files::{EventReader, Refused, ReportFault};
use inbox::laws::sets_are_members;
use site::Site;
use std::alloc::{AllocError, Global};

/// The site of the events of all files; an event that stands again is kept once. The first file at
/// fault is named. A file's bytes are given back before the site takes its events. Time in
/// proportion to the files' bytes, and n log n in their events.
pub fn site_of<R: EventReader>(
    alloc: Global,
    reader: &R,
    files: Vec<Octets>,
) -> Result<Site, Refused>
    requires { R.can_read reader.now }
    ensures ok { IfOk result (λ site. KeepsFiles files.items site) }
    ensures err { IfErr result (IsRefusal files.items) }
    ensures memory { IfErr result (λ refused. refused.fault ≡ ReportFault.OutOfMemory
        → FirstFits files.items) }
{
    // The set of some events is that of the same events in another order.
    sets_are_members();
    // Their count bounds that of those that were taken.
    let _count = files.len();
    let mut site = Site::empty(alloc);
    let mut file: u64 = 0;
    for bytes in files {
        match take_file(alloc, reader, bytes, &mut site) {
            Ok(()) => file += 1,
            Err(fault) => return Err(Refused { file, fault }),
        }
    }
    Ok(site)
}

/// Takes the events of a file into the site of a report. Its bytes are given back before.
fn take_file<R: EventReader>(
    alloc: Global,
    reader: &R,
    bytes: Octets,
    site: &mut Site,
) -> Result<(), ReportFault>
    requires { R.can_read reader.now }
    ensures ok { OnOk result (TakesFile bytes site.old site.new) }
    ensures fault { IfErr result (λ why. why ≢ ReportFault.OutOfMemory → IsFault bytes why) }
    ensures memory { IfErr result (λ why. why ≡ ReportFault.OutOfMemory
        → length bytes ≤ max_input) }
{
    let events = reader.read(alloc, bytes.as_bytes(), true)?;
    drop(bytes);
    take_all(site, events)?;
    Ok(())
}

/// Moves the events of files in a batch into the site of a report.
pub fn take_all(site: &mut Site, mut batch: Batch) -> Result<(), AllocError>
    ensures { OnOk result (GainsSet batch site.old site.new) }
{
    match site.take_batch(&mut batch) {
        Ok(_) => Ok(()),
        Err(_) => Err(AllocError),
    }
}
