//! The answer to a question about the events of files.
ghost use Rattle.std.specs.Prelude.{◌≡◌, ℕ, List, IfErr, IfOk};
ghost use Rattle.inbox.specs.Sets.{set_of, union};
ghost use Rattle.event_files.specs.Files.{IsRefusal};
ghost use Rattle.file_reports.specs.Reports.{FirstFitsIfAny, HoldSameEvents, IsReport, IsReportWith, KeepsFiles};

use crate::intake::{site_of, take_all};
use attributes::{Batch, Octets, Text};
use event_files::{EventReader, Refused, ReportFault};
use event_json::readings_are_one;
use site::Site;
use std::alloc::{AllocError, Global};
use views::Query;
use views::laws::answers_are_alike;

/// An answer, in lines that end with LF, and the events that it is about. To give the memory of
/// many events back, one after the other, can take longer than to ask about them, so the caller
/// says when, and whether: a program that ends next may leave it.
#[derive(Drop)]
pub struct Reported {
    pub text: Text,
    pub events: Site,
}

/// The answer to a question about the set of the events of all files, in lines that end with LF.
///
/// The files are judged in their order; in a file a fault of its text comes before an event without
/// a number. Time in proportion to the files' bytes, and n log n in their events; the events of all
/// files are held at once, each once, and the bytes of each file only until they are taken.
pub fn report<R: EventReader>(
    alloc: Global,
    reader: &R,
    query: Query,
    files: Vec<Octets>,
) -> Result<Reported, Refused>
    requires { R.can_read reader.now }
    ensures ok { IfOk result (λ r. IsReport query files.items r.text) }
    ensures events { IfOk result (λ r. KeepsFiles files.items r.events) }
    ensures err { IfErr result (IsRefusal files.items) }
    ensures memory { IfErr result (λ refused. refused.fault ≡ ReportFault.OutOfMemory
        → FirstFitsIfAny files.items) }

    // Other files with the same events have the same report, byte for byte.
    ensures alike { IfOk result (λ r. (others : List (List ℕ)) (other : List ℕ)
        → HoldSameEvents files.items others → IsReport query others other → other ≡ r.text) }
{
    // Two laws that `alike` rests on; they do nothing.
    readings_are_one();
    answers_are_alike();
    let events = site_of(alloc, reader, files)?;
    let text = events.lines(query)?;
    Ok(Reported { text, events })
}

/// The answer to a question about the events of files, as [`crate::site_of`] has them, and those of
/// a batch besides. Time n log n in the batch, and that of the question.
pub fn report_with(query: Query, mut events: Site, held: Batch) -> Result<Reported, AllocError>
    ensures ok { IfOk result (λ r. (files : List (List ℕ)) → KeepsFiles files events
        → IsReportWith query held files r.text) }
    ensures events { IfOk result (λ r. set_of r.events ≡ union (set_of events) held) }
{
    take_all(&mut events, held)?;
    let lines = events.lines(query)?;
    Ok(Reported {
        text: lines,
        events,
    })
}
