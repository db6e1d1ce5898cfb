//! What the feeds of a run read: each file as it is, or the events of its lines as one batch.
ghost use Rattle.std.specs.Prelude.{◌≡◌, ◌<◌, ◌+◌, ◌^◌, ◌++◌, List, length, IfErr, IfOk, OnOk, true};
ghost use Rattle.attributes.specs.Event.{EventValue};
ghost use Rattle.site_program.specs.Jobs.{AreBatches, AreFeeds, IsBatchOf, IsLineFeedFault, SpellLines};
ghost use Rattle.site_commands.specs.Pieces.{line_at, lines_behind, lines_from, lines_of};
ghost use Rattle.site_program.specs.steps.Feeds.{HasNoFeeds};

use attributes::{Events, List, Octets};
use event_files::ReportFault;
use event_json::{ReadFault, read_events, write_batch};
use site_commands::{LineAt, RefusedLine, first_line, is_blank};
use std::alloc::{AllocError, Global};

/// Why feeds have nothing to read.
#[derive(Clone, Copy, PartialEq, Eq, Debug)]
pub enum FeedFault {
    OutOfMemory,
    /// A line spells no events.
    Line(RefusedLine),
}

impl From<AllocError> for FeedFault {
    ghost use Rattle.site_program.specs.declared.batches.FeedFault.TheVariants.{OutOfMemory};

    ghost from_gives = { λ _ fault. fault ≡ OutOfMemory };

    fn from(_error: AllocError) -> FeedFault {
        FeedFault::OutOfMemory
    }
}

/// Moves values, such as the contents of files, behind those of a list.
pub fn append<T: Drop>(list: &mut List<T>, more: Vec<T>) -> Result<(), AllocError>
    ensures { OnOk result (list.new ≡ list.old ++ more.items) }
{
    for value in more {
        list.push(value)?;
    }
    Ok(())
}

/// Adds the events of a line of a run's file, behind so many others, unless it is blank.
fn add_line(
    alloc: Global,
    events: &mut Events,
    file: u64,
    before: u64,
    line: &[u8],
) -> Result<(), FeedFault>
    requires { before + 1 < 2 ^ 64 }
    ensures ok { OnOk result ((own : List EventValue)
        × SpellLines (line_at file before line.now) own × (events.new ≡ events.old ++ own)) }
    ensures err { IfErr result (IsLineFeedFault (line_at file before line.now)) }
{
    if is_blank(line) {
        return Ok(());
    }
    match read_events(alloc, line) {
        Ok(own) => {
            append(events, own.into_vec())?;
            Ok(())
        }
        Err(ReadFault::OutOfMemory) => Err(FeedFault::OutOfMemory),
        Err(why) => Err(FeedFault::Line(RefusedLine {
            at: LineAt {
                file,
                line: before + 1,
            },
            fault: ReportFault::Read(why),
        })),
    }
}

/// The batch of the events of a file's lines, for a feed of the program.
fn batch_of(alloc: Global, file: u64, bytes: &[u8]) -> Result<Octets, FeedFault>
    ensures ok { IfOk result (IsBatchOf file bytes.now) }
    ensures err { IfErr result (IsLineFeedFault (lines_from file 0 (lines_of bytes.now))) }
{
    let mut events = List::empty(alloc);
    let mut left = Some(bytes);
    let mut before: u64 = 0;
    while let Some(rest) = left {
        let (line, behind) = first_line(rest);
        add_line(alloc, &mut events, file, before, line)?;
        before += 1;
        left = behind;
    }
    let text = write_batch(alloc, &events)?;
    Ok(Octets::from_vec(text.into_string().into_bytes()))
}

/// The batches of a run's files, the first of which stands at this place. The bytes of a file are
/// given back when its batch is made.
fn batches_of(alloc: Global, contents: Vec<Octets>, first: u64) -> Result<List<Octets>, FeedFault>
    requires { first + length contents.items < 2 ^ 64 }
    ensures ok { IfOk result (AreBatches first contents.items) }
    ensures err { IfErr result (IsLineFeedFault (lines_behind first contents.items)) }
{
    let mut batches = List::empty(alloc);
    let mut file = first;
    for bytes in contents {
        let batch = match batch_of(alloc, file, bytes.as_bytes()) {
            Ok(batch) => batch,
            Err(fault) => return Err(fault),
        };
        if batches.push(batch).is_err() {
            return Err(FeedFault::OutOfMemory);
        }
        file += 1;
    }
    Ok(batches)
}

/// What feeds of a run read of the contents of files, the first of which stands at this place: each
/// as it is, or the batch of its lines. Time and memory in proportion to them.
pub fn feeds_of(
    alloc: Global,
    contents: Vec<Octets>,
    has_lines: bool,
    first: u64,
) -> Result<List<Octets>, FeedFault>
    requires { first + length contents.items < 2 ^ 64 }
    ensures ok { IfOk result (AreFeeds has_lines first contents.items) }
    ensures err { IfErr result (HasNoFeeds has_lines first contents.items) }
{
    if has_lines {
        return batches_of(alloc, contents, first);
    }
    let mut feeds = List::empty(alloc);
    append(&mut feeds, contents)?;
    Ok(feeds)
}
