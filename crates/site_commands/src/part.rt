//! The command that says which part of a region a source falls to, and prints the events of a part.
ghost use Rattle.std.specs.Prelude.{◌≡◌, ◌<◌, IfErr, IfOk, IfSome, None, Some};
ghost use Rattle.coverage.specs.Summary.{sources_of};
ghost use Rattle.databases.specs.Print.{batch_line};
ghost use Rattle.inbox.specs.Sets.{set_of};
ghost use Rattle.parts.specs.Part.{IsCountOfParts, part, part_of};
ghost use Rattle.views.specs.Line.{kind_lines};
ghost use Rattle.site_commands.specs.Answers.{RefusesFiles, RefusesQuery};
ghost use Rattle.site_commands.specs.Parts.{AnswersPart, SaysSources, placed};
ghost use Rattle.site_commands.specs.Splits.{SpellFiles};

use crate::line::Refusal;
use crate::pieces::{Pieces, memory_refusal, read_pieces, refusal_at};
use attributes::{Batch, Text};
use coverage::Summary;
use event_files::{EventReader, Shelf, events_of};
use event_json::write_sequenced;
use file_reports::site_of;
use parts::{part_of, split};
use site::Site;
use std::alloc::{AllocError, Global};
use std::mem;
use views::{Answer, Kinds, Query, print};

/// The part of each source of the files' events, of so many, or the events of the part at a place.
/// All files are read before one is judged.
pub fn part<S: Shelf, F: EventReader>(
    alloc: Global,
    shelf: &S,
    reader: &F,
    count: u64,
    place: Option<u64>,
    files: &[Text],
    has_lines: bool,
) -> Result<Text, Refusal>
    requires count { IsCountOfParts count }
    requires below { IfSome place (λ i. i < count) }
    requires reader { F.can_read reader.now }
    ensures ok { IfOk result
        (AnswersPart (S.is_content shelf.now) count place has_lines files.now) }
    ensures err { IfErr result (RefusesFiles (S.is_content shelf.now) (S.is_unread shelf.now) has_lines files.now) }
{
    match place {
        Some(place) => events_of_part(alloc, shelf, reader, count, place, files, has_lines),
        None => parts_of_sources(alloc, shelf, reader, count, files, has_lines),
    }
}

/// The part of each source of the files' events. The memory of the events is left to the operating
/// system, since the program ends next.
fn parts_of_sources<S: Shelf, F: EventReader>(
    alloc: Global,
    shelf: &S,
    reader: &F,
    count: u64,
    files: &[Text],
    has_lines: bool,
) -> Result<Text, Refusal>
    requires count { IsCountOfParts count }
    requires reader { F.can_read reader.now }
    ensures ok { IfOk result
        (AnswersPart (S.is_content shelf.now) count None has_lines files.now) }
    ensures err { IfErr result (RefusesFiles (S.is_content shelf.now) (S.is_unread shelf.now) has_lines files.now) }
{
    match read_pieces(alloc, shelf, files, has_lines) {
        Ok(Pieces { texts, places }) => match site_of(alloc, reader, texts) {
            Ok(events) => match source_lines(alloc, &events, count) {
                Ok(text) => {
                    mem::forget(events);
                    Ok(text)
                }
                Err(_) => Err(memory_refusal(has_lines)),
            },
            Err(refused) => Err(refusal_at(has_lines, places.as_slice(), refused)),
        },
        Err(at) => Err(Refusal::Unread(at)),
    }
}

/// The events of the files whose sources fall to the part at a place, as a batch to print.
fn events_of_part<S: Shelf, F: EventReader>(
    alloc: Global,
    shelf: &S,
    reader: &F,
    count: u64,
    place: u64,
    files: &[Text],
    has_lines: bool,
) -> Result<Text, Refusal>
    requires count { IsCountOfParts count }
    requires below { place < count }
    requires reader { F.can_read reader.now }
    ensures ok { IfOk result
        (AnswersPart (S.is_content shelf.now) count (Some place) has_lines files.now) }
    ensures err { IfErr result (RefusesFiles (S.is_content shelf.now) (S.is_unread shelf.now) has_lines files.now) }
{
    match events_of_files(alloc, shelf, reader, files, has_lines) {
        Ok(events) => match part_line(alloc, events, count, place) {
            Ok(text) => Ok(text),
            Err(_) => Err(memory_refusal(has_lines)),
        },
        Err(refusal) => Err(refusal),
    }
}

/// The events of the files, one file behind the other. All are read before one is judged.
pub(crate) fn events_of_files<S: Shelf, F: EventReader>(
    alloc: Global,
    shelf: &S,
    reader: &F,
    files: &[Text],
    has_lines: bool,
) -> Result<Batch, Refusal>
    requires { F.can_read reader.now }
    ensures ok { IfOk result (SpellFiles (S.is_content shelf.now) has_lines files.now) }
    ensures err { IfErr result (RefusesFiles (S.is_content shelf.now) (S.is_unread shelf.now) has_lines files.now) }
{
    match read_pieces(alloc, shelf, files, has_lines) {
        Ok(Pieces { texts, places }) => match events_of(alloc, reader, texts.as_slice()) {
            Ok(events) => Ok(events),
            Err(refused) => Err(refusal_at(has_lines, places.as_slice(), refused)),
        },
        Err(at) => Err(Refusal::Unread(at)),
    }
}

/// The batch of the events whose sources fall to the part at a place, as a line.
fn part_line(alloc: Global, events: Batch, count: u64, place: u64) -> Result<Text, AllocError>
    requires count { IsCountOfParts count }
    requires below { place < count }
    ensures { IfOk result (λ text. text ≡ batch_line (part (part_of count) place events)) }
{
    let batches = split(alloc, events, count)?;
    batch_line(alloc, &batches[place as usize])
}

/// A batch of the events of the program's files as a line.
pub(crate) fn batch_line(alloc: Global, events: &Batch) -> Result<Text, AllocError>
    ensures { IfOk result (λ text. text ≡ batch_line events.now) }
{
    let mut line = write_sequenced(alloc, events)?.into_string();
    line.push_str("\n")?;
    Ok(Text::from_string(line))
}

/// A line for each source of a site's events: the source, and its part.
fn source_lines(alloc: Global, events: &Site, count: u64) -> Result<Text, AllocError>
    requires { IsCountOfParts count }
    ensures { IfOk result (SaysSources count (set_of events.now)) }
{
    match events.query(Query::Cover)? {
        Answer::Cover(summary) => placed_lines(alloc, &summary, count),
        _ => Err(AllocError),
    }
}

/// A line to print for each source of a summary: the source, and its part.
fn placed_lines(alloc: Global, summary: &Summary, count: u64) -> Result<Text, AllocError>
    requires { IsCountOfParts count }
    ensures { IfOk result (λ text. text ≡ kind_lines (placed count (sources_of summary.now))) }
{
    // A text and a number are written as in a line of `kinds`.
    let rows = placed(alloc, summary, count)?;
    print(alloc, &Answer::Kinds(rows))
}

/// The sources of the summary of the files' events, each with its part.
fn placed(alloc: Global, summary: &Summary, count: u64) -> Result<Kinds, AllocError>
    requires { IsCountOfParts count }
    ensures { IfOk result (λ rows. rows ≡ placed count (sources_of summary.now)) }
{
    let mut rows = Kinds::empty(alloc);
    for i in 0..summary.len() {
        let source = summary.source_at(i);
        rows.push((Text::of(alloc, source)?, part_of(source.as_bytes(), count)))?;
    }
    Ok(rows)
}
