//! The command that writes the events of a region in parts, a file each.
ghost use Rattle.std.specs.Prelude.{◌≡◌, ◌<◌, ◌∷◌, [], List, true, IfErr, IfOk, OnOk, length};
ghost use Rattle.attributes.specs.Event.{EventValue};
ghost use Rattle.parts.specs.Part.{IsCountOfParts};
ghost use Rattle.views.specs.Line.{kind_lines};
ghost use Rattle.site_commands.specs.Outputs.{GrewBy};
ghost use Rattle.site_commands.specs.Comes.{IsSplitEnding};
ghost use Rattle.site_commands.specs.Splits.{EndsParts, file_of, part_counts, part_files, part_count_lines, part_name, unsaved_line};
ghost use Rattle.site_commands.specs.steps.Splits.{AreAllParts, IsUnsavedEnding, RefusesFile, StopsParts};

use crate::ending::{Ending, refused};
use crate::files::Looks;
use crate::hint::{Hint, hint_of};
use crate::line::file_line;
use crate::names::Names;
use crate::outputs::{Outputs, Unsaved};
use crate::part::{batch_line, events_of_files};
use crate::progress::Progress;
use attributes::{Batch, Text};
use command_words::Split;
use databases::Databases;
use event_files::EventReader;
use parts::split;
use std::alloc::{AllocError, Global};
use views::{Answer, Kinds, print};

/// Why not all files were saved.
#[derive(Clone, Copy, PartialEq, Eq, Debug)]
enum SplitFault {
    OutOfMemory,
    /// The file of the part at that place, from 0, can't be written.
    Unsaved(u64),
}

/// What the parts of the files' events come to: each is saved as a file of its own, and the answer
/// has a line for each. All files are read and judged, and the answer is made, before the first is
/// saved; the first that isn't ends it.
pub fn ending_of_split<S: Looks, F: EventReader, W: Outputs, D: Databases + Drop, P: Progress>(
    alloc: Global,
    shelf: &S,
    reader: &F,
    outputs: &mut W,
    databases: &D,
    plan: &Split,
    progress: &P,
) -> Ending
    requires count { IsCountOfParts plan.now.count }
    requires reader { F.can_read reader.now }
    ensures { IsSplitEnding (S.is_content shelf.now) (S.is_unread shelf.now) plan.now
        (W.outputs outputs.old) (W.outputs outputs.new) result }
{
    match events_of_files(alloc, shelf, reader, plan.files.as_slice(), plan.has_lines) {
        Ok(events) => ending_of_events(alloc, outputs, plan, events, progress),
        Err(refusal) => {
            let names = Names::of_split(plan);
            let hint = hint_of(alloc, shelf, databases, progress, names, refusal);
            refused(alloc, names, refusal, hint)
        }
    }
}

/// What the parts of these events come to, each saved as a file.
fn ending_of_events<W: Outputs, P: Progress>(
    alloc: Global,
    outputs: &mut W,
    plan: &Split,
    events: Batch,
    progress: &P,
) -> Ending
    requires { IsCountOfParts plan.now.count }
    ensures { EndsParts plan.now events (W.outputs outputs.old) (W.outputs outputs.new) result }
{
    match save_events(alloc, outputs, plan, events) {
        Ok(text) => Ending::Answer(text),
        Err(SplitFault::OutOfMemory) => Ending::NoMemory,
        Err(SplitFault::Unsaved(place)) => unsaved(alloc, plan, place, progress),
    }
}

/// The ending where the file of a part wasn't saved.
fn unsaved<P: Progress>(alloc: Global, plan: &Split, place: u64, progress: &P) -> Ending
    ensures { IsUnsavedEnding plan.now place result }
{
    let hint = unsaved_hint(progress);
    match unsaved_line(alloc, plan, place) {
        Ok(line) => Ending::Unsaved { line, hint },
        Err(_) => Ending::NoMemory,
    }
}

/// The hint on what can be done where a part's file wasn't saved; none where nobody looks on.
fn unsaved_hint<P: Progress>(progress: &P) -> Option<Hint> {
    if !progress.is_watched() {
        return None;
    }
    Some(Hint::Words(
        "is there such a folder, with room in it, and may this user write there? PREFIX makes none",
    ))
}

/// The error line of a part's file that can't be written.
fn unsaved_line(alloc: Global, plan: &Split, place: u64) -> Result<Text, AllocError>
    ensures { IfOk result (λ line. line ≡ unsaved_line plan.now place) }
{
    let name = part_name(alloc, plan.prefix.as_str(), place)?;
    file_line(alloc, name.as_str(), "cannot write")
}

/// `PREFIX0.json`: the name of the file of a part.
fn part_name(alloc: Global, prefix: &str, place: u64) -> Result<Text, AllocError>
    ensures { IfOk result (λ name. name ≡ part_name prefix.now place) }
{
    let name = format!(in alloc; "{prefix}{place}.json")?;
    Ok(Text::from_string(name))
}

/// Saves the file of each part of the events, and answers a line for each part.
fn save_events<W: Outputs>(
    alloc: Global,
    outputs: &mut W,
    plan: &Split,
    events: Batch,
) -> Result<Text, SplitFault>
    requires { IsCountOfParts plan.now.count }
    ensures ok { IfOk result (λ text. text ≡ part_count_lines plan.now events) }
    ensures files { OnOk result (GrewBy (W.outputs outputs.old) (W.outputs outputs.new)
        (part_files plan.now events plan.now.count)) }
    ensures err { IfErr result (StopsParts plan.now events (W.outputs outputs.old)
        (W.outputs outputs.new)) }
{
    match split(alloc, events, plan.count) {
        Ok(parts) => match part_lines(alloc, plan, parts.as_slice()) {
            Ok(text) => match save_parts(alloc, outputs, plan, parts.as_slice()) {
                Ok(()) => Ok(text),
                Err(fault) => Err(fault),
            },
            Err(_) => Err(SplitFault::OutOfMemory),
        },
        Err(_) => Err(SplitFault::OutOfMemory),
    }
}

/// A line to print for each saved part: the name of its file, and how many events it has.
fn part_lines(alloc: Global, plan: &Split, parts: &[Batch]) -> Result<Text, AllocError>
    ensures { IfOk result (λ text. (events : List EventValue)
        → AreAllParts plan.now.count events parts.now → text ≡ part_count_lines plan.now events) }
{
    // A text and a number are written as in a line of `kinds`.
    let rows = part_counts(alloc, plan, parts)?;
    print(alloc, &Answer::Kinds(rows))
}

/// The names of the parts' files, each with how many events it has.
fn part_counts(alloc: Global, plan: &Split, parts: &[Batch]) -> Result<Kinds, AllocError>
    ensures { IfOk result (λ rows. (events : List EventValue)
        → AreAllParts plan.now.count events parts.now
        → rows ≡ part_counts plan.now events plan.now.count) }
{
    let mut rows = Kinds::empty(alloc);
    for i in 0..parts.len() {
        let name = part_name(alloc, plan.prefix.as_str(), i as u64)?;
        rows.push((name, parts[i].len()))?;
    }
    Ok(rows)
}

/// Saves the file of each part.
fn save_parts<W: Outputs>(
    alloc: Global,
    outputs: &mut W,
    plan: &Split,
    parts: &[Batch],
) -> Result<(), SplitFault>
    ensures ok { OnOk result ((events : List EventValue)
        → AreAllParts plan.now.count events parts.now
        → GrewBy (W.outputs outputs.old) (W.outputs outputs.new)
        (part_files plan.now events plan.now.count)) }
    ensures err { IfErr result (λ fault. (events : List EventValue)
        → AreAllParts plan.now.count events parts.now
        → StopsParts plan.now events (W.outputs outputs.old) (W.outputs outputs.new) fault) }
{
    for i in 0..parts.len() {
        match save_part(alloc, outputs, plan.prefix.as_str(), i as u64, &parts[i]) {
            Ok(()) => {}
            Err(fault) => return Err(fault),
        }
    }
    Ok(())
}

/// Saves the file of a part with these events, by its name with the prefix.
fn save_part<W: Outputs>(
    alloc: Global,
    outputs: &mut W,
    prefix: &str,
    place: u64,
    events: &Batch,
) -> Result<(), SplitFault>
    ensures ok { OnOk result (GrewBy (W.outputs outputs.old) (W.outputs outputs.new)
        (file_of prefix.now place events.now true ∷ [])) }
    ensures err { IfErr result (RefusesFile prefix.now place events.now (W.outputs outputs.old)
        (W.outputs outputs.new)) }
{
    match part_name(alloc, prefix, place) {
        Ok(name) => match batch_line(alloc, events) {
            Ok(text) => match outputs.save(alloc, name.as_str(), text.as_str().as_bytes()) {
                Ok(()) => Ok(()),
                Err(Unsaved::OutOfMemory) => Err(SplitFault::OutOfMemory),
                Err(Unsaved::CannotWrite) => Err(SplitFault::Unsaved(place)),
            },
            Err(_) => Err(SplitFault::OutOfMemory),
        },
        Err(_) => Err(SplitFault::OutOfMemory),
    }
}
