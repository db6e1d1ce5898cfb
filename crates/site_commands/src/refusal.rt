//! What `number` would refuse of what is checked.
ghost use Rattle.std.specs.Prelude.{◌≡◌, ◌↔◌, ℕ, List, [], IfOk};
ghost use Rattle.site_commands.specs.Checks.{CanBeNumbered, TellsForNumber, number_fault_name, number_hint, refusal_line, refusal_lines};

use attributes::{Event, Events, Octets, Text};
use event_json::{ReadFault, read_events, readings_are_one};
use fault_lines::{event_line, events_are_quiet, reading_fault_lines};
use numbers::{NumberFault, refusal_at};
use std::alloc::{AllocError, Global};

/// The name of a refusal of `number`, as it is printed.
fn number_fault_name<'a>(why: NumberFault) -> &'a str
    ensures { result.now ≡ number_fault_name why }
{
    match why {
        NumberFault::OutOfMemory => "OutOfMemory",
        NumberFault::HasSequence { .. } => "HasSequence",
        NumberFault::TooLarge { .. } => "TooLarge",
        NumberFault::Full { .. } => "Full",
    }
}

/// The hint on what to do about a refusal of `number`.
fn number_hint<'a>(why: NumberFault) -> &'a str
    ensures { result.now ≡ number_hint why }
{
    match why {
        NumberFault::OutOfMemory => "memory ran out",
        NumberFault::HasSequence { .. } =>
            "number gives an event its sequence: take keeps the one that it has, or --aside NAME puts it by",
        NumberFault::TooLarge { .. } =>
            "with its number an event has at most 262,144 bytes; keep large data elsewhere",
        NumberFault::Full { .. } => "the source has no number left up to 9223372036854775807",
    }
}

/// The line that says why `number` refuses the event at the index, of what has this name.
fn refusal_line(
    alloc: Global,
    name: &Text,
    index: u64,
    event: &Event,
    why: NumberFault,
) -> Result<Text, AllocError>
    ensures { IfOk result (λ line. line ≡ refusal_line name.now index event.now why) }
{
    event_line(
        alloc,
        name,
        index,
        event.id(),
        number_fault_name(why),
        number_hint(why),
    )
}

/// A line for each of the events, of what has this name, that `number` refuses.
fn refusal_lines(alloc: Global, name: &Text, events: &Events) -> Result<Text, AllocError>
    ensures { IfOk result (λ lines. lines ≡ refusal_lines name.now 0 events.now) }
{
    let mut text = String::new(alloc);
    for i in 0..events.len() {
        let event = events.at(i);
        if let Some(why) = refusal_at(i, event) {
            let line = refusal_line(alloc, name, i, event, why)?;
            text.push_str(line.as_str())?;
        }
    }
    Ok(Text::from_string(text))
}

/// The lines that say what `number` refuses of this content, which has this name: each event that
/// can't be numbered, or, where not all of it are events, each member that is none.
pub fn number_fault_lines(alloc: Global, name: &Text, content: &Octets) -> Result<Text, AllocError>
    ensures { IfOk result (TellsForNumber name.now content.now) }
{
    match read_events(alloc, content.as_bytes()) {
        Ok(events) => refusal_lines(alloc, name, &events),
        Err(ReadFault::OutOfMemory) => Err(AllocError),
        Err(_) => reading_fault_lines(alloc, name, content.as_bytes()),
    }
}

/// `check` says nothing of what `number` would refuse exactly where `number` takes all of it, while
/// its sources have numbers left.
pub fn what_can_be_numbered_is_quiet()
    ensures { (name b text : List ℕ) → TellsForNumber name b text
        → (text ≡ []) ↔ CanBeNumbered b }
{
    readings_are_one();
    events_are_quiet();
}
