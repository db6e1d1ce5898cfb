//! Whether the events of a batch can be numbered.

ghost use Rattle.std.specs.Prelude.{◌≡◌, ◌+◌, IfNone, IfSome, Some, None, take, length};
ghost use Rattle.attributes.specs.Event.{EventValue};
ghost use Rattle.attributes.specs.Fault.{IsEvent, max_text};
ghost use Rattle.numbers.specs.Numbered.{AreBare};
ghost use Rattle.numbers.specs.Refusal.{refusal_at, refusal_from};

use crate::fault::NumberFault;
use attributes::{Event, Events};

/// How many bytes the canonical text of an event may have that is to be numbered: 34 fewer than any
/// event's.
pub const MAX_BARE_TEXT: u64 = 262_110;

/// Why the event, at the index of a batch, can't be numbered: `HasSequence` or `TooLarge`. Time in
/// proportion to its names.
pub fn refusal_at(index: u64, event: &Event) -> Option<NumberFault>
    ensures value { result ≡ refusal_at index event.now }
    ensures event { IfNone result (IsEvent event.now) }
{
    let text = event.text();
    if event.attribute("sequence").is_some() {
        return Some(NumberFault::HasSequence { index });
    }
    if text.len() as u64 > MAX_BARE_TEXT {
        return Some(NumberFault::TooLarge { index });
    }
    None
}

/// The refusal of the first event that a numberer can't take. Time in proportion to their names.
pub fn refusal(events: &Events) -> Option<NumberFault>
    ensures first { result ≡ refusal_from 0 events.now }
    ensures bare { IfNone result (AreBare events.now) }
{
    for i in 0..events.len() {
        if let Some(fault) = refusal_at(i, events.at(i)) {
            return Some(fault);
        }
    }
    None
}
