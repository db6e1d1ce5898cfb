//! Events that lines tell: an event, or the events of a conflict.

ghost use Rattle.std.specs.Prelude.{◌≡◌, ◌∷◌, [], IfOk, List, Some, ℕ, map};
ghost use Rattle.std.specs.List.{AllByRecursion};
ghost use Rattle.serde_json.specs.View.{items_of, items_view};
ghost use Rattle.serde_json.specs.Written.{compact_text};
ghost use Rattle.attributes.specs.Event.{EventValue, text};
ghost use Rattle.attributes.specs.Fault.{IsEvent};
ghost use Rattle.attributes.specs.Sequence.{number_of};
ghost use Rattle.inbox.specs.declared.conflict.Conflict.{Conflict};
ghost use Rattle.parts.specs.Conflict.{IsSequenced, conflict_data, event_data};

use crate::lines::{Row, read_value};
use attributes::{Events, List, Sequenced};
use event_json::{ReadFault, read_events, readings_are_one, texts_read_back};
use serde_json::Value;
use std::alloc::{AllocError, Global};

/// The event with a number that stands alone in a list, read from a line of a part.
fn lone(list: Events) -> Option<Sequenced>
    ensures { (e : EventValue) (n : ℕ) → list ≡ e ∷ [] → number_of e ≡ Some n
        → result ≡ Some e }
{
    let mut items = list.into_vec();
    let Some(event) = items.pop() else {
        return None;
    };
    match Sequenced::of(event) {
        Ok(event) => Some(event),
        Err(_) => None,
    }
}

/// The event with a number whose canonical text a line of a part's answer is.
fn read_event(alloc: Global, line: &str) -> Result<Option<Sequenced>, AllocError>
    ensures { IfOk result (λ o. (e : EventValue) (n : ℕ) → IsEvent e → number_of e ≡ Some n
        → line.now ≡ text e → o ≡ Some e) }
{
    // Laws that the clause rests on; the calls do nothing.
    texts_read_back();
    readings_are_one();
    match read_events(alloc, line.as_bytes()) {
        Ok(events) => Ok(lone(events)),
        Err(ReadFault::OutOfMemory) => Err(AllocError),
        Err(_) => Ok(None),
    }
}

impl Row for Sequenced {
    ghost use Rattle.std.specs.Prelude.{◌≡◌, Some, ℕ};
    ghost use Rattle.attributes.specs.Event.{text};
    ghost use Rattle.attributes.specs.Fault.{IsEvent};
    ghost use Rattle.attributes.specs.Sequence.{number_of};

    ghost is_line = { λ e l. (IsEvent e × ((n : ℕ) × (number_of e ≡ Some n))) × (l ≡ text e) };

    fn read(alloc: Global, line: &str) -> Result<Option<Sequenced>, AllocError> {
        read_event(alloc, line)
    }
}

/// The events whose canonical texts the items in a part's conflict are.
fn read_items(alloc: Global, items: &[Value]) -> Result<Option<List<Sequenced>>, AllocError>
    ensures { IfOk result (λ o. (es : List EventValue) → AllByRecursion IsSequenced es
        → items_view items.now ≡ items_of (map event_data es) → o ≡ Some es) }
{
    let mut events = List::empty(alloc);
    for item in items {
        let text = item.to_string(alloc)?;
        match read_event(alloc, text.as_str())? {
            Some(event) => events.push(event)?,
            None => return Ok(None),
        }
    }
    Ok(Some(events))
}

/// The events of a conflict of which a part's answer has the line.
fn read_conflict(alloc: Global, line: &str) -> Result<Option<List<Sequenced>>, AllocError>
    ensures { IfOk result (λ o. (c : Conflict) → AllByRecursion IsSequenced c.events
        → line.now ≡ compact_text (conflict_data c) → o ≡ Some c.events) }
{
    let Some(value) = read_value(alloc, line)? else {
        return Ok(None);
    };
    let Some(events) = value.get("events") else {
        return Ok(None);
    };
    let Some(items) = events.as_array() else {
        return Ok(None);
    };
    read_items(alloc, items.as_slice())
}

impl Row for List<Sequenced> {
    ghost use Rattle.std.specs.Prelude.{◌≡◌};
    ghost use Rattle.std.specs.List.{AllByRecursion};
    ghost use Rattle.serde_json.specs.Written.{compact_text};
    ghost use Rattle.inbox.specs.declared.conflict.Conflict.{Conflict};
    ghost use Rattle.parts.specs.Conflict.{IsSequenced, conflict_data};

    ghost is_line = { λ es l. (c : Conflict) × (c.events ≡ es) × AllByRecursion IsSequenced es
        × (l ≡ compact_text (conflict_data c)) };

    fn read(alloc: Global, line: &str) -> Result<Option<List<Sequenced>>, AllocError> {
        read_conflict(alloc, line)
    }
}
