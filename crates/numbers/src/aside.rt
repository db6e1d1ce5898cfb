//! Events whose number of their own goes by another name.

ghost use Rattle.std.specs.Prelude.{◌≡◌, IfOk, IfSome, string_bytes};
ghost use Rattle.serde_json.specs.Data.{Members, object};
ghost use Rattle.serde_json.specs.View.{members_view};
ghost use Rattle.serde_json.specs.Written.{compact_text, members_have_float};
ghost use Rattle.attributes.specs.Event.{members_of};
ghost use Rattle.attributes.specs.Fault.{IsEvent};
ghost use Rattle.numbers.specs.Aside.{IsAside, IsRenamed};

use crate::event::{members_of, single};
use attributes::Event;
use event_json::{ReadFault, read_events};
use serde_json::{Map, Value};
use std::alloc::{AllocError, Global};

/// An event's members with the `sequence` by that name; none where it has no `sequence`, or the
/// name is another member's.
fn renamed(
    alloc: Global,
    members: Map<String, Value>,
    name: &str,
) -> Result<Option<Map<String, Value>>, AllocError>
    ensures { IfOk result (λ o. IfSome o (λ m. IsRenamed name.now
        (members_view members.entries) (members_view m.entries))) }
{
    let mut members = members;
    let Some(number) = members.remove("sequence") else {
        return Ok(None);
    };
    if members.contains_key(name) {
        return Ok(None);
    }
    let name = String::from_str(alloc, name)?;
    drop(members.insert(name, number)?);
    Ok(Some(members))
}

/// The text of the numbered event's object with its `sequence` by that name.
fn aside_text(alloc: Global, event: &Event, name: &str) -> Result<Option<String>, AllocError>
    ensures event { IsEvent event.now }
    ensures text { IfOk result (λ o. IfSome o (λ s. (ms : Members)
        × IsRenamed name.now (members_of event.now) ms
        × (string_bytes s ≡ compact_text (object ms)))) }
{
    let members = members_of(alloc, event)?;
    match renamed(alloc, members, name)? {
        Some(members) => Ok(Some(Value::Object(members).to_string(alloc)?)),
        None => Ok(None),
    }
}

/// The event without a `sequence`, which goes by that name instead; all else is as it was. None
/// where there is no such event: it has no `sequence`, or an attribute of that name, or the name
/// isn't that of an extension (CloudEvents 1.0.2, section 3.1), or the event gets too large. Time
/// and memory in proportion to its text.
pub fn set_aside(alloc: Global, event: &Event, name: &str) -> Result<Option<Event>, AllocError>
    ensures aside { IfOk result (λ o. IfSome o (IsAside name.now event.now)) }
    ensures event { IfOk result (λ o. IfSome o IsEvent) }
{
    let Some(text) = aside_text(alloc, event, name)? else {
        return Ok(None);
    };
    let events = match read_events(alloc, text.as_bytes()) {
        Ok(events) => events,
        Err(ReadFault::OutOfMemory) => return Err(AllocError),
        Err(_) => return Ok(None),
    };
    let Some(found) = single(events) else {
        return Ok(None);
    };
    if found.text() == text.as_str() {
        Ok(Some(found))
    } else {
        Ok(None)
    }
}
