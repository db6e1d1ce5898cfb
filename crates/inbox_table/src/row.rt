//! Rows that are shown, read as events.

ghost use Rattle.std.specs.Prelude.{◌≡◌, ◌≢◌, ◌↔◌, ◌⊎◌, ◌<◌, ℕ, List, [], ◌∷◌, pos, length, IsTrue, IsSome, IfOk, IfErr, IfSome, IfNone, Some};
ghost use Rattle.sqlite_value.specs.declared.value.Value.TheVariants.{Int, Text as Words};
ghost use Rattle.sqlite_value.specs.Order.{column};
ghost use Rattle.attributes.specs.Event.{EventValue, id_of, source_of, text};
ghost use Rattle.attributes.specs.Fault.{IsEvent};
ghost use Rattle.attributes.specs.Sequence.{number_of};
ghost use Rattle.inbox_table.specs.Rows.{IsNumbered, shown_of};
ghost use Rattle.inbox_table.specs.steps.Reads.{HasTail, IsShownRow};
ghost use Rattle.inbox_table.specs.declared.fault.TableFault.TheVariants.{OutOfMemory, Store, Foreign};

use crate::fault::TableFault;
use crate::version::Version;
use crate::wanted::block_of;
use attributes::laws::text_tells_events;
use attributes::{Batch, Event, Events, Sequenced};
use event_json::{ReadFault, read_events, readings_are_one, texts_read_back};
use sqlite::Row;
use sqlite::types::ValueRef;
use std::alloc::Global;

/// Whether a row of the inbox's table has this number there.
fn is_whole(row: &Row, at: usize, number: u64) -> bool
    ensures { IsTrue result ↔ ((at < length row.now) × (column row.now at ≡ Int (pos number))) }
{
    match row.get_ref(at) {
        Ok(ValueRef::Int(n)) => n >= 0 && n as u64 == number,
        _ => false,
    }
}

/// Whether a row of the inbox's table has this text there.
fn is_text(row: &Row, at: usize, text: &str) -> bool
    ensures { IsTrue result ↔ ((at < length row.now) × (column row.now at ≡ Words text.now)) }
{
    match row.get_ref(at) {
        Ok(ValueRef::Text(bytes)) => bytes == text.as_bytes(),
        _ => false,
    }
}

/// Whether a row of the inbox's table ends as the version has it, behind the first five values.
fn has_tail(row: &Row, version: Version, number: u64) -> bool
    ensures { IsTrue result ↔ HasTail version number row.now }
{
    match version {
        Version::One => row.column_count() == 5,
        Version::Two => row.column_count() == 6 && is_whole(row, 5, block_of(number)),
    }
}

/// Whether a row of the inbox's table is that of the event at the place.
fn is_row(row: &Row, version: Version, place: u64, event: &Sequenced) -> bool
    ensures { IsTrue result ↔ (row.now ≡ shown_of version place event.now) }
{
    let number = event.number().number();
    let event = event.event();
    has_tail(row, version, number)
        && is_whole(row, 0, place)
        && is_text(row, 1, event.source())
        && is_text(row, 2, event.id())
        && is_whole(row, 3, number)
        && is_text(row, 4, event.text())
}

/// The canonical text that a row of the inbox's table has in its fifth value.
fn body_of(row: &Row) -> Option<&[u8]>
    ensures some { IfSome result (λ body. column row.now 4 ≡ Words body.now) }
    ensures none { IfNone result ((t : List ℕ) → 4 < length row.now → column row.now 4 ≢ Words t) }
{
    match row.get_ref(4) {
        Ok(ValueRef::Text(bytes)) => Some(bytes),
        _ => None,
    }
}

/// The one event of a list, as the text in a row of the inbox's table spells it.
fn single(events: Events) -> Option<Event>
    ensures some { IfSome result (λ e. events ≡ e ∷ []) }
    ensures none { IfNone result ((e : EventValue) → events ≢ e ∷ []) }
{
    let mut events = events.into_vec();
    if events.len() == 1 {
        events.pop()
    } else {
        None
    }
}

/// Whether the bytes in a row of the inbox's table are the event's canonical text.
fn is_text_of(event: &Event, body: &[u8]) -> bool
    ensures value { IsTrue result ↔ (text event.now ≡ body.now) }
    ensures event { IsEvent event.now }
{
    event.text().as_bytes() == body
}

/// The event with a number whose canonical text an inbox's row has in these bytes; else `Foreign`.
fn event_in(alloc: Global, body: &[u8]) -> Result<Sequenced, TableFault>
    ensures event { IfOk result (λ e. IsNumbered e × (text e ≡ body.now)) }
    ensures foreign { IfErr result (λ f. f ≡ Foreign
        → (e : EventValue) → IsNumbered e → text e ≢ body.now) }
    ensures fault { IfErr result (λ f. (f ≡ OutOfMemory) ⊎ (f ≡ Foreign)) }
{
    readings_are_one();
    texts_read_back();
    let events = match read_events(alloc, body) {
        Ok(events) => events,
        Err(ReadFault::OutOfMemory) => return Err(TableFault::OutOfMemory),
        Err(_) => return Err(TableFault::Foreign),
    };
    let Some(event) = single(events) else {
        return Err(TableFault::Foreign);
    };
    if !is_text_of(&event, body) {
        return Err(TableFault::Foreign);
    }
    match Sequenced::of(event) {
        Ok(event) => Ok(event),
        Err(_) => Err(TableFault::Foreign),
    }
}

/// The event of the inbox's row, where it is that of one at this place; else `Foreign`.
pub(crate) fn event_of(
    alloc: Global,
    row: &Row,
    version: Version,
    place: u64,
) -> Result<Sequenced, TableFault>
    ensures event { IfOk result (λ e. IsNumbered e × (row.now ≡ shown_of version place e)) }
    ensures foreign { IfErr result (λ f. f ≡ Foreign
        → (e : EventValue) → IsNumbered e → row.now ≢ shown_of version place e) }
    ensures fault { IfErr result (λ f. (f ≡ OutOfMemory) ⊎ (f ≡ Foreign)) }
{
    text_tells_events();
    let Some(body) = body_of(row) else {
        return Err(TableFault::Foreign);
    };
    let event = event_in(alloc, body)?;
    if is_row(row, version, place, &event) {
        Ok(event)
    } else {
        Err(TableFault::Foreign)
    }
}

/// The place that a row of the inbox's table has in its first value.
fn place_of(row: &Row) -> Option<u64>
    ensures some { IfSome result (λ place. column row.now 0 ≡ Int (pos place)) }
    ensures none { IfNone result ((place : ℕ) → 0 < length row.now
        → column row.now 0 ≢ Int (pos place)) }
{
    match row.get_ref(0) {
        Ok(ValueRef::Int(n)) if n >= 0 => Some(n as u64),
        _ => None,
    }
}

/// The event of the row of an inbox's table of version 2, at whatever place; else `Foreign`.
pub(crate) fn placed_event(alloc: Global, row: &Row) -> Result<Sequenced, TableFault>
    ensures event { IfOk result (λ found. (e : EventValue) → IsShownRow row.now e → found ≡ e) }
    ensures foreign { IfErr result (λ f. f ≡ Foreign
        → (e : EventValue) → IsShownRow row.now e → ⊥) }
{
    text_tells_events();
    let Some(place) = place_of(row) else {
        return Err(TableFault::Foreign);
    };
    match event_of(alloc, row, Version::Two, place) {
        Ok(event) => Ok(event),
        Err(fault) => Err(fault),
    }
}
