//! An event with its number.

ghost use Rattle.std.specs.Prelude.{◌≡◌, ◌≢◌, [], ◌∷◌, IfNone, IfOk, IfSome, Some, codes, string_bytes, ℕ};
ghost use Rattle.serde_json.specs.Data.{object};
ghost use Rattle.serde_json.specs.View.{members_view, view};
ghost use Rattle.attributes.specs.Event.{EventValue, members_of};
ghost use Rattle.attributes.specs.Fault.{IsEvent};
ghost use Rattle.attributes.specs.Sequence.{number_of};
ghost use Rattle.serde_json.specs.Written.{compact_text};
ghost use Rattle.numbers.specs.Aside.{without};
ghost use Rattle.numbers.specs.Numbered.{HasNumber, IsBare};

use crate::batch::refusal_at;
use attributes::laws::text_reads_back;
use attributes::{Event, Events, Given, Sequence, Sequenced};
use event_json::{ReadFault, read_events, readings_are_one, texts_read_back};
use serde_json::{Map, Value};
use std::alloc::{AllocError, Global};
use std::cmp::Ordering;

/// The members of a JSON value, where it is an object, for an event to be numbered.
fn members_in(value: Value) -> Option<Map<String, Value>>
    ensures { IfSome result (λ m. view value ≡ object (members_view m.entries)) }
{
    match value {
        Value::Object(members) => Some(members),
        _ => None,
    }
}

/// The JSON object of the event to be numbered.
pub(crate) fn members_of(alloc: Global, event: &Event) -> Result<Map<String, Value>, AllocError>
    ensures members { IfOk result (λ m. members_view m.entries ≡ members_of event.now) }
    ensures event { IsEvent event.now }
{
    text_reads_back();
    let Ok(value) = Value::from_str(alloc, event.text()) else {
        return Err(AllocError);
    };
    match members_in(value) {
        Some(members) => Ok(members),
        None => Err(AllocError),
    }
}

/// The one event of a list that was read again to change its number.
pub(crate) fn single(events: Events) -> Option<Event>
    ensures some { IfSome result (λ e. events ≡ e ∷ []) }
    ensures none { IfNone result ((e : EventValue) → events ≢ e ∷ []) }
{
    let mut events = events.into_vec();
    if events.len() == 1 {
        events.pop()
    } else {
        None
    }
}

/// The event with this number as its attribute `sequence` (CloudEvents Sequence extension), as
/// twenty digits; all else is as it was. Time and memory in proportion to its text.
pub fn numbered(alloc: Global, event: &Event, number: Sequence) -> Result<Sequenced, AllocError>
    requires { IsBare event.now }
    ensures numbered { IfOk result (HasNumber number event.now) }
    ensures event { IfOk result IsEvent }
{
    let digits = number.digits(alloc)?;
    let Ok(event) = event.with_attribute(alloc, "sequence", Given::Words(digits)) else {
        return Err(AllocError);
    };
    match Sequenced::of(event) {
        Ok(event) => Ok(event),
        Err(_) => Err(AllocError),
    }
}

/// The text of a numbered event without its number.
fn bare_text(alloc: Global, event: &Event) -> Result<String, AllocError>
    ensures text { IfOk result (λ s.
        string_bytes s ≡ compact_text (object (without (codes "sequence") (members_of event.now)))) }
    ensures event { IsEvent event.now }
{
    let mut members = members_of(alloc, event)?;
    drop(members.remove("sequence"));
    Value::Object(members).to_string(alloc)
}

/// The event that `numbered` gives this one's number to; none only where there is none. Time and
/// memory in proportion to its text.
pub fn bare(alloc: Global, event: &Sequenced) -> Result<Option<Event>, AllocError>
    ensures bare { IfOk result (λ o. IfSome o (λ e. IsBare e
        × ((n : ℕ) → number_of event.now ≡ Some n → HasNumber n e event.now))) }
    ensures none { IfOk result (λ o. IfNone o (
        (e : EventValue) (n : ℕ) → IsBare e → HasNumber n e event.now → ⊥)) }
    ensures event { IsEvent event.now }
{
    readings_are_one();
    texts_read_back();
    let text = bare_text(alloc, event.event())?;
    let events = match read_events(alloc, text.as_bytes()) {
        Ok(events) => events,
        Err(ReadFault::OutOfMemory) => return Err(AllocError),
        Err(_) => return Ok(None),
    };
    let Some(found) = single(events) else {
        return Ok(None);
    };
    if let Some(_refusal) = refusal_at(0, &found) {
        return Ok(None);
    }
    let again = numbered(alloc, &found, event.number())?;
    match again.event().compare(event.event()) {
        Ordering::Equal => Ok(Some(found)),
        _ => Ok(None),
    }
}
