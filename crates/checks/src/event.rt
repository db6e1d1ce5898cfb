//! Events, as values and as JSON texts.

use attributes::{Batch, Event, Given, Parts, Sequenced, Text};
use std::alloc::{AllocError, Global};

/// The id, the sequence number, the type, the subject and the time of an event of the source
/// `/orders`. An empty subject or time is none.
pub type Row<'a> = (&'a str, u64, &'a str, &'a str, &'a str);

/// Sets an attribute.
fn set(alloc: Global, parts: &mut Parts, name: &str, text: &str) -> Result<(), AllocError> {
    parts.set(name, Given::Words(Text::of(alloc, text)?))
}

/// Sets the sequence number.
fn set_number(alloc: Global, parts: &mut Parts, number: u64) -> Result<(), AllocError> {
    let digits = format!(in alloc; "{number:020}")?;
    set(alloc, parts, "sequence", digits.as_str())
}

/// Sets an attribute, if the text isn't empty.
fn set_some(alloc: Global, parts: &mut Parts, name: &str, text: &str) -> Result<(), AllocError> {
    if text.is_empty() {
        return Ok(());
    }
    set(alloc, parts, name, text)
}

/// Sets the attributes of a row.
fn set_row(alloc: Global, parts: &mut Parts, row: Row<'_>) -> Result<(), AllocError> {
    let (id, number, kind, subject, time) = row;
    set_number(alloc, parts, number)?;
    set(alloc, parts, "specversion", "1.0")?;
    set(alloc, parts, "source", "/orders")?;
    set_some(alloc, parts, "id", id)?;
    set_some(alloc, parts, "type", kind)?;
    set_some(alloc, parts, "subject", subject)?;
    set_some(alloc, parts, "time", time)
}

/// The event of parts that have no fault.
fn built(parts: Parts) -> Option<Sequenced> {
    Sequenced::of(Event::build(parts).ok()?).ok()
}

/// The event of a row.
fn event(alloc: Global, row: Row<'_>) -> Option<Sequenced> {
    let mut parts = Parts::empty(alloc);
    if set_row(alloc, &mut parts, row).is_ok() {
        built(parts)
    } else {
        None
    }
}

/// Adds the event of a row to a batch, and answers whether it did.
pub fn add(alloc: Global, batch: &mut Batch, row: Row<'_>) -> bool {
    match event(alloc, row) {
        Some(event) => batch.push(event).is_ok(),
        None => false,
    }
}

/// Adds events with these ids and numbers, of type t.a and subject x, and answers whether it did.
pub fn add_all(alloc: Global, batch: &mut Batch, rows: &[(&str, u64)]) -> bool {
    for (id, number) in rows {
        if !add(alloc, batch, (*id, *number, "t.a", "x", "")) {
            return false;
        }
    }
    true
}

/// The JSON text of an event with a number.
fn json(alloc: Global, number: u64) -> Result<Text, AllocError> {
    let text = format!(in alloc;
        "{{\"specversion\":\"1.0\",\"id\":\"e{number}\",\"source\":\"/orders\",\"type\":\"t.a\",\"sequence\":\"{number:020}\"}}"
    )?;
    Ok(Text::from_string(text))
}

/// The JSON text of the batch of so many events, with the numbers from `first` on.
pub fn json_batch(alloc: Global, first: u64, count: u64) -> Result<Text, AllocError> {
    let mut text = String::new(alloc);
    text.push('[')?;
    for i in 0..count {
        if i > 0 {
            text.push(',')?;
        }
        text.push_str(json(alloc, first.saturating_add(i))?.as_str())?;
    }
    text.push(']')?;
    Ok(Text::from_string(text))
}

/// Whether there is a text, and it is this one.
pub fn is_text(text: Result<Text, AllocError>, wanted: &str) -> bool {
    matches!(text, Ok(text) if text.as_str() == wanted)
}
