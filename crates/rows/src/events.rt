//! Events of words.

use crate::shelf::Shelf;
use crate::words::number_of;
use attributes::{Batch, Sequenced};
use event_json::read_events;
use std::alloc::Global;

/// Adds a member of a JSON object behind another, of a word `NAME=VALUE`.
fn push_member(text: &mut String, word: &str) -> bool {
    match word.split_once('=') {
        Some((name, value)) => {
            text.push_str(",\"").is_ok()
                && text.push_str(name).is_ok()
                && text.push_str("\":\"").is_ok()
                && text.push_str(value).is_ok()
                && text.push('"').is_ok()
        }
        None => false,
    }
}

/// Adds members, and answers whether it did.
fn push_members(text: &mut String, words: &[&str]) -> bool {
    for word in words {
        if !push_member(text, word) {
            return false;
        }
    }
    text.push('}').is_ok()
}

/// Adds the text of an event of the source `/orders` with this id, number and type.
fn push_event(
    alloc: Global,
    text: &mut String,
    id: &str,
    number: u64,
    kind: &str,
    more: &[&str],
) -> bool {
    let front = format!(in alloc;
        "{{\"specversion\":\"1.0\",\"source\":\"/orders\",\"id\":\"{id}\",\"sequence\":\"{number:020}\",\"type\":\"{kind}\""
    );
    match front {
        Ok(front) => text.push_str(front.as_str()).is_ok() && push_members(text, more),
        Err(_) => false,
    }
}

/// The event of a JSON text.
fn read(alloc: Global, text: &str) -> Option<Sequenced> {
    match read_events(alloc, text.as_bytes()) {
        Ok(events) => Sequenced::of(events.into_vec().pop()?).ok(),
        Err(_) => None,
    }
}

/// The event of an id, a number, a type and further members.
pub fn made(alloc: Global, id: &str, number: u64, kind: &str, more: &[&str]) -> Option<Sequenced> {
    let mut text = String::new(alloc);
    if push_event(alloc, &mut text, id, number, kind, more) {
        read(alloc, text.as_str())
    } else {
        None
    }
}

/// `event NAME ID NUMBER TYPE [MEMBER=TEXT..]`: an event has that name from now on.
pub fn event(alloc: Global, events: &mut Shelf<Sequenced>, words: &[&str]) -> bool {
    let [name, id, number, kind, more @ ..] = words else {
        return false;
    };
    let Some(number) = number_of(number) else {
        return false;
    };
    match made(alloc, id, number, kind, more) {
        Some(event) => events.put(alloc, name, event),
        None => false,
    }
}

/// Adds a copy of an event to a batch, and answers whether it did.
pub fn add(batch: &mut Batch, event: &Sequenced) -> bool {
    match event.copy() {
        Ok(copy) => batch.push(copy).is_ok(),
        Err(_) => false,
    }
}

/// Adds copies of the events of names to a batch, and answers whether it did.
pub fn fill(events: &Shelf<Sequenced>, batch: &mut Batch, names: &[&str]) -> bool {
    for name in names {
        match events.get(name) {
            Some(event) => {
                if !add(batch, event) {
                    return false;
                }
            }
            None => return false,
        }
    }
    true
}

/// Adds an event whose number is its id, and answers whether it did.
pub fn add_numbered(alloc: Global, batch: &mut Batch, number: u64) -> bool {
    match format!(in alloc; "{number:06}") {
        Ok(id) => match made(alloc, id.as_str(), number, "t.a", &[]) {
            Some(event) => batch.push(event).is_ok(),
            None => false,
        },
        Err(_) => false,
    }
}
