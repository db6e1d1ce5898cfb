//! What events tell.

use crate::said::{as_line, line};
use crate::sets::offers::{add_fault, long_event};
use crate::shelf::Shelf;
use attributes::{Attribute, Batch, Event, Events, Fault, Payload, Sequenced};
use event_json::write_event;
use std::alloc::Global;
use std::cmp::Ordering;

/// Adds a text, or that there is none.
fn add_some(out: &mut String, text: Option<&str>) -> bool {
    match text {
        Some(text) => write!(out, "text \"{text}\"\n").is_ok(),
        None => line(out, "none"),
    }
}

/// Adds an attribute, or that there is none.
fn add_attribute(out: &mut String, attribute: Option<Attribute<'_>>) -> bool {
    match attribute {
        Some(Attribute::Words(words)) => add_some(out, Some(words)),
        Some(Attribute::Whole(number)) => write!(out, "number {number}\n").is_ok(),
        Some(Attribute::Flag(flag)) => line(out, if flag { "true" } else { "false" }),
        None => line(out, "none"),
    }
}

/// Adds the day number of an event's time, or that there is none.
fn add_day(out: &mut String, day: Option<i32>) -> bool {
    match day {
        Some(day) => write!(out, "{day}\n").is_ok(),
        None => line(out, "none"),
    }
}

/// Adds the data of an event.
fn add_content(alloc: Global, out: &mut String, content: Payload<'_>) -> bool {
    match content {
        Payload::Nothing => line(out, "nothing"),
        Payload::Json(text) => out.push_str("json ").is_ok() && line(out, text),
        Payload::Bytes(bytes) => match hex::encode(alloc, bytes) {
            Ok(digits) => out.push_str("hex ").is_ok() && line(out, digits.as_str()),
            Err(_) => false,
        },
    }
}

/// What an event tells of itself by one of its readers.
fn add_own(alloc: Global, event: &Event, word: &str, out: &mut String) -> bool {
    match word {
        "canonical" => line(out, event.text()),
        "written" => as_line(out, write_event(alloc, event)),
        "length" => {
            let len = event.text().len();
            write!(out, "{len}\n").is_ok()
        }
        "id" => line(out, event.id()),
        "source" => line(out, event.source()),
        "kind" => line(out, event.kind()),
        "subject" => add_some(out, event.subject()),
        "time" => add_some(out, event.time()),
        "day-of" => add_day(out, event.day()),
        "data" => add_content(alloc, out, event.content()),
        _ => false,
    }
}

/// `canonical|written|length|id|source|kind|subject|time|day-of|data NAME`: what an event tells by its
/// readers.
pub fn own(alloc: Global, events: &Shelf<Event>, word: &str, name: &str, out: &mut String) -> bool {
    match events.get(name) {
        Some(event) => add_own(alloc, event, word, out),
        None => false,
    }
}

/// `attribute NAME [ATTRIBUTE]`: an attribute by its name, which may be empty.
pub fn attribute(events: &Shelf<Event>, words: &[&str], out: &mut String) -> bool {
    match words {
        [name, attribute] => match events.get(name) {
            Some(event) => add_attribute(out, event.attribute(attribute)),
            None => false,
        },
        [name] => match events.get(name) {
            Some(event) => add_attribute(out, event.attribute("")),
            None => false,
        },
        _ => false,
    }
}

/// `duplicate ONE NAME`: a copy of an event has that name from now on.
pub fn duplicate(alloc: Global, events: &mut Shelf<Event>, words: &[&str]) -> bool {
    let [one, name] = words else {
        return false;
    };
    let copy = match events.get(one) {
        Some(event) => event.copy(),
        None => return false,
    };
    match copy {
        Ok(copy) => events.put(alloc, name, copy),
        Err(_) => false,
    }
}

/// `compare ONE OTHER`: which event comes first.
pub fn compare(events: &Shelf<Event>, words: &[&str], out: &mut String) -> bool {
    let [one, other] = words else {
        return false;
    };
    match (events.get(one), events.get(other)) {
        (Some(one), Some(other)) => line(
            out,
            match one.compare(other) {
                Ordering::Less => "before",
                Ordering::Equal => "the same",
                Ordering::Greater => "behind",
            },
        ),
        _ => false,
    }
}

/// Adds the number of an event that is to be numbered, or why it comes back.
fn add_numbered(out: &mut String, event: Event) -> bool {
    match Sequenced::of(event) {
        Ok(event) => {
            let number = event.number().number();
            write!(out, "{number}\n").is_ok()
        }
        Err(back) => add_fault(out, back.fault),
    }
}

/// `number NAME`: the number of an event, or why it has none.
pub fn number(events: &Shelf<Event>, words: &[&str], out: &mut String) -> bool {
    let [name] = words else {
        return false;
    };
    match events.get(name) {
        Some(event) => match event.copy() {
            Ok(event) => add_numbered(out, event),
            Err(_) => false,
        },
        None => false,
    }
}

/// Adds a copy of an event to a list, and answers whether it did.
fn push(all: &mut Events, event: &Event) -> bool {
    match event.copy() {
        Ok(event) => all.push(event).is_ok(),
        Err(_) => false,
    }
}

/// Adds how long a list is, and how many events come out of it.
fn add_length(out: &mut String, all: Events) -> bool {
    let len = all.len();
    let count = all.into_vec().len();
    write!(out, "{len} held, {count} out\n").is_ok()
}

/// `list NAME..`: how many events a list of copies has, and how many come out of it.
pub fn list(alloc: Global, events: &Shelf<Event>, words: &[&str], out: &mut String) -> bool {
    let mut all = Events::empty(alloc);
    for name in words {
        let is_pushed = match events.get(name) {
            Some(event) => push(&mut all, event),
            None => false,
        };
        if !is_pushed {
            return false;
        }
    }
    add_length(out, all)
}

/// A copy of an event with its number.
fn sequenced(event: &Event) -> Option<Sequenced> {
    Sequenced::of(event.copy().ok()?).ok()
}

/// Adds a numbered copy of an event to a batch, and answers whether it did.
fn push_numbered(batch: &mut Batch, event: &Event) -> bool {
    match sequenced(event) {
        Some(event) => batch.push(event).is_ok(),
        None => false,
    }
}

/// Adds the number of a numbered event, where its copy has the same.
fn add_front(out: &mut String, event: &Sequenced) -> bool {
    match event.copy() {
        Ok(copy) => {
            let number = event.number().number();
            copy.number() == event.number() && write!(out, " {number}").is_ok()
        }
        Err(_) => false,
    }
}

/// Adds the numbers of the events of a batch as they are taken from its front.
fn add_fronts(out: &mut String, batch: &mut Batch) -> bool {
    let len = batch.len();
    if write!(out, "{len}:").is_err() {
        return false;
    }
    for _event in 0..len {
        let is_told = match batch.take_front() {
            Some(event) => add_front(out, &event),
            None => false,
        };
        if !is_told {
            return false;
        }
    }
    batch.is_empty() && batch.take_front().is_none() && out.push('\n').is_ok()
}

/// `queue NAME..`: how many events a batch of numbered copies has, and their numbers as they are
/// taken from its front, until there is none.
pub fn queue(alloc: Global, events: &Shelf<Event>, words: &[&str], out: &mut String) -> bool {
    let mut batch = Batch::empty(alloc);
    for name in words {
        let is_pushed = match events.get(name) {
            Some(event) => push_numbered(&mut batch, event),
            None => false,
        };
        if !is_pushed {
            return false;
        }
    }
    add_fronts(out, &mut batch)
}

/// `comment LETTERS`: the length of an event whose comment has so many letters, or its fault.
pub fn comment(alloc: Global, words: &[&str], out: &mut String) -> bool {
    let [letters] = words else {
        return false;
    };
    let Ok(letters) = letters.parse::<usize>() else {
        return false;
    };
    match long_event(alloc, letters) {
        Ok(event) => add_own(alloc, &event, "length", out),
        Err(Fault::OutOfMemory) => false,
        Err(fault) => add_fault(out, fault),
    }
}

static FAULTS: [Fault; 18] = [
    Fault::OutOfMemory,
    Fault::SpecVersion,
    Fault::Id,
    Fault::Source,
    Fault::Kind,
    Fault::Subject,
    Fault::Time,
    Fault::ContentType,
    Fault::Schema,
    Fault::ExtensionName,
    Fault::ExtensionValue,
    Fault::TwoData,
    Fault::Base64,
    Fault::DataNumber,
    Fault::TooDeep,
    Fault::TooLarge,
    Fault::NoSequence,
    Fault::BadSequence,
];

/// `event-faults`: the number and the name of each fault of an event.
pub fn faults(out: &mut String) -> bool {
    for fault in &FAULTS {
        if !add_fault(out, *fault) {
            return false;
        }
    }
    true
}
