//! Events that are built of a JSON object with their attributes, and of data.

use crate::shelf::Shelf;
use attributes::{Event, Fault, Given, Octets, Offered, Parts, Text, Tree};
use serde_json::Value;
use std::alloc::Global;

/// What an attribute is given, by its JSON value. A null or a list is something else than a text, a
/// truth value or a whole number.
fn given_of(alloc: Global, value: &Value) -> Option<Given> {
    if let Some(text) = value.as_str() {
        return match Text::of(alloc, text) {
            Ok(text) => Some(Given::Words(text)),
            Err(_) => None,
        };
    }
    if let Some(flag) = value.as_bool() {
        return Some(Given::Flag(flag));
    }
    match value.as_i64() {
        Some(number) => match i32::try_from(number) {
            Ok(number) => Some(Given::Whole(number)),
            Err(_) => Some(Given::Other),
        },
        None => Some(Given::Other),
    }
}

/// Sets an attribute, the id under a name of its own; answers whether it did.
fn set(alloc: Global, parts: &mut Parts, name: &str, value: &Value) -> bool {
    let Some(given) = given_of(alloc, value) else {
        return false;
    };
    if name != "id" {
        return parts.set(name, given).is_ok();
    }
    match String::from_str(alloc, name) {
        Ok(name) => parts.insert(name, given).is_ok(),
        Err(_) => false,
    }
}

/// Sets the members of a JSON object, and answers whether it did.
fn set_all(alloc: Global, parts: &mut Parts, object: &Value) -> bool {
    let Some(members) = object.as_object() else {
        return false;
    };
    for (name, value) in members.iter() {
        if !set(alloc, parts, name.as_str(), value) {
            return false;
        }
    }
    true
}

/// Sets the members of the text of a JSON object, and answers whether it did.
fn set_text(alloc: Global, parts: &mut Parts, text: &str) -> bool {
    match Value::from_str(alloc, text) {
        Ok(object) => set_all(alloc, parts, &object),
        Err(_) => false,
    }
}

/// The JSON value of a text as data.
fn json(alloc: Global, text: &str) -> Option<Offered> {
    match Value::from_str(alloc, text) {
        Ok(value) => Some(Offered::Tree(Tree::of(value))),
        Err(_) => None,
    }
}

/// The JSON value of a text within so many arrays, as data.
fn nested(alloc: Global, depth: usize, text: &str) -> Option<Offered> {
    let open = "[".repeat(alloc, depth).ok()?;
    let close = "]".repeat(alloc, depth).ok()?;
    let text = format!(in alloc; "{open}{text}{close}").ok()?;
    json(alloc, text.as_str())
}

/// Bytes of hexadecimal digits as data.
fn bytes(alloc: Global, digits: &str) -> Option<Offered> {
    match hex::decode(alloc, digits.as_bytes()) {
        Ok(bytes) => Some(Offered::Bytes(Octets::from_vec(bytes))),
        Err(_) => None,
    }
}

/// Data of words: `json TEXT`, `in DEPTH TEXT`, `hex DIGITS`, `both` kinds, or bytes that are
/// `undecodable`.
fn data_of(alloc: Global, words: &str) -> Option<Offered> {
    match words.split_once(' ') {
        Some(("json", text)) => json(alloc, text),
        Some(("hex", digits)) => bytes(alloc, digits),
        Some(("in", more)) => {
            let (depth, text) = more.split_once(' ')?;
            nested(alloc, depth.parse::<usize>().ok()?, text)
        }
        _ => match words {
            "both" => Some(Offered::Both),
            "undecodable" => Some(Offered::Undecodable),
            _ => None,
        },
    }
}

/// Offers data of words, and answers whether it did.
fn offer(alloc: Global, parts: &mut Parts, words: &str) -> bool {
    match data_of(alloc, words) {
        Some(data) => {
            parts.offer(data);
            true
        }
        None => false,
    }
}

/// An event of the text of a JSON object, and of data behind ` <- `, if there is some.
pub fn build(alloc: Global, text: &str) -> Result<Event, Fault> {
    let mut parts = Parts::empty(alloc);
    let is_set = match text.split_once(" <- ") {
        Some((object, data)) => {
            set_text(alloc, &mut parts, object) && offer(alloc, &mut parts, data)
        }
        None => set_text(alloc, &mut parts, text),
    };
    if is_set {
        Event::build(parts)
    } else {
        Err(Fault::OutOfMemory)
    }
}

/// An event whose comment has so many letters.
pub fn long_event(alloc: Global, letters: usize) -> Result<Event, Fault> {
    let mut parts = Parts::empty(alloc);
    let usual =
        "{\"id\":\"a1\",\"source\":\"/orders\",\"specversion\":\"1.0\",\"subject\":\"x\",\"type\":\"t.a\"}";
    match "a".repeat(alloc, letters) {
        Ok(comment) => {
            let comment = Given::Words(Text::from_string(comment));
            if set_text(alloc, &mut parts, usual) && parts.set("comment", comment).is_ok() {
                Event::build(parts)
            } else {
                Err(Fault::OutOfMemory)
            }
        }
        Err(_) => Err(Fault::OutOfMemory),
    }
}

/// Adds the number and the name of a fault, unless memory is wanted.
pub fn add_fault(out: &mut String, fault: Fault) -> bool {
    let number = fault.number();
    write!(out, "{number} {fault}\n").is_ok()
}

/// `build NAME OBJECT [<- DATA]`: the event has that name from now on, or the fault is told.
pub fn call(
    alloc: Global,
    events: &mut Shelf<Event>,
    name: &str,
    text: &str,
    out: &mut String,
) -> bool {
    match build(alloc, text) {
        Ok(event) => events.put(alloc, name, event),
        Err(Fault::OutOfMemory) => false,
        Err(fault) => add_fault(out, fault),
    }
}
