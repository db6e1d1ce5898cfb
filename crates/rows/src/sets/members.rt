//! What is told of the members of an input that are at fault, and of why events are not read.

use crate::said::{line, lines};
use attributes::{Fault, Text};
use event_json::{Faulty, ReadFault, read_faulty};
use fault_lines::fault_lines;
use std::alloc::Global;

/// The text with LF in the place of `\n`.
fn unescaped(alloc: Global, text: &str) -> Option<String> {
    match text.replace(alloc, "\\n", "\n") {
        Ok(text) => Some(text),
        Err(_) => None,
    }
}

/// Adds the place of a member, its fault and what it is.
fn add_member(alloc: Global, out: &mut String, member: &Faulty) -> bool {
    let (index, fault) = (member.index, member.fault);
    match member.tree.to_string(alloc) {
        Ok(tree) => write!(out, "{index} {fault} ").is_ok() && line(out, tree.as_str()),
        Err(_) => false,
    }
}

/// Adds members, `none` where there is none.
fn add_members(alloc: Global, out: &mut String, members: &[Faulty]) -> bool {
    if members.is_empty() {
        return line(out, "none");
    }
    for member in members {
        if !add_member(alloc, out, member) {
            return false;
        }
    }
    true
}

/// Adds the members of an input that are at fault, or why it is refused as a whole.
fn tell(alloc: Global, text: &str, out: &mut String) -> bool {
    match read_faulty(alloc, text.as_bytes()) {
        Ok(members) => add_members(alloc, out, members.as_slice()),
        Err(ReadFault::OutOfMemory) => false,
        Err(fault) => write!(out, "{fault}\n").is_ok(),
    }
}

/// `members TEXT`: of each member at fault its place, its fault and what it is. In the text `\n`
/// stands for LF.
pub fn members(alloc: Global, text: &str, out: &mut String) -> bool {
    match unescaped(alloc, text) {
        Some(text) => tell(alloc, text.as_str(), out),
        None => false,
    }
}

/// `hints TEXT`: the lines that tell what is wrong with a file of the name `a"b` and that text, in
/// which `\n` stands for LF.
pub fn hints(alloc: Global, text: &str, out: &mut String) -> bool {
    match (Text::of(alloc, "a\"b"), unescaped(alloc, text)) {
        (Ok(name), Some(text)) => {
            let told = fault_lines(alloc, &name, text.as_str().as_bytes());
            lines(out, told) && line(out, "no more")
        }
        _ => false,
    }
}

/// Adds the number and the words of a refusal.
fn add_refusal(out: &mut String, fault: ReadFault) -> bool {
    let number = fault.number();
    write!(out, "{number} {fault}\n").is_ok()
}

/// `refusals`: the number and the words of each refusal, and of an event at fault.
pub fn refusals(out: &mut String) -> bool {
    let event = ReadFault::BadEvent {
        index: 7,
        fault: Fault::TooLarge,
    };
    add_refusal(out, ReadFault::OutOfMemory)
        && add_refusal(out, ReadFault::NotJson)
        && add_refusal(out, ReadFault::NotEvent)
        && add_refusal(out, event)
        && add_refusal(out, ReadFault::InputTooLarge)
}
