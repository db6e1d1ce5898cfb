//! Times, sequence numbers, texts and bytes by themselves.

use crate::said::{as_line, line, truth};
use crate::sets::offers::add_fault;
use crate::words::number_of;
use attributes::{Fault, Moment, Octets, Sequence, Text};
use serde_json::Value;
use std::alloc::Global;

/// `moment [TEXT]`: the day number of a time, or its fault.
pub fn moment(alloc: Global, text: &str, out: &mut String) -> bool {
    match Moment::of_text(alloc, text) {
        Ok(moment) => {
            let day = moment.day();
            write!(out, "{day}\n").is_ok()
        }
        Err(Fault::OutOfMemory) => false,
        Err(fault) => add_fault(out, fault),
    }
}

/// `sequence [TEXT]`: the number of twenty digits, or none.
pub fn sequence(text: &str, out: &mut String) -> bool {
    match Sequence::of_text(text) {
        Some(sequence) => {
            let number = sequence.number();
            write!(out, "{number}\n").is_ok()
        }
        None => line(out, "none"),
    }
}

/// `twenty NUMBER`: the twenty digits of a sequence number, and how it is shown, or none.
pub fn twenty(alloc: Global, text: &str, out: &mut String) -> bool {
    let Some(number) = number_of(text) else {
        return false;
    };
    let sequence = Sequence::of_u64(number);
    match sequence {
        Some(own) => {
            as_line(out, own.digits(alloc))
                && write!(out, "{own:?}\n").is_ok()
                && write!(out, "{sequence:?}\n").is_ok()
        }
        None => line(out, "none"),
    }
}

/// Adds the copy of a text, and whether the text may be a source.
fn add_copy(alloc: Global, text: &str, out: &mut String) -> bool {
    match Text::of(alloc, text) {
        Ok(own) => match own.copy() {
            Ok(copy) => truth(out, copy.as_str() == text) && truth(out, own.is_source()),
            Err(_) => false,
        },
        Err(_) => false,
    }
}

/// `keep STRING`: of a text that is given as a JSON string, whether its copy is equal to it, and
/// whether it may be a source.
pub fn keep(alloc: Global, text: &str, out: &mut String) -> bool {
    match Value::from_str(alloc, text) {
        Ok(value) => match value.as_str() {
            Some(text) => add_copy(alloc, text, out),
            None => false,
        },
        Err(_) => false,
    }
}

/// Adds the copy of bytes in hexadecimal digits.
fn add_bytes(alloc: Global, bytes: &[u8], out: &mut String) -> bool {
    let Ok(own) = Octets::of(alloc, bytes) else {
        return false;
    };
    match own.copy() {
        Ok(copy) => match hex::encode(alloc, copy.as_bytes()) {
            Ok(digits) => line(out, digits.as_str()),
            Err(_) => false,
        },
        Err(_) => false,
    }
}

/// `bytes DIGITS`: the copy of bytes.
pub fn bytes(alloc: Global, digits: &str, out: &mut String) -> bool {
    match hex::decode(alloc, digits.as_bytes()) {
        Ok(bytes) => add_bytes(alloc, bytes.as_slice(), out),
        Err(_) => false,
    }
}
