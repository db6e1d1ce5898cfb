//! What a call came to, as it is written.

use attributes::{Batch, Text};
use std::alloc::{AllocError, Global};

/// How many bytes an answer may have for which no memory is asked once the call was made.
const ROOM: usize = 1024;

/// What a call answered, and what it left behind where memory was refused, if it left something.
#[derive(Drop)]
pub struct Said {
    /// The lines of the answer.
    pub text: String,
    /// What it left behind.
    pub left: String,
}

impl Said {
    /// Nothing yet, with room for what is told of a call that changes a value: its memory is there
    /// before the call, so that nothing that was done goes untold.
    pub fn empty(alloc: Global) -> Result<Said, AllocError> {
        let text = String::with_capacity(alloc, ROOM)?;
        let left = String::with_capacity(alloc, ROOM)?;
        Ok(Said { text, left })
    }
}

/// Adds a line.
pub fn line(out: &mut String, text: &str) -> bool {
    out.push_str(text).is_ok() && out.push('\n').is_ok()
}

/// Adds the lines of a text, and answers whether there is one.
pub fn lines(out: &mut String, text: Result<Text, AllocError>) -> bool {
    match text {
        Ok(text) => out.push_str(text.as_str()).is_ok(),
        Err(_) => false,
    }
}

/// Adds a text as a line, and answers whether there is one.
pub fn as_line(out: &mut String, text: Result<Text, AllocError>) -> bool {
    match text {
        Ok(text) => line(out, text.as_str()),
        Err(_) => false,
    }
}

/// Adds a number.
pub fn number(out: &mut String, number: u64) -> bool {
    write!(out, "{number}").is_ok()
}

/// Adds whether it is so, as a line.
pub fn truth(out: &mut String, is_so: bool) -> bool {
    line(out, if is_so { "yes" } else { "no" })
}

/// Adds the ids and types of events, as a line; `none` where there is no event.
pub fn events(out: &mut String, batch: &Batch) -> bool {
    if batch.is_empty() {
        return line(out, "none");
    }
    for i in 0..batch.len() {
        let event = batch.at(i).event();
        let is_said = (i == 0 || out.push(' ').is_ok())
            && out.push_str(event.id()).is_ok()
            && out.push(':').is_ok()
            && out.push_str(event.kind()).is_ok();
        if !is_said {
            return false;
        }
    }
    out.push('\n').is_ok()
}

/// Adds the ids and types of events, and answers whether there are any.
pub fn batch(out: &mut String, batch: Result<Batch, AllocError>) -> bool {
    match batch {
        Ok(batch) => events(out, &batch),
        Err(_) => false,
    }
}
