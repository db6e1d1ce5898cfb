//! The faults that a stream acknowledges, counted by their cause for who looks on.

use attributes::Text;
use std::alloc::{AllocError, Global};

/// How many bytes of an acknowledgement are looked at.
const LOOKED_AT: usize = 200;

/// What stands before the words of a fault in an acknowledgement, and behind them.
const BEFORE: &str = "\"fault\":\"";

const BEHIND: &str = "\"}";

/// A cause, and how many lines are refused for it.
#[derive(Drop)]
struct Cause {
    name: Text,
    lines: u64,
}

/// The causes that acknowledgements told. Where memory is refused for one, it isn't counted.
#[derive(Drop)]
pub struct Causes {
    alloc: Global,
    /// What was written of a line that isn't at its end.
    line: Vec<u8>,
    list: Vec<Cause>,
}

impl Causes {
    /// No causes yet on the status line. It takes no memory.
    pub fn none(alloc: Global) -> Causes {
        Causes {
            alloc,
            line: Vec::new(alloc),
            list: Vec::new(alloc),
        }
    }

    /// The causes on the status line, each with its count of lines, in the order in which they
    /// came; empty, where no line is at fault.
    pub fn words(&self) -> Result<String, AllocError> {
        let mut words = String::new(self.alloc);
        for cause in self.list.as_slice() {
            let comma = if words.is_empty() { "" } else { ", " };
            let name = cause.name.as_str();
            let lines = cause.lines;
            let one = format!(in self.alloc; "{comma}{name} {lines}")?;
            words.push_str(one.as_str())?;
        }
        Ok(words)
    }

    /// Looks at bytes that were written of answers, for the causes of a status line.
    pub fn note(&mut self, bytes: &[u8]) {
        for byte in bytes {
            if *byte == b'\n' {
                self.count();
                self.line.clear();
            } else if self.line.len() < LOOKED_AT {
                let _kept = self.line.push(*byte);
            }
        }
    }

    /// Counts the cause that the acknowledgement tells, if it does, for the status line.
    fn count(&mut self) {
        let Some(name) = cause_of(self.line.as_slice()) else {
            return;
        };
        for cause in self.list.as_mut_slice() {
            if cause.name.as_str() == name {
                cause.lines = cause.lines.saturating_add(1);
                return;
            }
        }
        if let Ok(name) = Text::of(self.alloc, name) {
            let _kept = self.list.push(Cause { name, lines: 1 });
        }
    }
}

/// The cause that an acknowledgement tells: the name of an event's fault, or why a line has no
/// events.
fn cause_of(line: &[u8]) -> Option<&str> {
    let text = str::from_utf8(line).ok()?;
    let (_, behind) = text.split_once(BEFORE)?;
    let words = behind.strip_suffix(BEHIND)?;
    match words.rsplit_once(": ") {
        Some((_, name)) => Some(name),
        None => Some(words),
    }
}
