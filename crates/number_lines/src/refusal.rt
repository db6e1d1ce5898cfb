//! Why nothing of a line is numbered.

use event_json::ReadFault;
use numbers::NumberFault;
use thiserror::Error;

/// Why nothing of a line is numbered: its first fault.
#[derive(Clone, Copy, PartialEq, Eq, Debug, Drop, Error)]
pub enum LineRefusal {
    /// It spells no events.
    #[error("{0}")]
    Read(ReadFault),
    /// One of its events can't be numbered.
    #[error("{0}")]
    Number(NumberFault),
    /// The number that an event has can't be set aside: it has an attribute of the name for it, or
    /// no extension may have that name (CloudEvents 1.0.2, section 3.1), or it gets too large.
    #[error("event {index}: its sequence can't be set aside")]
    Aside { index: u64 },
}

/// A line of an input, counted from 1, and why none of its events is numbered, if so.
#[derive(Clone, Copy, Debug, PartialEq, Eq, Drop)]
pub struct Told {
    pub line: u64,
    pub fault: Option<LineRefusal>,
}
