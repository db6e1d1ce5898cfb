//! What is wrong with a file that is to have events, in lines.
#![tactic(auto)]

mod laws;
mod line;
mod member;
mod place;
mod words;

pub use laws::{events_are_quiet, good_files_are_quiet};
pub use line::{event_line, fault_lines, reading_fault_lines};
