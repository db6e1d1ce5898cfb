//! Lines of events that carry no number, each answered with its events' numbers once they are kept.
#![tactic(auto)]

mod named;
mod over;
mod refusal;
mod stream;
mod text;
mod turn;
mod words;

pub use named::{NumberEnd, Numberers};
pub use over::{NumberedStream, number_over};
pub use refusal::{LineRefusal, Told};
pub use stream::{NumberingFault, number_gathered, number_lines};
pub use text::{fault_text, numbered_text};
pub use turn::{Gathered, Part, gather};
