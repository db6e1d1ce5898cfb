//! The commands of the program `site`, over any files, databases and writers: what a part of the
//! plan comes to, and how it is written.
#![tactic(auto)]

pub mod check;
pub mod combine;
pub mod database;
mod ending;
mod files;
mod hint;
mod line;
mod look;
mod names;
mod outputs;
pub mod part;
mod pieces;
mod printed;
mod progress;
pub mod query;
mod refusal;
pub mod split;
pub mod stream;

pub use ending::{DONE, Ending, REFUSED, Shown, answered, finish, refused, say};
pub use files::{Looks, Streams, SystemFiles};
pub use hint::{Hint, hint_of};
pub use line::Refusal;
pub use names::Names;
pub use outputs::SystemOutputs;
pub use pieces::{
    LineAt, Pieces, RefusedLine, first_line, is_blank, memory_refusal, pieces_of, refusal_at,
};
pub use printed::Printed;
pub use progress::Progress;
pub use refusal::what_can_be_numbered_is_quiet;
