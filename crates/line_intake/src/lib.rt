//! Lines of an input, each an event or a batch, kept in a table and acknowledged line by line.
#![tactic(auto)]

mod answer;
mod line;
mod step;
mod stream;
mod turn;
mod words;
mod writing;

pub use answer::{Told, answers};
pub use line::{LineFault, Next, Pending, next_line};
pub use step::{FollowFault, acknowledge, keep_lines};
pub use stream::follow;
pub use turn::{Gathered, Part, gather};
pub use words::{fault_name, words_of};
pub use writing::{Unwritten, put};
