//! The command `run`: files taken side by side into a database.
#![tactic(auto)]

mod ending;
mod fault;
mod progress;
mod runs;
mod shared;
mod tally;
mod text;

pub use ending::{RunEnd, run};
pub use fault::RunFault;
pub use feeds::Jobs;
pub use runs::Runs;
