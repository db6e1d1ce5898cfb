//! The program `site`, over any runtime, files, databases and writers: from the words after its name
//! to what is written, and the exit status.
#![tactic(auto)]

mod batches;
mod number;
mod run;
mod workers;

pub use run::{exit, perform, perform_alone};
