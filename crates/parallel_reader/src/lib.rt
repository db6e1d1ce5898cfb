//! Events of files, read with several threads side by side.
#![tactic(auto)]

mod part;
mod reader;

pub use reader::ParallelReader;
