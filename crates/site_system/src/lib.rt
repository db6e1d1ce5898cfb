//! What the program `site` has of the operating system beside databases: runs over their files, and
//! a terminal's status line.
#![tactic(auto)]

mod causes;
mod runs;
mod status_line;

pub use runs::FileRuns;
pub use status_line::{CountedOutput, StatusLine};
