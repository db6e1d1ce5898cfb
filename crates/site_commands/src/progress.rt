//! How far a long command came, and more of why it was refused, for those who look on.
use crate::ending::Shown;
use inbox_table::{Unwatched, Watch};

/// Is told how far a command came. What it does changes nothing of what comes of the command.
pub trait Progress: Watch {
    /// So many of the program's files are left to read.
    fn left(&self, files: u64);

    /// So many lines of the program's stream are done: each was kept or refused, and acknowledged.
    fn lines(&self, count: u64);

    /// Nothing more is told on a terminal of how far the program came.
    fn over(&self);

    /// Whether somebody looks on at the program, for whom a hint is worth its time.
    fn is_watched(&self) -> bool;

    /// What can be done about a refusal, behind its error line.
    fn hint(&self, line: Shown, hint: &str);
}

impl Progress for Unwatched {
    fn left(&self, _files: u64) {}

    fn lines(&self, _count: u64) {}

    fn over(&self) {}

    fn is_watched(&self) -> bool {
        false
    }

    fn hint(&self, _line: Shown, _hint: &str) {}
}
