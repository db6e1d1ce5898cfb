//! Questions about a set of events, answered from scratch, and their answers in lines.
#![tactic(auto)]

mod day;
pub mod laws;
mod line;
mod number;
mod query;
mod question;
mod row;
mod table;
mod view;

pub use day::Day;
pub use query::{Answer, Query};
pub use question::{answer, answer_lines, print};
pub use row::{DayCount, Days, Gaps, KindCount, Kinds, SourceGaps};
