//! Answers to questions about the events in files of CloudEvents: from bytes to the printed text.
#![tactic(auto)]

mod answer;
mod intake;

pub use answer::{Reported, report, report_with};
pub use intake::site_of;
pub use views::Query;
