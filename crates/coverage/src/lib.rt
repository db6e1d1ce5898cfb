//! Which sequence numbers of which sources have been seen.
#![tactic(auto)]

mod digests;
mod fault;
mod intervals;
pub mod laws;
mod numbers;
mod summary;

pub use fault::SummaryFault;
pub use intervals::{Interval, Intervals};
pub use summary::Summary;
