//! Views of a set of events, kept as the events come.
#![tactic(auto)]

mod answer;
mod days;
mod entities;
mod from_inbox;
mod gap;
mod kept;
mod latest;
mod seed;
mod tally;

pub use kept::Views;
