//! A set of events, listed in key order.
#![tactic(auto)]

mod conflict;
mod inbox;
pub mod laws;
mod places;
mod search;

pub use conflict::{Conflict, Conflicts};
pub use inbox::{Back, Counts, Inbox, Short, Taken};
pub use search::compare_keys;
