//! A numberer: events that carry no number get one, kept in a table of a database.
#![tactic(auto)]

mod count;
mod fault;
mod lists;
mod lookup;
mod numberer;

pub use fault::NumbererFault;
pub use numberer::{NotOpened, Numberer};
