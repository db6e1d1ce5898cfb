//! Keeps the arrivals of a shared site in a table of a database.
#![tactic(auto)]

mod fault;
mod flusher;
mod gathered;
mod keeper;
pub mod laws;

pub use fault::{KeepFault, Stop};
pub use flusher::{Flushed, Flusher};
pub use keeper::{Keeper, Kept, NotKept};
