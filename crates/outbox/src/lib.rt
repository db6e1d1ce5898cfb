//! Orders of a service, and the outbox of their events, in a database.
#![tactic(auto)]

mod adoption;
mod creation;
mod fault;
pub mod laws;
mod opening;
mod row;
mod service;
mod statement;
mod status;
mod stored;

pub use fault::OutboxFault;
pub use service::{NotMade, Service};
pub use status::Status;
