//! Relays, which send the rows of an outbox to routes and keep a mark.
#![tactic(auto)]

mod fault;
mod memory;
mod relay;
mod route;

pub use fault::{RelayFault, fault_of};
pub use memory::MemoryRoute;
pub use relay::{Job, Outcome, Relay, carry};
pub use route::{Route, RouteFailed};
