//! A site: the events that it took, and what it answers about them.
#![tactic(auto)]

mod call;
mod desk;
mod gate;
pub mod laws;
mod site;

pub use call::{Call, Command, Reply};
pub use desk::{Desk, DeskFault};
pub use gate::{Gate, GateShut, Wide};
pub use paging::MAX_PAGE;
pub use site::{DeltaPart, Lent, Mark, Site};
