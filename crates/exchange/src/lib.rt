//! Sites that exchange events: gossip, scrub, and schedules of both among many sites.
#![tactic(auto)]

pub mod laws;
mod machine;
mod step;
mod transfer;
mod world;

pub use machine::{Stop, Stopped, run};
pub use step::{Step, Steps};
pub use transfer::{gossip, scrub};
pub use world::{Hosted, World};
