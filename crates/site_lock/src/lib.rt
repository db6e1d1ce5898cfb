//! A site that threads share, with one history of their calls.
#![tactic(auto)]

mod caller;
mod held;
pub mod laws;
mod pass;
mod shared;

pub use caller::Caller;
pub use pass::Pass;
pub use shared::{Begun, NotBegun, SharedSite};
