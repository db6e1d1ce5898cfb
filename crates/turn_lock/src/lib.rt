//! One object that threads use by turns, with one history of their calls.
#![tactic(auto)]

mod machine;
mod play;
mod turnstile;

pub use machine::{Entry, Machine, Says, View};
pub use turnstile::{ByTurns, Pass, Turnstile};
