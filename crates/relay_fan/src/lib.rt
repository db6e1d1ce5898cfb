//! The rows of one outbox, sent to several routes at the same time.
#![tactic(auto)]

mod fan;

pub use fan::{End, FanOut, Relays, Routes, fan_out};
