//! Digests of blocks of events, by which two sites find where their sets differ.
#![tactic(auto)]

mod arrivals;
mod block;
mod blocks;
pub mod laws;

pub use arrivals::Arrivals;
pub use block::{block_of, digest_of_block};
pub use blocks::Blocks;
