//! Numbers for events that carry none: each text of a source has one number, and the numbers of a
//! source have no gap.
#![tactic(auto)]

mod aside;
mod batch;
mod count;
mod counted;
mod event;
mod fault;
mod filter;
mod known;
pub mod laws;
mod turn;

pub use aside::set_aside;
pub use batch::{MAX_BARE_TEXT, refusal, refusal_at};
pub use count::next_event;
pub use counted::Counted;
pub use event::{bare, numbered};
pub use fault::NumberFault;
pub use known::{Known, has_no_other, number_among};
pub use turn::number_all;
