//! Files of CloudEvents: read by their names, and as events with numbers.
#![tactic(auto)]

mod batch;
mod input;
mod intake;
mod key_order;
mod refusal;
mod shelf;

pub use batch::{EventReader, SequentialReader, batch_of, in_key_order, sequenced};
pub use input::{Unread, read_all};
pub use intake::{append, events_of};
pub use refusal::{Refused, ReportFault};
pub use shelf::{Shelf, UnreadAt, contents_of};
