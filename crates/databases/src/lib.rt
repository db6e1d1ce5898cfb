//! What commands over databases say and answer: the trait of those that go by a file's name, their
//! faults and lines, the pages of events, and a database's table with its events.
#![tactic(auto)]

mod databases;
mod fault;
mod pages;
mod stream;
mod table;
mod text;
mod trouble;

pub use databases::{Databases, Relayed};
pub use fault::{CommandFault, of_outbox, of_relay, of_table};
pub use outbox::Status;
pub use pages::{EventPages, page_behind};
pub use stream::StreamFault;
pub use table::load_table;
pub use text::{batch_line, counts_line, database_line, event_line, service_line, summary_of};
pub use trouble::{Trouble, of_error, of_fault, of_kind, of_open, trouble_line};
