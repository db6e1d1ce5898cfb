//! A site that a service holds open over its database: what it takes is kept in the table and
//! synced, and then counted.
#![tactic(auto)]

mod durable;
mod fault;
mod file;
mod owed;

pub use durable::DurableSite;
pub use fault::OpenFault;
pub use file::{FileSite, GivenFiles, close, connect, open_files};
pub use file_disk::{FileFrom, Unknown};
pub use inbox_table::{NotMade, TableFault};
pub use owed::Owed;
