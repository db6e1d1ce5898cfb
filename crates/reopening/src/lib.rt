//! The files of a database crash and are opened again: what is then found in them.
#![tactic(auto)]

mod calls;
mod files;
mod services;
mod tables;

pub use calls::{keep_and_reopen, place_and_reopen};
pub use files::{crashed, reopened};
pub use services::{NoService, service_reopened};
pub use tables::{NoTable, table_reopened};
