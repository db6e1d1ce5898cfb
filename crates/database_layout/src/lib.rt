//! The tables that a database file of ours has: which there may be, where they lie, and how they
//! are made.
#![tactic(auto)]

mod check;
mod creation;
mod form;
pub mod laws;
mod layout;

pub use creation::{drop_inbox, make_inbox, make_service};
pub use form::has_inbox_form;
pub use layout::{Layout, has_inbox, has_name, lacks_name};
