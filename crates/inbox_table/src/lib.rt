//! Events in a table of a database: the rows are a list of distinct events, kept by place.
#![tactic(auto)]

mod adoption;
mod creation;
mod fault;
mod inspection;
pub mod laws;
mod listed;
mod lists;
mod lookup;
mod opening;
mod reading;
mod row;
mod statement;
mod table;
mod upgrade;
mod version;
mod wanted;
mod watch;

pub use fault::TableFault;
pub use inspection::{Inspected, inspect};
pub use listed::Listed;
pub use table::{Loaded, NotMade, Table};
pub use version::Version;
pub use watch::{Unwatched, Watch};
