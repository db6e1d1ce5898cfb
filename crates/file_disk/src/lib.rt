//! The two files of a database as disks, for programs that are handed them open: the export of a
//! static library has no runtime to open files by.
#![tactic(auto)]

mod opening;
mod system;
mod system_file;

pub use opening::files_of;
pub use sqlite_disk::{Start, Unknown};
pub use system_file::SystemFile;

/// A file that held what `S` says.
pub type FileFrom<S> = sqlite_disk::Modelled<SystemFile, S>;
