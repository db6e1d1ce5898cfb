//! A numberer over a file and the text of its last answer.

use attributes::Text;
use durable_site::{FileFrom, Unknown};
use number_table::Numberer;
use sqlite_store::FileStore;
use std::alloc::Global;

/// A numberer over the files of a database.
pub(crate) type FileNumberer = Numberer<FileStore<FileFrom<Unknown>>>;

/// What lies in the room of a numberer over a file: the numberer, where it was opened, and the
/// answer that it gave last.
#[derive(Drop)]
pub struct NumbersHeld {
    pub(crate) numberer: Option<FileNumberer>,
    pub(crate) text: Text,
    pub(crate) alloc: Global,
}
