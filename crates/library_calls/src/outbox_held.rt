//! An outbox over a file and the text of its last answer.

use attributes::Text;
use durable_site::{FileFrom, Unknown};
use outbox::Service;
use sqlite_store::FileStore;
use std::alloc::Global;

/// A service over the files of a database.
pub(crate) type FileService = Service<FileStore<FileFrom<Unknown>>>;

/// What lies in the room of an outbox over a file: the service, where it was opened, and the answer
/// that it gave last.
#[derive(Drop)]
pub struct OutboxHeld {
    pub(crate) service: Option<FileService>,
    pub(crate) text: Text,
    pub(crate) alloc: Global,
}
