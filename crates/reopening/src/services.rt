//! A service, in files that crashed.

ghost use Rattle.std.specs.Prelude.{IfErr, IfOk};
ghost use Rattle.sqlite.specs.Files.{file_state};
ghost use Rattle.sqlite.specs.State.{HasCleanDisk};
ghost use Rattle.reopening.specs.Services.{FindsNoService, FindsService};

use crate::files::reopened;
use database_layout::laws::trees_tell_tables;
use outbox::laws::stops_leave_a_service;
use outbox::{NotMade, Service};
use sqlite::{Connection, Error, FileStore, Leftover, Options};
use sqlite_disk::{Crash, Disk};
use std::alloc::Global;

/// Why no service is found in files that crashed.
#[derive(Drop)]
pub enum NoService<D: Disk + Drop> {
    /// The files weren't opened.
    Unopened(Error, Leftover<D>),
    /// They were, and the service isn't taken.
    Refused(NotMade<FileStore<D>>),
}

/// Lets the machine crash, opens the files again and takes the service in them: after a command
/// that came to its end or was stopped at any write, it has the commands of before, or those and
/// that one; after [`Service::create`] it has none.
///
/// It is refused as [`reopened`] and then [`Service::adopt`] are, but for one: a service that was
/// there before the command isn't `Foreign`. Time and memory are those of both.
pub fn service_reopened<D: Crash + Drop>(
    alloc: Global,
    conn: Connection<FileStore<D>>,
    options: Options,
) -> Result<Service<FileStore<D>>, NoService<D>>
    ensures found { IfOk result (λ s. HasCleanDisk (file_state s.conn)
        → FindsService conn s) }
    ensures refused { IfErr result (FindsNoService conn) }
{
    stops_leave_a_service();
    trees_tell_tables();
    let again = match reopened(alloc, conn, options) {
        Ok(again) => again,
        Err((error, left)) => return Err(NoService::Unopened(error, left)),
    };
    match Service::adopt(alloc, again) {
        Ok(service) => Ok(service),
        Err(refused) => Err(NoService::Refused(refused)),
    }
}
