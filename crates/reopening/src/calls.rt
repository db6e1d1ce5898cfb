//! A call, a crash and an opening: that what each of the functions of this crate asks for is had of
//! calls, from a database to what is found in its files.

ghost use Rattle.std.specs.Prelude.{◌≡◌, ◌⊎◌, ◌≤◌, ◌∷◌, ◌++◌, [], ℕ, List, IfOk};
ghost use Rattle.sqlite.specs.Files.{file_state};
ghost use Rattle.sqlite.specs.Held.{state};
ghost use Rattle.sqlite.specs.State.{HasCleanDisk};
ghost use Rattle.attributes.specs.Event.{EventValue};
ghost use Rattle.attributes.specs.Sequence.{max_sequence};
ghost use Rattle.inbox.specs.KeyOrder.{key_cmp};
ghost use Rattle.inbox.specs.Ordered.{append_new};
ghost use Rattle.outbox.specs.Order.{Accepted, IsOrder, IsShortTime};
ghost use Rattle.outbox.specs.Service.{IsService};
ghost use Rattle.outbox.specs.Shown.{IsSource};
ghost use Rattle.outbox.specs.declared.status.Status.TheVariants.{Placed};
ghost use Rattle.reopening.specs.Lists.{GaveEvents, WereHeld};
ghost use Rattle.reopening.specs.Services.{GaveCommand, WasService};

use crate::services::{NoService, service_reopened};
use crate::tables::{NoTable, table_reopened};
use attributes::{Batch, Moment, Text};
use inbox_table::{Loaded, Table, Unwatched};
use outbox::Service;
use sqlite::{Alter, Connection, FileStore, Options};
use sqlite_disk::Crash;
use std::alloc::Global;

/// Opens the table of a database and gives it events. The connection comes back, whether these were
/// kept, refused, or the call was stopped at any write.
///
/// The table is opened twice: between the two the connection tells that its database obeys its own
/// schema.
fn give_events<S: Alter + Drop>(
    alloc: Global,
    conn: Connection<S>,
    batch: &Batch,
) -> Result<Connection<S>, inbox_table::NotMade<S>>
    ensures { IfOk result (λ last. HasCleanDisk (state S.Store last)
        → GaveEvents (λ c. state S.Store c) conn batch.now last) }
{
    let first = match Table::open(alloc, conn, &Unwatched) {
        Ok(table) => table,
        Err(refused) => return Err(refused),
    };
    let conn = first.into_connection();
    let _schema = conn.schema();
    let mut table = match Table::open(alloc, conn, &Unwatched) {
        Ok(table) => table,
        Err(refused) => return Err(refused),
    };
    let _kept = table.keep(batch);
    Ok(table.into_connection())
}

/// Gives events to the table of a database, lets the machine crash, wherever that was stopped, and
/// opens the files again: the list is that of before, or has the events that were given behind it,
/// each once.
///
/// It is refused as [`Table::open`] is, or as [`table_reopened`]. Time and memory are those of
/// three openings.
pub fn keep_and_reopen<D: Crash + Drop>(
    alloc: Global,
    conn: Connection<FileStore<D>>,
    batch: &Batch,
    options: Options,
) -> Result<Loaded<FileStore<D>>, NoTable<D>>
    ensures { IfOk result (λ l. HasCleanDisk (file_state l.table.conn)
        → (held : List EventValue) × WereHeld (file_state conn).now held
        × ((l.events ≡ held) ⊎ (l.events ≡ append_new key_cmp held batch.now))) }
{
    match give_events(alloc, conn, batch) {
        Ok(stopped) => table_reopened(alloc, stopped, options),
        Err(refused) => Err(NoTable::Refused(refused)),
    }
}

/// Before a crash: opens the service of a database, or makes one with this source and base, and
/// places an order. The connection comes back, if accepted, refused, or stopped at any write.
fn place_order<S: Alter + Drop>(
    alloc: Global,
    conn: Connection<S>,
    source: &Text,
    base: u64,
    order: u64,
    at: &Moment,
) -> Result<Connection<S>, outbox::NotMade<S>>
    requires source { IsSource source.now }
    requires base { base ≤ max_sequence }
    requires order { IsOrder order }
    requires short { IsShortTime at.now }
    ensures { IfOk result (λ last. HasCleanDisk (state S.Store last)
        → GaveCommand (λ c. state S.Store c) conn source.now base
        (record { status = Placed; order = order; at = at.now }) last) }
{
    let first = match Service::open(alloc, conn, source, base) {
        Ok(service) => service,
        Err(refused) => return Err(refused),
    };
    let conn = first.into_connection();
    let _schema = conn.schema();
    let mut service = match Service::open(alloc, conn, source, base) {
        Ok(service) => service,
        Err(refused) => return Err(refused),
    };
    let _answer = service.place(order, at);
    Ok(service.into_connection())
}

/// Places an order with the service of a database, which is made where there is none, lets the
/// machine crash, wherever that was stopped, and opens the files again: the service has the commands
/// of before, or these and the one that places the order.
///
/// It is refused as [`Service::open`] is, or as [`service_reopened`]. Time and memory are those of
/// three openings.
pub fn place_and_reopen<D: Crash + Drop>(
    alloc: Global,
    conn: Connection<FileStore<D>>,
    source: &Text,
    base: u64,
    order: u64,
    at: &Moment,
    options: Options,
) -> Result<Service<FileStore<D>>, NoService<D>>
    requires source { IsSource source.now }
    requires base { base ≤ max_sequence }
    requires order { IsOrder order }
    requires short { IsShortTime at.now }
    ensures { IfOk result (λ s. HasCleanDisk (file_state s.conn) → (own : List ℕ) × (first : ℕ)
        × (commands : List Accepted)
        × WasService (file_state conn).now source.now base own first commands
        × (IsService (file_state s.conn).now own first commands
        ⊎ IsService (file_state s.conn).now own first
        (commands ++ record { status = Placed; order = order; at = at.now } ∷ []))) }
{
    match place_order(alloc, conn, source, base, order, at) {
        Ok(stopped) => service_reopened(alloc, stopped, options),
        Err(refused) => Err(NoService::Refused(refused)),
    }
}
