//! A service: its orders, and the rows of its outbox.

ghost use Rattle.std.specs.Prelude.{◌≡◌, ◌≢◌, ◌⊎◌, ◌<◌, ◌≤◌, ◌^◌, ◌+◌, ◌-◌, ℕ, suc, pos, List, length, string_bytes, Some, None, IsTrue, OnOk, OnErr, IfOk, IfErr};
ghost use Rattle.sqlite_value.specs.declared.value.Value.TheVariants.{Int, Text as Words};
ghost use Rattle.sqlite_value.specs.Order.{column};
ghost use Rattle.sqlite.specs.State.{HasCleanDisk};
ghost use Rattle.sqlite.specs.Held.{state};
ghost use Rattle.attributes.specs.Sequence.{max_sequence};
ghost use Rattle.outbox.specs.Order.{Accepted, status_of, refusal, IsOrder, IsShortTime};
ghost use Rattle.outbox.specs.Row.{row_event, events_from};
ghost use Rattle.outbox.specs.Service.{code, IsService};
ghost use Rattle.outbox.specs.Shown.{CountsOrders, CountsRows, StandsForService};
ghost use Rattle.outbox.specs.Call.{CommandCall, CommandEffect, IsServiceReading, IsSettled, LeavesAsBefore, ShowsAfter};
ghost use Rattle.outbox.specs.steps.Change.{stored_row, stored_rows};
ghost use Rattle.outbox.specs.declared.fault.OutboxFault.TheVariants.{OutOfMemory, Store, Foreign};
ghost use Rattle.outbox.specs.declared.status.Status.TheVariants.{Placed, Shipped, Cancelled};

use crate::fault::OutboxFault;
use crate::row::event;
use crate::statement::{page, status_rows, write};
use crate::status::Status;
use crate::stored::{read_row, status_in_row};
use attributes::{Batch, MAX_SEQUENCE, Moment, Sequenced, Text};
use sqlite::{Alter, Connection, Row};
use std::alloc::Global;
use std::marker::Model;

/// The orders of a service and the outbox of their events, in a database.
///
/// Each accepted command writes the order and a row of the outbox in one transaction, so that no
/// event is lost and none is made up. Rows are numbered from the base on, without a gap.
pub struct Service<S: Alter> {
    pub(crate) conn: Connection<S>,
    pub(crate) source: Text,
    pub(crate) base: u64,
    pub(crate) last: u64,
    /// How many orders there are: kept, so that telling it costs nothing.
    pub(crate) orders: u64,
    pub(crate) alloc: Global,
}

impl<S: Alter> Model for Service<S> {
    ghost use Rattle.sqlite.specs.Held.{state};
    ghost use Rattle.outbox.specs.Shown.{KeepsCount, Shown, service_code, StandsForService};

    ghost Value = { Shown S };

    ghost coded = { service_code S.code };

    ghost view = { λ t. record { conn = t.conn; source = t.source; base = t.base; last = t.last } };

    ghost invariant = { λ t. StandsForService (state S.Store t.conn) t.source t.base t.last
        × KeepsCount (state S.Store t.conn) t.source t.base t.last t.orders };
}

impl<S: Alter + Drop> Drop for Service<S> {
    fn drop(self) {
        let Service {
            conn: _,
            source: _,
            base: _,
            last: _,
            orders: _,
            alloc: _,
        } = self;
    }
}

/// A connection that no service was made of, and why.
#[derive(Drop)]
pub struct NotMade<S: Alter + Drop> {
    pub conn: Connection<S>,
    pub fault: OutboxFault,
}

/// The event of a row of `outbox`.
fn stored_event(alloc: Global, source: &str, row: &Row) -> Result<Sequenced, OutboxFault>
    ensures event { IfOk result (λ e. (number : ℕ) (c : Accepted)
        → row.now ≡ stored_row number c → e ≡ row_event source.now number c) }
    ensures fault { IfErr result (λ f. (f ≡ OutOfMemory) ⊎ (f ≡ Store)) }
{
    match read_row(row) {
        Some(stored) => event(
            alloc,
            source,
            stored.number,
            stored.status,
            stored.order,
            stored.at,
        ),
        None => Err(OutboxFault::Store),
    }
}

/// The events of rows of `outbox`.
fn stored_events(alloc: Global, source: &str, rows: &[Row]) -> Result<Batch, OutboxFault>
    ensures events { IfOk result (λ batch. (number : ℕ) (commands : List Accepted)
        → rows.now ≡ stored_rows number commands
        → batch ≡ events_from source.now number commands) }
    ensures fault { IfErr result (λ f. (f ≡ OutOfMemory) ⊎ (f ≡ Store)) }
{
    let mut batch = Batch::empty(alloc);
    for row in rows {
        let event = stored_event(alloc, source, row)?;
        match batch.push(event) {
            Ok(()) => {}
            Err(_) => return Err(OutboxFault::OutOfMemory),
        }
    }
    Ok(batch)
}

/// The status of an order of the outbox, where it is there.
fn status_in<S: Alter>(conn: &mut Connection<S>, order: u64) -> Result<Option<Status>, OutboxFault>
    requires { order < 2 ^ 63 }
    ensures status { HasCleanDisk (state S.Store conn.new) → IfOk result (λ s.
        (source : List ℕ) (base : ℕ) (commands : List Accepted)
        → IsService (state S.Store conn.old).now source base commands
        → s ≡ status_of commands order) }
    ensures open { HasCleanDisk (state S.Store conn.new)
        → OnOk result (IsTrue (state S.Store conn.new).is_open) }
    ensures crash { LeavesAsBefore (state S.Store conn.old) (state S.Store conn.new) }
    ensures same { IsServiceReading (state S.Store conn.old) (state S.Store conn.new) }
    ensures fault { IfErr result (λ f. (f ≡ OutOfMemory) ⊎ (f ≡ Store)) }
{
    let rows = status_rows(conn, order)?;
    if rows.is_empty() {
        return Ok(None);
    }
    match status_in_row(&rows[0], 0) {
        Some(status) => Ok(Some(status)),
        None => Err(OutboxFault::Store),
    }
}

/// Whether the outbox accepts the command on an order, after the rows up to `last`.
#[tactic(auto, using(crate::proofs::ServiceLemmas::not_foreign))]
fn decide<S: Alter>(
    conn: &mut Connection<S>,
    last: u64,
    status: Status,
    order: u64,
) -> Result<(), OutboxFault>
    requires order { order < 2 ^ 63 }
    requires last { last ≤ max_sequence }
    ensures accepted { HasCleanDisk (state S.Store conn.new) → OnOk result (
        (source : List ℕ) (base : ℕ) (commands : List Accepted) → last ≡ base + length commands
        → IsService (state S.Store conn.old).now source base commands
        → refusal base commands status order ≡ None) }
    ensures room { OnOk result (last < max_sequence) }
    ensures open { HasCleanDisk (state S.Store conn.new)
        → OnOk result (IsTrue (state S.Store conn.new).is_open) }
    ensures refused { HasCleanDisk (state S.Store conn.new) → IfErr result (λ f.
        f ≢ OutOfMemory → f ≢ Store
        → (source : List ℕ) (base : ℕ) (commands : List Accepted) → last ≡ base + length commands
        → IsService (state S.Store conn.old).now source base commands
        → refusal base commands status order ≡ Some f) }
    ensures fault { IfErr result (λ f. f ≢ Foreign) }
    ensures crash { LeavesAsBefore (state S.Store conn.old) (state S.Store conn.new) }
    ensures same { IsServiceReading (state S.Store conn.old) (state S.Store conn.new) }
{
    let found = status_in(conn, order)?;
    match status.fault_after(found) {
        Some(fault) => return Err(fault),
        None => {}
    }
    if last == MAX_SEQUENCE {
        return Err(OutboxFault::Full);
    }
    Ok(())
}

/// The number of the outbox row behind this one; where there is none, this one.
fn next_number(last: u64) -> u64
    ensures { last < max_sequence → result ≡ suc last }
{
    if last < MAX_SEQUENCE { last + 1 } else { last }
}

impl<S: Alter> Service<S> {
    /// The source of the outbox's events: at least one character, no control character, and at most
    /// 1,024 bytes.
    pub fn source(&self) -> &Text
        ensures source { result.now ≡ self.now.source }
        ensures stands { StandsForService (state S.Store self.now.conn)
            self.now.source self.now.base self.now.last }
    {
        &self.source
    }

    /// The number before that of the outbox's first row, in 0..=2^63-1.
    pub fn base(&self) -> u64
        ensures base { result ≡ self.now.base }
        ensures stands { StandsForService (state S.Store self.now.conn)
            self.now.source self.now.base self.now.last }
    {
        self.base
    }

    /// How many orders the service has, whatever their status. The time is constant.
    pub fn orders(&self) -> u64
        ensures orders { HasCleanDisk (state S.Store self.now.conn)
            → IsTrue (state S.Store self.now.conn).is_open → CountsOrders
            (state S.Store self.now.conn).now self.now.source self.now.base result }
        ensures few { self.now.base + result ≤ self.now.last }
    {
        self.orders
    }

    /// How many rows its outbox has: one for each accepted command. The time is constant.
    pub fn rows(&self) -> u64
        ensures rows { HasCleanDisk (state S.Store self.now.conn)
            → IsTrue (state S.Store self.now.conn).is_open → CountsRows
            (state S.Store self.now.conn).now self.now.source self.now.base result }
        ensures numbers { result ≡ self.now.last - self.now.base }
    {
        self.last - self.base
    }

    /// Gives the outbox's connection back, with its tables as they are.
    pub fn into_connection(self) -> Connection<S>
        ensures { result ≡ self.conn }
    {
        let Service {
            conn,
            source: _,
            base: _,
            last: _,
            orders: _,
            alloc: _,
        } = self;
        conn
    }

    /// The event of the next row, where that is this command's: what [`Service::place`],
    /// [`Service::ship`] or [`Service::cancel`] answers if it is accepted. Nothing is asked of the
    /// database, so it may be refused all the same. For whoever wants the memory of an answer
    /// before anything is written. Where no number is left, and no command accepted, it is the
    /// event of the last number.
    ///
    /// The fault is want of memory or, never in fact, `Store`.
    pub fn next_event(
        &self,
        status: Status,
        order: u64,
        at: &Moment,
    ) -> Result<Sequenced, OutboxFault>
        ensures event { self.now.last < max_sequence → IfOk result (λ e.
            e ≡ row_event self.now.source (suc self.now.last)
            (record { status = status; order = order; at = at.now })) }
        ensures fault { IfErr result (λ f. (f ≡ OutOfMemory) ⊎ (f ≡ Store)) }
    {
        event(
            self.alloc,
            self.source.as_str(),
            next_number(self.last),
            status,
            order,
            at.as_str(),
        )
    }

    /// Decides on a command on an order, makes its event for the outbox, and only then writes.
    fn accept(&mut self, status: Status, order: u64, at: &Moment) -> Result<Sequenced, OutboxFault>
        requires order { IsOrder order }
        requires short { IsShortTime at.now }
        ensures call { CommandCall (record { status = status; order = order; at = at.now })
            self.old self.new result }
        ensures effect { HasCleanDisk (state S.Store self.new.conn) → CommandEffect
            (record { status = status; order = order; at = at.now }) self.old
            (state S.Store self.old.conn) (state S.Store self.new.conn) result }
    {
        // The day tells that the time is one.
        let _day = at.day();
        match decide(&mut self.conn, self.last, status, order) {
            Ok(()) => {}
            Err(fault) => return Err(fault),
        }
        let number = self.last + 1;
        let event = match event(
            self.alloc,
            self.source.as_str(),
            number,
            status,
            order,
            at.as_str(),
        ) {
            Ok(event) => event,
            Err(fault) => return Err(fault),
        };
        match write(&mut self.conn, number, status, order, at.as_str()) {
            Ok(()) => {}
            Err(error) => return Err(OutboxFault::from(error)),
        }
        self.orders = self.orders + status.placed();
        self.last = number;
        Ok(event)
    }

    /// Places an order, and answers the event of its row.
    ///
    /// The fault is `OrderExists`, `Full`, in this order; `Store` or want of
    /// memory may come at any statement. Nothing is then written. One order and one row are
    /// written in one transaction; the time grows with the logarithm of the tables.
    pub fn place(&mut self, order: u64, at: &Moment) -> Result<Sequenced, OutboxFault>
        requires order { IsOrder order }
        requires short { IsShortTime at.now }
        ensures call { CommandCall (record { status = Placed; order = order; at = at.now })
            self.old self.new result }
        ensures effect { HasCleanDisk (state S.Store self.new.conn) → CommandEffect
            (record { status = Placed; order = order; at = at.now }) self.old
            (state S.Store self.old.conn) (state S.Store self.new.conn) result }
    {
        self.accept(Status::Placed, order, at)
    }

    /// Ships an order that was placed, and answers the event of its row.
    ///
    /// The fault is `NoOrder`, `WrongState`, `Full`, in this order; `Store` or want of
    /// memory may come at any statement. Nothing is then written. One order and one row are
    /// written in one transaction; the time grows with the logarithm of the tables.
    pub fn ship(&mut self, order: u64, at: &Moment) -> Result<Sequenced, OutboxFault>
        requires order { IsOrder order }
        requires short { IsShortTime at.now }
        ensures call { CommandCall (record { status = Shipped; order = order; at = at.now })
            self.old self.new result }
        ensures effect { HasCleanDisk (state S.Store self.new.conn) → CommandEffect
            (record { status = Shipped; order = order; at = at.now }) self.old
            (state S.Store self.old.conn) (state S.Store self.new.conn) result }
    {
        self.accept(Status::Shipped, order, at)
    }

    /// Cancels an order that was placed, and answers the event of its row.
    ///
    /// The fault is `NoOrder`, `WrongState`, `Full`, in this order; `Store` or want of
    /// memory may come at any statement. Nothing is then written. One order and one row are
    /// written in one transaction; the time grows with the logarithm of the tables.
    pub fn cancel(&mut self, order: u64, at: &Moment) -> Result<Sequenced, OutboxFault>
        requires order { IsOrder order }
        requires short { IsShortTime at.now }
        ensures call { CommandCall (record { status = Cancelled; order = order; at = at.now })
            self.old self.new result }
        ensures effect { HasCleanDisk (state S.Store self.new.conn) → CommandEffect
            (record { status = Cancelled; order = order; at = at.now }) self.old
            (state S.Store self.old.conn) (state S.Store self.new.conn) result }
    {
        self.accept(Status::Cancelled, order, at)
    }

    /// At most `limit` rows (1 to 100) of the outbox with a greater number than `after`, in order.
    /// The fault is `Store` or want of memory. Time and memory in proportion to those rows, and the
    /// logarithm of all.
    pub fn rows_after(&mut self, after: u64, limit: u64) -> Result<Batch, OutboxFault>
        requires limit { (1 ≤ limit) × (limit ≤ 100) }
        ensures kept { (self.new.source ≡ self.old.source) × (self.new.base ≡ self.old.base)
            × (self.new.last ≡ self.old.last) }
        ensures rows { HasCleanDisk (state S.Store self.new.conn) → IfOk result
            (ShowsAfter self.old.source self.old.base after limit
            (state S.Store self.old.conn).now) }
        ensures open { HasCleanDisk (state S.Store self.new.conn)
            → OnOk result (IsTrue (state S.Store self.old.conn).is_open) }
        ensures stays_open { HasCleanDisk (state S.Store self.new.conn)
            → OnOk result (IsTrue (state S.Store self.new.conn).is_open) }
        ensures settled { HasCleanDisk (state S.Store self.new.conn)
            → OnOk result (IsSettled (state S.Store self.new.conn)) }
        ensures crash { LeavesAsBefore (state S.Store self.old.conn)
            (state S.Store self.new.conn) }
        ensures same { IsServiceReading (state S.Store self.old.conn) (state S.Store self.new.conn) }
        ensures fault { IfErr result (λ f. (f ≡ OutOfMemory) ⊎ (f ≡ Store)) }
    {
        let rows = page(&mut self.conn, after.min(MAX_SEQUENCE), limit)?;
        stored_events(self.alloc, self.source.as_str(), &rows)
    }
}
