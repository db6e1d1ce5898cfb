//! A service of the tables that a database has.

ghost use Rattle.std.specs.Prelude.{◌≡◌, ◌⊎◌, IsTrue, false, true, [], ◌∷◌, ◌+◌, ◌≤◌, ◌≢◌, ◌↔◌, ℕ, suc, List, None, Err, length, IfOk, IfErr, IfSome, IfNone, OnOk};
ghost use Rattle.std.specs.BTreeMap.{get};
ghost use Rattle.std.specs.Result.{IsErrAnd};
ghost use Rattle.std.specs.Ordering.{nat_cmp};
ghost use Rattle.sqlite.specs.Given.{IsPlain};
ghost use Rattle.sqlite.specs.Listing.{understood};
ghost use Rattle.sqlite.specs.State.{HasCleanDisk, IsLive, Shown};
ghost use Rattle.sqlite.specs.Held.{state};
ghost use Rattle.attributes.specs.Character.{is_filled};
ghost use Rattle.attributes.specs.Sequence.{max_sequence};
ghost use Rattle.attributes.specs.Time.{time_day};
ghost use Rattle.outbox.specs.Order.{Accepted, AreAccepted, IsCommand, status_of};
ghost use Rattle.database_layout.specs.Layout.{HasService, lacks_name, schema_in as whole_schema};
ghost use Rattle.outbox.specs.Shown.{CountsOrders, HasNoOther, IsAllowed, IsNoService, StandsWithRows, StandsForService, max_source};
ghost use Rattle.outbox.specs.Call.{IsServiceReading, IsSettled, Leaves, LeavesAsBefore, OpenThroughout};
ghost use Rattle.outbox.specs.steps.Change.{ShowOrders, stored_row, stored_rows, shown_service};
ghost use Rattle.outbox.specs.steps.Rest.{CommitsIfDone, HasCommitted};
ghost use Rattle.outbox.specs.steps.Replay.{IsReplay};
ghost use Rattle.outbox.specs.declared.fault.OutboxFault.TheVariants.{OutOfMemory, Store, Foreign};
ghost use Rattle.outbox.specs.Layout.{IsOthers, ServiceLayout, schema_in_layout};
ghost use Rattle.database_layout.specs.States.{ShowsCommitIfDone};

use crate::fault::OutboxFault;
use crate::service::{NotMade, Service};
use crate::status::Status;
use crate::stored::{Stored, order_in, read_row, source_in};
use attributes::{Fault, MAX_SEQUENCE, Moment, Text};
use database_layout::{Layout, lacks_name};
use sqlite::{Alter, Connection, Row};
use std::alloc::Global;
use std::collections::BTreeMap;

/// The status of each order, how many there are, and the number of the last row.
#[derive(Drop)]
pub(crate) struct Replayed {
    pub(crate) statuses: BTreeMap<u64, Status>,
    pub(crate) orders: u64,
    pub(crate) last: u64,
}

/// Whether it is a time of at most 64 bytes, as a command on an order of the outbox has.
fn is_time(alloc: Global, text: &str) -> Result<bool, OutboxFault>
    ensures time { IfOk result (λ b.
        IsTrue b ↔ ((time_day text.now ≢ None) × (length text.now ≤ 64))) }
    ensures fault { IfErr result (λ f. f ≡ OutOfMemory) }
{
    if text.len() > 64 {
        return Ok(false);
    }
    match Moment::of_text(alloc, text) {
        Ok(_) => Ok(true),
        Err(Fault::OutOfMemory) => Err(OutboxFault::OutOfMemory),
        Err(_) => Ok(false),
    }
}

/// The command on an order in an outbox row of this number, where a call can have left the row so.
fn command_in(alloc: Global, row: &Row, number: u64) -> Result<Option<Stored<'_>>, OutboxFault>
    ensures row { IfOk result (λ o. IfSome o (λ s. row.now ≡ stored_row number
        (record { status = s.status; order = s.order; at = s.at.now }))) }
    ensures command { IfOk result (λ o. IfSome o (λ s. IsCommand
        (record { status = s.status; order = s.order; at = s.at.now }))) }
    ensures none { IfOk result (λ o. IfNone o ((c : Accepted) → IsCommand c
        → row.now ≢ stored_row number c)) }
    ensures fault { IfErr result (λ f. f ≡ OutOfMemory) }
{
    let Some(stored) = read_row(row) else {
        return Ok(None);
    };
    if stored.number != number || stored.order == 0 || stored.order > MAX_SEQUENCE {
        return Ok(None);
    }
    if is_time(alloc, stored.at)? {
        Ok(Some(stored))
    } else {
        Ok(None)
    }
}

/// The status that a service's order has so far, as its outbox is replayed.
fn status_at(statuses: &BTreeMap<u64, Status>, order: u64) -> Option<Status>
    ensures { result ≡ get nat_cmp statuses.now order }
{
    match statuses.get(&order) {
        Some(status) => Some(*status),
        None => None,
    }
}

/// The commands of these outbox rows, where each is accepted after those before it; else none.
#[tactic(auto, using(crate::proofs::ReplayLemmas::replay_on, crate::proofs::ReplayLemmas::replay_all))]
pub(crate) fn replay(
    alloc: Global,
    base: u64,
    rows: &[Row],
) -> Result<Option<Replayed>, OutboxFault>
    requires { base ≤ max_sequence }
    ensures replay { IfOk result (λ o. IfSome o (IsReplay base rows.now)) }
    ensures range { IfOk result (λ o. IfSome o (λ r. (base + r.orders ≤ r.last)
        × (r.last ≤ max_sequence))) }
    ensures none { IfOk result (λ o. IfNone o ((commands : List Accepted)
        → AreAccepted base [] commands → rows.now ≢ stored_rows (suc base) commands)) }
    ensures fault { IfErr result (λ f. f ≡ OutOfMemory) }
{
    let mut statuses = BTreeMap::new(alloc);
    let mut orders = 0u64;
    let mut last = base;
    for row in rows {
        if last == MAX_SEQUENCE {
            return Ok(None);
        }
        let Some(stored) = command_in(alloc, row, last + 1)? else {
            return Ok(None);
        };
        match stored
            .status
            .fault_after(status_at(&statuses, stored.order))
        {
            Some(_) => return Ok(None),
            None => {}
        }
        match statuses.insert(stored.order, stored.status) {
            Ok(_) => {}
            Err(_) => return Err(OutboxFault::OutOfMemory),
        }
        orders = orders + stored.status.placed();
        last = last + 1;
    }
    Ok(Some(Replayed {
        statuses,
        orders,
        last,
    }))
}

/// Whether the rows of `orders` are just those of the orders and their statuses.
pub(crate) fn are_orders(rows: &[Row], statuses: BTreeMap<u64, Status>) -> Result<bool, OutboxFault>
    ensures orders { IfOk result (λ b. (commands : List Accepted)
        → ((order : ℕ) → get nat_cmp statuses order ≡ status_of commands order)
        → IsTrue b ↔ ShowOrders rows.now commands) }
    ensures fault { IfErr result (λ f. f ≡ OutOfMemory) }
{
    let mut left = statuses.clone()?;
    for row in rows {
        let Some((order, status)) = order_in(row) else {
            return Ok(false);
        };
        match status_at(&statuses, order) {
            Some(found) => {
                if found != status {
                    return Ok(false);
                }
            }
            None => return Ok(false),
        }
        let _found = left.remove(&order);
    }
    Ok(left.is_empty())
}

/// What the tables say of a service.
#[derive(Drop)]
pub(crate) struct Found {
    pub(crate) source: Text,
    pub(crate) base: u64,
    pub(crate) last: u64,
    pub(crate) orders: u64,
}

/// The source and base in the one row of an outbox's `service`, where a call can have left them so.
fn service_in(alloc: Global, rows: &[Row]) -> Result<Option<(Text, u64)>, OutboxFault>
    ensures row { IfOk result (λ o. IfSome o (λ p. rows.now ≡ shown_service p.0 p.1 ∷ [])) }
    ensures range { IfOk result (λ o. IfSome o (λ p. IsAllowed p.0 p.1)) }
    ensures none { IfOk result (λ o. IfNone o ((source : List ℕ) (base : ℕ)
        → IsAllowed source base → rows.now ≢ shown_service source base ∷ [])) }
    ensures fault { IfErr result (λ f. f ≡ OutOfMemory) }
{
    if rows.len() != 1 {
        return Ok(None);
    }
    let Some((source, base)) = source_in(&rows[0]) else {
        return Ok(None);
    };
    if base > MAX_SEQUENCE || source.len() > 1024 {
        return Ok(None);
    }
    let source = Text::of(alloc, source)?;
    if source.is_source() {
        Ok(Some((source, base)))
    } else {
        Ok(None)
    }
}

/// The rows that a question with no parameter to the outbox's tables shows.
fn all_of<S: Alter>(conn: &mut Connection<S>, sql: &str) -> Result<Vec<Row>, OutboxFault>
    requires plain { (layout : ServiceLayout) → IsPlain (understood (schema_in_layout layout) sql.now) }
    ensures shown { HasCleanDisk (state S.Store conn.new) → IfOk result (λ rows.
        Shown sql.now [] (state S.Store conn.old) (state S.Store conn.new) rows.items) }
    ensures crash { LeavesAsBefore (state S.Store conn.old) (state S.Store conn.new) }
    ensures same { IsServiceReading (state S.Store conn.old) (state S.Store conn.new) }
    ensures live { IsLive (state S.Store conn.old) }
    ensures open { OpenThroughout (state S.Store conn.old) (state S.Store conn.new) result }
    ensures settled { CommitsIfDone (state S.Store conn.old) (state S.Store conn.new) result }
    ensures fault { IfErr result (λ f. (f ≡ OutOfMemory) ⊎ (f ≡ Store)) }
{
    let _schema = conn.schema();
    if !conn.is_autocommit() {
        return Err(OutboxFault::Store);
    }
    Ok(conn.query_all(sql, &[])?)
}

/// What an outbox's tables say, where they are those of a service.
pub(crate) fn found_in<S: Alter>(
    alloc: Global,
    conn: &mut Connection<S>,
    layout: Layout,
) -> Result<Option<Found>, OutboxFault>
    requires there { HasService layout }
    requires schema { (state S.Store conn.old).now.schema ≡ whole_schema layout }
    ensures stands { HasCleanDisk (state S.Store conn.new) → IfOk result (λ o. IfSome o (λ f.
        IsTrue (state S.Store conn.new).is_open
        → StandsWithRows (state S.Store conn.new).now f.source f.base f.last)) }
    ensures counts { HasCleanDisk (state S.Store conn.new) → IfOk result (λ o. IfSome o (λ f.
        IsTrue (state S.Store conn.new).is_open
        → CountsOrders (state S.Store conn.new).now f.source f.base f.orders)) }
    ensures range { IfOk result (λ o. IfSome o (λ f. (is_filled f.source ≡ true)
        × (length f.source ≤ max_source) × (f.base + f.orders ≤ f.last)
        × (f.last ≤ max_sequence))) }
    ensures none { HasCleanDisk (state S.Store conn.new) → IfOk result (λ o.
        IfNone o (IsNoService (state S.Store conn.old).now)) }
    ensures exact { HasCleanDisk (state S.Store conn.new) → IfOk result (λ o. IfSome o (λ f.
        HasNoOther (state S.Store conn.old).now f.source f.base)) }
    ensures open { HasCleanDisk (state S.Store conn.new)
        → IfOk result (λ o. IfSome o (λ _. IsTrue (state S.Store conn.new).is_open)) }
    ensures settled { HasCleanDisk (state S.Store conn.new) → IfOk result (λ o. IfSome o (λ _.
        (state S.Store conn.new).now ≡ (state S.Store conn.new).committed)) }
    ensures left { Leaves (state S.Store conn.old) (state S.Store conn.new) }
    ensures fault { IfErr result (λ f. (f ≡ OutOfMemory) ⊎ (f ≡ Store)) }
{
    let services = all_of(conn, "SELECT one, source, base FROM service ORDER BY one")?;
    let Some((source, base)) = service_in(alloc, &services)? else {
        return Ok(None);
    };
    let rows = all_of(
        conn,
        "SELECT number, kind, order_number, at FROM outbox ORDER BY number",
    )?;
    let Some(replayed) = replay(alloc, base, &rows)? else {
        return Ok(None);
    };
    let orders = all_of(conn, "SELECT number, state FROM orders ORDER BY number")?;
    let Replayed {
        statuses,
        orders: count,
        last,
    } = replayed;
    if are_orders(&orders, statuses)? {
        Ok(Some(Found {
            source,
            base,
            last,
            orders: count,
        }))
    } else {
        Ok(None)
    }
}

/// What the schema and an outbox's tables say, where they are those of a service. `Foreign` where a
/// table is missing or the rows are others, `Store` where the file has other tables.
fn read<S: Alter>(alloc: Global, conn: &mut Connection<S>) -> Result<Found, OutboxFault>
    ensures stands { HasCleanDisk (state S.Store conn.new) → IfOk result (λ f.
        IsTrue (state S.Store conn.new).is_open
        → StandsWithRows (state S.Store conn.new).now f.source f.base f.last) }
    ensures counts { HasCleanDisk (state S.Store conn.new) → IfOk result (λ f.
        IsTrue (state S.Store conn.new).is_open
        → CountsOrders (state S.Store conn.new).now f.source f.base f.orders) }
    ensures range { IfOk result (λ f. (is_filled f.source ≡ true)
        × (length f.source ≤ max_source) × (f.base + f.orders ≤ f.last)
        × (f.last ≤ max_sequence)) }
    ensures left { Leaves (state S.Store conn.old) (state S.Store conn.new) }
    ensures foreign { HasCleanDisk (state S.Store conn.new) → IfErr result (λ f.
        f ≡ Foreign → IsNoService (state S.Store conn.old).now) }
    ensures exact { HasCleanDisk (state S.Store conn.new)
        → IfOk result (λ f. HasNoOther (state S.Store conn.old).now f.source f.base) }
    ensures open { HasCleanDisk (state S.Store conn.new)
        → OnOk result (IsTrue (state S.Store conn.new).is_open) }
    ensures settled { ShowsCommitIfDone (state S.Store conn.new) result }
    ensures missing { lacks_name (state S.Store conn.old).now.schema ≡ true → result ≡ Err Foreign }
    ensures strange { lacks_name (state S.Store conn.old).now.schema ≡ false
        → IsOthers (state S.Store conn.old).now.schema → result ≢ Err Foreign }
    ensures fault { IfErr result (λ f. (f ≡ OutOfMemory) ⊎ ((f ≡ Store) ⊎ (f ≡ Foreign))) }
{
    if lacks_name(conn.schema()) {
        return Err(OutboxFault::Foreign);
    }
    let Some(layout) = Layout::of(conn.schema()) else {
        return Err(OutboxFault::Store);
    };
    if !layout.has_service() {
        return Err(OutboxFault::Store);
    }
    match found_in(alloc, conn, layout) {
        Ok(Some(found)) => Ok(found),
        Ok(None) => Err(OutboxFault::Foreign),
        Err(fault) => Err(fault),
    }
}

impl<S: Alter + Drop> Service<S> {
    /// The service whose tables the database has: its commands are those of the rows.
    ///
    /// The fault is `Foreign` where one of the three tables is missing or the rows aren't those
    /// that the calls of a service leave, `Store` where the database stands inside a transaction or
    /// has tables beside them that aren't an inbox's, or want of memory; the connection comes back.
    /// Reads all rows once; time and memory in proportion to them.
    pub fn adopt(alloc: Global, conn: Connection<S>) -> Result<Service<S>, NotMade<S>>
        ensures stands { IfOk result (λ s.
            StandsForService (state S.Store s.conn) s.source s.base s.last) }
        ensures left { IfOk result (λ s. Leaves (state S.Store conn) (state S.Store s.conn)) }
        ensures back { IfErr result (λ e. Leaves (state S.Store conn) (state S.Store e.conn)) }
        ensures foreign { IfErr result (λ e. HasCleanDisk (state S.Store e.conn)
            → e.fault ≡ Foreign → IsNoService (state S.Store conn).now) }
        ensures exact { IfOk result (λ s. HasCleanDisk (state S.Store s.conn)
            → HasNoOther (state S.Store conn).now s.source s.base) }
        ensures open { IfOk result (λ s. HasCleanDisk (state S.Store s.conn)
            → IsTrue (state S.Store s.conn).is_open) }
        ensures settled { IfOk result (λ s. HasCleanDisk (state S.Store s.conn)
            → IsSettled (state S.Store s.conn)) }

        // A table that is missing is found before any memory is asked for.
        ensures missing { lacks_name (state S.Store conn).now.schema ≡ true
            → IsErrAnd result (λ e. e.fault ≡ Foreign) }

        // Where all three are there and the tables aren't ours alone, it is `Store`.
        ensures strange { lacks_name (state S.Store conn).now.schema ≡ false
            → IsOthers (state S.Store conn).now.schema → IfErr result (λ e. e.fault ≢ Foreign) }
        ensures fault { IfErr result (λ e.
            (e.fault ≡ OutOfMemory) ⊎ ((e.fault ≡ Store) ⊎ (e.fault ≡ Foreign))) }
    {
        let mut conn = conn;
        match read(alloc, &mut conn) {
            Ok(found) => {
                let Found {
                    source,
                    base,
                    last,
                    orders,
                } = found;
                Ok(Service {
                    conn,
                    source,
                    base,
                    last,
                    orders,
                    alloc,
                })
            }
            Err(fault) => Err(NotMade { conn, fault }),
        }
    }
}
