//! The statements on the three tables.

ghost use Rattle.std.specs.Prelude.{◌≡◌, ◌<◌, ◌≤◌, ◌^◌, ◌+◌, ◌-◌, ◌⊎◌, ℕ, suc, IfErr, take, drop, pos, List, [], ◌∷◌, IsTrue, OnOk, OnErr, IfOk};
ghost use Rattle.sqlite_value.specs.declared.value.Value.TheVariants.{Int, Text as Words};
ghost use Rattle.sqlite.specs.Effect.{Database};
ghost use Rattle.sqlite.specs.State.{HasCleanDisk, Survives, CommitsShowing, ExecutesInside, Shown, FailsToQuery};
ghost use Rattle.sqlite.specs.Held.{state};
ghost use Rattle.outbox.specs.Order.{Accepted};
ghost use Rattle.outbox.specs.Service.{IsService};
ghost use Rattle.outbox.specs.Call.{IsServiceReading, LeavesAsBefore, OpenThroughout};
ghost use Rattle.outbox.specs.steps.Change.{AddsCommand, MayAdd, TellsStatus, stored_rows};
ghost use Rattle.outbox.specs.steps.Rest.{CommitsIfDone, HasCommitted};
ghost use Rattle.outbox.specs.steps.Statement.{note_text, append_text, page_text, status_text};
ghost use Rattle.outbox.specs.declared.fault.OutboxFault.TheVariants.{OutOfMemory, Store};
ghost use Rattle.database_layout.specs.States.{WasOpen};

use crate::fault::OutboxFault;
use crate::status::Status;
use sqlite::{Alter, Connection, Error, ErrorCode, Row, Transaction, params};

/// A number below 2^63, of an order or an outbox row, as SQL has it.
pub(crate) fn signed(n: u64) -> i64
    requires { n < 2 ^ 63 }
    ensures { result ≡ pos n }
{
    n as i64
}

/// INSERT OR REPLACE INTO orders: the row of an order and its status.
fn note<S: Alter>(tx: &mut Transaction<'_, S>, order: i64, status: i64) -> Result<usize, Error>
    ensures same_reference { tx.new.conn.ghost_name ≡ tx.old.conn.ghost_name }
    ensures runs { HasCleanDisk (state S.Store tx.new.conn.now)
        → IsTrue (state S.Store tx.old.conn.now).in_transaction
        → ExecutesInside 0 note_text (Int order ∷ Int status ∷ [])
        (state S.Store tx.old.conn.now) (state S.Store tx.new.conn.now) result }
    ensures survives { Survives
        (state S.Store tx.old.conn.now) (state S.Store tx.new.conn.now) (λ _. ⊥) }
{
    tx.execute(
        "INSERT OR REPLACE INTO orders (number, state) VALUES (?1, ?2)",
        params![order, status],
    )
}

/// INSERT INTO outbox: the row of a command on an order.
fn append<S: Alter>(
    tx: &mut Transaction<'_, S>,
    number: i64,
    kind: i64,
    order: i64,
    at: &str,
) -> Result<usize, Error>
    ensures same_reference { tx.new.conn.ghost_name ≡ tx.old.conn.ghost_name }
    ensures runs { HasCleanDisk (state S.Store tx.new.conn.now)
        → IsTrue (state S.Store tx.old.conn.now).in_transaction
        → ExecutesInside 0 append_text (Int number ∷ Int kind ∷ Int order ∷ Words at.now ∷ [])
        (state S.Store tx.old.conn.now) (state S.Store tx.new.conn.now) result }
    ensures survives { Survives
        (state S.Store tx.old.conn.now) (state S.Store tx.new.conn.now) (λ _. ⊥) }
{
    tx.execute(
        "INSERT INTO outbox (number, kind, order_number, at) VALUES (?1, ?2, ?3, ?4)",
        params![number, kind, order, at],
    )
}

/// Writes the order and its outbox row in one transaction.
pub(crate) fn write<S: Alter>(
    conn: &mut Connection<S>,
    number: u64,
    status: Status,
    order: u64,
    at: &str,
) -> Result<(), Error>
    requires number { number < 2 ^ 63 }
    requires order { order < 2 ^ 63 }
    ensures added { HasCleanDisk (state S.Store conn.new)
        → OnOk result (AddsCommand number (record { status = status; order = order; at = at.now })
        (state S.Store conn.old).now (state S.Store conn.new).now) }
    ensures same { HasCleanDisk (state S.Store conn.new) → IsTrue (state S.Store conn.new).is_open
        → OnErr result (((state S.Store conn.new).now ≡ (state S.Store conn.old).now)
        × ((state S.Store conn.new).committed ≡ (state S.Store conn.old).committed)) }
    ensures was_open { WasOpen (state S.Store conn.old) (state S.Store conn.new) }
    ensures committed { HasCleanDisk (state S.Store conn.new)
        → OnOk result ((state S.Store conn.new).committed ≡ (state S.Store conn.new).now) }
    ensures stays { HasCleanDisk (state S.Store conn.new) → OnOk result
        (IsTrue (state S.Store conn.new).is_open × IsTrue (state S.Store conn.old).is_open) }
    ensures crash { Survives (state S.Store conn.old) (state S.Store conn.new)
        (MayAdd number (record { status = status; order = order; at = at.now })
        (state S.Store conn.old)) }
{
    if !conn.is_autocommit() {
        return Err(Error::SqliteFailure(ErrorCode::TransactionState));
    }
    let mut tx = conn.transaction();
    note(&mut tx, signed(order), status.code())?;
    append(&mut tx, signed(number), status.code(), signed(order), at)?;
    tx.commit()
}

/// The status of an order, asked of the outbox's tables.
fn status_asked<S: Alter>(conn: &mut Connection<S>, order: i64) -> Result<Vec<Row>, Error>
    ensures ok { HasCleanDisk (state S.Store conn.new) → IfOk result (λ rows.
        Shown status_text (Int order ∷ []) (state S.Store conn.old) (state S.Store conn.new)
        rows.items) }
    ensures err { HasCleanDisk (state S.Store conn.new) → IfErr result (FailsToQuery
        status_text (Int order ∷ []) (state S.Store conn.old) (state S.Store conn.new)) }
    ensures survives { Survives (state S.Store conn.old) (state S.Store conn.new)
        (CommitsShowing status_text (Int order ∷ []) (state S.Store conn.old)) }
{
    conn.query_all("SELECT state FROM orders WHERE number = ?1", params![order])
}

/// A page of the outbox's rows, asked.
fn page_asked<S: Alter>(conn: &mut Connection<S>, after: i64, limit: i64) -> Result<Vec<Row>, Error>
    ensures ok { HasCleanDisk (state S.Store conn.new) → IfOk result (λ rows.
        Shown page_text (Int after ∷ Int limit ∷ []) (state S.Store conn.old)
        (state S.Store conn.new) rows.items) }
    ensures err { HasCleanDisk (state S.Store conn.new) → IfErr result (FailsToQuery
        page_text (Int after ∷ Int limit ∷ []) (state S.Store conn.old)
        (state S.Store conn.new)) }
    ensures survives { Survives (state S.Store conn.old) (state S.Store conn.new)
        (CommitsShowing page_text (Int after ∷ Int limit ∷ []) (state S.Store conn.old)) }
{
    conn.query_all(
        "SELECT number, kind, order_number, at FROM outbox WHERE number > ?1 ORDER BY number LIMIT ?2",
        params![after, limit],
    )
}

/// The rows of the outbox's `orders` with that number.
pub(crate) fn status_rows<S: Alter>(
    conn: &mut Connection<S>,
    order: u64,
) -> Result<Vec<Row>, OutboxFault>
    requires { order < 2 ^ 63 }
    ensures tells { HasCleanDisk (state S.Store conn.new) → IfOk result (λ rows.
        (source : List ℕ) (base : ℕ) (commands : List Accepted)
        → IsService (state S.Store conn.old).now source base commands
        → TellsStatus commands order rows.items) }
    ensures open { HasCleanDisk (state S.Store conn.new)
        → OnOk result (IsTrue (state S.Store conn.new).is_open) }
    ensures crash { LeavesAsBefore (state S.Store conn.old) (state S.Store conn.new) }
    ensures same { IsServiceReading (state S.Store conn.old) (state S.Store conn.new) }
    ensures fault { IfErr result (λ f. (f ≡ OutOfMemory) ⊎ (f ≡ Store)) }
{
    if !conn.is_autocommit() {
        return Err(OutboxFault::Store);
    }
    Ok(status_asked(conn, signed(order))?)
}

/// At most so many rows of `outbox` with a greater number, in order.
pub(crate) fn page<S: Alter>(
    conn: &mut Connection<S>,
    after: u64,
    limit: u64,
) -> Result<Vec<Row>, OutboxFault>
    requires after { after < 2 ^ 63 }
    requires limit { limit < 2 ^ 63 }
    ensures rows { HasCleanDisk (state S.Store conn.new) → IfOk result (λ rows.
        (source : List ℕ) (base : ℕ) (commands : List Accepted)
        → IsService (state S.Store conn.old).now source base commands
        → rows.items ≡ take limit
        (stored_rows (suc base + (after - base)) (drop (after - base) commands))) }
    ensures open { OpenThroughout (state S.Store conn.old) (state S.Store conn.new) result }
    ensures settled { CommitsIfDone (state S.Store conn.old) (state S.Store conn.new) result }
    ensures crash { LeavesAsBefore (state S.Store conn.old) (state S.Store conn.new) }
    ensures same { IsServiceReading (state S.Store conn.old) (state S.Store conn.new) }
    ensures fault { IfErr result (λ f. (f ≡ OutOfMemory) ⊎ (f ≡ Store)) }
{
    if !conn.is_autocommit() {
        return Err(OutboxFault::Store);
    }
    Ok(page_asked(conn, signed(after), signed(limit))?)
}
