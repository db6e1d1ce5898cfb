//! The statements on the table.

ghost use Rattle.std.specs.Prelude.{◌≡◌, ◌<◌, ◌≤◌, ◌+◌, ◌^◌, ◌%◌, ◌-◌, ◌++◌, pos, [], ◌∷◌, length, take, drop, IsTrue, IfOk, IfErr, OnOk, OnErr, if◌then◌else◌};
ghost use Rattle.sqlite_value.specs.declared.value.Value.TheVariants.{Int, Text as Words};
ghost use Rattle.sqlite.specs.Held.{state};
ghost use Rattle.sqlite.specs.Values.{bound};
ghost use Rattle.inbox_table.specs.Rows.{AreNumbered, IsNumbered};
ghost use Rattle.sqlite.specs.State.{HasCleanDisk, Survives, ExecutesInside};
ghost use Rattle.inbox_table.specs.Calls.{IsTold, KeepEffect, MayTake, Stands};
ghost use Rattle.inbox_table.specs.Fault.{IsOfStore};
ghost use Rattle.inbox_table.specs.Texts.{insert_new_text, insert_text};
ghost use Rattle.inbox_table.specs.steps.Turns.{IsKeeping, Puts, PutsGroup, PutsNew, RunsGroup, params_from, params_of};
ghost use Rattle.database_layout.specs.States.{KeepsCommitIfRefused};

use crate::fault::TableFault;
use crate::listed::Listed;
use crate::wanted::block_of;
use crate::watch::Watch;
use attributes::Sequenced;
use sqlite::{Alter, Connection, Error, ErrorCode, Transaction, params};
use sqlite_value::value::ValueRef;
use std::alloc::Global;

/// The number as SQL has it in a row of the inbox's table.
pub(crate) fn signed(number: u64) -> i64
    requires { number < 2 ^ 63 }
    ensures { result ≡ pos number }
{
    number as i64
}

/// Runs the INSERT into the inbox's table with these values.
fn insert<S: Alter>(
    tx: &mut Transaction<'_, S>,
    place: i64,
    source: &str,
    id: &str,
    number: i64,
    body: &str,
    block: i64,
) -> Result<usize, Error>
    ensures same_reference { tx.new.conn.ghost_name ≡ tx.old.conn.ghost_name }
    ensures runs { HasCleanDisk (state S.Store tx.new.conn.now)
        → IsTrue (state S.Store tx.old.conn.now).in_transaction
        → ExecutesInside 0 insert_text (Int place ∷ Words source.now ∷ Words id.now
        ∷ Int number ∷ Words body.now ∷ Int block ∷ [])
        (state S.Store tx.old.conn.now) (state S.Store tx.new.conn.now) result }
    ensures survives { Survives
        (state S.Store tx.old.conn.now) (state S.Store tx.new.conn.now) (λ _. ⊥) }
{
    tx.execute(
        "INSERT INTO inbox2 (place, source, id, number, body, block) VALUES (?1, ?2, ?3, ?4, ?5, ?6) ON CONFLICT DO NOTHING",
        params![place, source, id, number, body, block],
    )
}

/// Runs the INSERT of an event that is new to the inbox's table, with these values.
fn insert_new<S: Alter>(
    tx: &mut Transaction<'_, S>,
    place: i64,
    source: &str,
    id: &str,
    number: i64,
    body: &str,
    block: i64,
) -> Result<usize, Error>
    ensures same_reference { tx.new.conn.ghost_name ≡ tx.old.conn.ghost_name }
    ensures runs { HasCleanDisk (state S.Store tx.new.conn.now)
        → IsTrue (state S.Store tx.old.conn.now).in_transaction
        → ExecutesInside 0 insert_new_text (Int place ∷ Words source.now ∷ Words id.now
        ∷ Int number ∷ Words body.now ∷ Int block ∷ [])
        (state S.Store tx.old.conn.now) (state S.Store tx.new.conn.now) result }
    ensures survives { Survives
        (state S.Store tx.old.conn.now) (state S.Store tx.new.conn.now) (λ _. ⊥) }
{
    tx.execute(
        "INSERT INTO inbox2 (place, source, id, number, body, block) VALUES (?1, ?2, ?3, ?4, ?5, ?6)",
        params![place, source, id, number, body, block],
    )
}

/// Puts the event into the inbox's table at the place behind the last, as one that isn't there;
/// answers whether it is in. Where it isn't, it was there, and the transaction is as it was.
fn put_new<S: Alter>(
    tx: &mut Transaction<'_, S>,
    place: u64,
    event: &Sequenced,
) -> Result<bool, Error>
    requires { place < 2 ^ 63 }
    ensures same_reference { tx.new.conn.ghost_name ≡ tx.old.conn.ghost_name }
    ensures put { HasCleanDisk (state S.Store tx.new.conn.now)
        → IsTrue (state S.Store tx.old.conn.now).in_transaction
        → IfOk result (PutsNew place event.now
        (state S.Store tx.old.conn.now) (state S.Store tx.new.conn.now)) }
    ensures failed { KeepsCommitIfRefused (state S.Store tx.old.conn.now)
        (state S.Store tx.new.conn.now) result }
    ensures survives { Survives
        (state S.Store tx.old.conn.now) (state S.Store tx.new.conn.now) (λ _. ⊥) }
{
    let number = event.number().number();
    let event = event.event();
    match insert_new(
        tx,
        signed(place),
        event.source(),
        event.id(),
        signed(number),
        event.text(),
        signed(block_of(number)),
    ) {
        Ok(_) => Ok(true),
        Err(Error::SqliteFailure(ErrorCode::ConstraintViolation(_))) => Ok(false),
        Err(error) => Err(error),
    }
}

/// Puts the event into the inbox's table at the place, unless there; answers whether it was not.
fn put_unless_there<S: Alter>(
    tx: &mut Transaction<'_, S>,
    place: u64,
    event: &Sequenced,
) -> Result<bool, Error>
    requires { place < 2 ^ 63 }
    ensures same_reference { tx.new.conn.ghost_name ≡ tx.old.conn.ghost_name }
    ensures put { HasCleanDisk (state S.Store tx.new.conn.now)
        → IsTrue (state S.Store tx.old.conn.now).in_transaction
        → IfOk result (Puts place event.now
        (state S.Store tx.old.conn.now) (state S.Store tx.new.conn.now)) }
    ensures failed { KeepsCommitIfRefused (state S.Store tx.old.conn.now)
        (state S.Store tx.new.conn.now) result }
    ensures survives { Survives
        (state S.Store tx.old.conn.now) (state S.Store tx.new.conn.now) (λ _. ⊥) }
{
    let number = event.number().number();
    let event = event.event();
    let count = insert(
        tx,
        signed(place),
        event.source(),
        event.id(),
        signed(number),
        event.text(),
        signed(block_of(number)),
    )?;
    Ok(count > 0)
}

/// Puts the event into the inbox's table at the place, unless there; answers whether it was not.
/// By a guess that it is new, the quicker statement for such an event comes first.
fn put<S: Alter>(
    tx: &mut Transaction<'_, S>,
    place: u64,
    event: &Sequenced,
    seems_new: bool,
) -> Result<bool, Error>
    requires { place < 2 ^ 63 }
    ensures same_reference { tx.new.conn.ghost_name ≡ tx.old.conn.ghost_name }
    ensures put { HasCleanDisk (state S.Store tx.new.conn.now)
        → IsTrue (state S.Store tx.old.conn.now).in_transaction
        → IfOk result (Puts place event.now
        (state S.Store tx.old.conn.now) (state S.Store tx.new.conn.now)) }
    ensures failed { KeepsCommitIfRefused (state S.Store tx.old.conn.now)
        (state S.Store tx.new.conn.now) result }
    ensures survives { Survives
        (state S.Store tx.old.conn.now) (state S.Store tx.new.conn.now) (λ _. ⊥) }
{
    if !seems_new {
        return put_unless_there(tx, place, event);
    }
    if put_new(tx, place, event)? {
        return Ok(true);
    }
    put_unless_there(tx, place, event)
}

/// How many events one INSERT puts in.
pub(crate) const GROUP: u64 = 8;

/// Adds the values by which an event is put into the inbox's table at a place.
pub(crate) fn push_values<'a>(
    values: &mut Vec<ValueRef<'a>>,
    place: u64,
    event: &'a Sequenced,
) -> Result<(), Error>
    requires { place < 2 ^ 63 }
    ensures values { OnOk result (bound values.new.items ≡ bound values.old.items ++ params_of place event.now) }
    ensures numbered { IsNumbered event.now }
{
    let number = event.number().number();
    let event = event.event();
    values.extend_from_slice(&[
        ValueRef::Int(signed(place)),
        ValueRef::Text(event.source().as_bytes()),
        ValueRef::Text(event.id().as_bytes()),
        ValueRef::Int(signed(number)),
        ValueRef::Text(event.text().as_bytes()),
        ValueRef::Int(signed(block_of(number))),
    ])?;
    Ok(())
}

/// The values by which eight of the events, from this one on, are put into the inbox's table at the
/// places from this one on.
fn values_of<'a, E: Listed>(
    alloc: Global,
    place: u64,
    events: &'a E,
    from: u64,
) -> Result<Vec<ValueRef<'a>>, Error>
    requires within { from + 8 ≤ length (E.listed events.now) }
    requires small { from + 8 < 2 ^ 64 }
    requires short { place + 8 ≤ 2 ^ 63 }
    ensures values { IfOk result (λ v. bound v.items
        ≡ params_from place (take 8 (drop from (E.listed events.now)))) }
    ensures numbered { OnOk result (AreNumbered (take 8 (drop from (E.listed events.now)))) }
{
    let mut values = Vec::new(alloc);
    for i in 0..GROUP {
        push_values(&mut values, place + i, events.lent(from + i))?;
    }
    Ok(values)
}

/// Runs the INSERT of eight events that are new to the inbox's table, with their values; answers
/// whether they are in. Where they aren't, one of them was there or came twice, and the transaction
/// is as it was.
pub(crate) fn insert_group<S: Alter>(
    tx: &mut Transaction<'_, S>,
    values: &[ValueRef<'_>],
) -> Result<bool, Error>
    ensures same_reference { tx.new.conn.ghost_name ≡ tx.old.conn.ghost_name }
    ensures runs { HasCleanDisk (state S.Store tx.new.conn.now)
        → IsTrue (state S.Store tx.old.conn.now).in_transaction
        → IfOk result (RunsGroup (bound values.now)
        (state S.Store tx.old.conn.now) (state S.Store tx.new.conn.now)) }
    ensures failed { KeepsCommitIfRefused (state S.Store tx.old.conn.now)
        (state S.Store tx.new.conn.now) result }
    ensures survives { Survives
        (state S.Store tx.old.conn.now) (state S.Store tx.new.conn.now) (λ _. ⊥) }
{
    match tx.execute(
        "INSERT INTO inbox2 (place, source, id, number, body, block) VALUES (?1, ?2, ?3, ?4, ?5, ?6), (?7, ?8, ?9, ?10, ?11, ?12), (?13, ?14, ?15, ?16, ?17, ?18), (?19, ?20, ?21, ?22, ?23, ?24), (?25, ?26, ?27, ?28, ?29, ?30), (?31, ?32, ?33, ?34, ?35, ?36), (?37, ?38, ?39, ?40, ?41, ?42), (?43, ?44, ?45, ?46, ?47, ?48)",
        values,
    ) {
        Ok(_) => Ok(true),
        Err(Error::SqliteFailure(ErrorCode::ConstraintViolation(_))) => Ok(false),
        Err(error) => Err(error),
    }
}

/// Puts eight of the events, from this one on, into the inbox's table behind so many rows, as such
/// that aren't there; answers whether they are in. Where they aren't, one of them was there or came
/// twice, and the transaction is as it was.
fn put_group<S: Alter, E: Listed>(
    alloc: Global,
    tx: &mut Transaction<'_, S>,
    rows: u64,
    events: &E,
    from: u64,
) -> Result<bool, Error>
    requires within { from + 8 ≤ length (E.listed events.now) }
    requires small { from + 8 < 2 ^ 64 }
    requires short { rows + 8 < 2 ^ 63 }
    ensures same_reference { tx.new.conn.ghost_name ≡ tx.old.conn.ghost_name }
    ensures put { HasCleanDisk (state S.Store tx.new.conn.now)
        → IsTrue (state S.Store tx.old.conn.now).in_transaction
        → IfOk result (PutsGroup rows (take 8 (drop from (E.listed events.now)))
        (state S.Store tx.old.conn.now) (state S.Store tx.new.conn.now)) }
    ensures failed { KeepsCommitIfRefused (state S.Store tx.old.conn.now)
        (state S.Store tx.new.conn.now) result }
    ensures survives { Survives
        (state S.Store tx.old.conn.now) (state S.Store tx.new.conn.now) (λ _. ⊥) }
{
    let values = values_of(alloc, rows + 1, events, from)?;
    insert_group(tx, values.as_slice())
}

/// One more of the events new to the inbox's table, if this is new.
fn counted(fresh: u64, is_new: bool) -> u64
    requires { fresh < u64.MAX }
    ensures { result ≡ fresh + (if is_new then 1 else 0) }
{
    if is_new { fresh + 1 } else { fresh }
}

/// Puts these events, from one to before another, into the inbox's table behind so many rows, each
/// unless it is there; answers how many were not there.
fn put_each<S: Alter, E: Listed>(
    tx: &mut Transaction<'_, S>,
    rows: u64,
    events: &E,
    from: u64,
    to: u64,
    seems_new: bool,
) -> Result<u64, Error>
    requires order { from ≤ to }
    requires within { to ≤ length (E.listed events.now) }
    requires short { rows + (to - from) < 2 ^ 63 }
    ensures same_reference { tx.new.conn.ghost_name ≡ tx.old.conn.ghost_name }
    ensures keeping { HasCleanDisk (state S.Store tx.new.conn.now)
        → IsTrue (state S.Store tx.old.conn.now).in_transaction
        → IfOk result (IsKeeping rows (take (to - from) (drop from (E.listed events.now))) []
        (state S.Store tx.old.conn.now) (state S.Store tx.new.conn.now)) }
    ensures few { IfOk result (λ fresh. fresh ≤ to - from) }
    ensures failed { KeepsCommitIfRefused (state S.Store tx.old.conn.now)
        (state S.Store tx.new.conn.now) result }
    ensures survives { Survives
        (state S.Store tx.old.conn.now) (state S.Store tx.new.conn.now) (λ _. ⊥) }
{
    let mut fresh = 0u64;
    let mut seems_new = seems_new;
    for i in from..to {
        let is_new = put(tx, rows + fresh + 1, events.lent(i), seems_new)?;
        seems_new = is_new;
        fresh = counted(fresh, is_new);
    }
    Ok(fresh)
}

/// As [`put_each`], of at most eight events, which are put in by one INSERT where they seem new.
fn put_some<S: Alter, E: Listed>(
    alloc: Global,
    tx: &mut Transaction<'_, S>,
    rows: u64,
    events: &E,
    from: u64,
    to: u64,
    seem_new: bool,
) -> Result<u64, Error>
    requires order { from ≤ to }
    requires within { to ≤ length (E.listed events.now) }
    requires short { rows + (to - from) < 2 ^ 63 }
    ensures same_reference { tx.new.conn.ghost_name ≡ tx.old.conn.ghost_name }
    ensures keeping { HasCleanDisk (state S.Store tx.new.conn.now)
        → IsTrue (state S.Store tx.old.conn.now).in_transaction
        → IfOk result (IsKeeping rows (take (to - from) (drop from (E.listed events.now))) []
        (state S.Store tx.old.conn.now) (state S.Store tx.new.conn.now)) }
    ensures few { IfOk result (λ fresh. fresh ≤ to - from) }
    ensures failed { KeepsCommitIfRefused (state S.Store tx.old.conn.now)
        (state S.Store tx.new.conn.now) result }
    ensures survives { Survives
        (state S.Store tx.old.conn.now) (state S.Store tx.new.conn.now) (λ _. ⊥) }
{
    if !seem_new {
        return put_each(tx, rows, events, from, to, false);
    }
    if to - from != GROUP {
        return put_each(tx, rows, events, from, to, true);
    }
    if put_group(alloc, tx, rows, events, from)? {
        return Ok(GROUP);
    }
    put_each(tx, rows, events, from, to, false)
}

/// After how many events it is told how far a call came.
const TOLD: u64 = 1_000;

/// Tells how far a call of the inbox's table came, after each thousand events.
fn tell<W: Watch>(watch: &W, count: u64, all: u64)
    ensures { count % 1000 ≡ 0 → W.told watch.now count all }
{
    if count % TOLD == 0 {
        watch.kept(count, all);
    }
}

/// Puts these events into the inbox's table behind so many rows, each unless it is there; answers
/// how many were not there. The watch is told after each thousand how many are in.
pub(crate) fn put_all<S: Alter, E: Listed, W: Watch>(
    alloc: Global,
    tx: &mut Transaction<'_, S>,
    rows: u64,
    events: &E,
    watch: &W,
) -> Result<u64, Error>
    requires { rows + length (E.listed events.now) < 2 ^ 63 }
    ensures same_reference { tx.new.conn.ghost_name ≡ tx.old.conn.ghost_name }
    ensures keeping { HasCleanDisk (state S.Store tx.new.conn.now)
        → IsTrue (state S.Store tx.old.conn.now).in_transaction
        → IfOk result (IsKeeping rows (E.listed events.now) []
        (state S.Store tx.old.conn.now) (state S.Store tx.new.conn.now)) }
    ensures few { IfOk result (λ fresh. fresh ≤ length (E.listed events.now)) }
    ensures told { OnOk result (IsTold (W.told watch.now) (length (E.listed events.now))) }
    ensures failed { KeepsCommitIfRefused (state S.Store tx.old.conn.now)
        (state S.Store tx.new.conn.now) result }
    ensures survives { Survives
        (state S.Store tx.old.conn.now) (state S.Store tx.new.conn.now) (λ _. ⊥) }
{
    let count = events.count();
    let mut fresh = 0u64;
    // What is new mostly comes behind what is new.
    let mut seem_new = true;
    for group in 0..count.div_ceil(GROUP) {
        let from = group * GROUP;
        let to = count.min(from + GROUP);
        let new = put_some(alloc, tx, rows + fresh, events, from, to, seem_new)?;
        seem_new = new == to - from;
        fresh += new;
        tell(watch, to, count);
    }
    Ok(fresh)
}

/// Takes these events in one transaction into an inbox's table with so many rows, and answers how
/// many were not there. The watch is told after each thousand how many are in.
pub(crate) fn keep<S: Alter, E: Listed, W: Watch>(
    alloc: Global,
    conn: &mut Connection<S>,
    rows: u64,
    events: &E,
    watch: &W,
) -> Result<u64, TableFault>
    requires { rows + length (E.listed events.now) < 2 ^ 63 }
    ensures effect { HasCleanDisk (state S.Store conn.new)
        → (IsTrue (state S.Store conn.old).is_open → Stands (state S.Store conn.old).now rows)
        → KeepEffect (E.listed events.now)
        (state S.Store conn.old) (state S.Store conn.new) result }
    ensures few { IfOk result (λ fresh. fresh ≤ length (E.listed events.now)) }
    ensures told { OnOk result (IsTold (W.told watch.now) (length (E.listed events.now))) }
    ensures fault { IfErr result IsOfStore }
    ensures crash { Survives (state S.Store conn.old) (state S.Store conn.new) (λ trees.
        IsTrue (state S.Store conn.old).is_open → Stands (state S.Store conn.old).now rows
        → MayTake (E.listed events.now) (state S.Store conn.old).now trees) }
{
    if !conn.is_autocommit() {
        return Err(TableFault::Store);
    }
    let _schema = conn.schema();
    let mut tx = conn.transaction();
    let fresh = put_all(alloc, &mut tx, rows, events, watch)?;
    tx.commit()?;
    Ok(fresh)
}
