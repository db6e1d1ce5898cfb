//! Several lists of events in one transaction, each counted for itself.

ghost use Rattle.std.specs.Prelude.{◌≡◌, ◌<◌, ◌≤◌, ◌+◌, ◌-◌, ◌^◌, ◌++◌, [], sum, drop, length, map, take, IsTrue, IfOk, IfErr, OnErr, OnOk};
ghost use Rattle.sqlite.specs.Held.{state};
ghost use Rattle.sqlite.specs.State.{HasCleanDisk, Survives};
ghost use Rattle.inbox_table.specs.Calls.{KeepEachEffect, MayTake, Stands, joined};
ghost use Rattle.inbox_table.specs.Fault.{IsOfStore};
ghost use Rattle.inbox_table.specs.Rows.{AreNumbered};
ghost use Rattle.inbox_table.specs.steps.Turns.{AreSingle, IsKeepingEach, PutsGroup, params_from};
ghost use Rattle.sqlite.specs.Values.{bound};
ghost use Rattle.database_layout.specs.States.{KeepsCommitIfRefused};

use crate::fault::TableFault;
use crate::statement::{GROUP, insert_group, push_values, put_all};
use crate::watch::Unwatched;
use attributes::{Batch, List};
use sqlite::{Alter, Connection, Error, Transaction};
use sqlite_value::value::ValueRef;
use std::alloc::Global;

/// How many events the lists for the inbox's table have, one behind the other; the greatest number
/// where that is too great.
pub(crate) fn length_of(lists: &List<Batch>) -> u64
    ensures { result < u64.MAX → result ≡ length (joined lists.now) }
{
    let mut length = 0u64;
    for i in 0..lists.len() {
        length = length.saturating_add(lists.at(i).len());
    }
    length
}

/// The sum of the numbers of new events, one of each list.
pub(crate) fn total(numbers: &List<u64>) -> u64
    requires { sum numbers.now < 2 ^ 64 }
    ensures { result ≡ sum numbers.now }
{
    numbers.as_slice().iter().sum()
}

/// Whether eight of the lists for the inbox's table, from this one on, have one event each.
fn are_single(lists: &List<Batch>, from: u64) -> bool
    requires within { from + 8 ≤ length lists.now }
    requires small { from + 8 < 2 ^ 64 }
    ensures { IsTrue result → AreSingle (take 8 (drop from lists.now)) }
{
    for i in 0..GROUP {
        if lists.at(from + i).len() != 1 {
            return false;
        }
    }
    true
}

/// The values by which the events of eight lists with one each, from this list on, are put into the
/// inbox's table at the places from this one on.
fn values_of_singles<'a>(
    alloc: Global,
    place: u64,
    lists: &'a List<Batch>,
    from: u64,
) -> Result<Vec<ValueRef<'a>>, Error>
    requires within { from + 8 ≤ length lists.now }
    requires small { from + 8 < 2 ^ 64 }
    requires single { AreSingle (take 8 (drop from lists.now)) }
    requires short { place + 8 ≤ 2 ^ 63 }
    ensures values { IfOk result (λ v. bound v.items
        ≡ params_from place (joined (take 8 (drop from lists.now)))) }
    ensures numbered { OnOk result (AreNumbered (joined (take 8 (drop from lists.now)))) }
{
    let mut values = Vec::new(alloc);
    for i in 0..GROUP {
        push_values(&mut values, place + i, lists.at(from + i).at(0))?;
    }
    Ok(values)
}

/// Puts the events of eight lists with one each, from this list on, into the inbox's table behind so
/// many rows, as such that aren't there; answers whether they are in.
fn put_singles<S: Alter>(
    alloc: Global,
    tx: &mut Transaction<'_, S>,
    rows: u64,
    lists: &List<Batch>,
    from: u64,
) -> Result<bool, Error>
    requires within { from + 8 ≤ length lists.now }
    requires small { from + 8 < 2 ^ 64 }
    requires single { AreSingle (take 8 (drop from lists.now)) }
    requires short { rows + 8 < 2 ^ 63 }
    ensures same_reference { tx.new.conn.ghost_name ≡ tx.old.conn.ghost_name }
    ensures put { HasCleanDisk (state S.Store tx.new.conn.now)
        → IsTrue (state S.Store tx.old.conn.now).in_transaction
        → IfOk result (PutsGroup rows (joined (take 8 (drop from lists.now)))
        (state S.Store tx.old.conn.now) (state S.Store tx.new.conn.now)) }
    ensures failed { KeepsCommitIfRefused (state S.Store tx.old.conn.now)
        (state S.Store tx.new.conn.now) result }
    ensures survives { Survives
        (state S.Store tx.old.conn.now) (state S.Store tx.new.conn.now) (λ _. ⊥) }
{
    let values = values_of_singles(alloc, rows + 1, lists, from)?;
    insert_group(tx, values.as_slice())
}

/// How many events each of these lists for the inbox's table has, from one to before another.
fn lengths_of(
    alloc: Global,
    lists: &List<Batch>,
    from: u64,
    to: u64,
) -> Result<List<u64>, TableFault>
    requires order { from ≤ to }
    requires within { to ≤ length lists.now }
    ensures lengths { IfOk result (λ each. each
        ≡ map length (take (to - from) (drop from lists.now))) }
    ensures fault { IfErr result IsOfStore }
{
    let mut each = List::empty(alloc);
    for i in from..to {
        each.push(lists.at(i).len())?;
    }
    Ok(each)
}

/// Puts the events of these lists, from one to before another, into the inbox's table behind so many
/// rows, one list after the other, each event unless it is there by then.
fn put_one_by_one<S: Alter>(
    alloc: Global,
    tx: &mut Transaction<'_, S>,
    rows: u64,
    lists: &List<Batch>,
    from: u64,
    to: u64,
) -> Result<List<u64>, TableFault>
    requires order { from ≤ to }
    requires within { to ≤ length lists.now }
    requires short { rows + length (joined (take (to - from) (drop from lists.now))) < 2 ^ 63 }
    ensures same_reference { tx.new.conn.ghost_name ≡ tx.old.conn.ghost_name }
    ensures keeping { HasCleanDisk (state S.Store tx.new.conn.now)
        → IsTrue (state S.Store tx.old.conn.now).in_transaction
        → IfOk result (λ each. IsKeepingEach rows (take (to - from) (drop from lists.now)) []
        (state S.Store tx.old.conn.now) (state S.Store tx.new.conn.now) (sum each) each) }
    ensures few { IfOk result (λ each.
        sum each ≤ length (joined (take (to - from) (drop from lists.now)))) }
    ensures one_each { IfOk result (λ each. length each ≡ to - from) }
    ensures fault { IfErr result IsOfStore }
    ensures failed { KeepsCommitIfRefused (state S.Store tx.old.conn.now)
        (state S.Store tx.new.conn.now) result }
    ensures survives { Survives
        (state S.Store tx.old.conn.now) (state S.Store tx.new.conn.now) (λ _. ⊥) }
{
    let mut each = List::empty(alloc);
    let mut all = 0u64;
    for i in from..to {
        let fresh = put_all(alloc, tx, rows + all, lists.at(i), &Unwatched)?;
        all += fresh;
        each.push(fresh)?;
    }
    Ok(each)
}

/// As [`put_one_by_one`], of at most eight lists: where these are eight with one event each, which
/// seem new, by one INSERT.
fn put_part<S: Alter>(
    alloc: Global,
    tx: &mut Transaction<'_, S>,
    rows: u64,
    lists: &List<Batch>,
    from: u64,
    to: u64,
) -> Result<List<u64>, TableFault>
    requires order { from ≤ to }
    requires within { to ≤ length lists.now }
    requires short { rows + length (joined (take (to - from) (drop from lists.now))) < 2 ^ 63 }
    ensures same_reference { tx.new.conn.ghost_name ≡ tx.old.conn.ghost_name }
    ensures keeping { HasCleanDisk (state S.Store tx.new.conn.now)
        → IsTrue (state S.Store tx.old.conn.now).in_transaction
        → IfOk result (λ each. IsKeepingEach rows (take (to - from) (drop from lists.now)) []
        (state S.Store tx.old.conn.now) (state S.Store tx.new.conn.now) (sum each) each) }
    ensures few { IfOk result (λ each.
        sum each ≤ length (joined (take (to - from) (drop from lists.now)))) }
    ensures one_each { IfOk result (λ each. length each ≡ to - from) }
    ensures fault { IfErr result IsOfStore }
    ensures failed { KeepsCommitIfRefused (state S.Store tx.old.conn.now)
        (state S.Store tx.new.conn.now) result }
    ensures survives { Survives
        (state S.Store tx.old.conn.now) (state S.Store tx.new.conn.now) (λ _. ⊥) }
{
    if to - from != GROUP {
        return put_one_by_one(alloc, tx, rows, lists, from, to);
    }
    if !are_single(lists, from) {
        return put_one_by_one(alloc, tx, rows, lists, from, to);
    }
    let each = lengths_of(alloc, lists, from, to)?;
    if put_singles(alloc, tx, rows, lists, from)? {
        return Ok(each);
    }
    put_one_by_one(alloc, tx, rows, lists, from, to)
}

/// Puts the numbers of new events of some of the inbox table's lists behind those of others.
fn append(each: &mut List<u64>, more: &List<u64>) -> Result<(), TableFault>
    ensures ok { OnOk result (each.new ≡ each.old ++ more.now) }
    ensures fault { IfErr result IsOfStore }
{
    for i in 0..more.len() {
        each.push(*more.at(i))?;
    }
    Ok(())
}

/// Puts the events of these lists into the inbox's table behind so many rows, one list after the
/// other, each event unless it is there by then.
fn put_lists<S: Alter>(
    alloc: Global,
    tx: &mut Transaction<'_, S>,
    rows: u64,
    lists: &List<Batch>,
) -> Result<List<u64>, TableFault>
    requires { rows + length (joined lists.now) < 2 ^ 63 }
    ensures same_reference { tx.new.conn.ghost_name ≡ tx.old.conn.ghost_name }
    ensures keeping { HasCleanDisk (state S.Store tx.new.conn.now)
        → IsTrue (state S.Store tx.old.conn.now).in_transaction
        → IfOk result (λ each. IsKeepingEach rows lists.now [] (state S.Store tx.old.conn.now)
        (state S.Store tx.new.conn.now) (sum each) each) }
    ensures few { IfOk result (λ each. sum each ≤ length (joined lists.now)) }
    ensures one_each { IfOk result (λ each. length each ≡ length lists.now) }
    ensures fault { IfErr result IsOfStore }
    ensures failed { KeepsCommitIfRefused (state S.Store tx.old.conn.now)
        (state S.Store tx.new.conn.now) result }
    ensures survives { Survives
        (state S.Store tx.old.conn.now) (state S.Store tx.new.conn.now) (λ _. ⊥) }
{
    let count = lists.len();
    let mut each = List::empty(alloc);
    let mut all = 0u64;
    for group in 0..count.div_ceil(GROUP) {
        let from = group * GROUP;
        let to = count.min(from.saturating_add(GROUP));
        let part = put_part(alloc, tx, rows + all, lists, from, to)?;
        all += total(&part);
        append(&mut each, &part)?;
    }
    Ok(each)
}

/// Takes these lists' events in one transaction into an inbox's table with so many rows, one list
/// after the other; answers how many of each were not there by then.
pub(crate) fn keep_lists<S: Alter>(
    alloc: Global,
    conn: &mut Connection<S>,
    rows: u64,
    lists: &List<Batch>,
) -> Result<List<u64>, TableFault>
    requires { rows + length (joined lists.now) < 2 ^ 63 }
    ensures effect { HasCleanDisk (state S.Store conn.new)
        → (IsTrue (state S.Store conn.old).is_open → Stands (state S.Store conn.old).now rows)
        → KeepEachEffect lists.now (state S.Store conn.old) (state S.Store conn.new) result }
    ensures few { IfOk result (λ each. sum each ≤ length (joined lists.now)) }
    ensures one_each { IfOk result (λ each. length each ≡ length lists.now) }
    ensures fault { IfErr result IsOfStore }
    ensures crash { Survives (state S.Store conn.old) (state S.Store conn.new) (λ trees.
        IsTrue (state S.Store conn.old).is_open → Stands (state S.Store conn.old).now rows
        → MayTake (joined lists.now) (state S.Store conn.old).now trees) }
{
    if !conn.is_autocommit() {
        return Err(TableFault::Store);
    }
    let _schema = conn.schema();
    let mut tx = conn.transaction();
    let each = put_lists(alloc, &mut tx, rows, lists)?;
    tx.commit()?;
    Ok(each)
}
