//! Counts the rows of a numberer's table, a page at a time.

ghost use Rattle.std.specs.Prelude.{◌≡◌, ◌⊎◌, ◌∷◌, [], ℕ, List, IfErr, IfNone, IfOk, IfSome, IsFalse, IsTrue, OnOk, length};
ghost use Rattle.std.specs.List.{AllByRecursion};
ghost use Rattle.sqlite.specs.Held.{state};
ghost use Rattle.sqlite.specs.State.{HasCleanDisk};
ghost use Rattle.attributes.specs.Event.{EventValue, text};
ghost use Rattle.inbox_table.specs.Rows.{events_after};
ghost use Rattle.numbers.specs.Counts.{IsCountOfRows};
ghost use Rattle.numbers.specs.Filter.{MayHave};
ghost use Rattle.numbers.specs.Numbered.{HasNoOther, IsBare};
ghost use Rattle.number_table.specs.Calls.{NoneLeaves, from};
ghost use Rattle.number_table.specs.Counting.{CountsRows, HasRows, RefusesRows};
ghost use Rattle.number_table.specs.Fault.{IsOfReading};
ghost use Rattle.number_table.specs.Lookups.{LooksUp};

use crate::fault::NumbererFault;
use attributes::{Batch, Event, Sequence, Sequenced};
use inbox_table::{Table, TableFault};
use numbers::{Counted, has_no_other, next_event};
use sqlite::Alter;
use std::alloc::Global;

/// How many rows are read at a time.
const PAGE_ROWS: u64 = 1_000;

/// Whether no row of the table is the event with another number. The table is asked for the rows of
/// its source and id, and only where the event's text may have a number.
fn has_no_other_row<S: Alter + Drop>(
    alloc: Global,
    table: &mut Table<S>,
    counted: &Counted,
    event: &Event,
    number: Sequence,
) -> Result<bool, NumbererFault>
    requires { IsBare event.now }
    ensures looks { LooksUp (state S.Store table.old.conn) (state S.Store table.new.conn) }
    ensures open { HasCleanDisk (state S.Store table.new.conn)
        → IsTrue (state S.Store table.old.conn).is_open
        → OnOk result (IsTrue (state S.Store table.new.conn).is_open) }
    ensures none { HasCleanDisk (state S.Store table.new.conn) → IfOk result (λ is. IsTrue is
        → (MayHave counted.now.seen (text event.now) → ⊥) ⊎ ((rows : List EventValue)
        → HasRows (state S.Store table.old.conn) rows
        → AllByRecursion (HasNoOther number event.now) rows)) }
    ensures other { HasCleanDisk (state S.Store table.new.conn) → IfOk result (λ is. IsFalse is
        → (rows : List EventValue) → HasRows (state S.Store table.old.conn) rows
        → AllByRecursion (HasNoOther number event.now) rows → ⊥) }
    ensures fault { IfErr result IsOfReading }
{
    if !counted.may_have(event.text()) {
        return Ok(true);
    }
    let rows = match table.find(event.source(), event.id()) {
        Ok(rows) => rows,
        Err(TableFault::OutOfMemory) => return Err(NumbererFault::OutOfMemory),
        Err(_) => return Err(NumbererFault::Store),
    };
    Ok(has_no_other(alloc, event, number, &rows)?)
}

/// Counts the row behind those that are counted, where it is that of an event with its source's
/// next number, and no row has the event with another.
fn count_row<S: Alter + Drop>(
    alloc: Global,
    table: &mut Table<S>,
    counted: &mut Counted,
    row: &Sequenced,
) -> Result<bool, NumbererFault>
    ensures looks { LooksUp (state S.Store table.old.conn) (state S.Store table.new.conn) }
    ensures open { HasCleanDisk (state S.Store table.new.conn)
        → IsTrue (state S.Store table.old.conn).is_open
        → OnOk result (IsTrue (state S.Store table.new.conn).is_open) }
    ensures counts { HasCleanDisk (state S.Store table.new.conn) → IfOk result (λ is. IsTrue is
        → CountsRows (row.now ∷ []) (state S.Store table.old.conn) counted.old counted.new) }
    ensures refused { HasCleanDisk (state S.Store table.new.conn) → IfOk result (λ is. IsFalse is
        → RefusesRows (row.now ∷ []) (state S.Store table.old.conn) counted.old) }
    ensures fault { IfErr result IsOfReading }
{
    let found = next_event(alloc, counted, row)?;
    let Some(event) = found else {
        return Ok(false);
    };
    let number = row.number();
    if !has_no_other_row(alloc, table, counted, &event, number)? {
        return Ok(false);
    }
    counted.add(event.text(), event.source(), number)?;
    Ok(true)
}

/// Counts the rows of a page behind those that are counted, where a numberer leaves them there.
fn count_page<S: Alter + Drop>(
    alloc: Global,
    table: &mut Table<S>,
    counted: &mut Counted,
    page: &Batch,
) -> Result<bool, NumbererFault>
    ensures looks { LooksUp (state S.Store table.old.conn) (state S.Store table.new.conn) }
    ensures open { HasCleanDisk (state S.Store table.new.conn)
        → IsTrue (state S.Store table.old.conn).is_open
        → OnOk result (IsTrue (state S.Store table.new.conn).is_open) }
    ensures counts { HasCleanDisk (state S.Store table.new.conn) → IfOk result (λ is. IsTrue is
        → CountsRows page.now (state S.Store table.old.conn) counted.old counted.new) }
    ensures refused { HasCleanDisk (state S.Store table.new.conn) → IfOk result (λ is. IsFalse is
        → RefusesRows page.now (state S.Store table.old.conn) counted.old) }
    ensures fault { IfErr result IsOfReading }
{
    for i in 0..page.len() {
        if !count_row(alloc, table, counted, page.at(i))? {
            return Ok(false);
        }
    }
    Ok(true)
}

/// The numberer's rows behind so many, a page of them.
fn page_after<S: Alter + Drop>(table: &mut Table<S>, after: u64) -> Result<Batch, NumbererFault>
    ensures looks { LooksUp (state S.Store table.old.conn) (state S.Store table.new.conn) }
    ensures open { HasCleanDisk (state S.Store table.new.conn)
        → OnOk result (IsTrue (state S.Store table.new.conn).is_open) }
    ensures shows { HasCleanDisk (state S.Store table.new.conn) → IfOk result (λ page.
        (rows : List EventValue) → HasRows (state S.Store table.old.conn) rows
        → page ≡ events_after after 1000 rows) }
    ensures fault { IfErr result IsOfReading }
{
    match table.page(after, PAGE_ROWS) {
        Ok(page) => Ok(page),
        Err(TableFault::OutOfMemory) => Err(NumbererFault::OutOfMemory),
        Err(_) => Err(NumbererFault::Store),
    }
}

/// What is counted of the table's rows, where they are what a numberer with this base leaves: each
/// an event with its source's next number, and none of them twice; none only where no numberer
/// leaves them. Time in proportion to them; memory for what is counted, and for a page of rows.
pub(crate) fn count_rows<S: Alter + Drop>(
    alloc: Global,
    table: &mut Table<S>,
    base: u64,
) -> Result<Option<Counted>, NumbererFault>
    ensures looks { LooksUp (state S.Store table.old.conn) (state S.Store table.new.conn) }
    ensures open { HasCleanDisk (state S.Store table.new.conn)
        → IsTrue (state S.Store table.old.conn).is_open
        → OnOk result (IsTrue (state S.Store table.new.conn).is_open) }
    ensures counted { HasCleanDisk (state S.Store table.new.conn) → IfOk result (λ o. IfSome o
        (λ counted. (rows : List EventValue) → HasRows (state S.Store table.old.conn) rows
        → table.old.rows ≡ length rows → IsCountOfRows (from base) rows counted)) }
    ensures none { HasCleanDisk (state S.Store table.new.conn) → IfOk result (λ o. IfNone o
        ((rows : List EventValue) → HasRows (state S.Store table.old.conn) rows
        → NoneLeaves base rows)) }
    ensures fault { IfErr result IsOfReading }
{
    let rows = table.rows();
    let mut counted = Counted::empty(alloc, base, rows)?;
    for k in 0..rows.div_ceil(PAGE_ROWS) {
        let page = page_after(table, k * PAGE_ROWS)?;
        if !count_page(alloc, table, &mut counted, &page)? {
            return Ok(None);
        }
    }
    Ok(Some(counted))
}
