//! Looks for events in the numberer's table, to number them.

ghost use Rattle.std.specs.Prelude.{◌≡◌, ◌∷◌, [], ℕ, List, true, IfOk, IsTrue, OnOk, Some, length};
ghost use Rattle.std.specs.List.{AllByRecursion};
ghost use Rattle.sqlite.specs.Held.{state};
ghost use Rattle.sqlite.specs.State.{HasCleanDisk};
ghost use Rattle.attributes.specs.Event.{EventValue};
ghost use Rattle.attributes.specs.Fault.{IsEvent};
ghost use Rattle.inbox.specs.KeyOrder.{key_cmp};
ghost use Rattle.inbox.specs.Ordered.{has};
ghost use Rattle.inbox_table.specs.Calls.{IsSettled, joined};
ghost use Rattle.numbers.specs.Counts.{IsCountOf};
ghost use Rattle.numbers.specs.Numbered.{AreBare, IsBare};
ghost use Rattle.numbers.specs.Numberer.{taken};
ghost use Rattle.number_table.specs.Calls.{AnswersNumbers, StandsNumbered, from};
ghost use Rattle.number_table.specs.Each.{AnswersEach, AreNumberedEach};
ghost use Rattle.number_table.specs.Lookups.{LearnsNumbers, LooksUp};

use crate::fault::NumbererFault;
use crate::lists::{are_known, number_lists};
use attributes::{Batch, Event, Events, List};
use inbox_table::{Table, TableFault};
use numbers::{Counted, Known, number_all, number_among};
use sqlite::Alter;
use std::alloc::Global;

/// Events with their numbers.
#[derive(Drop)]
pub(crate) struct Answer {
    pub(crate) batch: Batch,
    /// Each of them had its number before.
    pub(crate) all_known: bool,
}

/// The events of several lists with their numbers.
#[derive(Drop)]
pub(crate) struct AnswerEach {
    pub(crate) batches: List<Batch>,
    /// Each of them had its number before.
    pub(crate) all_known: bool,
}

/// Sees that the numberer's table is there, and that a crash leaves it as it is. No row is asked for.
pub(crate) fn look_at<S: Alter + Drop>(table: &mut Table<S>) -> Result<(), NumbererFault>
    ensures looks { LooksUp (state S.Store table.old.conn) (state S.Store table.new.conn) }
    ensures stays { HasCleanDisk (state S.Store table.new.conn) → OnOk result (
        IsTrue (state S.Store table.new.conn).is_open × IsSettled (state S.Store table.new.conn)) }
{
    match table.page(0, 0) {
        Ok(_) => Ok(()),
        Err(TableFault::OutOfMemory) => Err(NumbererFault::OutOfMemory),
        Err(_) => Err(NumbererFault::Store),
    }
}

/// Has it known with which number the table has the event, if it has it: it is asked only where the
/// event's text may have a number, and isn't known.
fn look_up<S: Alter + Drop>(
    alloc: Global,
    table: &mut Table<S>,
    counted: &Counted,
    known: &mut Known,
    event: &Event,
) -> Result<(), NumbererFault>
    requires { IsBare event.now }
    ensures looks { LooksUp (state S.Store table.old.conn) (state S.Store table.new.conn) }
    ensures open { HasCleanDisk (state S.Store table.new.conn)
        → IsTrue (state S.Store table.old.conn).is_open
        → OnOk result (IsTrue (state S.Store table.new.conn).is_open) }
    ensures learns { HasCleanDisk (state S.Store table.new.conn) → OnOk result (LearnsNumbers
        (event.now ∷ []) (state S.Store table.old.conn) counted.now known.old known.new) }
{
    if !counted.may_have(event.text()) {
        return Ok(());
    }
    if let Some(_number) = known.number_of(event.text()) {
        return Ok(());
    }
    let rows = match table.find(event.source(), event.id()) {
        Ok(rows) => rows,
        Err(TableFault::OutOfMemory) => return Err(NumbererFault::OutOfMemory),
        Err(_) => return Err(NumbererFault::Store),
    };
    let found = number_among(alloc, event, &rows)?;
    let Some(number) = found else {
        return Ok(());
    };
    known.add(event.text(), number)?;
    Ok(())
}

/// Looks up each of the events.
fn look_up_all<S: Alter + Drop>(
    alloc: Global,
    table: &mut Table<S>,
    counted: &Counted,
    known: &mut Known,
    events: &Events,
) -> Result<(), NumbererFault>
    requires { AreBare events.now }
    ensures looks { LooksUp (state S.Store table.old.conn) (state S.Store table.new.conn) }
    ensures open { HasCleanDisk (state S.Store table.new.conn)
        → IsTrue (state S.Store table.old.conn).is_open
        → OnOk result (IsTrue (state S.Store table.new.conn).is_open) }
    ensures learns { HasCleanDisk (state S.Store table.new.conn) → OnOk result (LearnsNumbers
        events.now (state S.Store table.old.conn) counted.now known.old known.new) }
{
    for i in 0..events.len() {
        look_up(alloc, table, counted, known, events.at(i))?;
    }
    Ok(())
}

/// Looks up each event of the lists.
fn look_up_lists<S: Alter + Drop>(
    alloc: Global,
    table: &mut Table<S>,
    counted: &Counted,
    known: &mut Known,
    lists: &List<Events>,
) -> Result<(), NumbererFault>
    requires { AllByRecursion AreBare lists.now }
    ensures looks { LooksUp (state S.Store table.old.conn) (state S.Store table.new.conn) }
    ensures open { HasCleanDisk (state S.Store table.new.conn)
        → IsTrue (state S.Store table.old.conn).is_open
        → OnOk result (IsTrue (state S.Store table.new.conn).is_open) }
    ensures learns { HasCleanDisk (state S.Store table.new.conn) → OnOk result (LearnsNumbers
        (joined lists.now) (state S.Store table.old.conn) counted.now known.old known.new) }
{
    for i in 0..lists.len() {
        look_up_all(alloc, table, counted, known, lists.at(i))?;
    }
    Ok(())
}

/// The events with their numbers: those that they had, by what is known from the calls before or by
/// the table, or else their sources' next. What is known then is left known. Nothing is kept yet;
/// where it is refused, some of the events may be counted.
pub(crate) fn answer_all<S: Alter + Drop>(
    alloc: Global,
    table: &mut Table<S>,
    counted: &mut Counted,
    events: &Events,
) -> Result<Answer, NumbererFault>
    requires { AreBare events.now }
    ensures looks { LooksUp (state S.Store table.old.conn) (state S.Store table.new.conn) }
    ensures open { HasCleanDisk (state S.Store table.new.conn)
        → IsTrue (state S.Store table.old.conn).is_open
        → OnOk result (IsTrue (state S.Store table.new.conn).is_open) }
    ensures numbers { HasCleanDisk (state S.Store table.new.conn) → IfOk result (λ answer.
        (base : ℕ) (A rows : List EventValue)
        → StandsNumbered base A rows (state S.Store table.old.conn) (Some counted.old)
        → AnswersNumbers base A events.now answer.batch
        × IsCountOf (from base) (taken A events.now) counted.new
        × (IsTrue answer.all_known → AllByRecursion (λ e. has key_cmp A e ≡ true) events.now)) }
    ensures events { IfOk result (λ answer. AllByRecursion IsEvent answer.batch) }
{
    let mut known = counted.take_recent();
    look_up_all(alloc, table, counted, &mut known, events)?;
    let all_known = known.has_all(events);
    let batch = number_all(alloc, counted, &mut known, events)?;
    counted.put_recent(known);
    Ok(Answer { batch, all_known })
}

/// The events of each list with their numbers, as [`answer_all`] has those of one.
pub(crate) fn answer_each<S: Alter + Drop>(
    alloc: Global,
    table: &mut Table<S>,
    counted: &mut Counted,
    lists: &List<Events>,
) -> Result<AnswerEach, NumbererFault>
    requires { AllByRecursion AreBare lists.now }
    ensures looks { LooksUp (state S.Store table.old.conn) (state S.Store table.new.conn) }
    ensures open { HasCleanDisk (state S.Store table.new.conn)
        → IsTrue (state S.Store table.old.conn).is_open
        → OnOk result (IsTrue (state S.Store table.new.conn).is_open) }
    ensures numbers { HasCleanDisk (state S.Store table.new.conn) → IfOk result (λ answer.
        (base : ℕ) (A rows : List EventValue)
        → StandsNumbered base A rows (state S.Store table.old.conn) (Some counted.old)
        → AnswersEach (from base) A lists.now answer.batches
        × IsCountOf (from base) (taken A (joined lists.now)) counted.new
        × (IsTrue answer.all_known
        → AllByRecursion (λ e. has key_cmp A e ≡ true) (joined lists.now))) }
    ensures each { IfOk result (λ answer. AreNumberedEach lists.now answer.batches) }
    ensures one_each { IfOk result (λ answer. length answer.batches ≡ length lists.now) }
    ensures events { IfOk result (λ answer.
        AllByRecursion (AllByRecursion IsEvent) answer.batches) }
{
    let mut known = counted.take_recent();
    look_up_lists(alloc, table, counted, &mut known, lists)?;
    let all_known = are_known(&known, lists);
    let batches = number_lists(alloc, counted, &mut known, lists)?;
    counted.put_recent(known);
    Ok(AnswerEach { batches, all_known })
}
