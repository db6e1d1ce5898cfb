//! The numberer: what it counts, and its table.

ghost use Rattle.std.specs.Prelude.{◌≡◌, ⊤, IfErr, IfOk, IsErrAnd, IsTrue, List, OnOk, Err, Some, length, option_map};
ghost use Rattle.std.specs.List.{AllByRecursion};
ghost use Rattle.sqlite.specs.Held.{state};
ghost use Rattle.sqlite.specs.State.{HasCleanDisk, Survives};
ghost use Rattle.attributes.specs.Event.{EventValue};
ghost use Rattle.inbox_table.specs.Opening.{LeavesOpening, Opens};
ghost use Rattle.inbox_table.specs.Rows.{IsAnyInbox};
ghost use Rattle.numbers.specs.Numbered.{AreBare};
ghost use Rattle.numbers.specs.Refusal.{refusal_from};
ghost use Rattle.numbers.specs.declared.fault.NumberFault.{NumberFault};
ghost use Rattle.number_table.specs.Fault.{of_numbers, of_table};
ghost use Rattle.number_table.specs.declared.fault.NumbererFault.TheVariants.{Foreign};

use crate::count::count_rows;
use crate::fault::NumbererFault;
use crate::lookup::{answer_all, answer_each, look_at};
use attributes::{Batch, Events, List};
use inbox_table::{NotMade, Table, Unwatched};
use numbers::{Counted, refusal};
use sqlite::{Alter, Connection};
use std::alloc::Global;

/// A numberer over its table, whose rows are the events that it numbered, with their numbers: a
/// site's table. Memory for the last number of each source, for a filter of 1 to 16 MiB, and for the
/// texts that came lately, up to 1 MiB.
#[derive(Drop)]
pub struct Numberer<S: Alter> {
    pub table: Table<S>,
    /// What is counted of the table's events; nothing, where a call was refused half-way.
    pub counted: Option<Counted>,
    /// The number behind which each source begins.
    pub base: u64,
    pub alloc: Global,
}

/// A connection of which no numberer was made, and why.
#[derive(Drop)]
pub struct NotOpened<S: Alter> {
    pub conn: Connection<S>,
    pub fault: NumbererFault,
}

impl<S: Alter + Drop> Numberer<S> {
    ghost use Rattle.number_table.specs.Calls.{LeavesNumbers, MayNumber, NoneLeaves, NumberEffect, RejectsNumbers, StandsNumbered};
    ghost use Rattle.number_table.specs.Each.{AreNumberedEach, MayNumberEach, NumberEachEffect};

    /// Opens the numberer of a database, with the base that it was made with, or makes one where
    /// there is no table. Each row is read twice, and those of the row's source and id are asked for
    /// where its text may have stood before: few, where none has. Time in proportion to the rows;
    /// memory for 1,000 of them, for the last number of each source, and for a filter of the texts
    /// that takes 4 bytes for each row that there is now, 1 MiB at least and 16 MiB at most. The
    /// last two stay.
    ///
    /// Refused as [`Table::open`] and [`Table::page`] are, after which the connection may be shut;
    /// `Foreign` too where a row isn't that of an event with its source's next number, or a text has
    /// two: never of a table that a numberer with this base leaves. The connection comes back.
    pub fn open(alloc: Global, conn: Connection<S>, base: u64) -> Result<Numberer<S>, NotOpened<S>>
        ensures opens { IfOk result (λ n. HasCleanDisk (state S.Store n.table.conn)
            → (events rows : List EventValue)
            × Opens (λ _ _. ⊤) (state S.Store conn) (state S.Store n.table.conn) rows
            × StandsNumbered base events rows (state S.Store n.table.conn) n.counted) }
        ensures base { IfOk result (λ n. n.base ≡ base) }
        ensures rejects { IfErr result (λ n.
            RejectsNumbers (state S.Store conn) (state S.Store n.conn) n.fault) }
        ensures foreign { IfErr result (λ n. n.fault ≡ Foreign → HasCleanDisk (state S.Store n.conn)
            → (rows : List EventValue) → IsAnyInbox (state S.Store conn).now rows
            → NoneLeaves base rows) }
        ensures crash { IfOk result (λ n. LeavesOpening (state S.Store conn) (state S.Store n.table.conn)) }
        ensures crash_refused { IfErr result (λ n. LeavesOpening (state S.Store conn) (state S.Store n.conn)) }
    {
        let mut table = match Table::open(alloc, conn, &Unwatched) {
            Ok(table) => table,
            Err(refused) => return Err(not_made(refused)),
        };
        match count_rows(alloc, &mut table, base) {
            Ok(Some(counted)) => Ok(Numberer {
                table,
                counted: Some(counted),
                base,
                alloc,
            }),
            Ok(None) => Err(NotOpened {
                conn: table.into_connection(),
                fault: NumbererFault::Foreign,
            }),
            Err(fault) => Err(NotOpened {
                conn: table.into_connection(),
                fault,
            }),
        }
    }

    /// Numbers the events: each gets the number that its text has, or else its source's next, and
    /// the new ones are kept in the table, in one transaction that is synced. It answers the events
    /// with their numbers, in their order. The table is asked for each event that may have a number,
    /// as [`Table::find`] is, unless it came lately; all else is the time of [`Table::keep`], or
    /// that of one question more where each event had its number.
    ///
    /// `HasSequence` or `TooLarge` names the first event that can't be numbered, before anything is
    /// done. `Full` names one whose source has no number left. Whatever is refused, the table is as
    /// it was; but after `Full`, `Store` and want of memory each further call is `Store`, and the
    /// numberer is to be opened again.
    pub fn number(&mut self, events: &Events) -> Result<Batch, NumbererFault>
        ensures first { (f : NumberFault) → refusal_from 0 events.now ≡ Some f
            → result ≡ Err (of_numbers f) }
        ensures effect { NumberEffect self.old.base events.now (state S.Store self.old.table.conn)
            (state S.Store self.new.table.conn) self.old.counted self.new.counted result }
        ensures leaves { HasCleanDisk (state S.Store self.new.table.conn)
            → LeavesNumbers (state S.Store self.old.table.conn)
            (state S.Store self.new.table.conn) result }
        ensures base { self.new.base ≡ self.old.base }
        ensures crash { Survives
            (state S.Store self.old.table.conn) (state S.Store self.new.table.conn)
            (λ trees. IsTrue (state S.Store self.old.table.conn).is_open
            → MayNumber self.old.base events.now self.old.counted
            (state S.Store self.old.table.conn) trees) }
    {
        if let Some(fault) = refusal(events) {
            return Err(NumbererFault::from(fault));
        }
        let Some(mut counted) = self.counted.take() else {
            return Err(NumbererFault::Store);
        };
        let answer = answer_all(self.alloc, &mut self.table, &mut counted, events)?;
        if answer.all_known {
            look_at(&mut self.table)?;
            self.counted = Some(counted);
            return Ok(answer.batch);
        }
        match self.table.keep(&answer.batch) {
            Ok(_) => {
                self.counted = Some(counted);
                Ok(answer.batch)
            }
            Err(fault) => Err(NumbererFault::from(fault)),
        }
    }

    /// Numbers the events of several lists, one list after the other, in one transaction that is
    /// synced, and answers each list as [`Numberer::number`] does. The time is that of `number` for
    /// all of them.
    ///
    /// It is refused as `number` is, and then nothing of any list is kept; the index of `Full` is
    /// that of the event in its list.
    pub fn number_each(&mut self, lists: &List<Events>) -> Result<List<Batch>, NumbererFault>
        requires { AllByRecursion AreBare lists.now }
        ensures each { IfOk result (AreNumberedEach lists.now) }
        ensures one_each { IfOk result (λ answers. length answers ≡ length lists.now) }
        ensures effect { NumberEachEffect self.old.base lists.now
            (state S.Store self.old.table.conn) (state S.Store self.new.table.conn)
            self.old.counted self.new.counted result }
        ensures leaves { HasCleanDisk (state S.Store self.new.table.conn)
            → LeavesNumbers (state S.Store self.old.table.conn)
            (state S.Store self.new.table.conn) (result) }
        ensures base { self.new.base ≡ self.old.base }
        ensures crash { Survives
            (state S.Store self.old.table.conn) (state S.Store self.new.table.conn)
            (λ trees. IsTrue (state S.Store self.old.table.conn).is_open
            → MayNumberEach self.old.base lists.now self.old.counted
            (state S.Store self.old.table.conn) trees) }
    {
        let Some(mut counted) = self.counted.take() else {
            return Err(NumbererFault::Store);
        };
        let answer = answer_each(self.alloc, &mut self.table, &mut counted, lists)?;
        if answer.all_known {
            look_at(&mut self.table)?;
            self.counted = Some(counted);
            return Ok(answer.batches);
        }
        match self.table.keep_each(&answer.batches) {
            Ok(_) => {
                self.counted = Some(counted);
                Ok(answer.batches)
            }
            Err(why) => Err(NumbererFault::from(why)),
        }
    }
}

/// The refusal of a numberer's opening that is one of the table.
fn not_made<S: Alter>(refused: NotMade<S>) -> NotOpened<S>
    ensures conn { result.conn ≡ refused.conn }
    ensures fault { result.fault ≡ of_table refused.fault }
{
    let NotMade { conn, fault } = refused;
    NotOpened {
        conn,
        fault: NumbererFault::from(fault),
    }
}
