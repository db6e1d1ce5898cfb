//! A stream of lines over a connection: its numberer is opened, or made where there is none.

ghost use Rattle.std.specs.Prelude.{IfErr, IfOk};
ghost use Rattle.sqlite.specs.Held.{state};
ghost use Rattle.sqlite.specs.State.{HasCleanDisk};
ghost use Rattle.number_table.specs.Each.{AreNumberedEach};
ghost use Rattle.number_lines.specs.Numbering.{NumbersAll, NumbersUntil};
ghost use Rattle.number_lines.specs.Over.{NumbersOver};

use crate::stream::{NumberingFault, number_lines};
use attributes::Text;
use number_table::{NotOpened, Numberer};
use sqlite::{Alter, Connection};
use std::alloc::Global;
use std::io::{Read, Write};

/// A stream that came to its end: the connection, and how many lines were refused, or why it ended
/// before its input.
#[derive(Drop)]
pub struct NumberedStream<S: Alter + Drop> {
    pub conn: Connection<S>,
    pub outcome: Result<u64, NumberingFault>,
}

/// [`number_lines`] by the numberer of a database, whose sources begin behind the base; it is made
/// where there is none, before anything is read. Where it isn't to be had, nothing is read or
/// written. Time to open it in proportion to its rows, and memory too, of which little stays;
/// further memory for the lines of a turn.
pub fn number_over<S: Alter + Drop, R: Read, W: Write, E: Write>(
    alloc: Global,
    conn: Connection<S>,
    base: u64,
    aside: &Option<Text>,
    input: &mut R,
    out: &mut W,
    err: &mut E,
) -> NumberedStream<S>
    ensures did { NumbersOver aside.now base (R.remaining input.old) (R.remaining input.new)
        (W.contents out.old) (W.contents out.new) (E.contents err.old) (E.contents err.new)
        result.outcome (state S.Store conn) (state S.Store result.conn) }
    ensures clean { HasCleanDisk (state S.Store result.conn)
        → HasCleanDisk (state S.Store conn) }
    ensures all { IfOk result.outcome (λ faults. NumbersAll aside.now AreNumberedEach faults
        (R.remaining input.old) (W.contents out.old) (W.contents out.new)
        (E.contents err.old) (E.contents err.new)) }
    ensures until { IfErr result.outcome (λ f. NumbersUntil aside.now AreNumberedEach f
        (R.remaining input.old) (W.contents out.old) (W.contents out.new)
        (E.contents err.old) (E.contents err.new)) }
{
    match Numberer::open(alloc, conn, base) {
        Ok(mut numberer) => {
            let outcome = number_lines(alloc, &mut numberer, aside, input, out, err);
            let Numberer { table, .. } = numberer;
            NumberedStream {
                conn: table.into_connection(),
                outcome,
            }
        }
        Err(refused) => {
            let NotOpened { conn, fault } = refused;
            NumberedStream {
                conn,
                outcome: Err(NumberingFault::Numberer(fault)),
            }
        }
    }
}
