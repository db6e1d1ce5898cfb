//! A stream of lines, numbered and answered turn by turn.

ghost use Rattle.std.specs.Prelude.{◌≡◌, IfErr, IfOk, IsTrue, OnOk, length};
ghost use Rattle.std.specs.List.{AllByRecursion};
ghost use Rattle.sqlite.specs.Held.{state};
ghost use Rattle.sqlite.specs.State.{HasCleanDisk, Survives};
ghost use Rattle.inbox_table.specs.Calls.{IsSettled};
ghost use Rattle.numbers.specs.Numbered.{AreBare};
ghost use Rattle.number_table.specs.Each.{MayNumberEach};
ghost use Rattle.number_lines.specs.Numbering.{Numbers, NumbersAll, NumbersTurn, NumbersUntil, StopsNumbering};
ghost use Rattle.databases.specs.Done.{OpenIfDone, SettledIfDone};

use crate::text::{fault_text, numbered_text};
use crate::turn::{Gathered, gather};
use attributes::Text;
use line_intake::{LineFault, Pending, put};
use number_table::{Numberer, NumbererFault};
use sqlite::Alter;
use std::alloc::Global;
use std::io::{Read, Write};
use thiserror::Error;

/// The most turns of a stream, which no input reaches: each has up to 65,536 lines.
const TURNS: u64 = 70_368_744_177_664;

/// Why a stream ended before its input.
#[derive(Clone, Copy, PartialEq, Eq, Debug, Drop, Error)]
pub enum NumberingFault {
    /// The input couldn't be read on.
    #[error("{0}")]
    Input(LineFault),
    /// The numberer refused lines, or memory for their answers was refused.
    #[error("{0}")]
    Numberer(NumbererFault),
    /// An answer, or why a line is refused, couldn't be written.
    #[error("unwritten")]
    Unwritten,
}

/// Numbers the events of gathered lines in one transaction, and then writes them with their numbers
/// on `out`, in one write, and why lines are refused on `err`. Only where memory for these texts is
/// wanted may events have their numbers without an answer; given again they get the same.
pub fn number_gathered<S: Alter + Drop, W: Write, E: Write>(
    alloc: Global,
    numberer: &mut Numberer<S>,
    gathered: &Gathered,
    out: &mut W,
    err: &mut E,
) -> Result<(), NumberingFault>
    requires even { length gathered.now.tells ≡ length gathered.now.lists }
    requires bare { AllByRecursion AreBare gathered.now.lists }
    ensures base { numberer.new.base ≡ numberer.old.base }
    ensures done { OnOk result (NumbersTurn numberer.old.base gathered.now.tells
        gathered.now.lists (state S.Store numberer.old.table.conn)
        (state S.Store numberer.new.table.conn) numberer.old.counted numberer.new.counted
        (W.contents out.old) (W.contents out.new) (E.contents err.old) (E.contents err.new)) }
    ensures stops { IfErr result (λ f. StopsNumbering f numberer.old.base gathered.now.tells
        gathered.now.lists (state S.Store numberer.old.table.conn)
        (state S.Store numberer.new.table.conn) numberer.old.counted numberer.new.counted
        (W.contents out.old) (W.contents out.new) (E.contents err.old) (E.contents err.new)) }
    ensures open { OpenIfDone (state S.Store numberer.new.table.conn) result }
    ensures settled { SettledIfDone (state S.Store numberer.new.table.conn) result }
    ensures crash { Survives
        (state S.Store numberer.old.table.conn) (state S.Store numberer.new.table.conn)
        (λ trees. IsTrue (state S.Store numberer.old.table.conn).is_open
        → MayNumberEach numberer.old.base gathered.now.lists numberer.old.counted
        (state S.Store numberer.old.table.conn) trees) }
{
    let answers = match numberer.number_each(&gathered.lists) {
        Ok(answers) => answers,
        Err(fault) => return Err(NumberingFault::Numberer(fault)),
    };
    let text = match numbered_text(alloc, &gathered.tells, &answers) {
        Ok(text) => text,
        Err(_) => return Err(NumberingFault::Numberer(NumbererFault::OutOfMemory)),
    };
    let faults = match fault_text(alloc, &gathered.tells) {
        Ok(text) => text,
        Err(_) => return Err(NumberingFault::Numberer(NumbererFault::OutOfMemory)),
    };
    match put(out, text.as_str().as_bytes()) {
        Ok(()) => {}
        Err(_) => return Err(NumberingFault::Unwritten),
    }
    match put(err, faults.as_str().as_bytes()) {
        Ok(()) => Ok(()),
        Err(_) => Err(NumberingFault::Unwritten),
    }
}

/// Numbers the events of an input's lines to its end, each line an event or a batch, and writes each
/// line's events with their numbers on `out` as a batch, once they are kept; answers how many lines
/// were refused. Of these it says on `err` why. In each turn the lines that stand whole in what was
/// read are numbered in one transaction, and then written in one write, so that whoever reads an
/// event with its number has the number that it will always have. The number of an event that has
/// one already is set aside under the name, where one is given. Memory for the lines of a turn.
pub fn number_lines<S: Alter + Drop, R: Read, W: Write, E: Write>(
    alloc: Global,
    numberer: &mut Numberer<S>,
    aside: &Option<Text>,
    input: &mut R,
    out: &mut W,
    err: &mut E,
) -> Result<u64, NumberingFault>
    ensures base { numberer.new.base ≡ numberer.old.base }
    ensures all { IfOk result (λ faults. NumbersAll aside.now (λ lists answers.
        Numbers numberer.old.base lists answers (state S.Store numberer.old.table.conn)
        (state S.Store numberer.new.table.conn) numberer.old.counted numberer.new.counted)
        faults (R.remaining input.old) (W.contents out.old) (W.contents out.new)
        (E.contents err.old) (E.contents err.new)) }
    ensures until { IfErr result (λ f. NumbersUntil aside.now (λ lists answers.
        Numbers numberer.old.base lists answers (state S.Store numberer.old.table.conn)
        (state S.Store numberer.new.table.conn) numberer.old.counted numberer.new.counted)
        f (R.remaining input.old) (W.contents out.old) (W.contents out.new)
        (E.contents err.old) (E.contents err.new)) }
    ensures clean { HasCleanDisk (state S.Store numberer.new.table.conn)
        → HasCleanDisk (state S.Store numberer.old.table.conn) }
    ensures open { OpenIfDone (state S.Store numberer.new.table.conn) result }
    ensures settled { SettledIfDone (state S.Store numberer.new.table.conn) result }
{
    let mut pending = Pending::empty(alloc);
    let mut lines = 0u64;
    let mut faults = 0u64;
    for _ in 0..TURNS {
        let part = match gather(alloc, input, &mut pending, lines, aside) {
            Ok(part) => part,
            Err(why) => return Err(NumberingFault::Input(why)),
        };
        match number_gathered(alloc, numberer, &part.gathered, out, err) {
            Ok(()) => {}
            Err(fault) => return Err(fault),
        }
        lines = part.gathered.lines;
        faults = faults + part.gathered.faults();
        if part.is_over {
            return Ok(faults);
        }
    }
    Err(NumberingFault::Input(LineFault::CannotRead))
}
