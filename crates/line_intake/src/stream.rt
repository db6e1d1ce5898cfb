//! A stream of lines, kept and acknowledged turn by turn.

ghost use Rattle.std.specs.Prelude.{IfErr, IfOk, IsTrue, OnOk};
ghost use Rattle.sqlite.specs.Held.{state};
ghost use Rattle.sqlite.specs.State.{HasCleanDisk};
ghost use Rattle.inbox_table.specs.Beside.{KeepsServiceBeside};
ghost use Rattle.inbox_table.specs.Calls.{IsSettled};
ghost use Rattle.line_intake.specs.Acknowledged.{TellsAll, TellsUntil};
ghost use Rattle.line_intake.specs.Follow.{IsFollowed, KeepsTurns, StopsStream};

use crate::line::{LineFault, Pending};
use crate::step::{FollowFault, acknowledge};
use crate::turn::gather;
use inbox_table::Table;
use sqlite::Alter;
use std::alloc::Global;
use std::io::{Read, Write};

/// The most turns of a stream, which no input reaches: each has up to 65,536 lines.
const TURNS: u64 = 70_368_744_177_664;

/// Takes the lines of an input into a table to its end, and acknowledges each on `out`; answers how
/// many lines were at fault. In each turn the lines that stand whole in what was read are kept in
/// one transaction, and then their acknowledgements are written in one write, so that whoever reads
/// them knows what no crash takes back. A service beside the table stays as it is, also where the
/// stream stops before the input's end. Memory for the lines of a turn.
pub fn follow<S: Alter, R: Read, W: Write>(
    alloc: Global,
    table: &mut Table<S>,
    input: &mut R,
    out: &mut W,
) -> Result<u64, FollowFault>
    ensures followed { IfOk result (λ faults. IsFollowed
        (record { lines = 0; left = R.remaining input.old; out = W.contents out.old })
        (W.contents out.new) faults (λ turns. HasCleanDisk (state S.Store table.new.conn)
        → KeepsTurns turns (state S.Store table.old.conn).now (state S.Store table.new.conn).now)) }
    ensures settled { HasCleanDisk (state S.Store table.new.conn)
        → OnOk result (IsSettled (state S.Store table.new.conn)) }
    ensures stops { IfErr result (λ f. StopsStream
        (record { lines = 0; left = R.remaining input.old; out = W.contents out.old })
        (λ trees. IsTrue (state S.Store table.old.conn).is_open
        → (state S.Store table.old.conn).may_leave trees)
        (W.contents out.new) (state S.Store table.new.conn) f
        (λ turns mid. HasCleanDisk (state S.Store table.new.conn)
        → KeepsTurns turns (state S.Store table.old.conn).now mid)) }
    ensures clean { HasCleanDisk (state S.Store table.new.conn)
        → HasCleanDisk (state S.Store table.old.conn) }
    ensures beside { HasCleanDisk (state S.Store table.new.conn)
        → IsTrue (state S.Store table.new.conn).is_open
        → KeepsServiceBeside (state S.Store table.old.conn).now (state S.Store table.new.conn).now }
    ensures told { IfOk result
        (TellsAll (R.remaining input.old) (W.contents out.old) (W.contents out.new)) }
    ensures until { IfErr result (λ f.
        TellsUntil f (R.remaining input.old) (W.contents out.old) (W.contents out.new)) }
{
    let mut pending = Pending::empty(alloc);
    let mut lines = 0u64;
    let mut faults = 0u64;
    for _ in 0..TURNS {
        let part = match gather(alloc, input, &mut pending, lines) {
            Ok(part) => part,
            Err(why) => return Err(FollowFault::Input(why)),
        };
        match acknowledge(alloc, table, &part.gathered, out) {
            Ok(()) => {}
            Err(fault) => return Err(fault),
        }
        lines = part.gathered.lines;
        faults = faults + part.gathered.faults();
        if part.is_over {
            return Ok(faults);
        }
    }
    Err(FollowFault::Input(LineFault::CannotRead))
}
