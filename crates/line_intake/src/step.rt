//! One transaction of a stream, and its acknowledgement.

ghost use Rattle.std.specs.Prelude.{◌≡◌, ◌⊎◌, ℕ, List, length, IfErr, IfOk, IsTrue, OnOk};
ghost use Rattle.std.specs.Io.KnownBytes.{Appends, Keeps};
ghost use Rattle.sqlite.specs.Held.{state};
ghost use Rattle.sqlite.specs.State.{HasCleanDisk, Survives};
ghost use Rattle.inbox_table.specs.Calls.{MayTake, joined};
ghost use Rattle.inbox_table.specs.Fault.{IsOfStore};
ghost use Rattle.inbox_table.specs.declared.fault.TableFault.TheVariants.{OutOfMemory};
ghost use Rattle.line_intake.specs.Answers.{answers_text};
ghost use Rattle.line_intake.specs.Follow.{AreLinesKept, StopsTurn};

use crate::answer::answers;
use crate::line::LineFault;
use crate::turn::Gathered;
use crate::writing::put;
use attributes::Text;
use inbox_table::{Table, TableFault};
use sqlite::Alter;
use std::alloc::Global;
use std::io::Write;
use thiserror::Error;

/// Why a stream ended before its input.
#[derive(Clone, Copy, PartialEq, Eq, Debug, Error)]
pub enum FollowFault {
    /// The input couldn't be read on.
    #[error("{0}")]
    Input(LineFault),
    /// The table refused lines, or memory for their acknowledgements was refused.
    #[error("{0}")]
    Table(TableFault),
    /// An acknowledgement couldn't be written.
    #[error("unwritten")]
    Unwritten,
}

/// Keeps the events of an input's lines in a table, in one transaction, and answers the
/// acknowledgements. Only where memory for these is wanted may the events be in without an answer.
pub fn keep_lines<S: Alter>(
    alloc: Global,
    table: &mut Table<S>,
    gathered: &Gathered,
) -> Result<Text, TableFault>
    requires { length gathered.now.tells ≡ length gathered.now.lists }
    ensures kept { IfOk result (λ text. (each : List ℕ)
        × (length each ≡ length gathered.now.lists)
        × (text ≡ answers_text gathered.now.tells gathered.now.lists each)
        × (HasCleanDisk (state S.Store table.new.conn) → AreLinesKept gathered.now.lists each
        (state S.Store table.old.conn).now (state S.Store table.new.conn))) }
    ensures fault { IfErr result IsOfStore }
    ensures left { HasCleanDisk (state S.Store table.new.conn)
        → IsTrue (state S.Store table.new.conn).is_open → IfErr result (λ f.
        ((state S.Store table.new.conn).now ≡ (state S.Store table.old.conn).now)
        ⊎ ((f ≡ OutOfMemory) × (each : List ℕ) × AreLinesKept gathered.now.lists each
        (state S.Store table.old.conn).now (state S.Store table.new.conn))) }
    ensures crash { Survives (state S.Store table.old.conn) (state S.Store table.new.conn)
        (λ trees. IsTrue (state S.Store table.old.conn).is_open
        → MayTake (joined gathered.now.lists) (state S.Store table.old.conn).now trees) }
{
    match table.keep_each(&gathered.lists) {
        Ok(each) => match answers(alloc, &gathered.tells, &gathered.lists, &each) {
            Ok(text) => Ok(text),
            Err(_) => Err(TableFault::OutOfMemory),
        },
        Err(fault) => Err(fault),
    }
}

/// Keeps the events of lines, and then writes the lines' acknowledgements, in one write.
pub fn acknowledge<S: Alter, W: Write>(
    alloc: Global,
    table: &mut Table<S>,
    gathered: &Gathered,
    out: &mut W,
) -> Result<(), FollowFault>
    requires { length gathered.now.tells ≡ length gathered.now.lists }
    ensures kept { OnOk result ((each : List ℕ) × (length each ≡ length gathered.now.lists)
        × Appends (W.contents out.old) (W.contents out.new)
        (answers_text gathered.now.tells gathered.now.lists each)
        × (HasCleanDisk (state S.Store table.new.conn) → AreLinesKept gathered.now.lists each
        (state S.Store table.old.conn).now (state S.Store table.new.conn))) }
    ensures stops { IfErr result (λ f. StopsTurn f gathered.now.tells gathered.now.lists
        (state S.Store table.old.conn).now (state S.Store table.new.conn)
        (W.contents out.old) (W.contents out.new)) }
    ensures crash { Survives (state S.Store table.old.conn) (state S.Store table.new.conn)
        (λ trees. IsTrue (state S.Store table.old.conn).is_open
        → MayTake (joined gathered.now.lists) (state S.Store table.old.conn).now trees) }
{
    match keep_lines(alloc, table, gathered) {
        Ok(text) => match put(out, text.as_str().as_bytes()) {
            Ok(()) => Ok(()),
            Err(_) => Err(FollowFault::Unwritten),
        },
        Err(fault) => Err(FollowFault::Table(fault)),
    }
}
