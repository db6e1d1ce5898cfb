//! Numberers by the names of their files.
ghost use Rattle.std.specs.Prelude.{IfErr, IfOk};
ghost use Rattle.number_table.specs.Each.{AreNumberedEach};
ghost use Rattle.number_lines.specs.Numbering.{NumbersAll};
ghost use Rattle.number_lines.specs.Over.{EndsSome};

use crate::stream::NumberingFault;
use attributes::Text;
use databases::CommandFault;
use std::alloc::Global;
use std::io::{Read, Write};
use thiserror::Error;

/// Why a stream of lines that are to be numbered ended before its input.
#[derive(Clone, Copy, PartialEq, Eq, Debug, Drop, Error)]
pub enum NumberEnd {
    /// The database couldn't be opened.
    #[error("{0}")]
    Database(CommandFault),
    /// The stream ended so over it.
    #[error("{0}")]
    Stream(NumberingFault),
}

/// Numberers by the names of their files. What an answer is for what a file held, the clauses of
/// [`crate::number_over`] say.
pub trait Numberers {
    /// [`crate::number_over`] of the file of that name, which is made where there is none, and closed in
    /// the end; what was numbered stays, also where the closing fails.
    fn number<R: Read, W: Write, E: Write>(
        &self,
        alloc: Global,
        name: &str,
        base: u64,
        aside: &Option<Text>,
        input: &mut R,
        out: &mut W,
        err: &mut E,
    ) -> Result<u64, NumberEnd>
        ensures all { IfOk result (λ faults. NumbersAll aside.now AreNumberedEach faults
            (R.remaining input.old) (W.contents out.old) (W.contents out.new)
            (E.contents err.old) (E.contents err.new)) }
        ensures until { IfErr result (λ f. EndsSome aside.now f
            (R.remaining input.old) (W.contents out.old) (W.contents out.new)
            (E.contents err.old) (E.contents err.new)) };
}
