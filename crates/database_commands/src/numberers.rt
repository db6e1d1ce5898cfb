//! Numberers in the files of the operating system.
ghost use Rattle.std.specs.Prelude.{IfErr, IfOk, IsErrOf};
ghost use Rattle.sqlite_wal.specs.Files.{image_at};
ghost use Rattle.number_table.specs.Each.{AreNumberedEach};
ghost use Rattle.number_lines.specs.Numbering.{NumbersAll, NumbersSome, NumbersUntil};
ghost use Rattle.number_lines.specs.Over.{NumbersOver};
ghost use Rattle.database_commands.specs.OfFile.{DoesOver, IsOver};

use crate::opener::Opener;
use attributes::Text;
use databases::CommandFault;
use number_lines::{NumberEnd, NumberedStream, Numberers, number_over};
use sqlite::Connection;
use sqlite_disk::Start;
use sqlite_std_file::FileFrom;
use sqlite_store::FileStore;
use std::alloc::Global;
use std::io::{Read, Write};

/// How many bytes a stream is taken to add, for the size of the cache alone.
const STREAM_GROWTH: u64 = 16_777_216;

/// [`number_over`] of a database where it was opened by its name.
pub fn number_opened<T: Start, R: Read, W: Write, E: Write>(
    alloc: Global,
    opened: Result<Connection<FileStore<FileFrom<T>>>, CommandFault>,
    base: u64,
    aside: &Option<Text>,
    input: &mut R,
    out: &mut W,
    err: &mut E,
) -> Result<NumberedStream<FileStore<FileFrom<T>>>, CommandFault>
    requires { IfOk opened (IsOver (image_at T.Start)) }
    ensures did { IfOk result (λ s. DoesOver (image_at T.Start)
        (NumbersOver aside.now base (R.remaining input.old) (R.remaining input.new)
        (W.contents out.old) (W.contents out.new) (E.contents err.old) (E.contents err.new)
        s.outcome) s.conn) }
    ensures all { IfOk result (λ s. IfOk s.outcome (λ faults. NumbersAll aside.now AreNumberedEach
        faults (R.remaining input.old) (W.contents out.old) (W.contents out.new)
        (E.contents err.old) (E.contents err.new))) }
    ensures until { IfOk result (λ s. IfErr s.outcome (λ f. NumbersUntil aside.now AreNumberedEach f
        (R.remaining input.old) (W.contents out.old) (W.contents out.new)
        (E.contents err.old) (E.contents err.new))) }
    ensures refused { IfErr result (IsErrOf opened) }
    ensures unopened { IfErr result (λ _. NumbersSome aside.now AreNumberedEach
        (R.remaining input.old) (W.contents out.old) (W.contents out.new)
        (E.contents err.old) (E.contents err.new)) }
{
    match opened {
        Ok(conn) => Ok(number_over(alloc, conn, base, aside, input, out, err)),
        Err(fault) => Err(fault),
    }
}

impl<'a> Numberers for Opener<'a> {
    fn number<R: Read, W: Write, E: Write>(
        &self,
        alloc: Global,
        name: &str,
        base: u64,
        aside: &Option<Text>,
        input: &mut R,
        out: &mut W,
        err: &mut E,
    ) -> Result<u64, NumberEnd> {
        let opened = self.open(name, STREAM_GROWTH);
        match number_opened(alloc, opened, base, aside, input, out, err) {
            Ok(stream) => {
                let NumberedStream { conn, outcome } = stream;
                let _closed = conn.close();
                match outcome {
                    Ok(faults) => Ok(faults),
                    Err(why) => Err(NumberEnd::Stream(why)),
                }
            }
            Err(why) => Err(NumberEnd::Database(why)),
        }
    }
}
