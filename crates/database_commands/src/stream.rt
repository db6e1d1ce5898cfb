//! Lines that come into a database, each acknowledged when it is kept.
ghost use Rattle.std.specs.Prelude.{◌≡◌, ◌⊎◌, Err, IfErr, IfOk, MatchResult, Ok};
ghost use Rattle.std.specs.Io.Buffered.{reader_remaining};
ghost use Rattle.std.specs.Io.KnownBytes.{Keeps};
ghost use Rattle.sqlite.specs.Held.{state};
ghost use Rattle.sqlite.specs.State.{HasCleanDisk};
ghost use Rattle.line_intake.specs.Acknowledged.{TellsAll};
ghost use Rattle.line_intake.specs.Follow.{IsFollowed};
ghost use Rattle.databases.specs.Fault.{of_follow};
ghost use Rattle.databases.specs.Streams.{AcknowledgesUntil, HoldsTurns, StaysUnread, StopsInto};
ghost use Rattle.databases.specs.Done.{LeavesRows, SettledIfDone};

use crate::intake::adopted;
use databases::{StreamFault, of_table};
use inbox_table::{NotMade, Unwatched};
use line_intake::{FollowFault, LineFault};
use sqlite::{Alter, Connection};
use std::alloc::Global;
use std::io::{BufRead, BufReader, Read, Write};

/// The most bytes of an input that are read before its database is opened, 64 KiB.
const FIRST: usize = 65_536;

/// A stream that came to its end: the connection, and how many lines were at fault, or why it ended
/// before its input.
#[derive(Drop)]
pub struct Streamed<S: Alter + Drop> {
    pub conn: Connection<S>,
    pub outcome: Result<u64, StreamFault>,
}

/// The fault of a command over a database that one of a stream over its table is.
fn of_follow(fault: FollowFault) -> StreamFault
    ensures { result ≡ of_follow fault }
{
    match fault {
        FollowFault::Input(why) => StreamFault::Input(why),
        FollowFault::Table(why) => StreamFault::Database(of_table(why)),
        FollowFault::Unwritten => StreamFault::Unwritten,
    }
}

/// What a stream over a database's table came to, as that of a command.
fn outcome_of(ended: Result<u64, FollowFault>) -> Result<u64, StreamFault>
    ensures { MatchResult ended (λ faults. result ≡ Ok faults) (λ f. result ≡ Err (of_follow f)) }
{
    match ended {
        Ok(faults) => Ok(faults),
        Err(fault) => Err(of_follow(fault)),
    }
}

/// Waits for the first bytes of an input to a database, or for its end. Nothing is lost: what is
/// read of the answer is what the input had.
pub(crate) fn begun<'a, R: Read>(
    alloc: Global,
    input: &'a mut R,
) -> Result<BufReader<&'a mut R>, LineFault>
    ensures { IfOk result (λ lines. Keeps (R.remaining input.old)
        (reader_remaining (λ r. R.remaining r.now) lines)) }
{
    let mut lines = match BufReader::with_capacity(alloc, FIRST, input) {
        Ok(reader) => reader,
        Err(_) => return Err(LineFault::OutOfMemory),
    };
    match lines.fill_buf() {
        Ok(_) => {}
        Err(_) => return Err(LineFault::CannotRead),
    }
    Ok(lines)
}

/// Takes the lines of an input into a database to the input's end, and acknowledges each on `out`
/// once its events are kept, as [`line_intake::follow`]. The table is made where there is none,
/// before anything is read; where it isn't to be had, nothing is read or written. A service beside
/// the inbox stays as it is, also where the stream stops. Memory for the lines of one transaction.
pub fn follow<S: Alter + Drop, R: Read, W: Write>(
    alloc: Global,
    conn: Connection<S>,
    input: &mut R,
    out: &mut W,
) -> Streamed<S>
    ensures followed { IfOk result.outcome (λ faults. IsFollowed
        (record { lines = 0; left = R.remaining input.old; out = W.contents out.old })
        (W.contents out.new) faults (λ turns. HasCleanDisk (state S.Store result.conn)
        → HoldsTurns turns (state S.Store conn).now (state S.Store result.conn).now)) }
    ensures settled { SettledIfDone (state S.Store result.conn) result.outcome }
    ensures stops { IfErr result.outcome (λ f. StaysUnread (R.remaining input.old)
        (R.remaining input.new) (W.contents out.old) (W.contents out.new)
        (state S.Store conn) (state S.Store result.conn) f ⊎ StopsInto
        (record { lines = 0; left = R.remaining input.old; out = W.contents out.old })
        (W.contents out.new) (state S.Store conn) (state S.Store result.conn) f) }
    ensures beside { LeavesRows (state S.Store conn) (state S.Store result.conn) }
    ensures clean { HasCleanDisk (state S.Store result.conn) → HasCleanDisk (state S.Store conn) }
    ensures told { IfOk result.outcome
        (TellsAll (R.remaining input.old) (W.contents out.old) (W.contents out.new)) }
    ensures until { IfErr result.outcome (λ f. AcknowledgesUntil f
        (R.remaining input.old) (W.contents out.old) (W.contents out.new)) }
{
    match adopted(alloc, conn, &Unwatched) {
        Ok(mut table) => {
            let ended = line_intake::follow(alloc, &mut table, input, out);
            let conn = table.into_connection();
            let outcome = outcome_of(ended);
            Streamed { conn, outcome }
        }
        Err(refused) => {
            let NotMade { conn, fault } = refused;
            let outcome = Err(StreamFault::Database(of_table(fault)));
            Streamed { conn, outcome }
        }
    }
}
