//! The commands over the files of a database, by their name, whatever the files held. Where the
//! database can't be opened, there is the fault alone and no connection, and each clause `refused`
//! says what is left of the files: an opening may make a file and play a log back. Once it is open,
//! each clause `did` says all that the command may do over a connection, also where it is refused.
ghost use Rattle.std.specs.Prelude.{◌≡◌, Err, IfErr, IfOk, IsErrOf, IsOk, MatchResult};
ghost use Rattle.sqlite_wal.specs.Files.{image_at};
ghost use Rattle.line_intake.specs.Acknowledged.{TellsAll};
ghost use Rattle.databases.specs.Described.{SaysDatabase};
ghost use Rattle.database_commands.specs.Effect.{DescribeEffect};
ghost use Rattle.databases.specs.Name.{IsNoFile};
ghost use Rattle.database_commands.specs.OfFile.{DoesOver, IsOver, RefusesCommand, RefusesLook};
ghost use Rattle.databases.specs.Streams.{AcknowledgesUntil, FollowsOver};
ghost use Rattle.databases.specs.declared.trouble.Trouble.TheVariants as trouble;

use crate::command::{Command, CommandEnd};
use crate::commands::Describe;
use crate::file::{found, open_over, open_there};
use crate::stream::{Streamed, begun, follow};
use attributes::Text;
use databases::{CommandFault, StreamFault, Trouble};
use sqlite::Connection;
use sqlite_disk::Start;
use sqlite_std_file::FileFrom;
use sqlite_store::FileStore;
use std::alloc::Global;
use std::io::{Read, Write};

/// How many bytes a stream is taken to add for each that its first read brings, for the size of the
/// cache alone, which is made whole when the file is opened. One line of one event and then a wait
/// brings some 200 bytes and so room for 2 MB; a stream that is sent without waiting a page of 100
/// events or more, and so room for 180 MB or all that a cache may have.
const STREAM_GROWTH: u64 = 8_192;

/// About how many bytes a stream adds to a database that begins with these, for its cache alone.
pub(crate) fn growth_of(first: &[u8]) -> u64 {
    (first.len() as u64).saturating_mul(STREAM_GROWTH)
}

/// Gives a command to a database where it was opened by its name.
pub(crate) fn performed<T: Start, C: Command + Drop, F: Drop>(
    alloc: Global,
    opened: Result<Connection<FileStore<FileFrom<T>>>, F>,
    command: C,
) -> Result<CommandEnd<FileStore<FileFrom<T>>, C::Answer>, F>
    requires come { C.may_come command }
    requires over { IfOk opened (IsOver (image_at T.Start)) }
    ensures did { IfOk result (λ e.
        DoesOver (image_at T.Start) (C.does command e.outcome) e.conn) }
    ensures line { IfOk result (λ e. IfOk e.outcome (C.says command)) }
    ensures fault { IfOk result (λ e. IfErr e.outcome (C.fails command)) }
    ensures refused { MatchResult opened (λ _. IsOk result) (λ why. result ≡ Err why) }
{
    match opened {
        Ok(conn) => Ok(command.perform(alloc, conn)),
        Err(fault) => Err(fault),
    }
}

/// Gives a command to the database of that name, which is made where there is none. `growth` is
/// about how many bytes of events it will add, for what is kept in memory alone.
pub fn perform_named<T: Start, C: Command + Drop>(
    rt: &HostRuntime,
    alloc: Global,
    name: &str,
    growth: u64,
    start: T,
    command: C,
) -> Result<CommandEnd<FileStore<FileFrom<T>>, C::Answer>, CommandFault>
    requires { C.may_come command }
    ensures did { IfOk result (λ e.
        DoesOver (image_at T.Start) (C.does command e.outcome) e.conn) }
    ensures line { IfOk result (λ e. IfOk e.outcome (C.says command)) }
    ensures refused { RefusesCommand (image_at T.Start) result }
{
    performed(alloc, open_over(rt, name, growth, start), command)
}

/// Gives a command to the database of that name; one that isn't there is not made: `CannotRead`.
pub fn perform_there<T: Start, C: Command + Drop>(
    rt: &HostRuntime,
    alloc: Global,
    name: &str,
    start: T,
    command: C,
) -> Result<CommandEnd<FileStore<FileFrom<T>>, C::Answer>, CommandFault>
    requires { C.may_come command }
    ensures did { IfOk result (λ e.
        DoesOver (image_at T.Start) (C.does command e.outcome) e.conn) }
    ensures line { IfOk result (λ e. IfOk e.outcome (C.says command)) }
    ensures refused { RefusesCommand (image_at T.Start) result }
{
    performed(alloc, open_there(rt, name, start), command)
}

/// [`Describe`] of the database of that name, with what is the matter where it can't be opened; one
/// that isn't there is not made.
pub fn describe_named<T: Start>(
    rt: &HostRuntime,
    alloc: Global,
    name: &str,
    start: T,
) -> Result<CommandEnd<FileStore<FileFrom<T>>, Text>, Trouble>
    ensures did { IfOk result (λ e. DoesOver (image_at T.Start)
        (DescribeEffect name.now e.outcome) e.conn) }
    ensures line { IfOk result (λ e. IfOk e.outcome (SaysDatabase name.now)) }
    ensures refused { RefusesLook (image_at T.Start) result }
    ensures none { IsNoFile name.now → IsErrOf result trouble.NoFile }
    ensures name { IfErr result (λ why. why ≡ trouble.NoFile → IsNoFile name.now) }
{
    performed(alloc, found(rt, name, start), Describe { name })
}

/// [`follow`] into the database of that name, which is made where there is none, once the first
/// bytes of the input are there.
pub fn follow_named<T: Start, R: Read, W: Write>(
    rt: &HostRuntime,
    alloc: Global,
    name: &str,
    start: T,
    input: &mut R,
    out: &mut W,
) -> Result<Streamed<FileStore<FileFrom<T>>>, StreamFault>
    ensures did { IfOk result (λ s. DoesOver (image_at T.Start)
        (FollowsOver (R.remaining input.old) (W.contents out.old) (W.contents out.new) s.outcome)
        s.conn) }
    ensures told { IfOk result (λ s. IfOk s.outcome
        (TellsAll (R.remaining input.old) (W.contents out.old) (W.contents out.new))) }
    ensures until { IfOk result (λ s. IfErr s.outcome (λ f. AcknowledgesUntil f
        (R.remaining input.old) (W.contents out.old) (W.contents out.new))) }
    ensures unopened { IfErr result (λ f. AcknowledgesUntil f
        (R.remaining input.old) (W.contents out.old) (W.contents out.new)) }
{
    let mut lines = match begun(alloc, input) {
        Ok(lines) => lines,
        Err(why) => return Err(StreamFault::Input(why)),
    };
    match open_over(rt, name, growth_of(lines.buffer()), start) {
        Ok(conn) => Ok(follow(alloc, conn, &mut lines, out)),
        Err(fault) => Err(StreamFault::Database(fault)),
    }
}
