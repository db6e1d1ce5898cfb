//! The command that keeps lines as they come, and acknowledges each.
ghost use Rattle.std.specs.Prelude.{◌≡◌, MatchResult};
ghost use Rattle.site_commands.specs.Endings.{EndsStream};
ghost use Rattle.site_commands.specs.Streams.{EndsSo, end_at, end_of_stream, unread_of};

use crate::ending::{DONE, REFUSED, say};
use crate::files::{Looks, Streams};
use crate::hint::hint_of;
use crate::line::Refusal;
use crate::names::Names;
use crate::progress::Progress;
use command_words::Follow;
use databases::{Databases, StreamFault};
use event_files::{Unread, UnreadAt};
use line_intake::LineFault;
use std::alloc::Global;
use std::io::Write;

/// How a stream ended.
#[derive(Clone, Copy, PartialEq, Eq, Debug)]
pub enum StreamEnd {
    /// At the end of its input, and no line was at fault.
    Done,
    /// So that a line on standard error says it.
    Refused(Refusal),
    /// An acknowledgement couldn't be written, and nothing more is.
    Unwritten,
}

/// Keeps the lines of a file in a database as they come, and acknowledges each on `out` once it is
/// kept; answers the status. What is wrong is said on `err`, once nothing more is acknowledged or
/// told.
pub fn follow<S: Streams + Looks, D: Databases + Drop, O: Write, E: Write, P: Progress>(
    alloc: Global,
    shelf: &S,
    databases: &D,
    plan: &Follow,
    out: &mut O,
    err: &mut E,
    progress: &P,
) -> u8
    ensures { EndsStream (S.is_content shelf.now) (S.is_unread shelf.now) plan.now result
        (O.contents out.old) (O.contents out.new) (E.contents err.old) (E.contents err.new) }
{
    let end = kept(
        alloc,
        shelf,
        databases,
        plan.db.as_str(),
        plan.file.as_str(),
        out,
    );
    progress.over();
    match end {
        StreamEnd::Done => DONE,
        StreamEnd::Refused(refusal) => {
            let names = Names::of_follow(plan);
            let hint = hint_of(alloc, shelf, databases, progress, names, refusal);
            say(alloc, names, refusal, hint, err, progress)
        }
        StreamEnd::Unwritten => REFUSED,
    }
}

/// Keeps the lines of a file in a database, and acknowledges each on `out`. The file is opened
/// before the database is.
fn kept<S: Streams, D: Databases, O: Write>(
    alloc: Global,
    shelf: &S,
    databases: &D,
    db: &str,
    file: &str,
    out: &mut O,
) -> StreamEnd
    ensures { EndsSo (S.is_content shelf.now) (S.is_unread shelf.now) file.now result
        (O.contents out.old) (O.contents out.new) }
{
    match shelf.open(file) {
        Ok(mut input) => {
            let ended = databases.follow(alloc, db, &mut input, out);
            end(ended)
        }
        Err(why) => StreamEnd::Refused(Refusal::Unread(UnreadAt { file: 0, why })),
    }
}

/// How a stream ended for the command `follow`: lines at fault are a refusal.
fn end(ended: Result<u64, StreamFault>) -> StreamEnd
    ensures { MatchResult ended (λ faults. result ≡ end_of_stream faults) (λ why. result ≡ end_at why) }
{
    match ended {
        Ok(faults) => end_of(faults),
        Err(StreamFault::Input(why)) => StreamEnd::Refused(Refusal::Unread(unread_of(why))),
        Err(StreamFault::Database(why)) => StreamEnd::Refused(Refusal::Database(why)),
        Err(StreamFault::Unwritten) => StreamEnd::Unwritten,
    }
}

/// How a command's stream ended that came to the end of its input, with so many lines at fault.
#[tactic(auto, using(crate::proofs::StreamLemmas::end_of_some))]
pub fn end_of(faults: u64) -> StreamEnd
    ensures { result ≡ end_of_stream faults }
{
    if faults == 0 {
        return StreamEnd::Done;
    }
    StreamEnd::Refused(Refusal::Lines(faults))
}

/// A command's input that couldn't be read on, as a file that wasn't read.
pub fn unread_of(why: LineFault) -> UnreadAt
    ensures { result ≡ unread_of why }
{
    match why {
        LineFault::OutOfMemory => UnreadAt {
            file: 0,
            why: Unread::OutOfMemory,
        },
        LineFault::CannotRead => UnreadAt {
            file: 0,
            why: Unread::CannotRead,
        },
    }
}
