//! The command that numbers the events of lines as they come, and prints each once it is kept.
ghost use Rattle.std.specs.Prelude.{◌≡◌, MatchResult};
ghost use Rattle.site_program.specs.Numbers.{EndsNumbers, EndsNumbering, number_end, refusal_of};

use command_words::Number;
use databases::{CommandFault, Databases};
use event_files::UnreadAt;
use number_lines::{NumberEnd, Numberers, NumberingFault};
use number_table::NumbererFault;
use site_commands::stream::{StreamEnd, end_of, unread_of};
use site_commands::{DONE, Looks, Names, Progress, REFUSED, Refusal, Streams, hint_of, say};
use std::alloc::Global;
use std::io::Write;

/// Numbers the events of a file's lines as they come, and prints each line's on `out` once they are
/// kept; answers the status. Why lines are refused is said on `err` as it comes, and what is wrong
/// else once nothing more is printed.
pub fn number<S: Streams + Looks, D: Databases + Numberers + Drop, O: Write, E: Write, P: Progress>(
    alloc: Global,
    shelf: &S,
    databases: &D,
    plan: &Number,
    out: &mut O,
    err: &mut E,
    progress: &P,
) -> u8
    ensures { EndsNumbers (S.is_content shelf.now) (S.is_unread shelf.now) plan.now result
        (O.contents out.old) (O.contents out.new) (E.contents err.old) (E.contents err.new) }
{
    let end = numbered(alloc, shelf, databases, plan, out, err);
    progress.over();
    match end {
        StreamEnd::Done => DONE,
        StreamEnd::Refused(refusal) => {
            let names = Names::of_number(plan);
            let hint = hint_of(alloc, shelf, databases, progress, names, refusal);
            say(alloc, names, refusal, hint, err, progress)
        }
        StreamEnd::Unwritten => REFUSED,
    }
}

/// Numbers the events of a file's lines in a database. The file is opened before the database is.
fn numbered<S: Streams, D: Numberers, O: Write, E: Write>(
    alloc: Global,
    shelf: &S,
    databases: &D,
    plan: &Number,
    out: &mut O,
    err: &mut E,
) -> StreamEnd
    ensures { EndsNumbering (S.is_content shelf.now) (S.is_unread shelf.now) plan.now result
        (O.contents out.old) (O.contents out.new) (E.contents err.old) (E.contents err.new) }
{
    match shelf.open(plan.file.as_str()) {
        Ok(mut input) => {
            let db = plan.db.as_str();
            let ended = databases.number(alloc, db, plan.base, &plan.aside, &mut input, out, err);
            end(ended)
        }
        Err(why) => StreamEnd::Refused(Refusal::Unread(UnreadAt { file: 0, why })),
    }
}

/// How a stream ended for the command `number`: lines at fault are a refusal.
fn end(ended: Result<u64, NumberEnd>) -> StreamEnd
    ensures { result ≡ number_end ended }
{
    match ended {
        Ok(faults) => end_of(faults),
        Err(NumberEnd::Database(why)) => StreamEnd::Refused(Refusal::Database(why)),
        Err(NumberEnd::Stream(NumberingFault::Input(why))) => {
            StreamEnd::Refused(Refusal::Unread(unread_of(why)))
        }
        Err(NumberEnd::Stream(NumberingFault::Numberer(why))) => {
            StreamEnd::Refused(refusal_of(why))
        }
        Err(NumberEnd::Stream(NumberingFault::Unwritten)) => StreamEnd::Unwritten,
    }
}

/// A numberer's refusal for `number`. Events that can't be numbered are refused before it is asked.
fn refusal_of(why: NumbererFault) -> Refusal
    ensures { result ≡ refusal_of why }
{
    match why {
        NumbererFault::OutOfMemory => Refusal::Database(CommandFault::OutOfMemory),
        NumbererFault::HasSequence { .. } => Refusal::Database(CommandFault::Store),
        NumbererFault::TooLarge { .. } => Refusal::Database(CommandFault::Store),
        NumbererFault::Full { .. } => Refusal::NoNumber,
        NumbererFault::Store => Refusal::Database(CommandFault::Store),
        NumbererFault::Foreign => Refusal::Database(CommandFault::Foreign),
    }
}
