//! What is said behind the line of a refusal to who looks on at a terminal.

use crate::files::Looks;
use crate::line::Refusal;
use crate::look::Look;
use crate::names::Names;
use crate::progress::Progress;
use attributes::Text;
use coverage::SummaryFault;
use databases::{CommandFault, Databases, Trouble};
use event_files::{ReportFault, Unread};
use event_json::ReadFault;
use std::alloc::Global;

/// What can be done about a refusal.
#[derive(Drop)]
pub enum Hint {
    /// The same words for every refusal of its kind.
    Words(&'static str),
    /// Words of this database.
    Told(Text),
}

impl Hint {
    /// The words of a hint behind an error line, lent.
    pub fn as_str(&self) -> &str {
        match self {
            Hint::Words(words) => words,
            Hint::Told(text) => text.as_str(),
        }
    }
}

/// The hint on what is the matter behind a refusal of a plan that names these, and what can be
/// done. None where nobody looks on, or nothing more is known. It may read the file or the database
/// once more, and waits for none.
pub fn hint_of<S: Looks, D: Databases + Drop, P: Progress>(
    alloc: Global,
    shelf: &S,
    databases: &D,
    progress: &P,
    names: Names<'_>,
    refusal: Refusal,
) -> Option<Hint> {
    if !progress.is_watched() {
        return None;
    }
    match refusal {
        Refusal::Database(CommandFault::Foreign) => {
            of_service(
                alloc,
                databases,
                names.db,
                "leave --base out, or give that one",
            )
        }
        Refusal::Database(CommandFault::AnotherSource) => {
            of_service(
                alloc,
                databases,
                names.db,
                "leave --source out, or name that one",
            )
        }
        _ => match words_of(alloc, shelf, databases, names, refusal) {
            Some(words) => Some(Hint::Words(words)),
            None => None,
        },
    }
}

/// The words of a hint that every refusal of its kind has.
fn words_of<S: Looks, D: Databases + Drop>(
    alloc: Global,
    shelf: &S,
    databases: &D,
    names: Names<'_>,
    refusal: Refusal,
) -> Option<&'static str> {
    match refusal {
        Refusal::Unread(at) => of_unread(shelf, names.file(at.file), at.why),
        Refusal::File(refused) => of_file(shelf, names.file(refused.file), refused.fault),
        Refusal::Line(refused) => of_line(shelf, names.file(refused.at.file), refused.fault),
        Refusal::Summary(why) => of_summary(shelf, names.file(0), why),
        Refusal::Database(why) => of_database(alloc, databases, names.db, why),
        Refusal::NoThread => Some("the system gives no more threads: name fewer files at once"),
        Refusal::Lines(_) => Some(of_lines(shelf, names.file(0))),
        Refusal::NoNumber => Some("a source of these events has no number left up to 2^63-1"),
    }
}

/// The hint on what is the matter with a file of which lines were refused.
fn of_lines<S: Looks>(shelf: &S, name: &str) -> &'static str {
    match shelf.look(name) {
        Look::Pretty => {
            "an event stands on one line, and this one on several: jq -c . FILE puts each on its own"
        }
        _ => { "each line that was refused has its fault on standard output; the others are kept" }
    }
}

/// The hint on why a file wasn't read.
fn of_unread<S: Looks>(shelf: &S, name: &str, why: Unread) -> Option<&'static str> {
    match why {
        Unread::OutOfMemory => None,
        Unread::TooLarge => Some(
            "a file has at most 33,554,432 bytes: split it, or send its events one a line to follow",
        ),
        Unread::CannotRead => match shelf.look(name) {
            Look::Missing => Some("there is no file of that name"),
            Look::Folder => Some("it is a folder: name the files in it"),
            Look::Denied => Some("this user may not read it: ls -l tells who may"),
            _ => Some("the system refuses to open or to read it"),
        },
    }
}

/// The hint on why a file spells no events.
fn of_file<S: Looks>(shelf: &S, name: &str, fault: ReportFault) -> Option<&'static str> {
    match fault {
        ReportFault::OutOfMemory | ReportFault::Read(ReadFault::OutOfMemory) => None,
        ReportFault::Read(ReadFault::NotJson) => Some(of_look(shelf.look(name))),
        ReportFault::Read(ReadFault::NotEvent) => {
            Some("a file is an event, which is an object, or an array of events")
        }
        ReportFault::Read(ReadFault::InputTooLarge) => { of_unread(shelf, name, Unread::TooLarge) }
        ReportFault::Read(ReadFault::BadEvent { .. }) | ReportFault::Event { .. } => {
            match shelf.look(name) {
                Look::Summary => Some("it is a summary, which delta takes; events are wanted"),
                _ => Some("site check FILE says of each event what is wrong, and what to do"),
            }
        }
    }
}

/// The hint on why a line spells no events.
fn of_line<S: Looks>(shelf: &S, name: &str, fault: ReportFault) -> Option<&'static str> {
    match fault {
        ReportFault::OutOfMemory | ReportFault::Read(ReadFault::OutOfMemory) => None,
        ReportFault::Read(ReadFault::NotJson) => match shelf.look(name) {
            Look::Pretty => Some(
                "an event stands on one line, and this one on several: without --lines a file is one event or one batch",
            ),
            Look::Lines | Look::Other => Some(
                "nothing was taken of any line: follow keeps the good ones, and tells of each other",
            ),
            look => Some(of_look(look)),
        },
        _ => Some(
            "site check --lines FILE says of each line what is wrong, and what to do; follow keeps the good ones",
        ),
    }
}

/// The hint on what a file is that is no JSON.
fn of_look(look: Look) -> &'static str {
    match look {
        Look::Empty => "it is empty: did what should have written it end well?",
        Look::Marked => "it begins with a byte order mark: tail -c +4 FILE takes it off",
        Look::Packed => "it is packed: gzip -dc FILE | site .. - reads it",
        Look::Database => "it is a database: give it as --db FILE",
        Look::Wide => "it is UTF-16: iconv -f UTF-16 -t UTF-8 makes it UTF-8",
        Look::Lines =>
            "its events stand one a line: with --lines take, run, check and the questions read them so",
        _ => "a file is one JSON text in UTF-8: jq . FILE says where it ends to be one",
    }
}

/// The hint on why a file spells no summary.
fn of_summary<S: Looks>(shelf: &S, name: &str, why: SummaryFault) -> Option<&'static str> {
    match why {
        SummaryFault::OutOfMemory => None,
        SummaryFault::NotJson => match shelf.look(name) {
            Look::Lines => Some("these are events: SUMMARY is what site summary --db DB prints"),
            look => Some(of_look(look)),
        },
        SummaryFault::Shape => {
            Some("SUMMARY is what site summary --db DB prints; events are none")
        }
        SummaryFault::Version => Some("this program reads summaries of version 1 and 2 alone"),
        SummaryFault::NotCanonical => Some(
            "a summary is read as site summary prints it: a program such as jq wrote it anew",
        ),
    }
}

/// The hint on why a database has no answer.
fn of_database<D: Databases + Drop>(
    alloc: Global,
    databases: &D,
    db: &str,
    why: CommandFault,
) -> Option<&'static str> {
    match why {
        CommandFault::OutOfMemory => None,
        CommandFault::Store => match databases.waiting(0).describe(alloc, db) {
            Ok(_) => Some(
                "it can be read now: another program had it open; --wait 30 waits for it",
            ),
            Err(Trouble::CannotRead) => {
                Some("the file isn't there, and can't be made: is the folder there, and writable")
            }
            Err(why) => Some(why.hint()),
        },
        CommandFault::Foreign | CommandFault::AnotherSource => None,
        CommandFault::OrderExists => Some("an order is placed once"),
        CommandFault::NoOrder => Some("an order is placed before it is shipped or cancelled"),
        CommandFault::WrongState => Some("an order is shipped or cancelled once"),
        CommandFault::Full => Some("the outbox has no number left: begin another database"),
        CommandFault::RouteFailed => None,
        CommandFault::CannotRead => Some(
            "there is no such database: echo '[]' | site take --db DB - begins one, if the name is right",
        ),
        CommandFault::Cache => Some("SITE_CACHE_MIB=64 site .. sets it for one command"),
    }
}

/// The hint on a database whose tables, or whose service, aren't those that were meant.
fn of_service<D: Databases + Drop>(
    alloc: Global,
    databases: &D,
    db: &str,
    advice: &str,
) -> Option<Hint> {
    match databases.waiting(0).describe(alloc, db) {
        Ok(told) => of_told(alloc, told.as_str(), advice),
        Err(why) => Some(Hint::Words(why.hint())),
    }
}

/// The hint where this is told of a database: of its inbox, and behind that of its service.
fn of_told(alloc: Global, told: &str, advice: &str) -> Option<Hint> {
    let service = match told.split_once('\n') {
        Some((_, behind)) => behind.trim_ascii_end(),
        None => "",
    };
    if service.is_empty() {
        return Some(Hint::Words(
            "it is sound, and was made with another base, or for another command: site check --db DB tells",
        ));
    }
    match format!(in alloc; "its service is {service}: {advice}") {
        Ok(words) => Some(Hint::Told(Text::from_string(words))),
        Err(_) => None,
    }
}
