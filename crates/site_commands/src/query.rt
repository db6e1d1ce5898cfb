//! The commands that ask a question about the events of files.
ghost use Rattle.std.specs.Prelude.{◌≡◌, IfErr, IfOk, None, Some};
ghost use Rattle.site_commands.specs.Answers.{AnswersQuery, RefusesFiles, RefusesQuery};

use crate::line::Refusal;
use crate::pieces::{Pieces, read_pieces, refusal_at};
use attributes::Text;
use databases::{CommandFault, Databases};
use event_files::{EventReader, Shelf};
use file_reports::{Query, report, report_with, site_of};
use std::alloc::Global;
use std::mem;

/// The answer to the query for the events of all files, and those of a database where one is given.
/// All files are read before one is judged, and judged before the database is opened.
pub fn ask<S: Shelf, F: EventReader, D: Databases>(
    alloc: Global,
    shelf: &S,
    reader: &F,
    databases: &D,
    query: Query,
    db: &Option<Text>,
    files: &[Text],
    has_lines: bool,
) -> Result<Text, Refusal>
    requires { F.can_read reader.now }
    ensures ok { IfOk result
        (AnswersQuery (S.is_content shelf.now) query has_lines db.now files.now) }
    ensures err { IfErr result
        (RefusesQuery (S.is_content shelf.now) (S.is_unread shelf.now) has_lines db.now files.now) }
{
    match db {
        Some(db) => {
            let db = db.as_str();
            ask_with(alloc, shelf, reader, databases, query, db, files, has_lines)
        }
        None => ask_files(alloc, shelf, reader, query, files, has_lines),
    }
}

/// The answer to the query for the events of all files. The memory of the events is left to the
/// operating system, since the program ends next.
fn ask_files<S: Shelf, F: EventReader>(
    alloc: Global,
    shelf: &S,
    reader: &F,
    query: Query,
    files: &[Text],
    has_lines: bool,
) -> Result<Text, Refusal>
    requires { F.can_read reader.now }
    ensures ok { IfOk result
        (AnswersQuery (S.is_content shelf.now) query has_lines None files.now) }
    ensures err { IfErr result (RefusesFiles (S.is_content shelf.now) (S.is_unread shelf.now) has_lines files.now) }
{
    match read_pieces(alloc, shelf, files, has_lines) {
        Ok(Pieces { texts, places }) => match report(alloc, reader, query, texts) {
            Ok(report) => {
                mem::forget(report.events);
                Ok(report.text)
            }
            Err(refused) => Err(refusal_at(has_lines, places.as_slice(), refused)),
        },
        Err(at) => Err(Refusal::Unread(at)),
    }
}

/// The answer to the query for the events of all files and those of a given database.
fn ask_with<S: Shelf, F: EventReader, D: Databases>(
    alloc: Global,
    shelf: &S,
    reader: &F,
    databases: &D,
    query: Query,
    db: &str,
    files: &[Text],
    has_lines: bool,
) -> Result<Text, Refusal>
    requires { F.can_read reader.now }
    ensures ok { IfOk result
        (AnswersQuery (S.is_content shelf.now) query has_lines (Some db.now) files.now) }
    ensures err { IfErr result (RefusesQuery (S.is_content shelf.now) (S.is_unread shelf.now)
        has_lines (Some db.now) files.now) }
{
    match read_pieces(alloc, shelf, files, has_lines) {
        Ok(Pieces { texts, places }) => match site_of(alloc, reader, texts) {
            Ok(events) => match databases.events(alloc, db) {
                Ok(held) => match report_with(query, events, held) {
                    Ok(report) => {
                        mem::forget(report.events);
                        Ok(report.text)
                    }
                    Err(_) => Err(Refusal::Database(CommandFault::OutOfMemory)),
                },
                Err(why) => Err(Refusal::Database(why)),
            },
            Err(refused) => Err(refusal_at(has_lines, places.as_slice(), refused)),
        },
        Err(at) => Err(Refusal::Unread(at)),
    }
}
