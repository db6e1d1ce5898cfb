//! Calls over databases, whatever their store is.

use crate::said::{Said, line};
use crate::tables::known::Known;
use crate::tables::{inboxes, keepers, services};
use sqlite::types::ValueRef;
use sqlite::{Alter, Connection, Error, ErrorCode};
use std::alloc::Global;
use std::sync::Wait;

/// What inboxes a database may have, and tables beside them: the schema, and the rows of each.
static INBOXES: [&str; 4] = [
    "SELECT name, sql FROM sqlite_schema",
    "SELECT * FROM inbox",
    "SELECT * FROM inbox2",
    "SELECT * FROM other",
];

/// The rows of a service.
static SERVICE: [&str; 3] = [
    "SELECT * FROM service",
    "SELECT * FROM orders",
    "SELECT * FROM outbox",
];

/// What a call came to.
#[derive(Clone, Copy, PartialEq, Eq)]
pub enum End {
    /// It was done, and is told.
    Done,
    /// It was refused for another reason than want of memory, and that is told.
    Refused,
    /// Memory was wanted, or the call isn't one: it is made again.
    Untold,
}

/// The end of a call that was done, if it is told.
pub fn done(is_told: bool) -> End {
    if is_told { End::Done } else { End::Untold }
}

/// The end of a call that was refused, if it is told.
pub fn refused(is_told: bool) -> End {
    if is_told { End::Refused } else { End::Untold }
}

/// A database after a call, and what the call came to.
#[derive(Drop)]
pub struct Tried<S: Alter + Drop> {
    pub conn: Connection<S>,
    pub end: End,
}

/// Whether memory was wanted.
fn is_want(error: &Error) -> bool {
    matches!(error, Error::SqliteFailure(ErrorCode::OutOfMemory))
}

/// How many rows a query answers; 0 where it is refused for another reason than want of memory.
pub fn count<S: Alter>(conn: &mut Connection<S>, query: &str) -> Option<usize> {
    match conn.query_all(query, &[]) {
        Ok(rows) => Some(rows.len()),
        Err(error) => { if is_want(&error) { None } else { Some(0) } }
    }
}

/// Adds what a query answers as a line. That of a table that isn't there is refused, which is a line
/// too.
fn add_shown<S: Alter>(
    alloc: Global,
    conn: &mut Connection<S>,
    out: &mut String,
    query: &str,
) -> bool {
    let answer = match conn.query_all(query, &[]) {
        Ok(rows) => format!(in alloc; "{rows:?}\n"),
        Err(error) => return !is_want(&error) && line(out, "refused"),
    };
    match answer {
        Ok(answer) => out.push_str(answer.as_str()).is_ok(),
        Err(_) => false,
    }
}

/// Adds what these queries answer, line by line.
fn add_all_shown<S: Alter>(
    alloc: Global,
    conn: &mut Connection<S>,
    out: &mut String,
    queries: &[&str],
) -> bool {
    for query in queries {
        if !add_shown(alloc, conn, out, query) {
            return false;
        }
    }
    true
}

/// What a database shows of its inboxes and the tables beside them, and of its service.
#[derive(Drop)]
struct Contents {
    inboxes: String,
    service: String,
}

/// What a database shows.
fn shown_all<S: Alter>(alloc: Global, conn: &mut Connection<S>) -> Option<Contents> {
    let mut shown = Contents {
        inboxes: String::new(alloc),
        service: String::new(alloc),
    };
    if add_all_shown(alloc, conn, &mut shown.inboxes, &INBOXES)
        && add_all_shown(alloc, conn, &mut shown.service, &SERVICE)
    {
        Some(shown)
    } else {
        None
    }
}

/// Tells that a statement was refused.
fn not_run(error: &Error, out: &mut String) -> End {
    refused(!is_want(error) && line(out, "refused"))
}

/// Runs statements, by their name or their text.
pub fn run<S: Alter>(conn: &mut Connection<S>, known: &Known, text: &str, out: &mut String) -> End {
    match conn.execute_batch(known.sql(text)) {
        Ok(()) => End::Done,
        Err(error) => not_run(&error, out),
    }
}

/// `put EVENT STATEMENT`: runs a statement whose one parameter is the text of an event.
fn put<S: Alter>(conn: &mut Connection<S>, known: &Known, text: &str, out: &mut String) -> End {
    let Some((name, statement)) = text.split_once(' ') else {
        return End::Untold;
    };
    let Some(body) = known.text(name) else {
        return End::Untold;
    };
    match conn.execute(statement, &[ValueRef::Text(body.as_bytes())]) {
        Ok(_) => End::Done,
        Err(error) => not_run(&error, out),
    }
}

/// Runs the statements of names, up to one that is refused.
pub fn run_all<S: Alter>(
    conn: &mut Connection<S>,
    known: &Known,
    names: &[&str],
    out: &mut String,
) -> bool {
    for name in names {
        if run(conn, known, name, out) != End::Done {
            return false;
        }
    }
    true
}

/// `run STATEMENT`, `put EVENT STATEMENT`, or `count QUERY`: how many rows it answers.
fn of_text<S: Alter>(
    conn: &mut Connection<S>,
    known: &Known,
    word: &str,
    text: &str,
    out: &mut String,
) -> End {
    match word {
        "run" => run(conn, known, text, out),
        "put" => put(conn, known, text, out),
        "count" => match count(conn, text) {
            Some(rows) => done(write!(out, "{rows}\n").is_ok()),
            None => End::Untold,
        },
        _ => End::Untold,
    }
}

/// The word that a text begins with, and what is behind it.
pub fn parted(text: &str) -> (&str, &str) {
    match text.split_once(' ') {
        Some(parts) => parts,
        None => (text, ""),
    }
}

/// What a call is made of.
#[derive(Clone, Copy)]
enum Of {
    Inbox,
    /// An inbox that is opened and read.
    Opened,
    Service,
    Keeper,
    Connection,
}

/// What `create|adopt|open inbox|service ..` is made of.
fn of_kind(word: &str, text: &str) -> Of {
    match parted(text).0 {
        "inbox" => {
            if word == "open" {
                Of::Opened
            } else {
                Of::Inbox
            }
        }
        "service" => Of::Service,
        _ => Of::Connection,
    }
}

/// What the call of a word is made of.
fn of_word(word: &str, text: &str) -> Of {
    match word {
        "create" | "adopt" | "open" => of_kind(word, text),
        "keep" | "load" | "block" | "find" | "page" | "each" => Of::Inbox,
        "orders" | "fill" => Of::Service,
        "take" | "step" | "turns" => Of::Keeper,
        _ => Of::Connection,
    }
}

/// Makes a call over a database.
fn act<R: AllocGlobal + Wait, S: Alter + Drop>(
    rt: &R,
    conn: Connection<S>,
    known: &Known,
    text: &str,
    said: &mut Said,
) -> Tried<S> {
    let (word, text) = parted(text);
    match of_word(word, text) {
        Of::Inbox => inboxes::of_table(rt.alloc(), conn, known, word, text, said),
        Of::Opened => inboxes::look(rt.alloc(), conn, known, true, &mut said.text),
        Of::Service => services::of_service(rt.alloc(), conn, known, word, text, said),
        Of::Keeper => keepers::keep(rt, conn, known, word, text, &mut said.text),
        Of::Connection => {
            let mut conn = conn;
            let end = of_text(&mut conn, known, word, text, &mut said.text);
            Tried { conn, end }
        }
    }
}

/// Makes a call over a database; once more where memory was refused.
fn act_twice<R: AllocGlobal + Wait, S: Alter + Drop>(
    rt: &R,
    conn: Connection<S>,
    known: &Known,
    text: &str,
    said: &mut Said,
) -> Tried<S> {
    let tried = act(rt, conn, known, text, said);
    if tried.end != End::Untold {
        return tried;
    }
    act(rt, tried.conn, known, text, said)
}

/// Makes the calls of a text, which stand apart by `|`, up to one that isn't done.
pub fn act_all<R: AllocGlobal + Wait, S: Alter + Drop>(
    rt: &R,
    conn: Connection<S>,
    known: &Known,
    text: &str,
    said: &mut Said,
) -> Tried<S> {
    let mut tried = Tried {
        conn,
        end: End::Done,
    };
    for call in text.split('|') {
        tried = act_twice(rt, tried.conn, known, call.trim(), said);
        if tried.end != End::Done {
            break;
        }
    }
    tried
}

/// Whether what is there is as before, in words.
fn compared(now: &String, before: &String) -> &'static str {
    if now.as_str() == before.as_str() {
        "as before"
    } else {
        "changed"
    }
}

/// Adds what a call left of a database: whether its inboxes, and the tables beside them, and its
/// service are as before, how many inboxes it has of each version, and how many rows in one of
/// version 2. What needs memory comes first, so that nothing is told in part.
fn tell_left<S: Alter>(
    alloc: Global,
    conn: &mut Connection<S>,
    before: &Contents,
    out: &mut String,
) -> bool {
    let Some(now) = shown_all(alloc, conn) else {
        return false;
    };
    let Some((old, new)) = versions(conn) else {
        return false;
    };
    match count(conn, "SELECT place FROM inbox2") {
        Some(rows) => {
            let inboxes = compared(&now.inboxes, &before.inboxes);
            let service = compared(&now.service, &before.service);
            write!(
                out,
                "inboxes {inboxes}, service {service}; version 1: {old}, version 2: {new}, rows {rows}"
            )
            .is_ok()
        }
        None => false,
    }
}

/// Adds what a call with that end left of a database, and the end of it; once more where memory was
/// refused.
fn told_left<S: Alter>(
    alloc: Global,
    conn: &mut Connection<S>,
    before: &Contents,
    end: End,
    said: &mut Said,
) -> End {
    if end == End::Untold {
        let out = &mut said.left;
        let _ = tell_left(alloc, conn, before, out) || tell_left(alloc, conn, before, out);
        return End::Untold;
    }
    let out = &mut said.text;
    let is_left = tell_left(alloc, conn, before, out) || tell_left(alloc, conn, before, out);
    if is_left && line(out, "") {
        end
    } else {
        End::Untold
    }
}

/// `compare CALL`: makes a call, and tells what it left of the database.
pub fn act_compared<R: AllocGlobal + Wait, S: Alter + Drop>(
    rt: &R,
    conn: Connection<S>,
    known: &Known,
    text: &str,
    said: &mut Said,
) -> Tried<S> {
    let mut conn = conn;
    let Some(before) = shown_all(rt.alloc(), &mut conn) else {
        let end = End::Untold;
        return Tried { conn, end };
    };
    let Tried { mut conn, end } = act(rt, conn, known, text, said);
    let end = told_left(rt.alloc(), &mut conn, &before, end, said);
    Tried { conn, end }
}

/// How many tables have the name of an inbox of version 1, and how many that of one of version 2.
pub fn versions<S: Alter>(conn: &mut Connection<S>) -> Option<(usize, usize)> {
    let old = count(conn, "SELECT name FROM sqlite_schema WHERE name = 'inbox'")?;
    let new = count(conn, "SELECT name FROM sqlite_schema WHERE name = 'inbox2'")?;
    Some((old, new))
}
