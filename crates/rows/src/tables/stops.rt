//! What a stop leaves in files, wherever it comes.
//!
//! A run opens the files, makes calls and closes them, and one file fails from its n-th call on,
//! n = 0, 1, 2, .., until a run meets no stop. What a stop left of a file is then what was written,
//! or what was synced last, or a mixture of both.

use crate::said::{Said, line};
use crate::tables::acts::{End, Tried, act_all, done, versions};
use crate::tables::disks::{Act, Image, Run, add_left, files_of, ran};
use crate::tables::known::Known;
use crate::tables::{inboxes, services};
use sqlite::{Alter, Connection};
use std::alloc::Global;
use std::sync::Wait;

/// More calls than any run makes of one file.
const ENOUGH: u64 = 1000;

/// Adds how many inboxes of each version a database has.
fn add_versions<S: Alter>(conn: &mut Connection<S>, out: &mut String) -> bool {
    match versions(conn) {
        Some((old, new)) => write!(out, "version 1: {old}, version 2: {new}, ").is_ok(),
        None => false,
    }
}

/// Adds what a database has: how many inboxes of each version, before anything is done to them, the
/// rows of its service and the events of its inbox.
fn tell_held<S: Alter + Drop>(
    alloc: Global,
    conn: Connection<S>,
    known: &Known,
    said: &mut Said,
) -> Tried<S> {
    let mut conn = conn;
    let is_begun = add_versions(&mut conn, &mut said.text);
    let Tried { conn, end } = services::of_service(alloc, conn, known, "look", "", said);
    let is_parted = is_begun & (end == End::Done) & said.text.push_str(", ").is_ok();
    let Tried { conn, end } = inboxes::look(alloc, conn, known, false, &mut said.text);
    let end = done(is_parted & (end == End::Done) & line(&mut said.text, ""));
    Tried { conn, end }
}

/// Makes the calls again, and tells what they answer and what the database has then.
fn again<R: AllocGlobal + Wait, S: Alter + Drop>(
    rt: &R,
    conn: Connection<S>,
    known: &Known,
    text: &str,
    said: &mut Said,
) -> Tried<S> {
    let alloc = rt.alloc();
    let is_begun = said.text.push_str("  again: ").is_ok();
    let Tried { conn, end } = act_all(rt, conn, known, text, said);
    if end == End::Untold || !is_begun || said.text.push_str("  then: ").is_err() {
        return Tried {
            conn,
            end: End::Untold,
        };
    }
    tell_held(alloc, conn, known, said)
}

/// Tells what a database has that a stop left. Where the calls hadn't answered they are made again.
pub fn look_over<R: AllocGlobal + Wait, S: Alter + Drop>(
    rt: &R,
    conn: Connection<S>,
    known: &Known,
    text: &str,
    is_done: bool,
    said: &mut Said,
) -> Tried<S> {
    let alloc = rt.alloc();
    let word = if is_done { "answered: " } else { "cut short: " };
    if said.text.push_str(word).is_err() {
        return Tried {
            conn,
            end: End::Untold,
        };
    }
    let Tried { conn, end } = tell_held(alloc, conn, known, said);
    if is_done || end != End::Done {
        return Tried { conn, end };
    }
    again(rt, conn, known, text, said)
}

/// Whether nothing but these bytes may have been left.
fn are_all(outcomes: &[Vec<u8>], bytes: &[u8]) -> bool {
    for outcome in outcomes {
        if outcome.as_slice() != bytes {
            return false;
        }
    }
    true
}

/// Adds what was told of files, unless it was told before.
fn tell_once(end: &Said, said: &mut Said) -> bool {
    if end.text.is_empty() {
        return line(&mut said.text, "not opened");
    }
    said.text.as_str().contains(end.text.as_str()) || said.text.push_str(end.text.as_str()).is_ok()
}

/// Adds what there is in files with these bytes, unless it was told.
fn tell_left<R: AllocGlobal + Wait>(
    rt: &R,
    known: &Known,
    log: &[u8],
    db: &[u8],
    text: &str,
    is_done: bool,
    said: &mut Said,
) -> bool {
    let alloc = rt.alloc();
    let Ok(mut end) = Said::empty(alloc) else {
        return false;
    };
    match files_of(alloc, log, db, (u64::MAX, u64::MAX)) {
        Some(files) => {
            is_told(ran(rt, files, known, Act::Look(is_done), text, &mut end))
                && tell_once(&end, said)
        }
        None => false,
    }
}

/// Whether a run was told.
fn is_told(run: Option<Run>) -> bool {
    match run {
        Some(run) => run.end != End::Untold,
        None => false,
    }
}

/// Adds what there is in the files, whatever a stop left of each.
fn tell_all<R: AllocGlobal + Wait>(
    rt: &R,
    known: &Known,
    logs: &[Vec<u8>],
    dbs: &[Vec<u8>],
    text: &str,
    is_done: bool,
    said: &mut Said,
) -> bool {
    for log in logs {
        for db in dbs {
            if !tell_left(rt, known, log, db, text, is_done, said) {
                return false;
            }
        }
    }
    true
}

/// Adds what a stop left of the files, whatever that is of each. Those that a run left as it found
/// them were looked at before, unless it was the first.
fn tell_stop<R: AllocGlobal + Wait>(
    rt: &R,
    image: &Image,
    known: &Known,
    run: &mut Run,
    text: &str,
    is_first: bool,
    said: &mut Said,
) -> bool {
    let alloc = rt.alloc();
    let (mut logs, mut dbs) = (Vec::new(alloc), Vec::new(alloc));
    let is_done = run.end == End::Done;
    let is_read = run.end != End::Untold
        && add_left(alloc, &mut logs, &mut run.files.log)
        && add_left(alloc, &mut dbs, &mut run.files.db);
    let is_unchanged = are_all(&logs, &image.log) && are_all(&dbs, &image.db);
    let is_known = is_unchanged && !is_done && !is_first;
    is_read && (is_known || tell_all(rt, known, &logs, &dbs, text, is_done, said))
}

/// A run whose file fails after so many calls: whether it met no stop, and what it left is told.
fn stop<R: AllocGlobal + Wait>(
    rt: &R,
    image: &Image,
    known: &Known,
    of: (u64, u64),
    text: &str,
    is_first: bool,
    said: &mut Said,
) -> Option<bool> {
    let Some(mut run) = run_to(rt, image, known, of, text) else {
        return None;
    };
    if tell_stop(rt, image, known, &mut run, text, is_first, said) {
        Some(run.is_through)
    } else {
        None
    }
}

/// A run whose file fails after so many calls, and what it answers goes untold.
fn run_to<R: AllocGlobal + Wait>(
    rt: &R,
    image: &Image,
    known: &Known,
    of: (u64, u64),
    text: &str,
) -> Option<Run> {
    let alloc = rt.alloc();
    let Ok(mut own) = Said::empty(alloc) else {
        return None;
    };
    match files_of(alloc, image.log.as_slice(), image.db.as_slice(), of) {
        Some(files) => ran(rt, files, known, Act::Call, text, &mut own),
        None => None,
    }
}

/// How many stops there are in runs over one file, what each of which leaves is told.
fn stops_of<R: AllocGlobal + Wait>(
    rt: &R,
    image: &Image,
    known: &Known,
    is_log: bool,
    text: &str,
    said: &mut Said,
) -> Option<u64> {
    for calls in 0..ENOUGH {
        let of = if is_log {
            (calls, u64::MAX)
        } else {
            (u64::MAX, calls)
        };
        match stop(rt, image, known, of, text, calls == 0, said) {
            Some(true) => return Some(calls),
            Some(false) => {}
            None => return None,
        }
    }
    None
}

/// `stop FILES CALL [| CALL]..`: what stops in these calls leave, in the one file and in the other,
/// each that differs once; the files stay as they were. It is told where no stop was met.
pub fn stops<R: AllocGlobal + Wait>(
    rt: &R,
    image: &Image,
    known: &Known,
    text: &str,
    said: &mut Said,
) -> bool {
    for is_log in [false, true] {
        match stops_of(rt, image, known, is_log, text, said) {
            Some(count) => {
                if count == 0 && !line(&mut said.text, "no stop") {
                    return false;
                }
            }
            None => return false,
        }
    }
    true
}
