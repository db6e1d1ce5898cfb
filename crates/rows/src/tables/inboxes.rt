//! Calls of inboxes, whatever the store of their database is.

use crate::said::{Said, line};
use crate::tables::acts::{End, Tried, done, refused};
use crate::tables::known::Known;
use crate::words::number_of;
use attributes::{Batch, List};
use inbox_table::{Loaded, NotMade, Table, TableFault, Unwatched};
use sqlite::{Alter, Connection};
use std::alloc::Global;

/// The faults of a table, in the order of their numbers.
static FAULTS: [TableFault; 3] = [
    TableFault::OutOfMemory,
    TableFault::Store,
    TableFault::Foreign,
];

/// Adds a fault by its number and name, unless it is want of memory, which has the call made again.
fn faulty(out: &mut String, fault: TableFault) -> End {
    let number = fault.number();
    refused(fault != TableFault::OutOfMemory && write!(out, "{number} {fault}\n").is_ok())
}

/// `faults inbox`: each by its number and name.
pub fn faults(out: &mut String) -> bool {
    for fault in &FAULTS {
        let (number, fault) = (fault.number(), *fault);
        if write!(out, "{number} {fault}\n").is_err() {
            return false;
        }
    }
    true
}

/// Tells how many rows there were where memory was refused.
fn tell_refused(rows: u64, left: &mut String) -> bool {
    write!(left, "{rows} rows").is_ok()
}

/// Keeps events; once more where memory was refused, with what was there then.
fn keep_all<S: Alter>(
    table: &mut Table<S>,
    batch: &Batch,
    said: &mut Said,
) -> Result<u64, TableFault> {
    match table.keep(batch) {
        Err(TableFault::OutOfMemory) => {
            if !tell_refused(table.rows(), &mut said.left) {
                return Err(TableFault::OutOfMemory);
            }
            table.keep(batch)
        }
        told => told,
    }
}

/// Adds the events that a table has.
fn load<S: Alter>(known: &Known, table: &mut Table<S>, out: &mut String) -> End {
    match table.load() {
        Ok(events) => done(known.tell_line(out, &events)),
        Err(fault) => faulty(out, fault),
    }
}

/// The events that a table has; once more where memory was refused.
fn load_all<S: Alter>(table: &mut Table<S>, said: &mut Said) -> Result<Batch, TableFault> {
    match table.load() {
        Err(TableFault::OutOfMemory) => {
            if said.left.push_str("kept, and not told").is_err() {
                return Err(TableFault::OutOfMemory);
            }
            table.load()
        }
        told => told,
    }
}

/// Adds how many events were new, and what there is then.
fn tell_kept<S: Alter>(known: &Known, table: &mut Table<S>, fresh: u64, said: &mut Said) -> End {
    let rows = table.rows();
    match load_all(table, said) {
        Ok(events) => done(
            write!(said.text, "new {fresh}, then {rows}: ").is_ok()
                && known.tell_line(&mut said.text, &events),
        ),
        Err(fault) => faulty(&mut said.text, fault),
    }
}

/// The events of names; once more where memory was refused.
fn batch_of(alloc: Global, known: &Known, names: &str) -> Option<Batch> {
    match known.batch(alloc, names) {
        Some(batch) => Some(batch),
        None => known.batch(alloc, names),
    }
}

/// Keeps the events of names, and tells how many were new, and what there is then.
fn keep_some<S: Alter>(
    alloc: Global,
    known: &Known,
    table: &mut Table<S>,
    names: &str,
    said: &mut Said,
) -> End {
    let Some(batch) = batch_of(alloc, known, names) else {
        return End::Untold;
    };
    match keep_all(table, &batch, said) {
        Ok(fresh) => tell_kept(known, table, fresh, said),
        Err(fault) => faulty(&mut said.text, fault),
    }
}

/// `keep [EVENT..] [; [EVENT..]]..`: keeps batches of events, one after another.
fn keep<S: Alter>(
    alloc: Global,
    known: &Known,
    table: &mut Table<S>,
    text: &str,
    said: &mut Said,
) -> End {
    for names in text.split(';') {
        let end = keep_some(alloc, known, table, names, said);
        if end != End::Done {
            return end;
        }
    }
    End::Done
}

/// `block SOURCE NUMBER`: the events of a block of a source.
fn block<S: Alter>(known: &Known, table: &mut Table<S>, text: &str, out: &mut String) -> End {
    let Some((source, k)) = text.split_once(' ') else {
        return End::Untold;
    };
    match number_of(k) {
        Some(k) => match table.block(source, k) {
            Ok(events) => done(known.tell_line(out, &events)),
            Err(fault) => faulty(out, fault),
        },
        None => End::Untold,
    }
}

/// `find SOURCE ID`: the events of a source and an id.
fn find<S: Alter>(known: &Known, table: &mut Table<S>, text: &str, out: &mut String) -> End {
    let Some((source, id)) = text.split_once(' ') else {
        return End::Untold;
    };
    match table.find(source, id) {
        Ok(events) => done(known.tell_line(out, &events)),
        Err(fault) => faulty(out, fault),
    }
}

/// `page PLACE COUNT`: so many events behind a place.
fn page<S: Alter>(known: &Known, table: &mut Table<S>, text: &str, out: &mut String) -> End {
    let Some((after, count)) = text.split_once(' ') else {
        return End::Untold;
    };
    match (number_of(after), number_of(count)) {
        (Some(after), Some(count)) => match table.page(after, count) {
            Ok(events) => done(known.tell_line(out, &events)),
            Err(fault) => faulty(out, fault),
        },
        _ => End::Untold,
    }
}

/// Adds the list of the events of names, and answers whether it did.
fn add_list(alloc: Global, known: &Known, lists: &mut List<Batch>, names: &str) -> bool {
    match known.batch(alloc, names) {
        Some(batch) => lists.push(batch).is_ok(),
        None => false,
    }
}

/// Adds the lists of the events of names, and answers whether it did.
fn add_lists(alloc: Global, known: &Known, lists: &mut List<Batch>, text: &str) -> bool {
    for names in text.split(';') {
        if !add_list(alloc, known, lists, names) {
            return false;
        }
    }
    true
}

/// Adds numbers as a line, `none` where there is none.
fn add_counts(out: &mut String, counts: &List<u64>) -> bool {
    if counts.is_empty() {
        return line(out, "none");
    }
    for i in 0..counts.len() {
        let count = *counts.at(i);
        let is_told = (i == 0 || out.push(' ').is_ok()) && write!(out, "{count}").is_ok();
        if !is_told {
            return false;
        }
    }
    line(out, "")
}

/// `each none`, or `each [EVENT..] [; [EVENT..]]..`: keeps lists of events in one transaction, and
/// tells of each how many were new.
fn keep_each<S: Alter>(
    alloc: Global,
    known: &Known,
    table: &mut Table<S>,
    text: &str,
    out: &mut String,
) -> End {
    let mut lists = List::empty(alloc);
    if text != "none" && !add_lists(alloc, known, &mut lists, text) {
        return End::Untold;
    }
    match table.keep_each(&lists) {
        Ok(counts) => done(add_counts(out, &counts)),
        Err(fault) => faulty(out, fault),
    }
}

/// A call of a table that was made or adopted.
fn call<S: Alter>(
    alloc: Global,
    known: &Known,
    table: &mut Table<S>,
    word: &str,
    text: &str,
    said: &mut Said,
) -> End {
    match word {
        "keep" => keep(alloc, known, table, text, said),
        "block" => block(known, table, text, &mut said.text),
        "find" => find(known, table, text, &mut said.text),
        "page" => page(known, table, text, &mut said.text),
        "each" => keep_each(alloc, known, table, text, &mut said.text),
        "load" => load(known, table, &mut said.text),
        _ => {
            let (end, rows) = (if word == "create" { "d" } else { "ed" }, table.rows());
            done(write!(said.text, "{word}{end}, rows {rows}\n").is_ok())
        }
    }
}

/// The table that a call is of: a new one, or the one that a database has.
fn made<S: Alter>(alloc: Global, conn: Connection<S>, word: &str) -> Result<Table<S>, NotMade<S>> {
    match word {
        "create" => Table::create(alloc, conn),
        _ => Table::adopt(alloc, conn),
    }
}

/// A call of the table that a database has; `create inbox` and `adopt inbox` tell how many rows it
/// has.
pub fn of_table<S: Alter + Drop>(
    alloc: Global,
    conn: Connection<S>,
    known: &Known,
    word: &str,
    text: &str,
    said: &mut Said,
) -> Tried<S> {
    match made(alloc, conn, word) {
        Ok(mut table) => {
            let end = call(alloc, known, &mut table, word, text, said);
            let conn = table.into_connection();
            Tried { conn, end }
        }
        Err(NotMade { conn, fault }) => {
            let end = faulty(&mut said.text, fault);
            Tried { conn, end }
        }
    }
}

/// Adds the events that a table was taken with: as what `open inbox` answers, or as what it holds.
fn tell_loaded(known: &Known, rows: u64, events: &Batch, is_opened: bool, out: &mut String) -> End {
    if is_opened {
        return done(write!(out, "rows {rows}: ").is_ok() && known.tell_line(out, events));
    }
    done(out.push_str("inbox ").is_ok() && known.tell(out, events))
}

/// Adds why no table was taken: as what `open inbox` answers, or as what a database holds.
fn tell_not_made(fault: TableFault, is_opened: bool, out: &mut String) -> End {
    if is_opened {
        return faulty(out, fault);
    }
    done(match fault {
        TableFault::Foreign => out.push_str("no inbox").is_ok(),
        _ => write!(out, "inbox refused: {fault}").is_ok(),
    })
}

/// The table of a database with its events: one that is opened, or that stays of its version.
fn loaded<S: Alter>(
    alloc: Global,
    conn: Connection<S>,
    is_opened: bool,
) -> Result<Loaded<S>, NotMade<S>> {
    if is_opened {
        Table::open_and_load(alloc, conn, &Unwatched)
    } else {
        Table::adopt_and_load(alloc, conn)
    }
}

/// `open inbox`: how many rows it has, and its events. Or, where none is opened, the events of the
/// inbox that a database has, of whatever version.
pub fn look<S: Alter + Drop>(
    alloc: Global,
    conn: Connection<S>,
    known: &Known,
    is_opened: bool,
    out: &mut String,
) -> Tried<S> {
    match loaded(alloc, conn, is_opened) {
        Ok(Loaded { table, events }) => {
            let end = tell_loaded(known, table.rows(), &events, is_opened, out);
            let conn = table.into_connection();
            Tried { conn, end }
        }
        Err(NotMade { conn, fault }) => {
            let end = tell_not_made(fault, is_opened, out);
            Tried { conn, end }
        }
    }
}
