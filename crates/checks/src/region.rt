//! The use of the libraries: files are taken side by side into a database in memory.

use attributes::{Batch, Octets, Text};
use event_files::{Shelf, Unread};
use inbox_table::Table;
use sqlite::{Connection, MemStore};
use std::alloc::Global;
use std::process::Abort;
use std::sync::Wait;
use std::thread::Threads;
use uses::{Region, kinds};

const FIRST: &str =
    r#"[{"id":"a1","sequence":"00000000000000000001","source":"/orders","specversion":"1.0","type":"t.a"},{"id":"a2","sequence":"00000000000000000002","source":"/orders","specversion":"1.0","type":"t.b"}]"#;

const OTHERS: &str =
    r#"[{"id":"a2","sequence":"00000000000000000002","source":"/orders","specversion":"1.0","type":"t.b"},{"id":"a3","sequence":"00000000000000000003","source":"/orders","specversion":"1.0","type":"t.b"}]"#;

/// A file of the first events under the name `first`, and of others under each other name.
struct Two;

impl Shelf for Two {
    ghost is_content = { λ _ _ _. Unit {0} };

    ghost is_unread = { λ _ _ _. Unit {0} };

    fn content(&self, alloc: Global, name: &str) -> Result<Octets, Unread> {
        let events = if name == "first" { FIRST } else { OTHERS };
        match Octets::of(alloc, events.as_bytes()) {
            Ok(bytes) => Ok(bytes),
            Err(_) => Err(Unread::OutOfMemory),
        }
    }
}

/// The region of both files, the second one given twice.
fn region<R: Threads + Wait + Sync + AllocGlobal + Abort>(rt: &R) -> Option<Region<MemStore>> {
    let alloc = rt.alloc();
    let conn = Connection::open_in_memory(alloc).ok()?;
    let names = [
        Text::of(alloc, "first").ok()?,
        Text::of(alloc, "second").ok()?,
        Text::of(alloc, "third").ok()?,
    ];
    kinds(rt, alloc, conn, &Two, &names)
}

/// Whether an event with this number is among these.
fn has_number(events: &Batch, number: u64) -> bool {
    for i in 0..events.len() {
        if events.at(i).number().number() == number {
            return true;
        }
    }
    false
}

/// Whether the table has the three events of the files, each once.
fn has_three(table: &mut Table<MemStore>) -> bool {
    match table.load() {
        Ok(events) => {
            events.len() == 3
                && has_number(&events, 1)
                && has_number(&events, 2)
                && has_number(&events, 3)
        }
        Err(_) => false,
    }
}

/// Whether the table has the events of the files, and the lines tell of them.
fn is_whole(region: Option<Region<MemStore>>) -> bool {
    match region {
        Some(Region { mut table, lines }) => {
            lines.as_str() == "[\"t.a\",1]\n[\"t.b\",2]\n" && has_three(&mut table)
        }
        None => false,
    }
}

// Its threads take from a shelf of the test.
#[test]
fn files_are_taken_side_by_side(rt: HostRuntime) {
    let is_whole = is_whole(region(&rt));
    assert!(rt; is_whole);
}
