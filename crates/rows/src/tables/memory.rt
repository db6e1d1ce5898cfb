//! Databases in memory.

use crate::said::Said;
use crate::shelf::Shelf;
use crate::tables::acts::{End, Tried, act_all, act_compared, run_all};
use crate::tables::known::Known;
use crate::tables::relays::{FailsOnce, stepped};
use relay::Relay;
use sqlite::{Connection, MemStore};
use std::alloc::Global;
use std::sync::Wait;

/// A database in memory, which a call takes and gives back.
#[derive(Drop)]
pub struct Base {
    conn: Option<Connection<MemStore>>,
}

/// `memory NAME [STATEMENT..]`: a new database, on which these statements run.
pub fn begin(
    alloc: Global,
    bases: &mut Shelf<Base>,
    known: &Known,
    words: &[&str],
    out: &mut String,
) -> bool {
    let [name, names @ ..] = words else {
        return false;
    };
    match Connection::open_in_memory(alloc) {
        Ok(conn) => {
            let mut conn = conn;
            let is_run = run_all(&mut conn, known, names, out);
            let conn = Some(conn);
            bases.put(alloc, name, Base { conn }) && is_run
        }
        Err(_) => false,
    }
}

/// Calls over a database: `compare CALL`, or `CALL [| CALL]..`.
fn played<R: AllocGlobal + Wait>(
    rt: &R,
    conn: Connection<MemStore>,
    known: &Known,
    text: &str,
    said: &mut Said,
) -> Tried<MemStore> {
    match text.strip_prefix("compare ") {
        Some(call) => act_compared(rt, conn, known, call, said),
        None => act_all(rt, conn, known, text, said),
    }
}

/// Calls over a database, which goes on.
pub fn over<R: AllocGlobal + Wait>(
    rt: &R,
    base: &mut Base,
    known: &Known,
    text: &str,
    said: &mut Said,
) -> bool {
    let Some(conn) = base.conn.take() else {
        return false;
    };
    let Tried { conn, end } = played(rt, conn, known, text, said);
    base.conn = Some(conn);
    end != End::Untold
}

/// A step of a relay over a database to a route, or as a job where there is none.
pub fn step(
    alloc: Global,
    base: &mut Base,
    relay: &mut Relay,
    route: Option<&mut FailsOnce>,
    out: &mut String,
) -> bool {
    let Some(conn) = base.conn.take() else {
        return false;
    };
    let Tried { conn, end } = stepped(alloc, conn, relay, route, out);
    base.conn = Some(conn);
    end != End::Untold
}
