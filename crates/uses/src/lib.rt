//! A region in a program of one's own: files of events are taken side by side into the inbox of a
//! database, a thread for each, and kept meanwhile; then the types of all that it has are told.
#![tactic(auto)]

ghost use Rattle.std.specs.Prelude.{◌≤◌, length, IfSome};
ghost use Rattle.sqlite.specs.Held.{state};
ghost use Rattle.sqlite.specs.State.{HasCleanDisk};
ghost use Rattle.keeper.specs.Keep.{KeepsUp};
ghost use Rattle.uses.specs.Region.{IsRegion};

use attributes::{List, Octets, Text};
use event_files::Shelf;
use feeds::{Jobs, ServeFault, Served, WorkerEnd, serve};
use inbox_table::{Table, Unwatched};
use keeper::laws::first_arrivals_stay;
use keeper::{Flushed, Flusher, Keeper, Kept};
use site::{Site, Wide};
use site_lock::{Begun, SharedSite};
use sqlite::{Alter, Connection};
use std::alloc::Global;
use std::sync::Wait;
use std::thread::Threads;
use views::Query;

/// A region: the table of its events, and the lines of their types.
#[derive(Drop)]
pub struct Region<S: Alter> {
    pub table: Table<S>,
    pub lines: Text,
}

/// Takes the files of these names, 16 of them at most, into the inbox of a database, and answers
/// its table with the lines of the types of all its events; none where anything is refused.
pub fn kinds<R: Threads + Wait + Sync, S: Alter + Drop, F: Shelf>(
    rt: &R,
    alloc: Global,
    conn: Connection<S>,
    shelf: &F,
    names: &[Text],
) -> Option<Region<S>>
    ensures { IfSome result (λ r. HasCleanDisk (state S.Store r.table.conn)
        → IsRegion (state S.Store r.table.conn).now r.lines) }
{
    let mut files = List::empty(alloc);
    for name in names {
        files.push(shelf.content(alloc, name.as_str()).ok()?).ok()?;
    }
    let table = Table::open(alloc, conn, &Unwatched).ok()?;
    match Keeper::begin(alloc, table) {
        Ok(kept) if files.len() <= 16 => take(rt, alloc, kept, files),
        _ => None,
    }
}

/// The same of a site whose table keeps up with it: shares it, and has a thread for each file.
fn take<R: Threads + Wait + Sync, S: Alter + Drop>(
    rt: &R,
    alloc: Global,
    kept: Kept<S>,
    feeds: List<Octets>,
) -> Option<Region<S>>
    requires first { KeepsUp (state S.Store kept.keeper.conn) kept.keeper.rows kept.site }
    requires few { length feeds ≤ 16 }
    ensures { IfSome result (λ r. HasCleanDisk (state S.Store r.table.conn)
        → IsRegion (state S.Store r.table.conn).now r.lines) }
{
    // What the table has of the first arrivals it has, whatever comes to the site.
    first_arrivals_stay();
    let Kept { keeper, site } = kept;
    let Ok(Begun { shared, mut pass }) = SharedSite::begin(alloc, site) else {
        return None;
    };
    let Ok(own) = shared.split(&mut pass) else {
        unreachable!()
    };
    let mut flusher = Flusher::of(rt, &shared, keeper, own);
    let (peers, asks) = (List::empty(alloc), List::empty(alloc));
    let jobs = Jobs { feeds, peers, asks };
    let served = serve(rt, alloc, &shared, &mut pass, jobs, &Wide, &mut flusher);
    let Flushed {
        keeper,
        pass: mut own,
        fault,
    } = flusher.end();
    let Ok(()) = shared.meet(&mut pass, &mut own) else {
        unreachable!()
    };
    let site = shared.close(rt, pass);
    if fault.is_some() || !are_done(&served) {
        return None;
    }
    region_of(keeper, &site)
}

/// Whether each worker brought all that it was to bring.
fn are_done(served: &Result<Served, ServeFault>) -> bool {
    match served {
        Ok(served) => served.reports.iter().all(|it| it.ended == WorkerEnd::Done),
        Err(_) => false,
    }
}

/// Keeps the rest of what came to a site, in one transaction, and tells of all.
fn region_of<S: Alter + Drop>(keeper: Keeper<S>, site: &Site) -> Option<Region<S>>
    requires { KeepsUp (state S.Store keeper.conn) keeper.rows site.now }
    ensures { IfSome result (λ r. HasCleanDisk (state S.Store r.table.conn)
        → IsRegion (state S.Store r.table.conn).now r.lines) }
{
    let mut keeper = keeper;
    match keeper.catch_up(site, &Unwatched) {
        Ok(()) => {}
        Err(_) => return None,
    }
    match site.lines(Query::Kinds) {
        Ok(lines) => {
            let table = keeper.into_table();
            Some(Region { table, lines })
        }
        Err(_) => None,
    }
}
