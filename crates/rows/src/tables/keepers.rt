//! Keepers of an inbox, whatever the store of its database is, and the sites that they keep.

ghost use Rattle.std.specs.Prelude.{◌≡◌};
ghost use Rattle.sqlite.specs.Held.{state};
ghost use Rattle.site_lock.specs.Pass.{leaves};
ghost use Rattle.keeper.specs.Keep.{KeepsUp};

use crate::said::line;
use crate::tables::acts::{End, Tried, done, refused};
use crate::tables::known::Known;
use feeds::Aside;
use inbox_table::{NotMade, Table, TableFault};
use keeper::{Flushed, Flusher, KeepFault, Keeper, Kept, NotKept};
use site::Site;
use site_lock::{Begun, Pass, SharedSite};
use sqlite::{Alter, Connection};
use std::sync::Wait;

/// The faults of a keeper, in the order of their numbers.
static FAULTS: [KeepFault; 3] = [KeepFault::OutOfMemory, KeepFault::Store, KeepFault::Foreign];

/// `faults keeper`: each by its number and name.
pub fn faults(out: &mut String) -> bool {
    for fault in &FAULTS {
        let (number, fault) = (fault.number(), *fault);
        if write!(out, "{number} {fault}\n").is_err() {
            return false;
        }
    }
    true
}

/// The site takes an event, and it is told how many were new.
fn take<R: AllocGlobal + Wait>(
    rt: &R,
    known: &Known,
    shared: &SharedSite,
    pass: &mut Pass,
    name: &str,
    out: &mut String,
) -> bool
    requires { pass.old.table ≡ shared.now }
    ensures { pass.new.table ≡ shared.now }
{
    let Some(mut batch) = known.batch(rt.alloc(), name) else {
        return false;
    };
    match shared.take(rt, pass, &mut batch) {
        Ok(counts) => {
            let fresh = counts.fresh;
            write!(out, "new {fresh}\n").is_ok()
        }
        Err(_) => false,
    }
}

/// Takes the events of names, of which there are one or two.
fn take_all<R: AllocGlobal + Wait>(
    rt: &R,
    known: &Known,
    shared: &SharedSite,
    pass: &mut Pass,
    names: &str,
    out: &mut String,
) -> bool
    requires { pass.old.table ≡ shared.now }
{
    match names.split_once(' ') {
        Some((first, second)) => take(rt, known, shared, pass, first, out)
            && take(rt, known, shared, pass, second, out),
        None => take(rt, known, shared, pass, names, out),
    }
}

/// Adds up to which arrival all are acknowledged, of the first three.
fn add_acknowledged<S: Alter + Drop>(keeper: &Keeper<S>, out: &mut String) -> bool {
    let kept = keeper.kept();
    let (first, second, third) = (
        keeper.acknowledged(1),
        keeper.acknowledged(2),
        keeper.acknowledged(3),
    );
    write!(
        out,
        "kept {kept}; acknowledged 1: {first}, 2: {second}, 3: {third}\n"
    )
    .is_ok()
}

/// The site takes events, and no step follows.
fn no_step<R: AllocGlobal + Wait, S: Alter + Drop>(
    rt: &R,
    known: &Known,
    keeper: &Keeper<S>,
    shared: &SharedSite,
    pass: &mut Pass,
    names: &str,
    out: &mut String,
) -> End
    requires { pass.old.table ≡ shared.now }
{
    done(take_all(rt, known, shared, pass, names, out) && add_acknowledged(keeper, out))
}

/// Tells how many events a step kept.
fn tell_step<S: Alter + Drop>(
    ended: Result<u64, KeepFault>,
    keeper: &Keeper<S>,
    out: &mut String,
) -> End {
    match ended {
        Ok(count) => {
            done(write!(out, "step {count}\n").is_ok() && add_acknowledged(keeper, out))
        }
        Err(fault) => refused(
            fault != KeepFault::OutOfMemory && write!(out, "step refused: {fault}\n").is_ok(),
        ),
    }
}

/// The site takes events, and the keeper makes one step by a pass that was split off before.
fn step<R: AllocGlobal + Wait, S: Alter + Drop>(
    rt: &R,
    known: &Known,
    keeper: &mut Keeper<S>,
    shared: &SharedSite,
    pass: &mut Pass,
    names: &str,
    out: &mut String,
) -> End
    requires own { pass.old.table ≡ shared.now }
    requires first { KeepsUp (state S.Store keeper.old.conn) keeper.old.rows (leaves pass.old) }
{
    let Ok(mut own) = shared.split(pass) else {
        return End::Untold;
    };
    if !take_all(rt, known, shared, pass, names, out) || !add_acknowledged(keeper, out) {
        return End::Untold;
    }
    let ended = keeper.step(rt, shared, &mut own);
    tell_step(ended, keeper, out)
}

/// The site of a keeper that was begun takes events, and the keeper makes a step or none.
fn begun<R: AllocGlobal + Wait, S: Alter + Drop>(
    rt: &R,
    known: &Known,
    keeper: &mut Keeper<S>,
    site: Site,
    is_step: bool,
    names: &str,
    out: &mut String,
) -> End
    requires { KeepsUp (state S.Store keeper.old.conn) keeper.old.rows site }
{
    let Ok(Begun { shared, mut pass }) = SharedSite::begin(rt.alloc(), site) else {
        return End::Untold;
    };
    if is_step {
        step(rt, known, keeper, &shared, &mut pass, names, out)
    } else {
        no_step(rt, known, keeper, &shared, &mut pass, names, out)
    }
}

/// Tells whether a flusher kept what came, in its turn.
fn turn<R: Wait, S: Alter + Drop>(flusher: &mut Flusher<'_, R, S>, out: &mut String) -> bool {
    line(
        out,
        if flusher.turn() {
            "turn, goes on"
        } else {
            "turn, ends"
        },
    )
}

/// The site takes the events of two names, and the flusher has a turn behind each and another one.
fn take_and_turn<R: AllocGlobal + Wait, S: Alter + Drop>(
    rt: &R,
    known: &Known,
    shared: &SharedSite,
    pass: &mut Pass,
    flusher: &mut Flusher<'_, R, S>,
    names: &str,
    out: &mut String,
) -> bool
    requires { pass.old.table ≡ shared.now }
{
    match names.split_once(' ') {
        Some((first, second)) => {
            take(rt, known, shared, pass, first, out)
                && turn(flusher, out)
                && take(rt, known, shared, pass, second, out)
                && turn(flusher, out)
                && turn(flusher, out)
        }
        None => false,
    }
}

/// The connection of a keeper.
fn left<S: Alter + Drop>(keeper: Keeper<S>, end: End) -> Tried<S> {
    let conn = keeper.into_table().into_connection();
    Tried { conn, end }
}

/// Tells what came of a flusher.
fn tell_flushed<S: Alter + Drop>(keeper: &Keeper<S>, is_faultless: bool, out: &mut String) -> End {
    done(
        add_acknowledged(keeper, out)
            && line(out, if is_faultless { "no fault" } else { "a fault" }),
    )
}

/// A flusher's keeper, and what came of it.
fn flushed<S: Alter + Drop>(flushed: Flushed<S>, is_told: bool, out: &mut String) -> Tried<S> {
    let Flushed {
        keeper,
        pass: _,
        fault,
    } = flushed;
    let end = if is_told {
        tell_flushed(&keeper, fault.is_none(), out)
    } else {
        End::Untold
    };
    left(keeper, end)
}

/// The flusher of a keeper has turns while the site takes two events.
fn turns<R: AllocGlobal + Wait, S: Alter + Drop>(
    rt: &R,
    known: &Known,
    keeper: Keeper<S>,
    site: Site,
    names: &str,
    out: &mut String,
) -> Tried<S>
    requires { KeepsUp (state S.Store keeper.conn) keeper.rows site }
{
    let Ok(Begun { shared, mut pass }) = SharedSite::begin(rt.alloc(), site) else {
        return left(keeper, End::Untold);
    };
    let Ok(own) = shared.split(&mut pass) else {
        return left(keeper, End::Untold);
    };
    let mut flusher = Flusher::of(rt, &shared, keeper, own);
    let is_told = take_and_turn(rt, known, &shared, &mut pass, &mut flusher, names, out);
    flushed(flusher.end(), is_told, out)
}

/// A keeper that was begun does what the word says.
fn kept<R: AllocGlobal + Wait, S: Alter + Drop>(
    rt: &R,
    known: &Known,
    keeper: Keeper<S>,
    site: Site,
    word: &str,
    names: &str,
    out: &mut String,
) -> Tried<S>
    requires { KeepsUp (state S.Store keeper.conn) keeper.rows site }
{
    if word == "turns" {
        return turns(rt, known, keeper, site, names, out);
    }
    let mut keeper = keeper;
    let end = begun(rt, known, &mut keeper, site, word == "step", names, out);
    left(keeper, end)
}

/// `take|step|turns EVENT [EVENT]`: adopts the inbox and begins a keeper of it. Its site takes the
/// events, one by one; then no step follows, or one, or a flusher has a turn behind each event and
/// another one.
pub fn keep<R: AllocGlobal + Wait, S: Alter + Drop>(
    rt: &R,
    conn: Connection<S>,
    known: &Known,
    word: &str,
    names: &str,
    out: &mut String,
) -> Tried<S> {
    let table = match Table::adopt(rt.alloc(), conn) {
        Ok(table) => table,
        Err(NotMade { conn, fault }) => {
            let is_told = fault != TableFault::OutOfMemory && write!(out, "{fault}\n").is_ok();
            let end = refused(is_told);
            return Tried { conn, end };
        }
    };
    match Keeper::begin(rt.alloc(), table) {
        Ok(Kept { keeper, site }) => kept(rt, known, keeper, site, word, names, out),
        Err(NotKept { table, fault }) => {
            let is_told = fault != KeepFault::OutOfMemory && write!(out, "{fault}\n").is_ok();
            let end = refused(is_told);
            let conn = table.into_connection();
            Tried { conn, end }
        }
    }
}
