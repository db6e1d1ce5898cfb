//! What a shared site answers where an allocation is refused: what it would answer else, or that
//! memory is wanted, and then it has what it had and the call had its turn. tests/test_refusals.py
//! runs these tests with each allocation refused; with ample memory they compare the whole answers.

ghost use Rattle.std.specs.Prelude.{◌≡◌};

use crate::event::add_all;
use crate::shared::{A1, begun, has};
use attributes::Batch;
use site::{Desk, DeskFault, Site};
use site_lock::{Begun, Caller, Pass, SharedSite};
use std::alloc::Global;
use std::sync::Wait;
use views::{Answer, Query, print};

/// The summary of a site with the number 1.
const COVER: &str = "{\"sources\":{\"/orders\":[[1,1]]},\"version\":1}\n";

/// Whether a batch of one new event is taken; none where memory is refused, and nothing is taken.
fn is_taken<R: Wait>(
    rt: &R,
    shared: &SharedSite,
    pass: &mut Pass,
    batch: &mut Batch,
) -> Option<bool>
    requires { pass.old.table ≡ shared.now }
    ensures { pass.new.table ≡ pass.old.table }
{
    match shared.take(rt, pass, batch) {
        Ok(counts) => Some(counts.fresh == 1 && counts.repeated == 0 && batch.is_empty()),
        Err(DeskFault::OutOfMemory { taken, fresh }) => {
            if taken == 0 && fresh == 0 && batch.len() == 1 {
                None
            } else {
                Some(false)
            }
        }
    }
}

/// How many calls it took until the batch was taken, if it was.
fn takes<R: Wait>(rt: &R, shared: &SharedSite, pass: &mut Pass, batch: &mut Batch) -> Option<u64>
    requires { pass.old.table ≡ shared.now }
    ensures { pass.new.table ≡ pass.old.table }
{
    match is_taken(rt, shared, pass, batch) {
        Some(true) => Some(1),
        Some(false) => None,
        None => match is_taken(rt, shared, pass, batch) {
            Some(true) => Some(2),
            _ => None,
        },
    }
}

/// Whether an answer has these lines; none where memory is refused.
fn is_printed(alloc: Global, answer: &Answer, wanted: &str) -> Option<bool> {
    Some(print(alloc, answer).ok()?.as_str() == wanted)
}

/// Whether a question has these lines; none where memory is refused.
fn has_lines<R: Wait>(
    rt: &R,
    alloc: Global,
    shared: &SharedSite,
    pass: &mut Pass,
    query: Query,
    wanted: &str,
) -> Option<bool>
    requires { pass.old.table ≡ shared.now }
    ensures { pass.new.table ≡ pass.old.table }
{
    is_printed(alloc, &shared.query(rt, pass, query).ok()?, wanted)
}

/// How many calls it took until a question had these lines, if it had.
fn asks<R: Wait>(
    rt: &R,
    alloc: Global,
    shared: &SharedSite,
    pass: &mut Pass,
    query: Query,
    wanted: &str,
) -> Option<u64>
    requires { pass.old.table ≡ shared.now }
    ensures { pass.new.table ≡ pass.old.table }
{
    match has_lines(rt, alloc, shared, pass, query, wanted) {
        Some(true) => Some(1),
        Some(false) => None,
        None => match has_lines(rt, alloc, shared, pass, query, wanted) {
            Some(true) => Some(2),
            _ => None,
        },
    }
}

/// How many calls were made until the second pass had learned of the first one's event by meeting it,
/// if it did and each of them had one turn, refused or not.
fn learns<R: Wait>(
    rt: &R,
    alloc: Global,
    shared: &SharedSite,
    first: &mut Pass,
    second: &mut Pass,
    batch: &mut Batch,
) -> Option<u64>
    requires { (first.old.table ≡ shared.now) × (second.old.table ≡ shared.now) }
    ensures { first.new.table ≡ first.old.table }
{
    let taken = takes(rt, shared, first, batch)?;
    let covered = asks(rt, alloc, shared, first, Query::Cover, COVER)?;
    if shared.meet(second, first).is_err() {
        return None;
    }
    let shown = asks(rt, alloc, shared, second, Query::Shown, A1)?;
    let calls = taken.saturating_add(covered).saturating_add(shown);
    if shared.turns(second) == calls {
        Some(calls)
    } else {
        None
    }
}

/// Whether a site has the one event; none where memory is refused.
fn covers_one(site: &Site) -> Option<bool> {
    let text = site.lines(Query::Cover).ok()?;
    Some(site.arrived() == 1 && text.as_str() == COVER)
}

/// The same, at the second time where memory is refused.
fn has_one(site: &Site) -> bool {
    match covers_one(site) {
        Some(is_right) => is_right,
        None => covers_one(site) == Some(true),
    }
}

/// How many calls two passes made of a shared site that begins without events, and has one in the end,
/// of which both know; 0 where there is no memory for it or for the event, and none where it isn't so.
fn shares<R: Wait>(rt: &R, alloc: Global, batch: &mut Batch) -> Option<u64> {
    let Some(
        Begun {
            shared,
            pass: mut first,
        },
    ) = begun(alloc)
    else {
        return Some(0);
    };
    let Ok(mut second) = shared.split(&mut first) else {
        unreachable!()
    };
    let calls = learns(rt, alloc, &shared, &mut first, &mut second, batch);
    if has_one(&shared.close(rt, first)) {
        calls
    } else {
        None
    }
}

/// The same with a batch of the one event.
fn shares_one<R: Wait>(rt: &R, alloc: Global) -> Option<u64> {
    let mut batch = Batch::empty(alloc);
    if add_all(alloc, &mut batch, &[("a1", 1)]) {
        shares(rt, alloc, &mut batch)
    } else {
        Some(0)
    }
}

#[test]
fn a_refused_call_has_its_turn_and_adds_nothing(rt: HostRuntime) {
    assert!(rt; shares_one(&rt, rt.alloc()).is_some());
}

#[test]
fn a_pass_learns_by_meeting(rt: HostRuntime) {
    assert!(rt; shares_one(&rt, rt.alloc()) == Some(3));
}

// Where a desk may stop in a batch of a2, a1, a2 and a3, which is never at the event that is there:
// how many it took, and how many of these were new; the ids that it has then, in key order, and
// those of the rest; how many of the rest are new, and how many are there.
static FRONTS: [(u64, u64, &[&str], &[&str], u64, u64); 3] = [
    (0, 0, &[], &["a2", "a1", "a2", "a3"], 3, 1),
    (1, 1, &["a2"], &["a1", "a2", "a3"], 2, 1),
    (3, 2, &["a1", "a2"], &["a3"], 1, 0),
];

/// Whether a desk takes all of a batch, with so many new and repeated events.
fn takes_all<D: Desk>(desk: &mut D, batch: &mut Batch, fresh: u64, repeated: u64) -> bool {
    match desk.take(batch) {
        Ok(counts) => { counts.fresh == fresh && counts.repeated == repeated && batch.is_empty() }
        Err(_) => false,
    }
}

/// Whether a desk pages the events with these ids, in key order; none where memory is refused.
fn is_paged<D: Desk>(desk: &mut D, ids: &[&str]) -> Option<bool> {
    Some(has(&desk.page(0, 100).ok()?, ids))
}

/// Whether a desk that took so many events of the batch, of which so many were new, has those and
/// left the rest, which it takes then.
fn took_a_front<D: Desk>(desk: &mut D, batch: &mut Batch, taken: u64, fresh: u64) -> bool {
    for (took, new, ids, rest, more, again) in &FRONTS {
        if *took == taken && *new == fresh {
            return has(batch, rest)
                && is_paged(desk, ids) == Some(true)
                && takes_all(desk, batch, *more, *again);
        }
    }
    false
}

/// How many calls a desk needed to take the batch, and to page its front where it stopped behind
/// that, if it took it.
fn takes_in_the_end<D: Desk>(desk: &mut D, batch: &mut Batch) -> Option<u64> {
    match desk.take(batch) {
        Ok(counts) => {
            if counts.fresh == 3 && counts.repeated == 1 && batch.is_empty() {
                Some(1)
            } else {
                None
            }
        }
        Err(DeskFault::OutOfMemory { taken, fresh }) => {
            if took_a_front(desk, batch, taken, fresh) {
                Some(3)
            } else {
                None
            }
        }
    }
}

/// How many calls a desk needed to page all events, if it did.
fn pages_in_the_end<D: Desk>(desk: &mut D) -> Option<u64> {
    let ids = ["a1", "a2", "a3"];
    match is_paged(desk, &ids) {
        Some(true) => Some(1),
        Some(false) => None,
        None => {
            if is_paged(desk, &ids) == Some(true) {
                Some(2)
            } else {
                None
            }
        }
    }
}

/// How many calls a desk without events needed to take the batch and page it, if it did.
fn takes_and_pages<D: Desk>(desk: &mut D, batch: &mut Batch) -> Option<u64> {
    let taken = takes_in_the_end(desk, batch)?;
    let paged = pages_in_the_end(desk)?;
    Some(taken.saturating_add(paged))
}

/// Whether the events of the batch came to a site, each once and in its order.
fn has_come(site: &Site) -> bool {
    site.arrived() == 3
        && site.arrived_at(0).event().id() == "a2"
        && site.arrived_at(1).event().id() == "a1"
        && site.arrived_at(2).event().id() == "a3"
}

/// Whether a site takes the batch.
fn is_taken_by_a_site(alloc: Global, batch: &mut Batch) -> bool {
    let mut site = Site::empty(alloc);
    takes_and_pages(&mut site, batch).is_some() && has_come(&site)
}

/// Whether a shared site takes the batch by a caller, each of whose calls has one turn, refused or
/// not; none where there is no memory for the site.
fn is_taken_by_a_caller<R: Wait>(rt: &R, alloc: Global, batch: &mut Batch) -> Option<bool> {
    let Some(
        Begun {
            shared,
            pass: mut first,
        },
    ) = begun(alloc)
    else {
        return None;
    };
    let Ok(second) = shared.split(&mut first) else {
        unreachable!()
    };
    let mut caller = Caller::of(rt, &shared, second);
    let calls = takes_and_pages(&mut caller, batch);
    drop(caller.into_pass());
    let turns = shared.turns(&mut first);
    Some(has_come(&shared.close(rt, first)) & (calls == Some(turns)))
}

/// Whether the batch is taken by a desk of one of the two kinds; none where there is no memory for
/// the batch or the desk.
fn is_desk_good<R: Wait>(rt: &R, alloc: Global, is_shared: bool) -> Option<bool> {
    let mut batch = Batch::empty(alloc);
    if !add_all(
        alloc,
        &mut batch,
        &[("a2", 2), ("a1", 1), ("a2", 2), ("a3", 3)],
    ) {
        return None;
    }
    if is_shared {
        is_taken_by_a_caller(rt, alloc, &mut batch)
    } else {
        Some(is_taken_by_a_site(alloc, &mut batch))
    }
}

/// The same, at the second time where there is no memory for it.
fn is_desk_good_in_the_end<R: Wait>(rt: &R, alloc: Global, is_shared: bool) -> bool {
    match is_desk_good(rt, alloc, is_shared) {
        Some(is_good) => is_good,
        None => is_desk_good(rt, alloc, is_shared) == Some(true),
    }
}

#[test]
fn a_desk_takes_a_batch_or_its_front(rt: HostRuntime) {
    assert!(rt; is_desk_good_in_the_end(&rt, rt.alloc(), false));
}

#[test]
fn a_caller_takes_a_batch_or_its_front(rt: HostRuntime) {
    assert!(rt; is_desk_good_in_the_end(&rt, rt.alloc(), true));
}
