//! A shared site answers its passes and callers, and `turns` isn't too high.

ghost use Rattle.std.specs.Prelude.{◌≡◌, IfSome};

use crate::event::{add_all, is_text};
use attributes::{Batch, Sequence, Text};
use coverage::Summary;
use site::{Desk, DeskFault, Site};
use site_lock::{Begun, Caller, Pass, SharedSite};
use std::alloc::Global;
use std::sync::Wait;
use views::{Query, print};

/// The line of the event a1.
pub const A1: &str = concat!(
    "{\"id\":\"a1\",\"sequence\":\"00000000000000000001\",\"source\":\"/orders\",",
    "\"specversion\":\"1.0\",\"subject\":\"x\",\"type\":\"t.a\"}\n"
);

/// Whether a batch has events with these ids, in their order.
pub fn has(batch: &Batch, ids: &[&str]) -> bool {
    if batch.len() != ids.len() as u64 {
        return false;
    }
    for i in 0..ids.len() {
        if batch.at(i as u64).event().id() != ids[i] {
            return false;
        }
    }
    true
}

/// Whether there is a batch, with events with these ids in their order.
fn is_of(batch: Result<Batch, DeskFault>, ids: &[&str]) -> bool {
    matches!(batch, Ok(batch) if has(&batch, ids))
}

/// A shared site without events, and its first pass.
pub fn begun(alloc: Global) -> Option<Begun>
    ensures { IfSome result (λ b. b.pass.table ≡ b.shared) }
{
    SharedSite::begin(alloc, Site::empty(alloc)).ok()
}

/// Takes events with these ids and numbers, and tells how many were new.
pub fn take<R: Wait>(
    rt: &R,
    alloc: Global,
    shared: &SharedSite,
    pass: &mut Pass,
    rows: &[(&str, u64)],
) -> Option<u64>
    requires { pass.old.table ≡ shared.now }
    ensures { pass.new.table ≡ pass.old.table }
{
    let mut batch = Batch::empty(alloc);
    if !add_all(alloc, &mut batch, rows) {
        return None;
    }
    Some(shared.take(rt, pass, &mut batch).ok()?.fresh)
}

/// Adds the number 2 of the source `/orders`, and answers whether it did.
fn add_two(alloc: Global, peer: &mut Summary) -> bool {
    match (Text::of(alloc, "/orders"), Sequence::of_u64(2)) {
        (Ok(source), Some(two)) => source.is_source() && peer.insert(&source, two).is_ok(),
        _ => false,
    }
}

/// Takes events by a desk, and tells how many were new and how many were there.
fn take_at<D: Desk>(alloc: Global, desk: &mut D, rows: &[(&str, u64)]) -> Option<(u64, u64)> {
    let mut batch = Batch::empty(alloc);
    if !add_all(alloc, &mut batch, rows) {
        return None;
    }
    let counts = desk.take(&mut batch).ok()?;
    Some((counts.fresh, counts.repeated))
}

/// Whether a desk that has a1 to a3 pages them, and tells a peer with the number 2 what it lacks.
fn pages<D: Desk>(alloc: Global, desk: &mut D) -> bool {
    let mut peer = Summary::empty(alloc);
    add_two(alloc, &mut peer)
        && is_of(desk.delta_page(&peer, 0, 100), &["a1", "a3"])
        && is_of(desk.delta_page(&peer, 1, 100), &["a3"])
        && is_of(desk.page(1, 1), &["a2"])
}

/// The summary of a desk that has a1 to a3.
const THREE: &str = concat!(
    "{\"blocks\":{\"/orders\":[[0,",
    "\"92a499e5ce1837c2fc65b41ad105efae295d9a4b160f814ad5807a8c2fbb35ef\"]]}",
    ",\"sources\":{\"/orders\":[[1,3]]},\"version\":2}",
);

/// Whether the summary of a desk has this text.
fn sums_up<D: Desk>(desk: &mut D, wanted: &str) -> bool {
    matches!(desk.summary(), Ok(summary) if is_text(summary.to_text(), wanted))
}

/// Whether a desk has these lines of kinds.
fn are_kinds<D: Desk>(alloc: Global, desk: &mut D, wanted: &str) -> bool {
    matches!(desk.query(Query::Kinds), Ok(it) if is_text(print(alloc, &it), wanted))
}

/// Whether a desk without events takes a1 to a3, of which one comes twice, and tells of them.
pub fn takes_and_tells<D: Desk>(alloc: Global, desk: &mut D) -> bool {
    take_at(alloc, desk, &[("a2", 2), ("a1", 1), ("a3", 3), ("a2", 2)]) == Some((3, 1))
        && pages(alloc, desk)
        && sums_up(desk, THREE)
        && are_kinds(alloc, desk, "[\"t.a\",3]\n")
}

/// Whether a pass that saw the events that a desk took shows those that came behind the first, and
/// each call had one turn.
fn has_turns<R: Wait>(rt: &R, shared: &SharedSite, pass: &mut Pass) -> bool
    requires { pass.old.table ≡ shared.now }
    ensures { pass.new.table ≡ pass.old.table }
{
    is_of(shared.fresh(rt, pass, 1, 10), &["a1", "a3"]) && shared.turns(pass) == 7
}

/// Whether a caller of a shared site without events is a desk.
fn caller_is_a_desk<R: Wait>(rt: &R, alloc: Global) -> Option<bool> {
    let Begun {
        shared,
        pass: mut first,
    } = begun(alloc)?;
    let Ok(second) = shared.split(&mut first) else {
        return None;
    };
    let mut caller = Caller::of(rt, &shared, second);
    let is_told = takes_and_tells(alloc, &mut caller);
    drop(caller.into_pass());
    let is_seen = has_turns(rt, &shared, &mut first);
    Some(is_told & is_seen & (shared.close(rt, first).arrived() == 3))
}

#[test]
fn a_caller_is_a_desk(rt: HostRuntime) {
    assert!(rt; caller_is_a_desk(&rt, rt.alloc()) == Some(true));
}
