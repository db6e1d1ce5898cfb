//! One worker over a site of its own.

ghost use Rattle.std.specs.Prelude.{◌+◌, ◌<◌, ◌^◌};

use crate::event::{is_text, json_batch};
use feeds::{Answers, Report, WorkerEnd, ask, feed, pull, pull_from};
use site::{Gate, GateShut, Site, Wide};
use std::alloc::Global;
use views::{Query, print};

/// It lets so many calls of worker 7 through.
#[derive(Clone, Copy)]
struct First(u64);

impl Gate for First {
    ghost use Rattle.std.specs.Prelude.{⊤};

    ghost lets = { λ _ _ _. ⊤ };

    ghost shuts = { λ _ _ _. ⊤ };

    ghost heard = { λ _ _ _. ⊤ };

    fn before(&self, worker: u64, call: u64) -> Result<(), GateShut> {
        if worker == 7 && call <= self.0 {
            Ok(())
        } else {
            Err(GateShut)
        }
    }

    fn after(&self, _worker: u64, _call: u64) {}
}

/// Feeds a site the batch of so many events, with the numbers from `first` on.
fn fed<G: Gate>(
    alloc: Global,
    site: &mut Site,
    gate: &G,
    worker: u64,
    first: u64,
    count: u64,
) -> Option<Report> {
    let text = json_batch(alloc, first, count).ok()?;
    Some(feed(alloc, site, gate, worker, text.as_str().as_bytes()))
}

/// A site takes so many events, with the numbers from `first` on; answers whether it did.
pub fn fill(alloc: Global, site: &mut Site, first: u64, count: u64) -> bool {
    fed(alloc, site, &Wide, 0, first, count) == Some(report(count, 0, 0, WorkerEnd::Done))
}

/// The report with these counts of new events, events that were there, and refused ones.
pub fn report(fresh: u64, repeated: u64, refused: u64, ended: WorkerEnd) -> Report
    requires { fresh + repeated + refused < 2 ^ 64 }
{
    Report {
        read: fresh + repeated + refused,
        fresh,
        repeated,
        refused,
        ended,
    }
}

/// Whether a feed ends where its gate shuts, and what it brought stays.
fn ends_at_its_gate(alloc: Global, site: &mut Site) -> bool {
    fed(alloc, site, &First(1), 7, 1, 150) == Some(report(100, 0, 0, WorkerEnd::GateShut))
        && site.arrived() == 100
        && fed(alloc, site, &First(9), 8, 1, 150) == Some(report(0, 0, 0, WorkerEnd::GateShut))
        && fed(alloc, site, &First(2), 7, 1, 150) == Some(report(50, 100, 0, WorkerEnd::Done))
}

#[test]
fn a_shut_gate_ends_a_feed(rt: HostRuntime) {
    let is_so = {
        let mut site = Site::empty(rt.alloc());
        ends_at_its_gate(rt.alloc(), &mut site)
    };
    assert!(rt; is_so);
}

/// A pull by worker 7, of which so many calls are let through.
fn pulled(from: &mut Site, to: &mut Site, calls: u64) -> Report {
    pull(from, to, &First(calls), 7)
}

/// A pull from a site of one's own.
fn pulled_from(from: &mut Site, to: &mut Site) -> Report {
    pull_from(from, to, &Wide, 0)
}

/// Whether a pull brings all 250 events.
fn pulls_all(alloc: Global, from: &mut Site, to: &mut Site) -> bool {
    fill(alloc, from, 1, 250)
        && pulled(from, to, 8) == report(250, 0, 0, WorkerEnd::Done)
        && to.arrived() == 250
}

/// Whether a pull of 150 events goes on past a gate that shut after three calls.
fn pulls_again(alloc: Global, from: &mut Site, to: &mut Site) -> bool {
    fill(alloc, from, 1, 150)
        && pulled(from, to, 3) == report(100, 0, 0, WorkerEnd::GateShut)
        // All 150 stand in one block, which goes whole.
        && pulled_from(from, to) == report(50, 100, 0, WorkerEnd::Done)
        && pulled(from, to, 2) == report(0, 0, 0, WorkerEnd::Done)
        && to.arrived() == 150
}

/// Whether two sites without events pull so: all at once, or past a gate that shuts.
fn sites_pull(alloc: Global, is_shut: bool) -> bool {
    let mut from = Site::empty(alloc);
    let mut to = Site::empty(alloc);
    if is_shut {
        pulls_again(alloc, &mut from, &mut to)
    } else {
        pulls_all(alloc, &mut from, &mut to)
    }
}

#[test]
fn a_pull_brings_what_is_lacking(rt: HostRuntime) {
    assert!(rt; sites_pull(rt.alloc(), false));
}

#[test]
fn a_pull_goes_on_after_a_shut_gate(rt: HostRuntime) {
    assert!(rt; sites_pull(rt.alloc(), true));
}

/// Whether answers have these lines, in their order.
fn are_lines(alloc: Global, answers: &Answers, wanted: &[&str]) -> bool {
    if answers.len() != wanted.len() as u64 {
        return false;
    }
    for i in 0..wanted.len() {
        if !is_text(print(alloc, answers.at(i as u64)), wanted[i]) {
            return false;
        }
    }
    true
}

/// Whether a worker that asks how many events have each type, and which numbers there are, ends so
/// with these lines.
fn asks<G: Gate>(
    alloc: Global,
    site: &mut Site,
    gate: &G,
    worker: u64,
    ended: WorkerEnd,
    wanted: &[&str],
) -> bool {
    let asked = ask(alloc, site, gate, worker, &[Query::Kinds, Query::Cover]);
    asked.ended == ended && are_lines(alloc, &asked.answers, wanted)
}

/// Whether a worker's questions are answered in their order, up to a gate that shuts.
fn answers_in_order(alloc: Global, site: &mut Site) -> bool {
    let kinds = "[\"t.a\",2]\n";
    let cover = "{\"sources\":{\"/orders\":[[1,2]]},\"version\":1}\n";
    fill(alloc, site, 1, 2)
        && asks(alloc, site, &Wide, 0, WorkerEnd::Done, &[kinds, cover])
        && asks(alloc, site, &First(1), 7, WorkerEnd::GateShut, &[kinds])
}

#[test]
fn questions_are_answered_in_their_order(rt: HostRuntime) {
    let is_so = {
        let mut site = Site::empty(rt.alloc());
        answers_in_order(rt.alloc(), &mut site)
    };
    assert!(rt; is_so);
}
