//! That no exchange gives up above a size or at a small one while there is memory: no contract can say
//! so, since memory may be refused wherever something is made.

use crate::event::add;
use crate::taking::{counts, take_all, then};
use attributes::Batch;
use exchange::{Step, Steps, World, gossip, run};
use site::Site;
use std::alloc::Global;

/// Adds an event with a type, a subject and a number of its own.
fn add_row(alloc: Global, batch: &mut Batch, number: u64) -> bool {
    match format!(in alloc; "n{number:05}") {
        Ok(name) => {
            let name = name.as_str();
            add(
                alloc,
                batch,
                (name, number, name, name, "2024-02-29T00:00:00Z"),
            )
        }
        Err(_) => false,
    }
}

/// Adds such events from a number on, so many.
pub fn add_rows(alloc: Global, batch: &mut Batch, first: u64, count: u64) -> bool {
    for k in 0..count.min(10_000) {
        if !add_row(alloc, batch, first.saturating_add(k)) {
            return false;
        }
    }
    true
}

/// A site takes such events, which are new to it.
fn take_rows(alloc: Global, site: &mut Site, first: u64, count: u64) -> bool {
    let mut batch = Batch::empty(alloc);
    add_rows(alloc, &mut batch, first, count)
        && take_all(site, &mut batch) == Some(counts(count, 0))
}

/// Whether a site brings another one so many events at once.
fn is_heard(alloc: Global, from: &mut Site, to: &mut Site, count: u64) -> bool {
    take_rows(alloc, from, 1, count) && gossip(from, to) == Ok(counts(count, 0))
}

/// Whether a site without events hears so many of another one.
fn hears(alloc: Global, count: u64) -> bool {
    let mut site = Site::empty(alloc);
    let mut other = Site::empty(alloc);
    is_heard(alloc, &mut site, &mut other, count)
}

#[test]
fn a_giver_of_three_thousand_is_heard(rt: HostRuntime) {
    assert!(rt; hears(rt.alloc(), 3_000));
}

/// Adds the delivery of so many events to a site.
fn then_rows(alloc: Global, steps: &mut Steps, count: u64) -> bool {
    let mut batch = Batch::empty(alloc);
    add_rows(alloc, &mut batch, 1, count) && then(steps, Step::Deliver { site: 0, batch })
}

/// The world of so many sites after the steps.
fn world_of(alloc: Global, sites: u32, steps: &Steps) -> Option<World> {
    if steps.fits(sites) {
        run(alloc, sites, steps).ok()
    } else {
        None
    }
}

/// Whether a delivery of so many events brings them all.
fn delivers(alloc: Global, count: u64) -> bool {
    let mut steps = Steps::empty(alloc);
    if !then_rows(alloc, &mut steps, count) {
        return false;
    }
    match world_of(alloc, 1, &steps) {
        Some(world) => world.sites() == 1 && world.site(0).len() == count,
        None => false,
    }
}

#[test]
fn batches_of_each_size_are_delivered(rt: HostRuntime) {
    for count in 0..20 {
        assert!(rt; delivers(rt.alloc(), count), "{count}");
    }
    assert!(rt; delivers(rt.alloc(), 1_000));
}
