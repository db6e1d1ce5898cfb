//! One worker that feeds a desk.

ghost use Rattle.std.specs.Prelude.{◌≡◌, ◌+◌, ◌<◌, ◌^◌, List, length, MatchResult};
ghost use Rattle.event_json.specs.Reading.{max_input};
ghost use Rattle.site.specs.declared.call.Call.{Call};
ghost use Rattle.feeds.specs.Gate.{IsGated};
ghost use Rattle.feeds.specs.Report.{Feeds, TellsReport, reported, unread};
ghost use Rattle.feeds.specs.steps.Tally.{Passes};

use crate::flush::{flush, flush_full};
use crate::report::{Report, Tally, WorkerEnd};
use attributes::{Batch, Event, Events, Sequenced};
use event_json::{ReadFault, read_events};
use site::{Desk, Gate};
use std::alloc::{AllocError, Global};

/// A feed puts an event into the batch, or passes over one that has no number.
fn pass_on(batch: &mut Batch, tally: &mut Tally, event: Event) -> Result<(), AllocError>
    requires { tally.old.refused + 1 < 2 ^ 64 }
    ensures { MatchResult result
        (λ _. Passes event batch.old batch.new tally.old tally.new)
        (λ _. (batch.new ≡ batch.old) × (tally.new ≡ tally.old)) }
{
    match Sequenced::of(event) {
        Ok(event) => match batch.push(event) {
            Ok(()) => Ok(()),
            Err(_) => Err(AllocError),
        },
        Err(_) => {
            tally.refused += 1;
            Ok(())
        }
    }
}

/// The worker hands its events to the desk, in batches. The answer is why it ended.
fn hand_over<D: Desk, G: Gate>(
    alloc: Global,
    desk: &mut D,
    gate: &G,
    worker: u64,
    events: Events,
    tally: &mut Tally,
) -> WorkerEnd
    requires start { tally.old ≡ record { calls = 0; fresh = 0; repeated = 0; refused = 0 } }
    ensures { (m : List Call) × D.went desk.old desk.new m
        × TellsReport events m (reported tally.new result)
        × IsGated (G.lets gate.now) (G.shuts gate.now) (G.heard gate.now) worker (length m) result }
{
    // The count bounds the sums below.
    let _len = events.len();
    let mut batch = Batch::empty(alloc);
    for event in events.into_vec() {
        match pass_on(&mut batch, tally, event) {
            Ok(()) => (),
            Err(_) => return WorkerEnd::OutOfMemory,
        }
        match flush_full(desk, gate, worker, &mut batch, tally) {
            None => (),
            Some(ended) => return ended,
        }
    }
    if batch.is_empty() {
        return WorkerEnd::Done;
    }
    match flush(desk, gate, worker, &mut batch, tally) {
        None => WorkerEnd::Done,
        Some(ended) => ended,
    }
}

/// The report of a worker that brings the events to the desk.
fn feed_events<D: Desk, G: Gate>(
    alloc: Global,
    desk: &mut D,
    gate: &G,
    worker: u64,
    events: Events,
) -> Report
    ensures { (m : List Call) × D.went desk.old desk.new m × TellsReport events m result
        × IsGated (G.lets gate.now) (G.shuts gate.now) (G.heard gate.now) worker (length m)
        result.ended }
{
    // The count bounds the sum of the report.
    let _len = events.len();
    let mut tally = Tally::start();
    let ended = hand_over(alloc, desk, gate, worker, events, &mut tally);
    tally.report(ended)
}

/// The report of a worker whose input was not read.
fn unread(fault: ReadFault) -> Report
    ensures { result ≡ unread fault }
{
    let ended = match fault {
        ReadFault::OutOfMemory => WorkerEnd::OutOfMemory,
        _ => WorkerEnd::BadInput(fault),
    };
    Tally::start().report(ended)
}

/// Reads the events that bytes spell and brings them to the desk, in their order, in batches of at
/// most 100. An event without a valid number is counted as refused and passed over. The gate is
/// asked before each batch; a shut gate or want of memory ends the feed, and what was taken by then
/// stays taken.
///
/// Costs what `read_events` costs, whose events are held at once and moved, and the calls.
pub fn feed<D: Desk, G: Gate>(
    alloc: Global,
    desk: &mut D,
    gate: &G,
    worker: u64,
    bytes: &[u8],
) -> Report
    ensures fed { (m : List Call) × D.went desk.old desk.new m × Feeds bytes.now m result
        × IsGated (G.lets gate.now) (G.shuts gate.now) (G.heard gate.now) worker (length m)
        result.ended }
    ensures too_large { max_input < length bytes.now
        → result ≡ unread ReadFault.InputTooLarge }
{
    match read_events(alloc, bytes) {
        Ok(events) => feed_events(alloc, desk, gate, worker, events),
        Err(fault) => unread(fault),
    }
}
