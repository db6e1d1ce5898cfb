//! One worker that brings one desk what it lacks of another's events.

ghost use Rattle.std.specs.Prelude.{◌≡◌, ◌+◌, ◌<◌, ◌≤◌, ◌^◌, List, None, Some, length};
ghost use Rattle.site.specs.Page.{max_page};
ghost use Rattle.site.specs.declared.call.Call.{Call};
ghost use Rattle.feeds.specs.Gate.{IsGated};
ghost use Rattle.feeds.specs.Pull.{HoldsEach, Pulled, Pulls, PullsBy, replied};
ghost use Rattle.feeds.specs.Report.{reported};
ghost use Rattle.feeds.specs.declared.report.WorkerEnd.TheVariants.{Done};
ghost use Rattle.feeds.specs.steps.Gate.{GoesThrough, end_if};
ghost use Rattle.feeds.specs.steps.Pull.{HasSameCounts, MovesPage, Pages, SumsUp};
ghost use Rattle.feeds.specs.steps.Tally.{ComesBehindOthers};

use crate::flush::flush;
use crate::permit::{permission, tell};
use crate::report::{Report, Tally, WorkerEnd};
use attributes::Batch;
use coverage::Summary;
use inbox::laws::sets_are_members;
use site::{Desk, Gate, MAX_PAGE, Site};

/// The most pages of one pull, 2^56: more than any memory holds. It bounds the sums of their
/// lengths.
const PAGES: u64 = 72_057_594_037_927_936;

/// The summary of a desk, in the worker's first call, where the gate lets it; else why the worker
/// ends.
fn summary_of<E: Desk, G: Gate>(to: &mut E, gate: &G, worker: u64) -> Result<Summary, WorkerEnd>
    ensures { (n : List Call) × E.went to.old to.new n × SumsUp n result
        × GoesThrough (G.lets gate.now) (G.shuts gate.now) (G.heard gate.now) worker
        0 (length n) 1 (end_if result) }
{
    let permit = match permission(gate, worker, 1) {
        Ok(permit) => permit,
        Err(_) => return Err(WorkerEnd::GateShut),
    };
    let summary = to.summary();
    tell(permit, gate, worker, 1);
    match summary {
        Ok(summary) => Ok(summary),
        Err(_) => Err(WorkerEnd::OutOfMemory),
    }
}

/// A pull's next page of what the peer lacks, in one call, if the gate lets it; else why the worker
/// ends. All events of pages before have been handed over, so their count is the place.
fn next_page<D: Desk, G: Gate>(
    from: &mut D,
    gate: &G,
    worker: u64,
    peer: &Summary,
    tally: &mut Tally,
) -> Result<Batch, WorkerEnd>
    requires room { tally.old.fresh + tally.old.repeated < 2 ^ 64 }
    requires few { tally.old.calls + 1 < 2 ^ 64 }
    ensures page { (m : List Call) × D.went from.old from.new m
        × Pages peer.now (tally.old.fresh + tally.old.repeated) m result
        × GoesThrough (G.lets gate.now) (G.shuts gate.now) (G.heard gate.now) worker
        tally.old.calls (length m) tally.new.calls (end_if result) }
    ensures same { HasSameCounts tally.old tally.new }
    ensures calls { tally.new.calls ≡ tally.old.calls + 1 }
{
    let place = tally.fresh + tally.repeated;
    tally.calls += 1;
    let permit = match permission(gate, worker, tally.calls) {
        Ok(permit) => permit,
        Err(_) => return Err(WorkerEnd::GateShut),
    };
    let page = from.delta_page(peer, place, MAX_PAGE);
    tell(permit, gate, worker, tally.calls);
    match page {
        Ok(events) => Ok(events),
        Err(_) => Err(WorkerEnd::OutOfMemory),
    }
}

/// A pull moves the next page of what the peer lacks. The answer is why the worker ends, if it
/// does: it is done where the page is empty.
fn move_page<D: Desk, E: Desk, G: Gate>(
    from: &mut D,
    to: &mut E,
    gate: &G,
    worker: u64,
    peer: &Summary,
    tally: &mut Tally,
) -> Option<WorkerEnd>
    requires room { tally.old.fresh + tally.old.repeated + max_page < 2 ^ 64 }
    requires few { tally.old.calls + 2 < 2 ^ 64 }
    ensures calls { tally.new.calls ≤ tally.old.calls + 2 }
    ensures moves { (m n : List Call) × D.went from.old from.new m × E.went to.old to.new n
        × MovesPage peer.now m n tally.old tally.new result
        × (result ≡ None → ComesBehindOthers (E.arrivals to.old) (replied m) (E.arrivals to.new))
        × (result ≡ Some Done → E.arrivals to.new ≡ E.arrivals to.old)
        × GoesThrough (G.lets gate.now) (G.shuts gate.now) (G.heard gate.now) worker
        tally.old.calls (length m + length n) tally.new.calls result }
{
    let mut batch = match next_page(from, gate, worker, peer, tally) {
        Ok(batch) => batch,
        Err(ended) => return Some(ended),
    };
    if batch.is_empty() {
        return Some(WorkerEnd::Done);
    }
    flush(to, gate, worker, &mut batch, tally)
}

/// A pull moves all that the peer lacks, page by page. The answer is why the worker ended.
fn pull_pages<D: Desk, E: Desk, G: Gate>(
    from: &mut D,
    to: &mut E,
    gate: &G,
    worker: u64,
    peer: &Summary,
    tally: &mut Tally,
) -> WorkerEnd
    requires start { tally.old ≡ record { calls = 1; fresh = 0; repeated = 0; refused = 0 } }
    ensures pulled { (m n : List Call) × D.went from.old from.new m × E.went to.old to.new n
        × Pulled peer.now m n (reported tally.new result)
        × (result ≡ Done → HoldsEach (E.arrivals to.new) (replied m))
        × GoesThrough (G.lets gate.now) (G.shuts gate.now) (G.heard gate.now) worker
        1 (length m + length n) tally.new.calls (Some result) }
    ensures few { tally.new.fresh + tally.new.repeated + tally.new.refused < 2 ^ 64 }
{
    // What is taken is held: a law of sets.
    sets_are_members();
    for _page in 0..PAGES {
        match move_page(from, to, gate, worker, peer, tally) {
            None => (),
            Some(ended) => return ended,
        }
    }
    WorkerEnd::OutOfMemory
}

/// Brings the one desk what it lacks of the other's events: takes its summary once, and then, in
/// pages of at most 100, the events of the other that this summary lacks, until a page is empty.
/// The gate is asked before each call; a shut gate or want of memory ends it, and what was taken by
/// then stays taken.
///
/// Costs the calls; at most 100 events are held beside the summary.
pub fn pull<D: Desk, E: Desk, G: Gate>(from: &mut D, to: &mut E, gate: &G, worker: u64) -> Report
    ensures { (m n : List Call) × D.went from.old from.new m × E.went to.old to.new n
        × Pulls m n result
        × (result.ended ≡ Done → HoldsEach (E.arrivals to.new) (replied m))
        × IsGated (G.lets gate.now) (G.shuts gate.now) (G.heard gate.now) worker
        (length m + length n) result.ended }
{
    let mut tally = Tally::start();
    match summary_of(to, gate, worker) {
        Ok(peer) => {
            tally.calls = 1;
            let ended = pull_pages(from, to, gate, worker, &peer, &mut tally);
            tally.report(ended)
        }
        Err(ended) => tally.report(ended),
    }
}

/// `pull` from a site that nobody else adds to: where it is done, the desk has all that its summary
/// lacked of the site's events.
pub fn pull_from<E: Desk, G: Gate>(from: &mut Site, to: &mut E, gate: &G, worker: u64) -> Report
    ensures same { from.new ≡ from.old }
    ensures pulled { (m n : List Call) × E.went to.old to.new n
        × PullsBy from.old m n (E.arrivals to.new) result
        × IsGated (G.lets gate.now) (G.shuts gate.now) (G.heard gate.now) worker
        (length m + length n) result.ended }
{
    pull(from, to, gate, worker)
}
