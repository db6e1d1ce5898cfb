//! A batch that is handed to a desk.

ghost use Rattle.std.specs.Prelude.{◌≡◌, ◌+◌, ◌<◌, ◌≤◌, ◌^◌, List, None, length};
ghost use Rattle.site.specs.Page.{max_page};
ghost use Rattle.site.specs.declared.call.Call.{Call};
ghost use Rattle.feeds.specs.steps.Gate.{GoesThrough};
ghost use Rattle.feeds.specs.steps.Tally.{Flushed, FlushedIfFull, ComesBehindOthers, short_of};

use crate::permit::{permission, tell};
use crate::report::{Tally, WorkerEnd};
use attributes::Batch;
use inbox::Short;
use site::{Desk, DeskFault, Gate, MAX_PAGE};

/// How far a worker's refused call came.
fn short_of(fault: DeskFault) -> Short
    ensures { result ≡ short_of fault }
{
    match fault {
        DeskFault::OutOfMemory { taken, fresh } => Short { taken, fresh },
    }
}

/// The worker hands over a batch to the desk in one call, where the gate lets it. The answer is why
/// the worker ends, if it does.
pub(crate) fn flush<D: Desk, G: Gate>(
    desk: &mut D,
    gate: &G,
    worker: u64,
    batch: &mut Batch,
    tally: &mut Tally,
) -> Option<WorkerEnd>
    requires room { tally.old.fresh + tally.old.repeated + length batch.old < 2 ^ 64 }
    requires most { length batch.old ≤ max_page }
    requires few { tally.old.calls + 1 < 2 ^ 64 }
    ensures flushed { (m : List Call) × D.went desk.old desk.new m
        × Flushed m batch.old batch.new tally.old tally.new result
        × GoesThrough (G.lets gate.now) (G.shuts gate.now) (G.heard gate.now) worker
        tally.old.calls (length m) tally.new.calls result }
    ensures gains { result ≡ None
        → ComesBehindOthers (D.arrivals desk.old) batch.old (D.arrivals desk.new) }
    ensures calls { tally.new.calls ≡ tally.old.calls + 1 }
{
    tally.calls += 1;
    let permit = match permission(gate, worker, tally.calls) {
        Ok(permit) => permit,
        Err(_) => return Some(WorkerEnd::GateShut),
    };
    let ended = match desk.take(batch) {
        Ok(counts) => {
            tally.fresh += counts.fresh;
            tally.repeated += counts.repeated;
            None
        }
        Err(fault) => {
            let short = short_of(fault);
            tally.fresh += short.fresh;
            tally.repeated += short.taken - short.fresh;
            Some(WorkerEnd::OutOfMemory)
        }
    };
    tell(permit, gate, worker, tally.calls);
    ended
}

/// The worker hands a batch that is full to the desk. Else it does nothing.
pub(crate) fn flush_full<D: Desk, G: Gate>(
    desk: &mut D,
    gate: &G,
    worker: u64,
    batch: &mut Batch,
    tally: &mut Tally,
) -> Option<WorkerEnd>
    requires room { tally.old.fresh + tally.old.repeated + length batch.old < 2 ^ 64 }
    requires most { length batch.old ≤ max_page }
    requires few { tally.old.calls + 1 < 2 ^ 64 }
    ensures calls { result ≡ None
        → tally.new.calls + length batch.new ≤ tally.old.calls + length batch.old }
    ensures flushed { (m : List Call) × D.went desk.old desk.new m
        × FlushedIfFull m batch.old batch.new tally.old tally.new result
        × GoesThrough (G.lets gate.now) (G.shuts gate.now) (G.heard gate.now) worker
        tally.old.calls (length m) tally.new.calls result }
{
    if batch.len() != MAX_PAGE {
        return None;
    }
    flush(desk, gate, worker, batch, tally)
}
