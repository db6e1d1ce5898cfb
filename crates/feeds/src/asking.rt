//! One worker that asks a desk.

ghost use Rattle.std.specs.Prelude.{◌≡◌, ◌+◌, ◌<◌, ◌^◌, List, length};
ghost use Rattle.site.specs.declared.call.Call.{Call};
ghost use Rattle.feeds.specs.Ask.{Asks};
ghost use Rattle.feeds.specs.Gate.{IsGated};
ghost use Rattle.feeds.specs.steps.Ask.{AsksOne};
ghost use Rattle.feeds.specs.steps.Gate.{GoesThrough};

use crate::permit::{permission, tell};
use crate::report::WorkerEnd;
use attributes::List;
use site::{Desk, Gate};
use std::alloc::Global;
use views::{Answer, Query};

/// Answers in the order of their questions.
pub type Answers = List<Answer>;

/// What a worker was answered, and why it ended.
#[derive(Drop)]
pub struct Asked {
    pub answers: Answers,
    pub ended: WorkerEnd,
}

/// A worker asks a desk a question in the call behind the first `call`, where the gate lets it, and
/// keeps the answer. What comes back is why the worker ends, if it does.
fn ask_one<D: Desk, G: Gate>(
    desk: &mut D,
    gate: &G,
    worker: u64,
    call: u64,
    query: Query,
    answers: &mut Answers,
) -> Option<WorkerEnd>
    requires { call + 1 < 2 ^ 64 }
    ensures { (m : List Call) × D.went desk.old desk.new m
        × AsksOne query m answers.old answers.new result
        × GoesThrough (G.lets gate.now) (G.shuts gate.now) (G.heard gate.now) worker
        call (length m) (call + 1) result }
{
    let call = call + 1;
    let permit = match permission(gate, worker, call) {
        Ok(permit) => permit,
        Err(_) => return Some(WorkerEnd::GateShut),
    };
    let answer = desk.query(query);
    tell(permit, gate, worker, call);
    match answer {
        Ok(answer) => match answers.push(answer) {
            Ok(()) => None,
            Err(_) => Some(WorkerEnd::OutOfMemory),
        },
        Err(_) => Some(WorkerEnd::OutOfMemory),
    }
}

/// Asks the questions in their order, each in one call and each over what has come by then. The
/// gate is asked before each; a shut gate or want of memory ends it, and the answers so far are
/// kept.
///
/// Costs the calls, and the answers are held at once.
pub fn ask<D: Desk, G: Gate>(
    alloc: Global,
    desk: &mut D,
    gate: &G,
    worker: u64,
    queries: &[Query],
) -> Asked
    ensures { (m : List Call) × D.went desk.old desk.new m × Asks queries.now m result
        × IsGated (G.lets gate.now) (G.shuts gate.now) (G.heard gate.now) worker (length m)
        result.ended }
{
    let mut answers = List::empty(alloc);
    for (place, query) in queries.iter().enumerate() {
        match ask_one(desk, gate, worker, place as u64, *query, &mut answers) {
            None => (),
            Some(ended) => return Asked { answers, ended },
        }
    }
    Asked {
        answers,
        ended: WorkerEnd::Done,
    }
}
