//! The jobs of workers, each with a pass of its own.

ghost use Rattle.std.specs.Prelude.{◌≡◌, ◌≤◌, ◌<◌, ◌+◌, ◌++◌, ◌∷◌, [], length, MatchOption};
ghost use Rattle.std.specs.Vec.{vec_capacity, vec_len};
ghost use Rattle.site_lock.specs.Pass.{IsSamePass};
ghost use Rattle.feeds.specs.Serve.{EachAt};
ghost use Rattle.feeds.specs.steps.Serve.{IsJobAt, pending_works, works_of};

use super::{Jobs, Questions};
use crate::asking::Asked;
use crate::report::Report;
use attributes::Octets;
use site::Site;
use site_lock::{Pass, SharedSite};

/// What a worker is to do.
#[derive(Drop)]
pub(crate) enum Work {
    Feed(Octets),
    Pull(Site),
    Ask(Questions),
}

/// What came of it.
#[derive(Drop)]
pub(crate) enum JobEnd {
    Reported(Report),
    Answered(Asked),
}

/// A worker's number and work, and the pass that it works with.
#[derive(Drop)]
pub(crate) struct Job {
    /// The worker's number.
    pub worker: u64,
    pub work: Work,
    pub pass: Pass,
}

/// What came of a job, and the pass as it then stands.
#[derive(Drop)]
pub(crate) struct Finished {
    pub outcome: JobEnd,
    pub pass: Pass,
}

/// Work that has no worker yet.
#[derive(Drop)]
pub(crate) struct Pending {
    pub feeds: Vec<Octets>,
    pub peers: Vec<Site>,
    pub asks: Vec<Questions>,
}

impl Pending {
    /// All of the workers' jobs.
    pub(super) fn of(jobs: Jobs) -> Pending
        ensures { pending_works result ≡ works_of jobs.feeds jobs.peers jobs.asks }
    {
        let Jobs { feeds, peers, asks } = jobs;
        Pending {
            feeds: feeds.into_vec(),
            peers: peers.into_vec(),
            asks: asks.into_vec(),
        }
    }

    /// The last of the workers' work: asks come behind peers, and peers behind feeds.
    fn take_last(&mut self) -> Option<Work>
        ensures { MatchOption result (pending_works self.old ≡ [])
            (λ work. pending_works self.old ≡ pending_works self.new ++ work ∷ []) }
    {
        if let Some(queries) = self.asks.pop() {
            return Some(Work::Ask(queries));
        }
        if let Some(peer) = self.peers.pop() {
            return Some(Work::Pull(peer));
        }
        if let Some(bytes) = self.feeds.pop() {
            return Some(Work::Feed(bytes));
        }
        None
    }
}

/// Adds a value, of workers or of what came of their jobs, where there is room for it.
pub(super) fn put<T: Drop>(list: &mut Vec<T>, value: T)
    requires { vec_len list.old < vec_capacity list.old }
    ensures items { list.new.items ≡ list.old.items ++ value ∷ [] }
    ensures room { vec_capacity list.old ≤ vec_capacity list.new }
{
    let Ok(()) = list.push(value) else {
        unreachable!()
    };
}

/// A worker's job for each piece of work, in their order, with a pass of its own, in the room that
/// was made for them.
#[cycle(split)]
pub(super) fn split_all(
    shared: &SharedSite,
    pass: &mut Pass,
    mut pending: Pending,
    room: Vec<Job>,
) -> Vec<Job>
    requires own { pass.old.table ≡ shared.now }
    requires empty { room.items ≡ [] }
    requires room { length (pending_works pending) ≤ vec_capacity room }
    ensures same { IsSamePass pass.old pass.new × (pass.new.seen ≡ pass.old.seen)
        × (pass.new.mine ≡ pass.old.mine) }
    ensures splits { pass.new.splits ≡ pass.old.splits + length (pending_works pending) }
    ensures jobs { EachAt (IsJobAt pass.old) 0 (pending_works pending) result.items }
    ensures room { vec_capacity room ≤ vec_capacity result }
{
    let Some(work) = pending.take_last() else {
        return room;
    };
    let mut jobs = split_all(shared, pass, pending, room);
    let Ok(theirs) = shared.split(pass) else {
        unreachable!()
    };
    let worker = jobs.len() as u64;
    put(
        &mut jobs,
        Job {
            worker,
            work,
            pass: theirs,
        },
    );
    jobs
}
