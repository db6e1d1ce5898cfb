//! The end of workers: what they saw, and what they report.

ghost use Rattle.std.specs.Prelude.{◌≡◌, ◌≤◌, ◌<◌, ◌++◌, ◌∷◌, [], length};
ghost use Rattle.std.specs.Vec.{vec_capacity, vec_len};
ghost use Rattle.turn_lock.specs.History.{StartsWith, made_by};
ghost use Rattle.site_lock.specs.Pass.{IsSamePass};
ghost use Rattle.feeds.specs.steps.Serve.{AllAt, AllTold, answers_in, outcomes, reports_in};

use super::Served;
use crate::serving::worker::{Finished, JobEnd, put};
use site_lock::{Pass, SharedSite};

/// The worker learns all that the pass has seen, so that its own calls are those that the pass has
/// seen under its number.
#[tactic(auto, using(crate::proofs::ServeLemmas::same_start))]
fn settle(shared: &SharedSite, pass: &mut Pass, finished: &mut Finished)
    requires own { (pass.old.table ≡ shared.now) × (finished.old.pass.table ≡ shared.now) }
    requires heard { StartsWith pass.old.seen finished.old.pass.seen }
    ensures same { (pass.new ≡ pass.old) × (finished.new.outcome ≡ finished.old.outcome) }
    ensures told { made_by finished.old.pass.number pass.new.seen ≡ finished.old.pass.mine }
{
    let Ok(()) = shared.meet(&mut finished.pass, pass) else {
        unreachable!()
    };
    finished.pass.stands();
}

/// Puts what came of a worker's job behind what came of those before.
fn add(served: &mut Served, outcome: JobEnd)
    requires { (vec_len served.old.reports < vec_capacity served.old.reports)
        × (vec_len served.old.asked < vec_capacity served.old.asked) }
    ensures reports { served.new.reports.items
        ≡ served.old.reports.items ++ reports_in (outcome ∷ []) }
    ensures asked { served.new.asked.items
        ≡ served.old.asked.items ++ answers_in (outcome ∷ []) }
    ensures room { (vec_capacity served.old.reports ≤ vec_capacity served.new.reports)
        × (vec_capacity served.old.asked ≤ vec_capacity served.new.asked) }
{
    match outcome {
        JobEnd::Reported(report) => put(&mut served.reports, report),
        JobEnd::Answered(asked) => put(&mut served.asked, asked),
    }
}

/// The pass meets each worker, and each worker then the pass. What came of the workers' jobs is put
/// into the room that was made for it, in their order.
#[cycle(close)]
#[tactic(auto, using(crate::proofs::ServeLemmas::all_at_last))]
pub(super) fn close_all(
    shared: &SharedSite,
    pass: &mut Pass,
    mut all: Vec<Finished>,
    served: Served,
) -> Served
    requires own { pass.old.table ≡ shared.now }
    requires each { AllAt shared.now all.items }
    requires empty { (served.reports.items ≡ []) × (served.asked.items ≡ []) }
    requires room { (length all.items ≤ vec_capacity served.reports)
        × (length all.items ≤ vec_capacity served.asked) }
    ensures same { IsSamePass pass.old pass.new × (pass.new.mine ≡ pass.old.mine)
        × (pass.new.splits ≡ pass.old.splits) }
    ensures seen { StartsWith pass.new.seen pass.old.seen }
    ensures told { AllTold pass.new.seen all.items }
    ensures reports { result.reports.items ≡ reports_in (outcomes all.items) }
    ensures asked { result.asked.items ≡ answers_in (outcomes all.items) }
    ensures room { (vec_capacity served.reports ≤ vec_capacity result.reports)
        × (vec_capacity served.asked ≤ vec_capacity result.asked) }
{
    let Some(mut last) = all.pop() else {
        return served;
    };
    let Ok(()) = shared.meet(pass, &mut last.pass) else {
        unreachable!()
    };
    let mut served = close_all(shared, pass, all, served);
    settle(shared, pass, &mut last);
    let Finished { outcome, pass: _ } = last;
    add(&mut served, outcome);
    served
}
