//! A pass with its shared site, as one desk.

ghost use Rattle.std.specs.Prelude.{◌≡◌, ◌≤◌, ◌∷◌, [], drop, IfErr, OnOk};
ghost use Rattle.site.specs.Desk.{answered, paged, summed, taken_of, took};
ghost use Rattle.site.specs.Machine.{Follows, call};
ghost use Rattle.site.specs.declared.call.Command.TheVariants as command;
ghost use Rattle.site_lock.specs.Pass.{Steps, leaves};

use crate::pass::Pass;
use crate::shared::SharedSite;
use attributes::Batch;
use coverage::Summary;
use inbox::Counts;
use site::{Desk, DeskFault};
use std::sync::Wait;
use views::{Answer, Query};

/// One caller of a shared site: its pass, the site, and the runtime that it waits with. It is a
/// desk whose arrivals are those after all that the pass has seen; each of its calls waits for a
/// turn.
#[derive(Drop)]
pub struct Caller<'a, R: Wait> {
    rt: &'a R,
    shared: &'a SharedSite,
    pass: Pass,
    ghost same: { pass.table ≡ shared.now },
}

impl<'a, R: Wait> Caller<'a, R> {
    /// A caller of the shared site with this pass, which must be of that site.
    pub fn of(rt: &'a R, shared: &'a SharedSite, pass: Pass) -> Caller<'a, R>
        requires { pass.table ≡ shared.now }
        ensures pass { result.pass ≡ pass }
        ensures shared { result.shared.now ≡ shared.now }
    {
        Caller { rt, shared, pass }
    }

    /// The pass of a caller of the shared site, as it stands.
    pub fn into_pass(self) -> Pass
        ensures { result ≡ self.entry.pass }
    {
        let Caller {
            rt: _,
            shared: _,
            pass,
        } = self;
        pass
    }
}

impl<'a, R: Wait> Desk for Caller<'a, R> {
    ghost use Rattle.site_lock.specs.Pass.{Steps, leaves};
    ghost use Rattle.site_lock.specs.steps.Composed.{steps_none, steps_on};

    ghost arrivals = { λ c. leaves c.pass };

    ghost went = { λ c d calls. Steps c.pass d.pass calls };

    ghost stays = { λ c. steps_none c.pass };

    ghost goes_on = { λ c d e m n. steps_on c.pass d.pass e.pass m n };

    fn take(&mut self, batch: &mut Batch) -> Result<Counts, DeskFault> {
        self.shared.take(self.rt, &mut self.pass, batch)
    }

    fn summary(&mut self) -> Result<Summary, DeskFault> {
        self.shared.summary(self.rt, &mut self.pass)
    }

    fn delta_page(&mut self, peer: &Summary, from: u64, limit: u64) -> Result<Batch, DeskFault> {
        self.shared
            .delta_page(self.rt, &mut self.pass, peer, from, limit)
    }

    fn page(&mut self, from: u64, limit: u64) -> Result<Batch, DeskFault> {
        self.shared.page(self.rt, &mut self.pass, from, limit)
    }

    fn query(&mut self, query: Query) -> Result<Answer, DeskFault> {
        self.shared.query(self.rt, &mut self.pass, query)
    }
}
