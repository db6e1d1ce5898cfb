//! Events taken in a turn.

ghost use Rattle.std.specs.Prelude.{◌≡◌, [], drop, IfErr, OnOk};
ghost use Rattle.site.specs.Arrival.{LacksArrivalAt};
ghost use Rattle.site.specs.Desk.{taken_of, took};
ghost use Rattle.site.specs.Machine.{HasRightReply, arrivals_after, call};
ghost use Rattle.site.specs.declared.call.Command.TheVariants as command;
ghost use Rattle.site_lock.specs.Pass.{Made, leaves};

use super::SharedSite;
use crate::held::Held;
use crate::pass::Pass;
use attributes::Batch;
use inbox::Counts;
use site::{DeskFault, Site};
use std::marker::Brand;
use std::snapshot::Snapshot;
use std::sync::Wait;

/// Takes the events of a batch in a turn with the shared site, as a desk does.
fn take_batch(site: &mut Site, batch: &mut Batch) -> Result<Counts, DeskFault>
    ensures answers { HasRightReply site.old (call (command.Take batch.old) (took result)) }
    ensures arrivals { site.new
        ≡ arrivals_after site.old (call (command.Take batch.old) (took result)) }
    ensures emptied { OnOk result (batch.new ≡ []) }
    ensures rest { IfErr result (λ fault. batch.new ≡ drop (taken_of fault) batch.old) }
    ensures short_of_new { IfErr result (λ fault. LacksArrivalAt site.new batch.old (taken_of fault)) }
{
    match site.take_batch(batch) {
        Ok(counts) => Ok(counts),
        Err(short) => Err(DeskFault::OutOfMemory {
            taken: short.taken,
            fresh: short.fresh,
        }),
    }
}

impl SharedSite {
    /// Waits for a turn. The shared site takes a batch, as by `Site::take_batch`: after want of
    /// memory the batch holds what was not taken, the rest stays, and the call has its entry.
    pub fn take<R: Wait>(
        &self,
        rt: &R,
        pass: &mut Pass,
        batch: &mut Batch,
    ) -> Result<Counts, DeskFault>
        requires { pass.old.table ≡ self.now }
        ensures made { Made pass.old pass.new (call (command.Take batch.old) (took result)) }
        ensures emptied { OnOk result (batch.new ≡ []) }
        ensures rest { IfErr result (λ fault. batch.new ≡ drop (taken_of fault) batch.old) }

        // Memory was wanted for a new event.
        ensures short_of_new { IfErr result (λ fault.
            LacksArrivalAt (leaves pass.new) batch.old (taken_of fault)) }
    {
        let seat = &mut pass.seat;
        let Held { mut site } = self.turns.enter(rt, seat);
        let before = Snapshot::of(batch);
        let reply = take_batch(&mut site, batch);
        self.end::<Brand, _, _>(seat, site, &before, &reply);
        reply
    }
}
