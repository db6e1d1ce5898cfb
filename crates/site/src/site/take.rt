//! Events taken.

ghost use Rattle.std.specs.Prelude.{◌≡◌, ◌+◌, ◌<◌, [], ◌∷◌, ◌++◌, drop, false, length, take, true, IfErr, IfOk, IfSome, None, OnErr, OnOk};
ghost use Rattle.inbox.specs.Kept.{events};
ghost use Rattle.inbox.specs.KeyOrder.{key_cmp};
ghost use Rattle.inbox.specs.Ordered.{IsGapFor, append_new, has};
ghost use Rattle.inbox.specs.Sets.{set_of, union};
ghost use Rattle.inbox.specs.Shown.{is_shown};
ghost use Rattle.block_digests.specs.Kept.{IsKeptOf};
ghost use Rattle.coverage.specs.Summary.{version_of};
ghost use Rattle.kept_views.specs.Tables.{AreTablesOfShown};
ghost use Rattle.views.specs.Number.{HasNumbers};
ghost use Rattle.site.specs.Arrival.{AreDistinct, HaveEachNumber, LacksArrivalAt};

use super::Site;
use super::keep::bring;
use attributes::{Batch, Sequenced};
use block_digests::Blocks;
use coverage::Summary;
use inbox::laws::sets_are_members;
use inbox::{Counts, Inbox, Short};
use kept_views::Views;
use std::alloc::AllocError;

/// Makes all that a new event of a site, which goes in at a gap of key order, needs to grow: room
/// for it, its place in its block, its number in the summary, and what the views have of it, where
/// they are kept.
pub(super) fn grow(
    inbox: &mut Inbox,
    summary: &mut Summary,
    blocks: &mut Blocks,
    views: &mut Option<Box<Views>>,
    event: &Sequenced,
    gap: u64,
) -> Result<(), AllocError>
    requires numbers { HasNumbers inbox.old.arrivals summary.old }
    requires numbered { HaveEachNumber inbox.old.arrivals }
    requires distinct { AreDistinct inbox.old.arrivals }
    requires kept { IsKeptOf inbox.old.arrivals blocks.old }
    requires views { IfSome views.old (λ v. AreTablesOfShown inbox.old.arrivals v.value) }
    requires new { has key_cmp inbox.old.arrivals event.now ≡ false }
    requires gap { IsGapFor key_cmp (events inbox.old) event.now gap }
    ensures same { inbox.new.arrivals ≡ inbox.old.arrivals }
    ensures room { OnOk result (0 < inbox.new.spare) }
    ensures numbers { OnOk result (HasNumbers
        (append_new key_cmp inbox.old.arrivals (event.now ∷ [])) summary.new) }
    ensures numbered { OnOk result (HaveEachNumber
        (append_new key_cmp inbox.old.arrivals (event.now ∷ []))) }
    ensures distinct { OnOk result (AreDistinct
        (append_new key_cmp inbox.old.arrivals (event.now ∷ []))) }
    ensures version { OnOk result (version_of summary.new ≡ 1) }
    ensures kept { OnOk result (IsKeptOf
        (append_new key_cmp inbox.old.arrivals (event.now ∷ [])) blocks.new) }
    ensures views { OnOk result (IfSome views.new
        (λ v. AreTablesOfShown (append_new key_cmp inbox.old.arrivals (event.now ∷ [])) v.value)) }
    ensures let_go { OnOk result (views.new ≡ None → IfSome views.old
        (λ _. is_shown (set_of (inbox.old.arrivals ++ event.now ∷ [])) event.now ≡ true)) }
    ensures states { OnOk result (IfSome views.new
        (λ v. IfSome views.old (λ o. v.value.states ≡ o.value.states))) }
    ensures err { OnErr result (summary.new ≡ summary.old) }
    ensures still_kept { OnErr result (IsKeptOf inbox.old.arrivals blocks.new) }
    ensures same_views { OnErr result (views.new ≡ views.old) }
{
    // Only events are kept and taken, and what the set has of them is one of them.
    let place = inbox.arrived();
    let _text = event.event().text();
    sets_are_members();
    inbox.reserve(1)?;
    blocks.note(event, place)?;
    match summary.insert_str(event.event().source(), event.number()) {
        Ok(_) => {
            bring(views, inbox, event, gap);
            Ok(())
        }
        Err(error) => {
            blocks.forget(event);
            Err(error)
        }
    }
}

impl Site {
    /// The site takes the first event of a batch. What is there needs no memory.
    fn take_next(&mut self, batch: &mut Batch) -> Result<(), AllocError>
        requires { 0 < length batch.old }
        ensures arrivals { OnOk result
            (self.new ≡ append_new key_cmp self.old (take 1 batch.old)) }
        ensures set { OnOk result
            (set_of self.new ≡ union (set_of self.old) (take 1 batch.old)) }
        ensures rest { OnOk result (batch.new ≡ drop 1 batch.old) }
        ensures same { OnErr result (self.new ≡ self.old) }
        ensures whole { OnErr result (batch.new ≡ batch.old) }
        ensures err_of_new { OnErr result (LacksArrivalAt self.old batch.old 0) }
    {
        let Err(gap) = self.inbox.place_of(batch.at(0)) else {
            sets_are_members();
            drop(batch.take_front());
            return Ok(());
        };
        grow(
            &mut self.inbox,
            &mut self.summary,
            &mut self.blocks,
            &mut self.views,
            batch.at(0),
            gap,
        )?;
        self.mark = None;
        if let Some(event) = batch.take_front() {
            let _taken = self.inbox.put(event);
        }
        Ok(())
    }

    /// Takes the events of a batch, from its front on. Those that are there change nothing and need
    /// no memory. After want of memory the batch holds what was not taken; those before it stay.
    /// The time is that of a search for each event; for each new one also that of `Inbox::put`, and
    /// of a look-up of its source and number in the summary and among the blocks; where views are
    /// kept also that of `Views::put_at`. No digest is made.
    pub fn take_batch(&mut self, batch: &mut Batch) -> Result<Counts, Short>
        ensures arrivals { OnOk result (self.new ≡ append_new key_cmp self.old batch.old) }
        ensures set { OnOk result (set_of self.new ≡ union (set_of self.old) batch.old) }
        ensures emptied { OnOk result (batch.new ≡ []) }
        ensures fresh { IfOk result (λ n. length self.old + n.fresh ≡ length self.new) }
        ensures repeated { IfOk result (λ n. n.fresh + n.repeated ≡ length batch.old) }
        ensures short { IfErr result (λ s. self.new
            ≡ append_new key_cmp self.old (take s.taken batch.old)) }
        ensures short_set { IfErr result (λ s. set_of self.new
            ≡ union (set_of self.old) (take s.taken batch.old)) }
        ensures rest { IfErr result (λ s. batch.new ≡ drop s.taken batch.old) }
        ensures short_fresh { IfErr result (λ s. length self.old + s.fresh ≡ length self.new) }
        ensures short_taken { IfErr result (λ s. s.taken < length batch.old) }

        // Memory was wanted for a new event.
        ensures short_of_new { IfErr result (λ s. LacksArrivalAt self.new batch.old s.taken) }
    {
        let before = self.arrived();
        let len = batch.len();
        for i in 0..len {
            let Ok(_) = self.take_next(batch) else {
                let fresh = self.arrived() - before;
                return Err(Short { taken: i, fresh });
            };
        }
        let fresh = self.arrived() - before;
        Ok(Counts {
            fresh,
            repeated: len - fresh,
        })
    }
}
