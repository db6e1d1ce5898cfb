//! What takes events and answers, whether one thread has it or many share it.

ghost use Rattle.std.specs.Prelude.{◌≡◌, ◌≤◌, ◌∷◌, [], drop, IfErr, OnOk};
ghost use Rattle.site.specs.Desk.{answered, fault_number, paged, summed, taken_of, took};
ghost use Rattle.site.specs.Machine.{Follows, call};
ghost use Rattle.site.specs.Page.{max_page};
ghost use Rattle.site.specs.declared.call.Command.TheVariants as command;

use crate::site::Site;
use attributes::Batch;
use coverage::Summary;
use inbox::Counts;
use std::alloc::AllocError;
use views::{Answer, Query};

/// Why a desk refuses a call.
#[derive(Clone, Copy, PartialEq, Eq, Debug)]
pub enum DeskFault {
    /// Memory was wanted after the first `taken` events of a batch, of which `fresh` were new. Both
    /// are 0 where no batch was taken.
    OutOfMemory { taken: u64, fresh: u64 },
}

impl DeskFault {
    /// The number that a desk's fault is known by, which is 1.
    pub fn number(self) -> u8
        ensures { result ≡ fault_number self }
    {
        match self {
            DeskFault::OutOfMemory { .. } => 1,
        }
    }
}

impl From<AllocError> for DeskFault {
    ghost use Rattle.site.specs.declared.desk.DeskFault.TheVariants.{OutOfMemory};

    ghost from_gives = { λ _ fault. fault ≡ OutOfMemory 0 0 };

    /// A desk's want of memory where no batch was taken.
    fn from(_error: AllocError) -> DeskFault {
        DeskFault::OutOfMemory { taken: 0, fresh: 0 }
    }
}

/// Takes events and answers about them. It means a list of arrivals, which others may add to
/// between its calls. Each call comes after all that was added by then, and is one call of the site
/// machine. After it the arrivals are events with numbers, each once.
pub trait Desk {
    ghost use Rattle.std.specs.Prelude.{List, [], ◌++◌};
    ghost use Rattle.attributes.specs.Event.{EventValue};
    ghost use Rattle.site.specs.Page.{max_page};
    ghost use Rattle.site.specs.declared.call.Call.{Call};

    // The events that came, each once, in the order in which they came.
    ghost arrivals: { Self → List EventValue };

    // From the one state to the other it made these calls of its own.
    ghost went: { Self → Self → List Call → Type 0 };

    /// A desk takes the events of a batch, from its front on. After want of memory the batch holds
    /// what was not taken; what was taken stays.
    fn take(&mut self, batch: &mut Batch) -> Result<Counts, DeskFault>
        ensures went { went self.old self.new
            (call (command.Take batch.old) (took result) ∷ []) }
        ensures step { Follows (arrivals self.old)
            (call (command.Take batch.old) (took result)) (arrivals self.new) }
        ensures emptied { OnOk result (batch.new ≡ []) }
        ensures rest { IfErr result (λ fault. batch.new ≡ drop (taken_of fault) batch.old) };

    /// A desk's summary that digests what came, version 2: which numbers the events of each source
    /// have, and the digests of their blocks.
    fn summary(&mut self) -> Result<Summary, DeskFault>
        ensures went { went self.old self.new (call command.Summary (summed result) ∷ []) }
        ensures step { Follows (arrivals self.old)
            (call command.Summary (summed result)) (arrivals self.new) };

    /// A desk's page of a delta: the events at the places from `from` on of what the peer lacks, in
    /// key order, `limit` of them at most: 1 to 100.
    fn delta_page(&mut self, peer: &Summary, from: u64, limit: u64) -> Result<Batch, DeskFault>
        requires low { 1 ≤ limit }
        requires high { limit ≤ max_page }
        ensures went { went self.old self.new
            (call (command.DeltaPage peer.now from limit) (paged result) ∷ []) }
        ensures step { Follows (arrivals self.old)
            (call (command.DeltaPage peer.now from limit) (paged result)) (arrivals self.new) };

    /// A desk's page: the events from place `from` on in key order, at most `limit`: 1 to 100.
    fn page(&mut self, from: u64, limit: u64) -> Result<Batch, DeskFault>
        requires low { 1 ≤ limit }
        requires high { limit ≤ max_page }
        ensures went { went self.old self.new
            (call (command.Page from limit) (paged result) ∷ []) }
        ensures step { Follows (arrivals self.old)
            (call (command.Page from limit) (paged result)) (arrivals self.new) };

    /// A desk's answer to a question about what the site holds.
    fn query(&mut self, query: Query) -> Result<Answer, DeskFault>
        ensures went { went self.old self.new
            (call (command.Query query) (answered result) ∷ []) }
        ensures step { Follows (arrivals self.old)
            (call (command.Query query) (answered result)) (arrivals self.new) };

    // Who does nothing makes no call.
    ghost stays: { (d : Self) → went d d [] };

    // What it did one after another are the calls one after another.
    ghost goes_on: { (d e f : Self) (m n : List Call)
        → went d e m → went e f n → went d f (m ++ n) };
}

impl Desk for Site {
    ghost use Rattle.std.specs.Prelude.{refl};
    ghost use Rattle.site.specs.Machine.{Runs};
    ghost use Rattle.site.specs.steps.Composed.{runs-append};

    ghost arrivals = { λ s. s };

    ghost went = { λ s t m. Runs s m t };

    ghost stays = { λ s. refl };

    ghost goes_on = { λ s t u m n. runs-append s t u m n };

    fn take(&mut self, batch: &mut Batch) -> Result<Counts, DeskFault> {
        let taken = self.take_batch(batch);
        let _arrived = self.arrived();
        match taken {
            Ok(counts) => Ok(counts),
            Err(short) => Err(DeskFault::OutOfMemory {
                taken: short.taken,
                fresh: short.fresh,
            }),
        }
    }

    fn summary(&mut self) -> Result<Summary, DeskFault> {
        let _arrived = self.arrived();
        Ok(Site::summary(self)?)
    }

    fn delta_page(&mut self, peer: &Summary, from: u64, limit: u64) -> Result<Batch, DeskFault> {
        let _arrived = self.arrived();
        Ok(self.next_delta_page(peer, from, limit)?)
    }

    fn page(&mut self, from: u64, limit: u64) -> Result<Batch, DeskFault> {
        let _arrived = self.arrived();
        Ok(Site::page(self, from, limit)?)
    }

    fn query(&mut self, query: Query) -> Result<Answer, DeskFault> {
        let _arrived = self.arrived();
        Ok(Site::query(self, query)?)
    }
}
