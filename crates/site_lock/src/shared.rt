//! The shared site and its passes.

ghost use Rattle.std.specs.Prelude.{◌≡◌, ◌≤◌, length, IfErr, IfOk, IsOk, ℕ, List, Some};
ghost use Rattle.site.specs.Arrival.{AreDistinct, HaveEachNumber};
ghost use Rattle.site.specs.declared.call.Call.{Call};
ghost use Rattle.turn_lock.specs.Turn.{Adds};
ghost use Rattle.site_lock.specs.Pass.{Closes, IsFirstPass, IsSplitOff, Meets, Splits, leave};
ghost use Rattle.site_lock.specs.Seat.{IsAtRest, MayEnd};

mod answer;
mod take;

use crate::held::Held;
use crate::pass::Pass;
use attributes::Batch;
use site::{Call, Site};
use std::alloc::{AllocError, Global};
use std::marker::Model;
use std::sync::Wait;
use turn_lock::{Says, Turnstile};

/// A site that passes use by turns. Contracts see which one it is; a pass is of it where its
/// `table` is that.
#[derive(Drop)]
pub struct SharedSite {
    turns: Turnstile<Held, Batch, Call>,
}

impl Model for SharedSite {
    ghost use Rattle.atomic_table.specs.Seated.{TableId, table_id_coded};

    ghost Value = { TableId };

    ghost coded = { table_id_coded };

    ghost view = { λ s. s.turns };
}

/// A site that is shared from now on, and its first pass.
#[derive(Drop)]
pub struct Begun {
    pub shared: SharedSite,
    pub pass: Pass,
}

/// A site that isn't shared, for want of memory.
#[derive(Drop)]
pub struct NotBegun {
    pub site: Site,
}

impl SharedSite {
    /// Shares a site. The first pass has seen nothing. After want of memory the site comes back.
    pub fn begin(alloc: Global, site: Site) -> Result<Begun, NotBegun>
        ensures begun { IfOk result (λ b. IsFirstPass b.pass b.shared site) }
        ensures back { IfErr result (λ n. n.site ≡ site) }
    {
        // The arrivals are there once each.
        let _arrived = site.arrived();
        match Turnstile::open(alloc, Held { site }) {
            Ok((turns, seat)) => Ok(Begun {
                shared: SharedSite { turns },
                pass: Pass { seat },
            }),
            Err(held) => {
                let Held { site } = held;
                Err(NotBegun { site })
            }
        }
    }

    /// A new pass of the shared site, for another thread. It has seen as much as this one, and made
    /// no call. It takes no memory and waits for nobody.
    pub fn split(&self, pass: &mut Pass) -> Result<Pass, AllocError>
        requires { pass.old.table ≡ self.now }
        ensures ok { IsOk result }
        ensures old { Splits pass.old pass.new }
        ensures new { IfOk result (λ p. IsSplitOff pass.old p) }
    {
        let seat = self.turns.split(&mut pass.seat);
        Ok(Pass { seat })
    }

    /// The pass `me` of the site learns what the other has seen. Takes no memory, waits for nobody.
    pub fn meet(&self, me: &mut Pass, other: &mut Pass) -> Result<(), AllocError>
        requires own { me.old.table ≡ self.now }
        requires others { other.old.table ≡ self.now }
        ensures ok { IsOk result }
        ensures met { Meets me.old other.old me.new }
        ensures same { other.new ≡ other.old }
    {
        self.turns.meet(&mut me.seat, &mut other.seat);
        Ok(())
    }

    /// How many turns with the shared site ended. It waits for nobody.
    pub fn turns(&self, pass: &mut Pass) -> u64
        requires { pass.old.table ≡ self.now }
        ensures same { pass.new ≡ pass.old }
        ensures some { length pass.old.seen ≤ result }
    {
        self.turns.turns(&mut pass.seat)
    }

    /// Waits for a turn, takes the shared site out for good. Nobody gets a turn from then on.
    pub fn close<R: Wait>(self, rt: &R, pass: Pass) -> Site
        requires { pass.table ≡ self }
        ensures { Closes pass result }
    {
        let SharedSite { turns } = self;
        let Pass { seat } = pass;
        let Held { site } = turns.close(rt, seat);
        site
    }

    /// Ends the shared site's turn with the call that `W` says, of this command and this reply.
    fn end<W: Says<Call>, M, P>(
        &self,
        seat: &mut turn_lock::Pass<Held, Batch, Call>,
        site: Site,
        command: &M,
        reply: &P,
    )
        requires own { seat.old.table_id ≡ self.now }
        requires said { (c : Call) × (W.call ≡ Some c) × MayEnd seat.old.me site c }
        requires once { AreDistinct seat.old.me.0.opening }
        ensures own { (seat.new.table_id ≡ seat.old.table_id) × (seat.new.id ≡ seat.old.id) }
        ensures rest { IsAtRest seat.new.me }
        ensures ended { (n : List ℕ) (c : Call) → seat.old.me.0.number ≡ Some n → W.call ≡ Some c
            → Adds n c seat.old.me.0 seat.new.me.0 }
        ensures numbered { HaveEachNumber (leave seat.new.me.0.opening seat.new.me.0.seen) }
    {
        let _ = command;
        let _ = reply;
        // The arrivals have numbers.
        let _arrived = site.arrived();
        self.turns.leave::<W>(seat, Held { site });
    }
}
