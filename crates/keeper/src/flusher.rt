//! A keeper as the work of the thread that waits for workers.

ghost use Rattle.std.specs.Prelude.{◌≡◌, true, false, None, IsSome};
ghost use Rattle.sqlite.specs.Held.{state};
ghost use Rattle.site_lock.specs.Pass.{leaves};
ghost use Rattle.keeper.specs.Flush.{Turns};
ghost use Rattle.keeper.specs.Keep.{KeepsUp};

use crate::fault::Stop;
use crate::keeper::Keeper;
use feeds::Aside;
use site_lock::{Pass, SharedSite};
use sqlite::Alter;
use std::marker::Model;
use std::sync::Wait;

/// The most steps that a turn makes in one transaction.
const MAX_PAGES: u64 = 10;

/// A keeper with a pass of its own: each turn keeps what ten steps would, in one transaction, until
/// one is refused. Contracts see the shared site, the keeper, the pass, and the refusal, if one
/// came.
#[derive(Drop)]
pub struct Flusher<'a, R: Wait, S: Alter> {
    rt: &'a R,
    shared: &'a SharedSite,
    keeper: Keeper<S>,
    pass: Pass,
    fault: Option<Stop>,
}

/// What a flusher leaves.
#[derive(Drop)]
pub struct Flushed<S: Alter> {
    pub keeper: Keeper<S>,
    pub pass: Pass,
    pub fault: Option<Stop>,
}

impl<'a, R: Wait, S: Alter> Model for Flusher<'a, R, S> {
    ghost use Rattle.std.specs.Prelude.{◌≡◌};
    ghost use Rattle.sqlite.specs.Held.{state};
    ghost use Rattle.site_lock.specs.Pass.{leaves};
    ghost use Rattle.keeper.specs.Flush.{Flushing};
    ghost use Rattle.keeper.specs.FlushCode.{flushing_code};
    ghost use Rattle.keeper.specs.Keep.{KeepsUp};

    ghost Value = { Flushing S };

    ghost coded = { flushing_code S.code };

    ghost view = { λ f. record {
      site = f.shared.now;
      keeper = f.keeper;
      pass = f.pass;
      fault = f.fault;
    } };

    ghost invariant = { λ f. (f.pass.table ≡ f.shared.now)
        × KeepsUp (state S.Store f.keeper.conn) f.keeper.rows (leaves f.pass) };
}

impl<'a, R: Wait, S: Alter + Drop> Flusher<'a, R, S> {
    /// A flusher with this keeper and this pass, which must be of the shared site. The table has
    /// the first arrivals after what the pass has seen, as for a step.
    pub fn of(rt: &'a R, shared: &'a SharedSite, keeper: Keeper<S>, pass: Pass) -> Flusher<'a, R, S>
        requires own { pass.table ≡ shared.now }
        requires first { KeepsUp (state S.Store keeper.conn) keeper.rows (leaves pass) }
        ensures site { result.site ≡ shared.now }
        ensures keeper { result.keeper ≡ keeper }
        ensures pass { result.pass ≡ pass }
        ensures fault { result.fault ≡ None }
    {
        Flusher {
            rt,
            shared,
            keeper,
            pass,
            fault: None,
        }
    }

    /// Ten steps of the keeper in one transaction, unless one was refused before. False where they
    /// are refused, or others were.
    pub fn flush(&mut self) -> bool
        ensures { Turns (λ conn. state S.Store conn) self.old self.new result }
    {
        if self.fault.is_some() {
            return false;
        }
        match self
            .keeper
            .steps(self.rt, self.shared, &mut self.pass, MAX_PAGES)
        {
            Ok(_) => true,
            Err(fault) => {
                self.fault = Some(Stop::of(fault));
                false
            }
        }
    }

    /// How many of the shared site's arrivals the keeper's table has. Takes no time.
    pub fn kept(&self) -> u64
        ensures { result ≡ self.now.keeper.rows }
    {
        self.keeper.kept()
    }

    /// The keeper, the pass and the refusal, if one came, as they stand. The keeper's table still
    /// has the first arrivals after what the pass has seen.
    pub fn end(self) -> Flushed<S>
        ensures keeper { result.keeper ≡ self.entry.keeper }
        ensures pass { result.pass ≡ self.entry.pass }
        ensures fault { result.fault ≡ self.entry.fault }
        ensures own { result.pass.table ≡ self.entry.site }
        ensures first { KeepsUp (state S.Store result.keeper.conn) result.keeper.rows
            (leaves result.pass) }
    {
        let Flusher {
            rt: _,
            shared: _,
            keeper,
            pass,
            fault,
        } = self;
        Flushed {
            keeper,
            pass,
            fault,
        }
    }
}

impl<'a, R: Wait, S: Alter + Drop> Aside for Flusher<'a, R, S> {
    ghost use Rattle.sqlite.specs.Held.{state};
    ghost use Rattle.keeper.specs.Flush.{Flushes, Turns};
    ghost use Rattle.keeper.specs.steps.Flushes.{flushes_none, flushes_on};

    ghost moves = { λ f g. Flushes (λ conn. state S.Store conn) f g };

    ghost stays = { λ f. flushes_none _ f };

    ghost goes_on = { λ f g h. flushes_on _ f g h };

    /// A turn of the keeper beside the workers, as [`Flusher::flush`].
    fn turn(&mut self) -> bool
        ensures { Turns (λ conn. state S.Store conn) self.old self.new result }
    {
        self.flush()
    }
}
