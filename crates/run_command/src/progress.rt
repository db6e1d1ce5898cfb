//! How far a run came, for those who look on.

use feeds::Aside;
use inbox_table::Watch;
use keeper::Flusher;
use site::{Gate, GateShut, MAX_PAGE};
use sqlite::Alter;
use std::sync::Wait;
use std::sync::atomic::{AtomicU64, Ordering};

/// A gate before which the calls of workers are counted.
#[derive(Drop)]
pub struct Counting<'a, G> {
    pub gate: &'a G,
    pub calls: &'a AtomicU64,
}

impl<'a, G: Gate> Gate for Counting<'a, G> {
    ghost lets = { λ c worker call. G.lets c.gate.now worker call };

    ghost shuts = { λ c worker call. G.shuts c.gate.now worker call };

    ghost heard = { λ c worker call. G.heard c.gate.now worker call };

    fn before(&self, worker: u64, call: u64) -> Result<(), GateShut> {
        self.gate.before(worker, call)
    }

    fn after(&self, worker: u64, call: u64) {
        self.gate.after(worker, call);
        self.calls.fetch_add(1, Ordering::SeqCst);
    }
}

/// About how many events a run's workers handed over: a worker's last call may have fewer than it
/// counts, and some calls have none.
fn handed_over(calls: &AtomicU64) -> u64 {
    calls.load(Ordering::SeqCst).saturating_mul(MAX_PAGE)
}

/// A flusher that tells after each turn how many events its table has, of about how many that were
/// there before or were handed over since.
#[derive(Drop)]
pub struct WatchedFlusher<'a, 'b, R: Wait, S: Alter, W> {
    pub flusher: Flusher<'a, R, S>,
    pub calls: &'a AtomicU64,
    pub watch: &'b W,
    pub before: u64,
}

impl<'a, 'b, R: Wait, S: Alter + Drop, W: Watch> Aside for WatchedFlusher<'a, 'b, R, S, W> {
    ghost use Rattle.std.specs.Prelude.{◌≡◌, ℕ};
    ghost use Rattle.sqlite.specs.Held.{state};
    ghost use Rattle.keeper.specs.Flush.{Flushes, Turns};
    ghost use Rattle.keeper.specs.steps.Flushes.{flushes_none, flushes_on};

    ghost moves = { λ a b. Flushes (λ conn. state S.Store conn) a.flusher b.flusher };

    ghost stays = { λ a. flushes_none _ a.flusher };

    ghost goes_on = { λ a b c. flushes_on _ a.flusher b.flusher c.flusher };

    /// A turn of a run's flusher; then the watch is told.
    fn turn(&mut self) -> bool
        ensures turned { Turns (λ conn. state S.Store conn)
            self.old.flusher self.new.flusher result }
        ensures same { (self.new.watch ≡ self.old.watch) × (self.new.before ≡ self.old.before) }
        ensures told { (all : ℕ) × W.told self.new.watch.now self.new.flusher.keeper.rows all }
    {
        let goes_on = self.flusher.flush();
        let all = self.before.saturating_add(handed_over(self.calls));
        self.watch.kept(self.flusher.kept(), all);
        goes_on
    }
}
