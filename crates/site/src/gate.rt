//! What is asked before and after each call of a worker.

ghost use Rattle.std.specs.Prelude.{ℕ, ⊤, IsOk, MatchResult};

/// The worker is to stop.
#[derive(Clone, Copy, PartialEq, Eq, Debug)]
pub struct GateShut;

/// Asked by workers, outside their calls: before each, and after each that was let through. Workers
/// count from 0 and the calls of each from 1. It may hold a worker up.
///
/// What it answered and was told are facts that a worker's contract names: nothing else makes them,
/// so whoever has such a fact asked the gate, or told it, under just that number.
pub trait Gate {
    /// It let a worker make a call. Only `before` makes it so.
    ghost lets: { Self → ℕ → ℕ → Type 0 };

    /// It stopped a worker before a call. Only `before` makes it so.
    ghost shuts: { Self → ℕ → ℕ → Type 0 };

    /// It was told that a worker made a call. Only `after` makes it so.
    ghost heard: { Self → ℕ → ℕ → Type 0 };

    /// Whether the gate lets the worker make its call of a desk or site.
    fn before(&self, worker: u64, call: u64) -> Result<(), GateShut>
        ensures { MatchResult result (λ _. lets self.now worker call)
            (λ _. shuts self.now worker call) };

    /// Tells the gate that the worker has made its call of a desk or site.
    fn after(&self, worker: u64, call: u64)
        ensures { heard self.now worker call };
}

/// The gate that never shuts and never waits.
#[derive(Clone, Copy, Debug)]
pub struct Wide;

impl Gate for Wide {
    ghost lets = { λ _ _ _. ⊤ };

    ghost shuts = { λ _ _ _. ⊥ };

    ghost heard = { λ _ _ _. ⊤ };

    fn before(&self, _worker: u64, _call: u64) -> Result<(), GateShut>
        ensures { IsOk result }
    {
        Ok(())
    }

    fn after(&self, _worker: u64, _call: u64) {}
}
