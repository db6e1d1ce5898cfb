//! What a worker asks a gate, and tells it.

ghost use Rattle.std.specs.Prelude.{MatchResult};

use site::{Gate, GateShut};

/// That a gate let a worker make one call. It can't be let go, but by telling the gate: so a gate is
/// asked once before each call, and told once behind it.
pub(crate) struct Permit;

/// Asks the gate whether the worker may make this call. Nothing else in this crate asks a gate.
pub(crate) fn permission<G: Gate>(gate: &G, worker: u64, call: u64) -> Result<Permit, GateShut>
    ensures { MatchResult result (λ _. G.lets gate.now worker call)
        (λ _. G.shuts gate.now worker call) }
{
    match gate.before(worker, call) {
        Ok(()) => Ok(Permit),
        Err(shut) => Err(shut),
    }
}

/// Tells the gate that the worker made the call that was permitted. Nothing else in this crate tells
/// a gate.
pub(crate) fn tell<G: Gate>(permit: Permit, gate: &G, worker: u64, call: u64)
    ensures { G.heard gate.now worker call }
{
    let Permit = permit;
    gate.after(worker, call);
}
