//! Work for the thread that waits for workers.

ghost use Rattle.std.specs.Prelude.{◌≡◌, false};

/// Work that the calling thread does beside workers, one turn after another, until they have ended.
/// It means a relation of two states: what the work may have come to.
pub trait Aside {
    // What it may come to from a state.
    ghost moves: { Self → Self → Type 0 };

    /// Does one turn of the work beside the workers. False stops it, though not the workers.
    fn turn(&mut self) -> bool
        ensures { moves self.old self.new };

    // It may come to nothing new.
    ghost stays: { (a : Self) → moves a a };

    // What it comes to in two stretches, it may come to in one.
    ghost goes_on: { (a b c : Self) → moves a b → moves b c → moves a c };
}

/// No work: its first turn stops it.
#[derive(Clone, Copy, Debug, Drop)]
pub struct Idle;

impl Aside for Idle {
    ghost use Rattle.std.specs.Prelude.{◌≡◌, refl};
    ghost use Rattle.std.proofs.Common.{◌∙◌};

    ghost moves = { λ a b. b ≡ a };

    ghost stays = { λ a. refl };

    ghost goes_on = { λ a b c first then. then ∙ first };

    fn turn(&mut self) -> bool
        ensures moves { self.new ≡ self.old }
        ensures stops { result ≡ false }
    {
        false
    }
}
