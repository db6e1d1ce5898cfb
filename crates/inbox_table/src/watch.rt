//! How far a long call came, for those who look on.

ghost use Rattle.std.specs.Prelude.{ℕ, ⊤};

/// Is told how far a long call came, by the thread that makes the call. What it does changes
/// nothing of what comes of the call.
pub trait Watch {
    /// It was told so many of so many. Only `kept` makes it so.
    ghost told: { Self → ℕ → ℕ → Type 0 };

    /// The watch is told: so many of so many events are in the inbox's table.
    fn kept(&self, count: u64, all: u64)
        ensures { told self.now count all };
}

/// Nobody looks on.
#[derive(Clone, Copy, Debug)]
pub struct Unwatched;

impl Watch for Unwatched {
    ghost told = { λ _ _ _. ⊤ };

    fn kept(&self, _count: u64, _all: u64) {}
}
