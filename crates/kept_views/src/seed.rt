//! What keys are hashed by.

ghost use Rattle.std.specs.Prelude.{◌≡◌, None, Some};
ghost use Rattle.kept_views.specs.Seed.{hasher_of};

use std::hash::{BuildHasher, DefaultHasher, RandomState};

/// What the keys of tables are hashed by: a seed of one's own, or one that everybody knows.
#[derive(Clone, Copy)]
pub(crate) struct Seed {
    state: Option<RandomState>,
}

impl Seed {
    /// A seed for kept views that nobody knows, for keys that come from outside.
    pub(crate) fn random(state: RandomState) -> Seed
        ensures { result.state ≡ Some state }
    {
        Seed { state: Some(state) }
    }

    /// The seed for kept views that everybody knows, for keys that one trusts: whoever knows it can
    /// pick keys that collide.
    pub(crate) fn known() -> Seed
        ensures { result.state ≡ None }
    {
        Seed { state: None }
    }
}

impl BuildHasher for Seed {
    type Hasher = DefaultHasher;

    ghost build_hasher = { hasher_of };

    fn build_hasher(&self) -> DefaultHasher {
        match &self.state {
            Some(state) => state.build_hasher(),
            None => DefaultHasher::new(),
        }
    }
}
