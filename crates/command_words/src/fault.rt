//! Why words are no plan.
ghost use Rattle.std.specs.Prelude.{◌≡◌};
ghost use Rattle.command_words.specs.declared.fault.Faulty.TheVariants.{OutOfMemory};

use attributes::Text;
use std::alloc::{AllocError, AllocFailed};

/// Why words are no plan.
#[derive(Drop)]
pub enum Faulty {
    OutOfMemory,
    /// The words are at fault, or ask for help or the version: the text to print, and whether it
    /// was asked for.
    Words { text: Text, is_help: bool },
}

impl Faulty {
    ghost use Rattle.command_words.specs.Plans.{number_of_reason};

    /// The number of the reason why words of the command line are faulty, from 1.
    pub fn number(&self) -> u8
        ensures { result ≡ number_of_reason self.now }
    {
        match self {
            Faulty::OutOfMemory => 1,
            Faulty::Words { .. } => 2,
        }
    }
}

impl From<AllocError> for Faulty {
    ghost from_gives = { λ _ e. e ≡ OutOfMemory };

    fn from(_error: AllocError) -> Faulty {
        Faulty::OutOfMemory
    }
}

impl<T: Drop> From<AllocFailed<T>> for Faulty {
    ghost from_gives = { λ _ e. e ≡ OutOfMemory };

    fn from(_error: AllocFailed<T>) -> Faulty {
        Faulty::OutOfMemory
    }
}
