//! Why a numberer refuses a call.

ghost use Rattle.std.specs.Prelude.{◌≡◌};
ghost use Rattle.number_table.specs.Fault.{of_numbers, of_table};
ghost use Rattle.number_table.specs.declared.fault.NumbererFault.TheVariants.{OutOfMemory};

use inbox_table::TableFault;
use numbers::NumberFault;
use std::alloc::AllocError;

/// Why a numberer refuses a call. An index is that of the event, from 0.
#[derive(Clone, Copy, PartialEq, Eq, Debug, thiserror::Error)]
pub enum NumbererFault {
    #[error("out of memory")]
    OutOfMemory,
    /// An event has an attribute `sequence`.
    #[error("event {index} has a sequence")]
    HasSequence { index: u64 },
    /// The text of an event would have more than 262,144 bytes with its number.
    #[error("event {index} is too large")]
    TooLarge { index: u64 },
    /// No number up to 2^63 - 1 is left for the source of an event.
    #[error("event {index} has no number left")]
    Full { index: u64 },
    /// The database refuses: the disk failed, a transaction is open, there are other tables. Or a
    /// call was refused half-way before, and the numberer is to be opened again.
    #[error("store")]
    Store,
    /// The table is none that a numberer with this base leaves.
    #[error("foreign")]
    Foreign,
}

impl From<AllocError> for NumbererFault {
    ghost from_gives = { λ _ f. f ≡ OutOfMemory };

    /// Want of memory while events are looked up.
    fn from(_refused: AllocError) -> NumbererFault {
        NumbererFault::OutOfMemory
    }
}

impl From<NumberFault> for NumbererFault {
    ghost from_gives = { λ given f. f ≡ of_numbers given };

    /// The refusal of events by a numberer over a table.
    fn from(fault: NumberFault) -> NumbererFault {
        match fault {
            NumberFault::OutOfMemory => NumbererFault::OutOfMemory,
            NumberFault::HasSequence { index } => NumbererFault::HasSequence { index },
            NumberFault::TooLarge { index } => NumbererFault::TooLarge { index },
            NumberFault::Full { index } => NumbererFault::Full { index },
        }
    }
}

impl From<TableFault> for NumbererFault {
    ghost from_gives = { λ given f. f ≡ of_table given };

    /// The refusal of a numberer's table.
    fn from(fault: TableFault) -> NumbererFault {
        match fault {
            TableFault::OutOfMemory => NumbererFault::OutOfMemory,
            TableFault::Store => NumbererFault::Store,
            TableFault::Foreign => NumbererFault::Foreign,
        }
    }
}
