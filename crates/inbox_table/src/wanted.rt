//! Which events of a table a reading keeps.

ghost use Rattle.std.specs.Prelude.{◌≡◌, ◌/◌, Bool};
ghost use Rattle.attributes.specs.Event.{EventValue};
ghost use Rattle.inbox_table.specs.Rows.{is_of_block};

use attributes::Sequenced;

/// How many numbers a block has.
const BLOCK: u64 = 1_024;

/// The block in an inbox's row of a number: block k has the 1,024 numbers from 1024 k on.
pub(crate) fn block_of(number: u64) -> u64
    ensures { result ≡ number / 1024 }
{
    number / BLOCK
}

/// Tells the events that are kept from those that are only read.
pub(crate) trait Wanted {
    ghost wanted: { Self → EventValue → Bool };

    /// Whether a reading of the inbox's table keeps the event.
    fn is_wanted(&self, event: &Sequenced) -> bool
        ensures { result ≡ wanted self.now event.now };
}

/// Each event, or none.
#[derive(Clone, Copy)]
pub(crate) struct Each {
    pub(crate) keeps: bool,
}

impl Wanted for Each {
    ghost wanted = { λ each _. each.keeps };

    fn is_wanted(&self, _event: &Sequenced) -> bool {
        self.keeps
    }
}

/// The events of a source whose number is in a block.
#[derive(Clone, Copy)]
pub(crate) struct OfBlock<'a> {
    pub(crate) source: &'a str,
    pub(crate) block: u64,
}

impl<'a> Wanted for OfBlock<'a> {
    ghost wanted = { λ it. is_of_block it.source.now it.block };

    fn is_wanted(&self, event: &Sequenced) -> bool {
        let number = event.number().number();
        event.event().source() == self.source && block_of(number) == self.block
    }
}
