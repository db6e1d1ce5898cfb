//! Lists of events that have numbers, taken from the front.

ghost use Rattle.std.specs.Prelude.{◌≡◌, ◌<◌, ◌↔◌, ◌++◌, ◌∷◌, [], length, slice_get, option_to_list, Some, IfErr, IsSome, IsTrue, OnErr, OnOk};

use crate::sequence::Sequenced;
use std::alloc::{AllocFailed, Global};
use std::collections::VecDeque;
use std::marker::Model;

/// Events that have numbers, in an order. They are taken from the front.
#[derive(Drop)]
pub struct Batch {
    items: VecDeque<Sequenced>,
}

impl Model for Batch {
    ghost use Rattle.std.specs.Prelude.{List};
    ghost use Rattle.std.specs.Coded.{coded_list};
    ghost use Rattle.attributes.specs.EventCode.{event_code};
    ghost use Rattle.attributes.specs.Event.{EventValue};

    ghost Value = { List EventValue };

    ghost coded = { coded_list event_code };

    ghost view = { λ l. l.items.items };
}

impl Batch {
    /// A batch of event values without events. It takes no memory.
    pub fn empty(alloc: Global) -> Batch
        ensures { result ≡ [] }
    {
        Batch {
            items: VecDeque::new(alloc),
        }
    }

    /// How many events wait in the batch.
    pub fn len(&self) -> u64
        ensures { result ≡ length self.now }
    {
        self.items.len() as u64
    }

    /// Whether no event waits in the batch.
    pub fn is_empty(&self) -> bool
        ensures { IsTrue result ↔ (length self.now ≡ 0) }
    {
        self.items.is_empty()
    }

    /// The batch's event at a place; at 0 stands the next one to be taken.
    pub fn at(&self, i: u64) -> &Sequenced
        requires { i < length self.now }
        ensures { slice_get self.now i ≡ Some result.now }
    {
        &self.items[i as usize]
    }

    /// Adds an event at the end of the batch, or hands it back where memory is refused. The time of
    /// many pushes is in proportion to their number.
    pub fn push(&mut self, event: Sequenced) -> Result<(), AllocFailed<Sequenced>>
        ensures ok { OnOk result (self.new ≡ self.old ++ event ∷ []) }
        ensures err { OnErr result (self.new ≡ self.old) }
        ensures back { IfErr result (λ f. f.value ≡ event) }
    {
        self.items.push_back(event)
    }

    /// Takes the batch's first event out, where there is one. The same time for every length.
    pub fn take_front(&mut self) -> Option<Sequenced>
        ensures front { self.old ≡ option_to_list result ++ self.new }
        ensures some { IsSome result ↔ (0 < length self.old) }
    {
        self.items.pop_front()
    }
}
