//! Events that a site lends.

ghost use Rattle.std.specs.Prelude.{◌≡◌, ◌≢◌, ◌<◌, ◌↔◌, ◌++◌, ◌∷◌, [], IfOk, IsTrue, OnErr, OnOk, Some, length, map, slice_get};

use attributes::{Batch, Sequenced};
use std::alloc::{AllocError, Global};
use std::marker::Model;

/// Events of a site, which lends them where they stand. Contracts see the list of them.
#[derive(Drop)]
pub struct Lent<'s> {
    items: Vec<&'s Sequenced>,
}

impl<'s> Model for Lent<'s> {
    ghost use Rattle.std.specs.Prelude.{List, map};
    ghost use Rattle.std.specs.Coded.{coded_list};
    ghost use Rattle.attributes.specs.EventCode.{event_code};
    ghost use Rattle.attributes.specs.Event.{EventValue};

    ghost Value = { List EventValue };

    ghost coded = { coded_list event_code };

    ghost view = { λ l. map (λ e. e.now) l.items.items };
}

impl<'s> Lent<'s> {
    /// No events of a site. It takes no memory.
    pub fn empty(alloc: Global) -> Lent<'s>
        ensures { result ≡ [] }
    {
        Lent {
            items: Vec::new(alloc),
        }
    }

    /// How many events the site lends.
    pub fn len(&self) -> u64
        ensures { result ≡ length self.now }
    {
        self.items.len() as u64
    }

    /// Whether the site lends no event.
    pub fn is_empty(&self) -> bool
        ensures { IsTrue result ↔ (length self.now ≡ 0) }
    {
        self.items.is_empty()
    }

    /// The site's events, as a slice.
    pub fn as_slice(&self) -> &[&'s Sequenced]
        ensures { map (λ e. e.now) result.now ≡ self.now }
    {
        self.items.as_slice()
    }

    /// The event at a place of those that the site lends, from 0.
    pub fn at(&self, i: u64) -> &'s Sequenced
        requires { i < length self.now }
        ensures { slice_get self.now i ≡ Some result.now }
    {
        self.items[i as usize]
    }

    /// Lends one event more of the site, behind the others.
    pub fn push(&mut self, event: &'s Sequenced) -> Result<(), AllocError>
        ensures ok { OnOk result (self.new ≡ self.old ++ event.now ∷ []) }
        ensures err { OnErr result (self.new ≡ self.old) }
    {
        self.items.push(event)?;
        Ok(())
    }

    /// Copies of the events that the site lends, in time and memory proportional to them.
    pub fn copied(&self, alloc: Global) -> Result<Batch, AllocError>
        ensures ok { IfOk result (λ batch. batch ≡ self.now) }

        // Memory is wanted for events alone.
        ensures err { OnErr result (self.now ≢ []) }
    {
        let mut batch = Batch::empty(alloc);
        for i in 0..self.len() {
            batch.push(self.at(i).copy()?)?;
        }
        Ok(batch)
    }
}
