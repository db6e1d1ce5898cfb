//! The site and its arrivals.

ghost use Rattle.std.specs.Prelude.{◌≡◌, ◌<◌, [], length, slice_get, Some};
ghost use Rattle.inbox.specs.Sets.{AreEvents, set_of};
ghost use Rattle.site.specs.Arrival.{AreDistinct, HaveEachNumber};

mod among;
mod delta;
mod keep;
mod key;
mod lent;
mod mark;
mod merge;
mod page;
mod question;
mod take;

use attributes::Sequenced;
use block_digests::Blocks;
use coverage::Summary;
pub use delta::DeltaPart;
use inbox::Inbox;
use kept_views::Views;
pub use lent::Lent;
pub use mark::Mark;
use std::alloc::Global;
use std::marker::Model;

/// What one region's site holds. Contracts see its arrivals: the events that it took, each once,
/// in the order in which they came. `set_of` that is its set, in key order: by source, then id,
/// then canonical text, all as bytes.
#[derive(Drop)]
pub struct Site {
    inbox: Inbox,
    // The numbers of what came, version 1.
    summary: Summary,
    // The blocks of what came, with the digests that were made.
    blocks: Blocks,
    // The views of what came, where they are kept. In a box, as the mark is, since whoever owns a
    // site proves how each of its parts is let go at each of its exits.
    views: Option<Box<Views>>,
    // Where the pages of the peer that asked last go on, where nothing came since.
    mark: Option<Box<Mark>>,
    alloc: Global,
}

impl Model for Site {
    ghost use Rattle.std.specs.Prelude.{◌≡◌, List, IfSome};
    ghost use Rattle.std.specs.Coded.{coded_list};
    ghost use Rattle.attributes.specs.EventCode.{event_code};
    ghost use Rattle.attributes.specs.Event.{EventValue};
    ghost use Rattle.block_digests.specs.Kept.{IsKeptOf};
    ghost use Rattle.coverage.specs.Summary.{version_of};
    ghost use Rattle.kept_views.specs.Tables.{AreTablesOfShown};
    ghost use Rattle.views.specs.Number.{HasNumbers};
    ghost use Rattle.site.specs.Arrival.{AreDistinct, HaveEachNumber};
    ghost use Rattle.site.specs.Mark.{IsMark};

    ghost Value = { List EventValue };

    ghost coded = { coded_list event_code };

    ghost view = { λ s. s.inbox.arrivals };

    ghost invariant = { λ s. HasNumbers s.inbox.arrivals s.summary
        × HaveEachNumber s.inbox.arrivals × AreDistinct s.inbox.arrivals
        × (version_of s.summary ≡ 1) × IsKeptOf s.inbox.arrivals s.blocks
        × IfSome s.views (λ v. AreTablesOfShown s.inbox.arrivals v.value)
        × IfSome s.mark (λ m. IsMark s.inbox.arrivals m.value.peer m.value.own m.value.among
        m.value.from m.value.place) };
}

impl Site {
    /// A site without events, which keeps no views. It takes no memory.
    pub fn empty(alloc: Global) -> Site
        ensures { result ≡ [] }
    {
        Site {
            inbox: Inbox::empty(alloc),
            summary: Summary::empty(alloc),
            blocks: Blocks::empty(alloc),
            views: None,
            mark: None,
            alloc,
        }
    }

    /// How many events came to the site, each counted once.
    pub fn arrived(&self) -> u64
        ensures count { result ≡ length self.now }
        ensures events { AreEvents self.now }
        ensures numbered { HaveEachNumber self.now }
        ensures distinct { AreDistinct self.now }
    {
        self.inbox.arrived()
    }

    /// The event that came to the site as the i-th, from 0.
    pub fn arrived_at(&self, i: u64) -> &Sequenced
        requires { i < length self.now }
        ensures { slice_get self.now i ≡ Some result.now }
    {
        self.inbox.arrived_at(i)
    }

    /// How many events the site's set has.
    pub fn len(&self) -> u64
        ensures { result ≡ length (set_of self.now) }
    {
        self.inbox.len()
    }

    /// The site's event at place i of key order. The time grows with the logarithm of the number of
    /// events.
    fn at(&self, i: u64) -> &Sequenced
        requires { i < length (set_of self.now) }
        ensures { slice_get (set_of self.now) i ≡ Some result.now }
    {
        self.inbox.at(i)
    }
}
