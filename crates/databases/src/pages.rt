//! Events that are printed page after page.
ghost use Rattle.std.specs.Prelude.{◌≡◌, ◌≤◌, length, drop, take, IfOk, OnErr, OnOk};
ghost use Rattle.inbox.specs.Sets.{set_of};
ghost use Rattle.site.specs.Delta.{delta};
ghost use Rattle.site.specs.Page.{page};
ghost use Rattle.databases.specs.Pages.{first_page, max_page, pages_below, pages_text};
ghost use Rattle.databases.specs.steps.Left.{AreCompared, ArePaged, events_left, left_of};

use crate::text::batch_line;
use attributes::{Batch, Text};
use coverage::Summary;
use site::{DeltaPart, MAX_PAGE, Site};
use std::alloc::{AllocError, Global};
use std::marker::Model;

/// What a peer lacks is found by two summaries: the peer's, and the site's own.
#[derive(Drop)]
struct Compared {
    peer: Summary,
    own: Summary,
}

/// The events of which pages are made.
#[derive(Drop)]
enum PagedEvents {
    /// In the order in which they came.
    Arrived(Batch),
    /// In key order; only what the peer lacks, where there is one.
    Kept {
        site: Site,
        compared: Option<Compared>,
    },
}

/// Events that are to be printed, 100 a page. Contracts see those that are still to come. A page is
/// made when it is asked for, so that one text at most is held.
#[derive(Drop)]
pub struct EventPages {
    events: PagedEvents,
    /// The place to go on from.
    place: u64,
    alloc: Global,
}

impl Model for EventPages {
    ghost use Rattle.std.specs.Prelude.{List};
    ghost use Rattle.std.specs.Coded.{coded_list};
    ghost use Rattle.attributes.specs.EventCode.{event_code};
    ghost use Rattle.attributes.specs.Event.{EventValue};
    ghost use Rattle.databases.specs.steps.Left.{ArePaged, events_left};

    ghost Value = { List EventValue };

    ghost coded = { coded_list event_code };

    ghost view = { λ p. events_left p.events p.place };

    ghost invariant = { λ p. ArePaged p.events p.place };
}

impl EventPages {
    /// All events of a database's list but the first so many, in their order, for pages.
    pub fn of_arrivals(alloc: Global, events: Batch, after: u64) -> EventPages
        ensures { result ≡ drop after events }
    {
        EventPages {
            events: PagedEvents::Arrived(events),
            place: after,
            alloc,
        }
    }

    /// All events of a database's site, in key order, for its pages.
    pub fn of_all(alloc: Global, site: Site) -> EventPages
        ensures { result ≡ set_of site }
    {
        let events = PagedEvents::Kept {
            site,
            compared: None,
        };
        EventPages {
            events,
            place: 0,
            alloc,
        }
    }

    /// The events of a database's site that a summary lacks, in key order, for its pages.
    pub fn of_delta(alloc: Global, site: Site, peer: Summary) -> Result<EventPages, AllocError>
        ensures { IfOk result (λ pages. pages ≡ delta (set_of site) peer) }
    {
        let own = site.summary_for(&peer)?;
        let events = PagedEvents::Kept {
            site,
            compared: Some(Compared { peer, own }),
        };
        Ok(EventPages {
            events,
            place: 0,
            alloc,
        })
    }

    /// So many pages of a database at most are still to come: those below that count are all.
    pub fn most(&self) -> u64
        ensures { pages_text self.now ≡ pages_below result self.now }
    {
        match &self.events {
            PagedEvents::Arrived(events) => events.len(),
            PagedEvents::Kept { site, .. } => site.len(),
        }
    }

    /// The next events of a database's pages, 100 or all that are left, as the line of a batch;
    /// none if none are left. Time in proportion to the events that are passed, and to the page.
    pub fn next_line(&mut self) -> Result<Option<Text>, AllocError>
        ensures line { IfOk result (λ line. line ≡ first_page self.old) }
        ensures rest { OnOk result (self.new ≡ drop max_page self.old) }
        ensures err { OnErr result (self.new ≡ self.old) }
    {
        let DeltaPart { events, next } = part_of(self.alloc, &self.events, self.place)?;
        if events.is_empty() {
            self.place = next;
            return Ok(None);
        }
        let line = batch_line(self.alloc, &events)?;
        self.place = next;
        Ok(Some(line))
    }
}

/// The page of a database's events of a list behind the first so many, at most 100.
pub fn page_behind(alloc: Global, events: &Batch, passed: u64) -> Result<Batch, AllocError>
    ensures { IfOk result (λ batch. batch ≡ page events.now passed max_page) }
{
    let mut batch = Batch::empty(alloc);
    let count = MAX_PAGE.min(events.len().saturating_sub(passed));
    for k in 0..count {
        batch.push(events.at(passed + k).copy()?)?;
    }
    Ok(batch)
}

/// The next page of a database's events behind a place, and the place to go on from.
fn part_of(alloc: Global, events: &PagedEvents, place: u64) -> Result<DeltaPart, AllocError>
    requires { ArePaged events.now place }
    ensures events { IfOk result (λ part. part.events ≡ take max_page (events_left events.now place)) }
    ensures rest { IfOk result (λ part. events_left events.now part.next
        ≡ drop max_page (events_left events.now place)) }
    ensures within { IfOk result (λ part. ArePaged events.now part.next) }
{
    match events {
        PagedEvents::Arrived(arrived) => arrivals_behind(alloc, arrived, place),
        PagedEvents::Kept { site, compared } => part_behind(site, compared, place),
    }
}

/// The next page of a database's events in arrival order, and the place to go on from.
fn arrivals_behind(alloc: Global, arrived: &Batch, place: u64) -> Result<DeltaPart, AllocError>
    ensures events { IfOk result (λ part. part.events ≡ take max_page (drop place arrived.now)) }
    ensures rest { IfOk result (λ part. drop part.next arrived.now
        ≡ drop max_page (drop place arrived.now)) }
{
    let events = page_behind(alloc, arrived, place)?;
    let left = arrived.len().saturating_sub(place);
    let next = place + MAX_PAGE.min(left);
    Ok(DeltaPart { events, next })
}

/// A database's next page behind a place of key order, and the place to go on from.
fn part_behind(
    site: &Site,
    compared: &Option<Compared>,
    place: u64,
) -> Result<DeltaPart, AllocError>
    requires place { place ≤ length (set_of site.now) }
    requires compared { AreCompared (set_of site.now) compared.now }
    ensures events { IfOk result (λ part. part.events
        ≡ take max_page (left_of (set_of site.now) compared.now place)) }
    ensures rest { IfOk result (λ part. left_of (set_of site.now) compared.now part.next
        ≡ drop max_page (left_of (set_of site.now) compared.now place)) }
    ensures within { IfOk result (λ part. part.next ≤ length (set_of site.now)) }
{
    match compared {
        Some(both) => site.delta_from(&both.peer, &both.own, place, MAX_PAGE),
        None => {
            let left = site.len() - place;
            let events = site.page(place, MAX_PAGE)?;
            let next = place + MAX_PAGE.min(left);
            Ok(DeltaPart { events, next })
        }
    }
}
