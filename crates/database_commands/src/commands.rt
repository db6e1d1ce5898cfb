//! The commands, each as a value. What each does, and how it is refused, stands at the function of
//! the crate that it calls.
ghost use Rattle.std.specs.Prelude.{◌≡◌, ◌≤◌, ℕ, length, true, IfSome};
ghost use Rattle.attributes.specs.Character.{is_filled};
ghost use Rattle.attributes.specs.Sequence.{max_sequence};
ghost use Rattle.inbox_table.specs.Rows.{AreNumbered};
ghost use Rattle.databases.specs.Described.{SaysDatabase};
ghost use Rattle.database_commands.specs.Effect.{DescribeEffect, HeldEffect, LookEffect, OrderEffect, PageEffect, RelayAllEffect, RelayEffect, ServiceEffect, TakeEffect};
ghost use Rattle.databases.specs.Fault.{IsOfOrder};
ghost use Rattle.databases.specs.Held.{HasArrived, HasDelta, HasEvents, IsNoOrders, IsNoRows, SaysAllRows, SaysArrivals, SaysDelta, SaysOrder, SaysPage, SaysRows, SaysSummary, ShowsArrivals, ShowsArrived, ShowsDelta, ShowsLacking, ShowsPage, ShowsSet, ShowsSummary};
ghost use Rattle.databases.specs.Print.{counts_line};
ghost use Rattle.databases.specs.Service.{SaysService};

use crate::command::{Command, CommandEnd};
use crate::described::describe;
use crate::intake::take;
use crate::page::{arrival_pages, arrivals, delta, delta_pages, held, scrub, scrub_pages, summary};
use crate::service::{order, relay, relay_all};
use crate::told::tell_service;
use attributes::{Batch, Moment, Text};
use coverage::Summary;
use databases::EventPages;
use inbox_table::Watch;
use outbox::Status;
use sqlite::{Alter, Connection};
use std::alloc::Global;

/// Adds events: [`take`].
#[derive(Drop)]
pub struct TakeEvents<'a, W: Watch> {
    pub events: &'a Batch,
    pub watch: &'a W,
}

impl<'a, W: Watch> Command for TakeEvents<'a, W> {
    type Answer = Text;

    ghost does = { λ c. TakeEffect (W.told c.watch.now) c.events.now };

    ghost says = { λ c text. (fresh : ℕ) × (text ≡ counts_line (length c.events.now) fresh) };

    fn perform<S: Alter + Drop>(self, alloc: Global, conn: Connection<S>) -> CommandEnd<S, Text> {
        take(alloc, conn, self.events, self.watch)
    }
}

/// Asks for the events that a database holds: [`held`].
#[derive(Drop)]
pub struct HeldEvents;

impl Command for HeldEvents {
    type Answer = Batch;

    ghost does = { λ _. HeldEffect };

    ghost says = { λ _. AreNumbered };

    fn perform<S: Alter + Drop>(self, alloc: Global, conn: Connection<S>) -> CommandEnd<S, Batch> {
        held(alloc, conn)
    }
}

/// Asks for the line of their summary: [`summary`].
#[derive(Drop)]
pub struct SummaryLine;

impl Command for SummaryLine {
    type Answer = Text;

    ghost does = { λ _. LookEffect ShowsSummary };

    ghost says = { λ _. SaysSummary };

    fn perform<S: Alter + Drop>(self, alloc: Global, conn: Connection<S>) -> CommandEnd<S, Text> {
        summary(alloc, conn)
    }
}

/// Asks for all that a summary lacks: [`delta_pages`].
#[derive(Drop)]
pub struct DeltaPages {
    pub summary: Summary,
}

impl Command for DeltaPages {
    type Answer = EventPages;

    ghost does = { λ c. LookEffect (ShowsLacking c.summary) };

    ghost says = { λ c. HasDelta c.summary };

    fn perform<S: Alter + Drop>(
        self,
        alloc: Global,
        conn: Connection<S>,
    ) -> CommandEnd<S, EventPages> {
        delta_pages(alloc, conn, self.summary)
    }
}

/// Asks for all events: [`scrub_pages`].
#[derive(Drop)]
pub struct ScrubPages;

impl Command for ScrubPages {
    type Answer = EventPages;

    ghost does = { λ _. LookEffect ShowsSet };

    ghost says = { λ _. HasEvents };

    fn perform<S: Alter + Drop>(
        self,
        alloc: Global,
        conn: Connection<S>,
    ) -> CommandEnd<S, EventPages> {
        scrub_pages(alloc, conn)
    }
}

/// Asks for a page of what a summary lacks: [`delta`].
#[derive(Drop)]
pub struct DeltaPage<'a> {
    pub summary: &'a Summary,
    pub from: u64,
}

impl<'a> Command for DeltaPage<'a> {
    type Answer = Text;

    ghost does = { λ c. PageEffect (ShowsDelta c.summary.now c.from) };

    ghost says = { λ c. SaysDelta c.summary.now c.from };

    fn perform<S: Alter + Drop>(self, alloc: Global, conn: Connection<S>) -> CommandEnd<S, Text> {
        delta(alloc, conn, self.summary, self.from)
    }
}

/// Asks for a page of all events: [`scrub`].
#[derive(Drop)]
pub struct ScrubPage {
    pub from: u64,
}

impl Command for ScrubPage {
    type Answer = Text;

    ghost does = { λ c. PageEffect (ShowsPage c.from) };

    ghost says = { λ c. SaysPage c.from };

    fn perform<S: Alter + Drop>(self, alloc: Global, conn: Connection<S>) -> CommandEnd<S, Text> {
        scrub(alloc, conn, self.from)
    }
}

/// Asks for a page of the events behind the first so many: [`arrivals`].
#[derive(Drop)]
pub struct ArrivalPage {
    pub after: u64,
}

impl Command for ArrivalPage {
    type Answer = Text;

    ghost does = { λ c. LookEffect (ShowsArrivals c.after) };

    ghost says = { λ c. SaysArrivals c.after };

    fn perform<S: Alter + Drop>(self, alloc: Global, conn: Connection<S>) -> CommandEnd<S, Text> {
        arrivals(alloc, conn, self.after)
    }
}

/// Asks for all events behind the first so many: [`arrival_pages`].
#[derive(Drop)]
pub struct ArrivalPages {
    pub after: u64,
}

impl Command for ArrivalPages {
    type Answer = EventPages;

    ghost does = { λ c. LookEffect (ShowsArrived c.after) };

    ghost says = { λ c. HasArrived c.after };

    fn perform<S: Alter + Drop>(
        self,
        alloc: Global,
        conn: Connection<S>,
    ) -> CommandEnd<S, EventPages> {
        arrival_pages(alloc, conn, self.after)
    }
}

/// Gives an order a status: [`order`].
#[derive(Drop)]
pub struct GiveOrder<'a> {
    pub source: &'a Text,
    pub is_source_named: bool,
    pub status: Status,
    pub number: u64,
    pub at: &'a Moment,
}

impl<'a> Command for GiveOrder<'a> {
    type Answer = Text;

    ghost may_come = { λ c. ((is_filled c.source.now ≡ true) × (length c.source.now ≤ 1024))
        × ((1 ≤ c.number) × (c.number ≤ max_sequence)) × (length c.at.now ≤ 64) };

    ghost does = { λ c. OrderEffect c.is_source_named c.source.now
        (record { status = c.status; order = c.number; at = c.at.now }) };

    ghost says = { λ c. SaysOrder c.is_source_named c.source.now
        (record { status = c.status; order = c.number; at = c.at.now }) };

    ghost fails = { λ _. IsOfOrder };

    fn perform<S: Alter + Drop>(self, alloc: Global, conn: Connection<S>) -> CommandEnd<S, Text> {
        order(
            alloc,
            conn,
            self.source,
            self.is_source_named,
            self.status,
            self.number,
            self.at,
        )
    }
}

/// Asks what the service is, and makes it where there is none: [`tell_service`].
#[derive(Drop)]
pub struct TellService<'a> {
    pub source: &'a Text,
    pub is_source_named: bool,
    pub base: Option<u64>,
}

impl<'a> Command for TellService<'a> {
    type Answer = Text;

    ghost may_come = { λ c. ((is_filled c.source.now ≡ true) × (length c.source.now ≤ 1024))
        × IfSome c.base (λ n. n ≤ max_sequence) };

    ghost does = { λ c. ServiceEffect c.is_source_named c.source.now c.base };

    ghost says = { λ c. SaysService c.is_source_named c.source.now c.base };

    ghost fails = { λ _. IsNoOrders };

    fn perform<S: Alter + Drop>(self, alloc: Global, conn: Connection<S>) -> CommandEnd<S, Text> {
        tell_service(alloc, conn, self.source, self.is_source_named, self.base)
    }
}

/// Asks what a database is: [`describe`].
#[derive(Drop)]
pub struct Describe<'a> {
    pub name: &'a str,
}

impl<'a> Command for Describe<'a> {
    type Answer = Text;

    ghost does = { λ c. DescribeEffect c.name.now };

    ghost says = { λ c. SaysDatabase c.name.now };

    fn perform<S: Alter + Drop>(self, alloc: Global, conn: Connection<S>) -> CommandEnd<S, Text> {
        describe(alloc, conn, self.name)
    }
}

/// Asks for the next rows of the service's outbox: [`relay`].
#[derive(Drop)]
pub struct RelayPage<'a> {
    pub source: &'a Text,
    pub after: u64,
}

impl<'a> Command for RelayPage<'a> {
    type Answer = Text;

    ghost may_come = { λ c. (is_filled c.source.now ≡ true) × (length c.source.now ≤ 1024) };

    ghost does = { λ c. RelayEffect c.source.now c.after };

    ghost says = { λ c. SaysRows c.after };

    ghost fails = { λ _. IsNoRows };

    fn perform<S: Alter + Drop>(self, alloc: Global, conn: Connection<S>) -> CommandEnd<S, Text> {
        relay(alloc, conn, self.source, self.after)
    }
}

/// Asks for all rows of the service's outbox: [`relay_all`].
#[derive(Drop)]
pub struct RelayAll {
    pub after: u64,
}

impl Command for RelayAll {
    type Answer = Text;

    ghost does = { λ c. RelayAllEffect c.after };

    ghost says = { λ c. SaysAllRows c.after };

    fn perform<S: Alter + Drop>(self, alloc: Global, conn: Connection<S>) -> CommandEnd<S, Text> {
        relay_all(alloc, conn, self.after)
    }
}
