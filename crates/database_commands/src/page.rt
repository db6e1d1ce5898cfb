//! Pages of the events that a database holds.
ghost use Rattle.std.specs.Prelude.{◌≡◌, [], drop, false, true, IfErr, IfOk, IsErrOf, IsOk};
ghost use Rattle.sqlite.specs.Held.{state};
ghost use Rattle.sqlite.specs.State.{HasCleanDisk};
ghost use Rattle.inbox.specs.KeyOrder.{key_cmp};
ghost use Rattle.inbox.specs.Ordered.{append_new};
ghost use Rattle.inbox.specs.Sets.{set_of};
ghost use Rattle.site.specs.Delta.{delta};
ghost use Rattle.site.specs.Page.{max_page, page};
ghost use Rattle.database_layout.specs.Layout.{has_inbox};
ghost use Rattle.inbox_table.specs.Calls.{has_both};
ghost use Rattle.inbox_table.specs.Rows.{AreNumbered};
ghost use Rattle.outbox.specs.Call.{Leaves};
ghost use Rattle.database_commands.specs.Effect.{LookEffect, PageEffect};
ghost use Rattle.databases.specs.declared.fault.CommandFault.TheVariants.{Foreign};
ghost use Rattle.databases.specs.Held.{HasArrived, HasDelta, HasEvents, IsNoInbox, IsUntold, SaysArrivals, SaysDelta, SaysPage, SaysSummary, SaysSummaryOf, ShowsArrivals, ShowsArrived, ShowsDelta, ShowsEvents, ShowsLacking, ShowsPage, ShowsSet, ShowsSummary};
ghost use Rattle.databases.specs.Print.{batch_line};
ghost use Rattle.database_commands.specs.steps.Made.{ContentsEffect, IsMadeOf};

use crate::command::CommandEnd;
use attributes::{Batch, Text};
use coverage::Summary;
use database_layout::has_inbox;
use databases::{CommandFault, EventPages, batch_line, load_table, of_table, page_behind};
use inbox_table::{Inspected, Loaded, NotMade, inspect};
use site::{MAX_PAGE, Site};
use sqlite::{Alter, Connection};
use std::alloc::{AllocError, Global};

/// What a command's database holds; the inbox's table is made where there is none.
fn own_contents<S: Alter + Drop>(alloc: Global, conn: Connection<S>) -> CommandEnd<S, Batch>
    ensures { ContentsEffect result.outcome (state S.Store conn) (state S.Store result.conn) }
{
    match load_table(alloc, conn) {
        Ok(loaded) => {
            let Loaded { table, events } = loaded;
            let conn = table.into_connection();
            CommandEnd {
                conn,
                outcome: Ok(events),
            }
        }
        Err(refused) => {
            let NotMade { conn, fault } = refused;
            CommandEnd {
                conn,
                outcome: Err(of_table(fault)),
            }
        }
    }
}

/// A database's batch has a type that keeps that each is an event with a number: it is told here.
fn tell_numbers(events: &Batch)
    ensures { AreNumbered events.now }
{
    for place in 0..events.len() {
        let event = events.at(place);
        let _text = event.event().text();
        let _number = event.number();
    }
}

/// The events that a database holds. Nothing is written: where there is no inbox, there are none,
/// and one of version 1 stays what it is. Time in proportion to all events.
pub fn held<S: Alter + Drop>(alloc: Global, conn: Connection<S>) -> CommandEnd<S, Batch>
    ensures events { HasCleanDisk (state S.Store result.conn) → IfOk result.outcome
        (ShowsEvents (state S.Store conn).now) }
    ensures numbered { IfOk result.outcome AreNumbered }
    ensures left { Leaves (state S.Store conn) (state S.Store result.conn) }
    ensures without { has_inbox (state S.Store conn).now.schema ≡ false
        → ((state S.Store result.conn).now ≡ (state S.Store conn).now)
        × IfOk result.outcome (λ es. es ≡ []) × IsOk result.outcome }
    ensures foreign { IfErr result.outcome (λ f. f ≡ Foreign
        → HasCleanDisk (state S.Store result.conn) → IsNoInbox (state S.Store conn).now) }
    ensures both { has_both (state S.Store conn).now.schema ≡ true
        → IsErrOf result.outcome Foreign }
    ensures fault { IfErr result.outcome IsUntold }
{
    let mut conn = conn;
    if !has_inbox(conn.schema()) {
        return CommandEnd {
            conn,
            outcome: Ok(Batch::empty(alloc)),
        };
    }
    match inspect(alloc, &mut conn) {
        Ok(found) => {
            let Inspected { version: _, events } = found;
            tell_numbers(&events);
            CommandEnd {
                conn,
                outcome: Ok(events),
            }
        }
        Err(fault) => CommandEnd {
            conn,
            outcome: Err(of_table(fault)),
        },
    }
}

/// Which events a database holds, as the line of its summary. Nothing is written, also where it is
/// refused. Time in proportion to all events and their texts.
pub fn summary<S: Alter + Drop>(alloc: Global, conn: Connection<S>) -> CommandEnd<S, Text>
    ensures did { LookEffect ShowsSummary result.outcome (state S.Store conn)
        (state S.Store result.conn) }
    ensures line { IfOk result.outcome SaysSummary }
{
    let CommandEnd {
        conn,
        outcome: events,
    } = held(alloc, conn);
    let outcome = summary_line(alloc, events);
    CommandEnd { conn, outcome }
}

/// The page of the events of a database behind the first so many, at most 100, in the order in which
/// they came. What came as the n-th is the n-th for ever. Nothing is written, also where it is
/// refused. Time in proportion to all events.
pub fn arrivals<S: Alter + Drop>(
    alloc: Global,
    conn: Connection<S>,
    after: u64,
) -> CommandEnd<S, Text>
    ensures did { LookEffect (ShowsArrivals after) result.outcome (state S.Store conn)
        (state S.Store result.conn) }
    ensures line { IfOk result.outcome (SaysArrivals after) }
{
    let CommandEnd {
        conn,
        outcome: events,
    } = held(alloc, conn);
    let outcome = arrivals_line(alloc, events, after);
    CommandEnd { conn, outcome }
}

/// The events of a database behind the first so many, in the order in which they came, to be printed
/// page after page. Nothing is written, also where it is refused. Time in proportion to all events.
pub fn arrival_pages<S: Alter + Drop>(
    alloc: Global,
    conn: Connection<S>,
    after: u64,
) -> CommandEnd<S, EventPages>
    ensures did { LookEffect (ShowsArrived after) result.outcome (state S.Store conn)
        (state S.Store result.conn) }
    ensures some { IfOk result.outcome (HasArrived after) }
{
    let CommandEnd {
        conn,
        outcome: events,
    } = held(alloc, conn);
    let outcome = arrived_pages(alloc, events, after);
    CommandEnd { conn, outcome }
}

/// All events of a database in key order, to be printed page after page. Nothing is written, also
/// where it is refused. Time in proportion to all events.
pub fn scrub_pages<S: Alter + Drop>(alloc: Global, conn: Connection<S>) -> CommandEnd<S, EventPages>
    ensures did { LookEffect ShowsSet result.outcome (state S.Store conn)
        (state S.Store result.conn) }
    ensures some { IfOk result.outcome HasEvents }
{
    let CommandEnd {
        conn,
        outcome: events,
    } = held(alloc, conn);
    let outcome = all_pages(alloc, events);
    CommandEnd { conn, outcome }
}

/// What a summary lacks of all events of a database, in key order, to be printed page after page.
/// Nothing is written, also where it is refused. Time in proportion to all events.
pub fn delta_pages<S: Alter + Drop>(
    alloc: Global,
    conn: Connection<S>,
    summary: Summary,
) -> CommandEnd<S, EventPages>
    ensures did { LookEffect (ShowsLacking summary) result.outcome (state S.Store conn)
        (state S.Store result.conn) }
    ensures some { IfOk result.outcome (HasDelta summary) }
{
    let CommandEnd {
        conn,
        outcome: events,
    } = held(alloc, conn);
    let outcome = lacking_pages(alloc, events, summary);
    CommandEnd { conn, outcome }
}

/// The page of what a summary lacks of all events of a database, at most 100 from a place on. The
/// table is made where there is none, and the events stay, also where it is refused, as does a
/// service beside them. Time in proportion to all events.
pub fn delta<S: Alter + Drop>(
    alloc: Global,
    conn: Connection<S>,
    summary: &Summary,
    from: u64,
) -> CommandEnd<S, Text>
    ensures did { PageEffect (ShowsDelta summary.now from) result.outcome (state S.Store conn)
        (state S.Store result.conn) }
    ensures line { IfOk result.outcome (SaysDelta summary.now from) }
{
    let CommandEnd {
        conn,
        outcome: events,
    } = own_contents(alloc, conn);
    let outcome = delta_line(alloc, events, summary, from);
    CommandEnd { conn, outcome }
}

/// The page of all events of a database in key order, at most 100 from a place on. The table is
/// made where there is none, and the events stay, also where it is refused, as does a service
/// beside them. Time in proportion to all events.
pub fn scrub<S: Alter + Drop>(alloc: Global, conn: Connection<S>, from: u64) -> CommandEnd<S, Text>
    ensures did { PageEffect (ShowsPage from) result.outcome (state S.Store conn)
        (state S.Store result.conn) }
    ensures line { IfOk result.outcome (SaysPage from) }
{
    let CommandEnd {
        conn,
        outcome: events,
    } = own_contents(alloc, conn);
    let outcome = page_line(alloc, events, from);
    CommandEnd { conn, outcome }
}

/// The site of some events of a database that a command opened.
pub(crate) fn site_over(alloc: Global, mut events: Batch) -> Result<Site, AllocError>
    ensures { IfOk result (λ site. site ≡ append_new key_cmp [] events) }
{
    let mut site = Site::empty(alloc);
    match site.take_batch(&mut events) {
        Ok(_) => Ok(site),
        Err(_) => Err(AllocError),
    }
}

/// The site of a database's events that were to be had.
fn site_of(alloc: Global, events: Result<Batch, CommandFault>) -> Result<Site, CommandFault>
    ensures { IsMadeOf events (λ es site. site ≡ append_new key_cmp [] es) result }
{
    Ok(site_over(alloc, events?)?)
}

/// The line of the summary of the site of a database that a command asks.
fn summary_of(site: &mut Site) -> Result<Text, AllocError>
    ensures { IfOk result (SaysSummaryOf (set_of site.old)) }
{
    let mut line = site.summary()?.to_text()?.into_string();
    line.push_str("\n")?;
    Ok(Text::from_string(line))
}

/// The line of the summary of the events of a database that a command asks.
fn summary_line(alloc: Global, events: Result<Batch, CommandFault>) -> Result<Text, CommandFault>
    ensures { IsMadeOf events (λ es. SaysSummaryOf (set_of (append_new key_cmp [] es))) result }
{
    let mut site = site_of(alloc, events)?;
    Ok(summary_of(&mut site)?)
}

/// The line of a page of a database's events behind the first so many, for a command.
fn arrivals_of(alloc: Global, events: &Batch, after: u64) -> Result<Text, AllocError>
    ensures { IfOk result (λ text. text ≡ batch_line (page events.now after max_page)) }
{
    let page = page_behind(alloc, events, after)?;
    batch_line(alloc, &page)
}

/// The line of a page of a database's events behind the first so many that came, for a command.
fn arrivals_line(
    alloc: Global,
    events: Result<Batch, CommandFault>,
    after: u64,
) -> Result<Text, CommandFault>
    ensures { IsMadeOf events (λ es text. text ≡ batch_line (page es after max_page)) result }
{
    let events = events?;
    Ok(arrivals_of(alloc, &events, after)?)
}

/// All of a database's events behind the first so many, for a command to print.
fn arrived_pages(
    alloc: Global,
    events: Result<Batch, CommandFault>,
    after: u64,
) -> Result<EventPages, CommandFault>
    ensures { IsMadeOf events (λ es pages. pages ≡ drop after es) result }
{
    Ok(EventPages::of_arrivals(alloc, events?, after))
}

/// All of a database's events, for a command to print.
fn all_pages(alloc: Global, events: Result<Batch, CommandFault>) -> Result<EventPages, CommandFault>
    ensures { IsMadeOf events (λ es pages. pages ≡ set_of (append_new key_cmp [] es)) result }
{
    Ok(EventPages::of_all(alloc, site_of(alloc, events)?))
}

/// What a summary lacks of a database's events, for a command to print.
fn lacking_pages(
    alloc: Global,
    events: Result<Batch, CommandFault>,
    summary: Summary,
) -> Result<EventPages, CommandFault>
    ensures { IsMadeOf events (λ es pages.
        pages ≡ delta (set_of (append_new key_cmp [] es)) summary) result }
{
    let site = site_of(alloc, events)?;
    Ok(EventPages::of_delta(alloc, site, summary)?)
}

/// The line of a page of what a summary lacks of a database's site, for a command.
fn delta_of(alloc: Global, site: &Site, summary: &Summary, from: u64) -> Result<Text, AllocError>
    ensures { IfOk result (λ text.
        text ≡ batch_line (page (delta (set_of site.now) summary.now) from max_page)) }
{
    let page = site.delta_page(summary, from, MAX_PAGE)?;
    batch_line(alloc, &page)
}

/// The line of a page of what a summary lacks of a database's events, for a command.
fn delta_line(
    alloc: Global,
    events: Result<Batch, CommandFault>,
    summary: &Summary,
    from: u64,
) -> Result<Text, CommandFault>
    ensures { IsMadeOf events (λ es text. text ≡ batch_line
        (page (delta (set_of (append_new key_cmp [] es)) summary.now) from max_page)) result }
{
    let site = site_of(alloc, events)?;
    Ok(delta_of(alloc, &site, summary, from)?)
}

/// The line of a page of a database's site, for a command.
fn page_of(alloc: Global, site: &Site, from: u64) -> Result<Text, AllocError>
    ensures { IfOk result (λ text. text ≡ batch_line (page (set_of site.now) from max_page)) }
{
    let page = site.page(from, MAX_PAGE)?;
    batch_line(alloc, &page)
}

/// The line of a page of a database's events, for a command.
fn page_line(
    alloc: Global,
    events: Result<Batch, CommandFault>,
    from: u64,
) -> Result<Text, CommandFault>
    ensures { IsMadeOf events (λ es text.
        text ≡ batch_line (page (set_of (append_new key_cmp [] es)) from max_page)) result }
{
    let site = site_of(alloc, events)?;
    Ok(page_of(alloc, &site, from)?)
}
