//! The commands over a database.
ghost use Rattle.std.specs.Prelude.{◌≡◌, ◌≤◌, IfErr, IfOk, IfSome, false};
ghost use Rattle.attributes.specs.Sequence.{max_sequence};
ghost use Rattle.databases.specs.Fault.{IsOfOrder, OrOfNamed};
ghost use Rattle.databases.specs.Held.{IsNoOrders, IsNoRows, IsUntold, SaysSummary};
ghost use Rattle.databases.specs.Service.{SaysService};
ghost use Rattle.site_commands.specs.Answers.{AnswersDelta, AnswersOrder, AnswersTake, HasSummary, IsAllowedRequest, IsOfDatabase, RefusesDelta, RefusesTake, SaysArrived, SaysLacking, SaysPages, SaysRelay, status_by_action};
ghost use Rattle.site_commands.specs.Printed.{printed};
ghost use Rattle.outbox.specs.Shown.{IsSource};

use crate::line::Refusal;
use crate::pieces::{Pieces, read_pieces, refusal_at};
use crate::printed::Printed;
use attributes::Text;
use command_words::{Action, Pages, Request};
use coverage::Summary;
use databases::{CommandFault, Databases, Relayed, Status, summary_of};
use event_files::{EventReader, Shelf, UnreadAt, events_of};
use inbox_table::Watch;
use std::alloc::Global;
use std::mem;

/// Adds the events of all files to a database, and answers how many were new. All files are read
/// and judged before the database is opened. The memory of the events is left to the operating
/// system, since the program ends next.
pub fn take<S: Shelf, F: EventReader, D: Databases, W: Watch>(
    alloc: Global,
    shelf: &S,
    reader: &F,
    databases: &D,
    db: &str,
    files: &[Text],
    has_lines: bool,
    watch: &W,
) -> Result<Text, Refusal>
    requires { F.can_read reader.now }
    ensures ok { IfOk result (AnswersTake (S.is_content shelf.now) has_lines files.now) }
    ensures err { IfErr result
        (RefusesTake (S.is_content shelf.now) (S.is_unread shelf.now) has_lines files.now) }
{
    match read_pieces(alloc, shelf, files, has_lines) {
        Ok(Pieces { texts, places }) => match events_of(alloc, reader, texts.as_slice()) {
            Ok(events) => {
                // The texts are as large as the events, and aren't wanted any more.
                drop(texts);
                let answer = databases.take(alloc, db, &events, watch);
                mem::forget(events);
                match answer {
                    Ok(text) => Ok(text),
                    Err(why) => Err(Refusal::Database(why)),
                }
            }
            Err(refused) => Err(refusal_at(has_lines, places.as_slice(), refused)),
        },
        Err(at) => Err(Refusal::Unread(at)),
    }
}

/// The summary that a file holds, perhaps with one LF behind it.
fn summary_in<S: Shelf>(alloc: Global, shelf: &S, file: &str) -> Result<Summary, Refusal>
    ensures ok { IfOk result (HasSummary (S.is_content shelf.now) file.now) }
    ensures err { IfErr result
        (RefusesDelta (S.is_content shelf.now) (S.is_unread shelf.now) file.now) }
{
    match shelf.content(alloc, file) {
        Ok(bytes) => match Summary::of_text(alloc, summary_of(bytes.as_bytes())) {
            Ok(summary) => Ok(summary),
            Err(why) => Err(Refusal::Summary(why)),
        },
        Err(why) => Err(Refusal::Unread(UnreadAt { file: 0, why })),
    }
}

/// The pages that are asked for of the events of a database that the summary in a file lacks. The
/// file is read and judged before the database is opened.
pub fn delta<S: Shelf, D: Databases>(
    alloc: Global,
    shelf: &S,
    databases: &D,
    db: &str,
    pages: Pages,
    file: &str,
) -> Result<Printed, Refusal>
    ensures ok { IfOk result (λ p.
        AnswersDelta (S.is_content shelf.now) pages file.now (printed p)) }
    ensures err { IfErr result
        (RefusesDelta (S.is_content shelf.now) (S.is_unread shelf.now) file.now) }
{
    match summary_in(alloc, shelf, file) {
        Ok(summary) => match lacking(alloc, databases, db, pages, summary) {
            Ok(printed) => Ok(printed),
            Err(why) => Err(Refusal::Database(why)),
        },
        Err(refusal) => Err(refusal),
    }
}

/// The pages that are asked for of the events of a database that a summary lacks.
fn lacking<D: Databases>(
    alloc: Global,
    databases: &D,
    db: &str,
    pages: Pages,
    summary: Summary,
) -> Result<Printed, CommandFault>
    ensures ok { IfOk result (λ p. SaysLacking summary pages (printed p)) }
    ensures err { IfErr result (OrOfNamed IsUntold) }
{
    match pages {
        Pages::Behind(passed) => match databases.delta(alloc, db, &summary, passed) {
            Ok(text) => Ok(Printed::Line(text)),
            Err(why) => Err(why),
        },
        Pages::All => match databases.delta_pages(alloc, db, summary) {
            Ok(events) => Ok(Printed::Pages(events)),
            Err(why) => Err(why),
        },
    }
}

/// The pages that are asked for of the events of a database, in key order.
pub fn scrub<D: Databases>(
    alloc: Global,
    databases: &D,
    db: &str,
    pages: Pages,
) -> Result<Printed, Refusal>
    ensures ok { IfOk result (λ p. SaysPages pages (printed p)) }
    ensures err { IfErr result (IsOfDatabase IsUntold) }
{
    match pages {
        Pages::Behind(passed) => match databases.scrub(alloc, db, passed) {
            Ok(text) => Ok(Printed::Line(text)),
            Err(why) => Err(Refusal::Database(why)),
        },
        Pages::All => match databases.scrub_pages(alloc, db) {
            Ok(events) => Ok(Printed::Pages(events)),
            Err(why) => Err(Refusal::Database(why)),
        },
    }
}

/// The events of a database behind the first so many, in the order in which they came: the next page
/// of at most 100, or all pages, each as a line.
pub fn arrivals<D: Databases>(
    alloc: Global,
    databases: &D,
    db: &str,
    after: u64,
    is_all: bool,
) -> Result<Printed, Refusal>
    ensures ok { IfOk result (λ p. SaysArrived after is_all (printed p)) }
    ensures err { IfErr result (IsOfDatabase IsUntold) }
{
    if is_all {
        return match databases.arrival_pages(alloc, db, after) {
            Ok(events) => Ok(Printed::Pages(events)),
            Err(why) => Err(Refusal::Database(why)),
        };
    }
    match databases.arrivals(alloc, db, after) {
        Ok(text) => Ok(Printed::Line(text)),
        Err(why) => Err(Refusal::Database(why)),
    }
}

/// Which events a database has, as a summary.
pub fn summary<D: Databases>(alloc: Global, databases: &D, db: &str) -> Result<Text, Refusal>
    ensures ok { IfOk result SaysSummary }
    ensures err { IfErr result (IsOfDatabase IsUntold) }
{
    match databases.summary(alloc, db) {
        Ok(text) => Ok(text),
        Err(why) => Err(Refusal::Database(why)),
    }
}

/// The status that an order gets by what the command line has done with it.
fn status_of(action: Action) -> Status
    ensures { result ≡ status_by_action action }
{
    match action {
        Action::Place => Status::Placed,
        Action::Ship => Status::Shipped,
        Action::Cancel => Status::Cancelled,
    }
}

/// Makes the service of a database where there is none, and answers which one is there.
pub fn service<D: Databases>(
    alloc: Global,
    databases: &D,
    db: &str,
    source: &Text,
    is_source_named: bool,
    base: Option<u64>,
) -> Result<Text, Refusal>
    requires source { IsSource source.now }
    requires base { IfSome base (λ n. n ≤ max_sequence) }
    ensures ok { IfOk result (SaysService is_source_named source.now base) }
    ensures err { IfErr result (IsOfDatabase IsNoOrders) }
{
    match databases.service(alloc, db, source, is_source_named, base) {
        Ok(text) => Ok(text),
        Err(why) => Err(Refusal::Database(why)),
    }
}

/// Places, ships or cancels an order, and answers its event.
pub fn order<D: Databases>(alloc: Global, databases: &D, request: &Request) -> Result<Text, Refusal>
    requires { IsAllowedRequest request.now }
    ensures ok { IfOk result (AnswersOrder request.now) }
    ensures err { IfErr result (IsOfDatabase IsOfOrder) }
{
    let status = status_of(request.action);
    match databases.order(
        alloc,
        request.db.as_str(),
        &request.source,
        request.is_source_named,
        status,
        request.order,
        &request.at,
    ) {
        Ok(text) => Ok(text),
        Err(why) => Err(Refusal::Database(why)),
    }
}

/// The rows of a database's outbox with a greater number: the next page of at most 100, or all
/// pages, each as a line.
pub fn relay<D: Databases>(
    alloc: Global,
    databases: &D,
    db: &str,
    after: u64,
    is_all: bool,
) -> Result<Printed, Refusal>
    ensures ok { IfOk result (λ p. SaysRelay after is_all (printed p)) }
    ensures err { IfErr result (IsOfDatabase IsNoRows) }
{
    if is_all {
        return match databases.relay_all(alloc, db, after) {
            Ok(text) => Ok(Printed::Line(text)),
            Err(why) => Err(Refusal::Database(why)),
        };
    }
    next_rows(alloc, databases, db, after)
}

/// The rows of a database's outbox with a greater number, at most 100.
fn next_rows<D: Databases>(
    alloc: Global,
    databases: &D,
    db: &str,
    after: u64,
) -> Result<Printed, Refusal>
    ensures ok { IfOk result (λ p. SaysRelay after false (printed p)) }
    ensures err { IfErr result (IsOfDatabase IsNoRows) }
{
    let Ok(source) = Text::of(alloc, "/orders") else {
        return Err(Refusal::Database(CommandFault::OutOfMemory));
    };
    match databases.relay(alloc, db, &source, after) {
        Ok(Relayed { text, is_made }) => {
            if is_made {
                Ok(Printed::Founded(text))
            } else {
                Ok(Printed::Line(text))
            }
        }
        Err(why) => Err(Refusal::Database(why)),
    }
}
