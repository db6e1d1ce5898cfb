//! What each call does to the outbox over a file that lies in the room.

ghost use Rattle.std.specs.Prelude.{◌≡◌, ◌≢◌, ◌<◌, ◌↔◌, ◌⊎◌, suc, List, [], length, IfErr, IfNone, IfOk, IfSome, IsFalse, IsTrue};
ghost use Rattle.sqlite.specs.Held.{state};
ghost use Rattle.sqlite.specs.State.{HasCleanDisk};
ghost use Rattle.attributes.specs.Event.{EventValue};
ghost use Rattle.attributes.specs.Sequence.{max_sequence};
ghost use Rattle.attributes.specs.declared.fault.Fault.TheVariants as time;
ghost use Rattle.outbox.specs.Call.{CommandCall, CommandEffect, IsServiceReading, LeavesAsBefore};
ghost use Rattle.outbox.specs.Row.{row_event};
ghost use Rattle.outbox.specs.Shown.{IsAllowed, IsSameService};
ghost use Rattle.outbox.specs.declared.fault.OutboxFault.TheVariants.{OutOfMemory, Store};
ghost use Rattle.durable_site.specs.Files.{Closes};
ghost use Rattle.library_calls.specs.Calls.{IsPageLine, IsWant};
ghost use Rattle.library_calls.specs.Outboxes.{Carries, Commands, FindsServiceOrWhy, HasReadOutbox, IsAction, IsGiven, IsNextRows, IsTimeInBytes, LetsGoOutbox, NamesCommand, NamesNone, OpenedOutbox, OrderedOutbox, Serves, ShownOutbox, ShowsRows, TellsService, WantsTime, action_number, event_line, outbox_status, source_if_made};
ghost use Rattle.outbox.specs.Order.{IsOrder, IsShortTime};

use crate::calls::{Answered, DONE, MAX_PAGE, OUT_OF_MEMORY, Piece, copied, page_line};
use crate::file_calls::{NOT_OPEN, open_status};
use crate::outbox_held::{FileService, OutboxHeld};
use attributes::{Fault, MAX_SEQUENCE, Moment, Sequenced, Text};
use durable_site::{FileFrom, GivenFiles, Unknown, close, connect};
use outbox::{NotMade, OutboxFault, Service, Status};
use sqlite::{Alter, Connection};
use sqlite_store::FileStore;
use std::alloc::{AllocError, Global};

/// What a call on an outbox answers: a status, and counts.
#[repr(C)]
#[derive(Drop)]
pub struct OutboxReply {
    /// 0: done. 1: out of memory. 11: no service is open. 15 to 19: what an opening or the
    /// database refuses, as of a site over a file. 21: the order is there. 22: it isn't. 23: it
    /// was shipped or cancelled. 24: no number is left. 25: the time isn't one. 26: the order's
    /// number isn't one. 27: the source or the base isn't one. 28: the service has another source.
    /// 29: no such action.
    pub status: u32,
    /// The number of the row that a command wrote, else 0.
    pub number: u64,
    /// How many events the text has, where it is that of rows; else 0.
    pub listed: u64,
    /// The number before that of the service's first row; 0 where none is open.
    pub base: u64,
    /// The number of its last row, the base where it has none; 0 where none is open.
    pub last: u64,
    /// How many orders it has; 0 where none is open.
    pub orders: u64,
    /// How many bytes the text of the last answer has.
    pub length: u64,
}

/// The most bytes of the time of a command.
const MAX_TIME: usize = 64;

/// The most bytes of a service's source.
const MAX_SOURCE: usize = 1_024;

const NO_TIME: u32 = 25;

const NO_ORDER_NUMBER: u32 = 26;

const NO_SOURCE: u32 = 27;

const ANOTHER_SOURCE: u32 = 28;

const NO_SUCH_ACTION: u32 = 29;

/// The status of libjumbetai's call that a refusal of a service is.
fn outbox_status(fault: OutboxFault) -> u32
    ensures { result ≡ outbox_status fault }
{
    match fault {
        OutboxFault::OutOfMemory => OUT_OF_MEMORY,
        OutboxFault::Store => 18,
        OutboxFault::Foreign => 19,
        OutboxFault::OrderExists => 21,
        OutboxFault::NoOrder => 22,
        OutboxFault::WrongState => 23,
        OutboxFault::Full => 24,
    }
}

/// Sets a reply to libjumbetai's caller that tells of no service.
fn tell(status: u32, number: u64, listed: u64, length: u64, reply: &mut OutboxReply)
    ensures { reply.new ≡ record {
      status = status;
      number = number;
      listed = listed;
      base = 0;
      last = 0;
      orders = 0;
      length = length;
    } }
{
    reply.status = status;
    reply.number = number;
    reply.listed = listed;
    reply.base = 0;
    reply.last = 0;
    reply.orders = 0;
    reply.length = length;
}

/// The number of the last row of libjumbetai's service, or its base.
fn last_of<S: Alter>(service: &Service<S>) -> u64
    ensures { result ≡ service.now.last }
{
    service.base() + service.rows()
}

/// Tells of a service in a reply of libjumbetai, beside what that tells of the call.
fn tell_service<S: Alter>(service: &Service<S>, reply: &mut OutboxReply)
    ensures tells { TellsService S.Store service.now reply.new }
    ensures rest { (reply.new.status ≡ reply.old.status) × (reply.new.number ≡ reply.old.number)
        × (reply.new.listed ≡ reply.old.listed) × (reply.new.length ≡ reply.old.length) }
{
    reply.base = service.base();
    reply.last = last_of(service);
    reply.orders = service.orders();
}

/// The source of a service that libjumbetai makes where none is given.
fn own_source(alloc: Global) -> Result<Text, AllocError>
    ensures { IfOk result (λ text. text ≡ source_if_made 0 []) }
{
    Text::of(alloc, "/orders")
}

/// A source of a service that libjumbetai's caller gave.
fn named_source(alloc: Global, source: &[u8]) -> Result<Text, u32>
    ensures ok { IfOk result (λ text. (text ≡ source.now) × IsAllowed text 0) }
    ensures err { IfErr result (λ status. IsWant status
        ⊎ ((status ≡ 27) × (IsAllowed source.now 0 → ⊥))) }
{
    if source.len() > MAX_SOURCE {
        return Err(NO_SOURCE);
    }
    let Ok(words) = str::from_utf8(source) else {
        return Err(NO_SOURCE);
    };
    let Ok(text) = Text::of(alloc, words) else {
        return Err(OUT_OF_MEMORY);
    };
    if text.is_source() {
        Ok(text)
    } else {
        Err(NO_SOURCE)
    }
}

/// The source of a service that libjumbetai makes, where the base may be one.
fn source_given(alloc: Global, has_source: u32, source: &[u8], base: u64) -> Result<Text, u32>
    ensures ok { IfOk result (λ text. (text ≡ source_if_made has_source source.now)
        × IsAllowed text base) }
    ensures err { IfErr result (λ status. IsWant status
        ⊎ ((status ≡ 27) × (IsGiven has_source source.now base → ⊥))) }
{
    if base > MAX_SEQUENCE {
        return Err(NO_SOURCE);
    }
    if has_source != 0 {
        return named_source(alloc, source);
    }
    match own_source(alloc) {
        Ok(text) => Ok(text),
        Err(_) => Err(OUT_OF_MEMORY),
    }
}

/// Whether the texts are the same source of libjumbetai's service.
fn is_same(one: &Text, other: &Text) -> bool
    ensures { IsTrue result ↔ (one.now ≡ other.now) }
{
    one.as_str() == other.as_str()
}

/// Whether a service with this source of its own is the one that libjumbetai's caller asked for.
fn is_meant(has_source: u32, own: &Text, source: &Text) -> bool
    ensures meant { IsTrue result → has_source ≢ 0 → own.now ≡ source.now }
    ensures another { IsFalse result → (has_source ≢ 0) × (own.now ≢ source.now) }
{
    has_source == 0 || is_same(own, source)
}

/// A connection in which no service is served, and why.
#[derive(Drop)]
struct Unserved<S: Alter> {
    conn: Connection<S>,
    status: u32,
}

/// The service of a database that libjumbetai opens, made where there is none.
fn service_of<S: Alter + Drop>(
    alloc: Global,
    conn: Connection<S>,
    has_source: u32,
    source: &Text,
    base: u64,
) -> Result<Service<S>, Unserved<S>>
    requires { IsAllowed source.now base }
    ensures { FindsServiceOrWhy S.Store has_source source.now base (state S.Store conn) result }
{
    let service = match Service::open(alloc, conn, source, base) {
        Ok(service) => service,
        Err(refused) => {
            let NotMade { conn, fault } = refused;
            let status = outbox_status(fault);
            return Err(Unserved { conn, status });
        }
    };
    if is_meant(has_source, service.source(), source) {
        return Ok(service);
    }
    Err(Unserved {
        conn: service.into_connection(),
        status: ANOTHER_SOURCE,
    })
}

/// Why libjumbetai serves no service, whose files are closed as they are.
fn closed(unserved: Unserved<FileStore<FileFrom<Unknown>>>) -> u32
    ensures status { result ≡ unserved.status }
    ensures closes { Closes unserved.conn }
{
    let Unserved { conn, status } = unserved;
    close(conn);
    status
}

/// The service in the caller's files, made where there is none, or the status of the call.
fn served(
    alloc: Global,
    given: GivenFiles,
    has_source: u32,
    source: &[u8],
    base: u64,
) -> Result<FileService, u32>
    ensures { Serves has_source source.now base result }
{
    let text = match source_given(alloc, has_source, source, base) {
        Ok(text) => text,
        Err(status) => return Err(status),
    };
    let conn = match connect(alloc, given, Unknown) {
        Ok(conn) => conn,
        Err(fault) => return Err(open_status(fault)),
    };
    match service_of(alloc, conn, has_source, &text, base) {
        Ok(service) => Ok(service),
        Err(unserved) => Err(closed(unserved)),
    }
}

/// Opens an outbox over the files that libjumbetai's caller gave.
pub fn outbox_open(
    alloc: Global,
    given: GivenFiles,
    has_source: u32,
    source: &[u8],
    base: u64,
    reply: &mut OutboxReply,
) -> OutboxHeld
    ensures { OpenedOutbox has_source source.now base result reply.new }
{
    let text = Text::from_string(String::new(alloc));
    match served(alloc, given, has_source, source, base) {
        Ok(service) => {
            tell(DONE, 0, 0, 0, reply);
            tell_service(&service, reply);
            OutboxHeld {
                service: Some(service),
                text,
                alloc,
            }
        }
        Err(status) => {
            tell(status, 0, 0, 0, reply);
            OutboxHeld {
                service: None,
                text,
                alloc,
            }
        }
    }
}

/// A command, as the arguments name it.
#[derive(Drop)]
struct OrderCommand {
    status: Status,
    order: u64,
    at: Moment,
}

/// The command on an order of a number that libjumbetai's caller gives, from 1.
fn action_at(number: u32) -> Option<Status>
    ensures some { IfSome result (λ status. number ≡ action_number status) }
    ensures none { IfNone result (IsAction number → ⊥) }
{
    match number {
        1 => Some(Status::Placed),
        2 => Some(Status::Shipped),
        3 => Some(Status::Cancelled),
        _ => None,
    }
}

/// The status of libjumbetai's call that a refusal of a time is.
fn time_status(fault: Fault) -> u32
    ensures { (IsWant result × (fault ≡ time.OutOfMemory))
        ⊎ ((result ≡ 25) × (fault ≢ time.OutOfMemory)) }
{
    match fault {
        Fault::OutOfMemory => OUT_OF_MEMORY,
        _ => NO_TIME,
    }
}

/// The time of a command that the bytes are, or the status of libjumbetai's call.
fn moment_of(alloc: Global, bytes: &[u8]) -> Result<Moment, u32>
    ensures ok { IfOk result (λ at. (at ≡ bytes.now) × IsTimeInBytes bytes.now) }
    ensures err { IfErr result (λ status. (IsWant status × IsTimeInBytes bytes.now)
        ⊎ ((status ≡ 25) × (IsTimeInBytes bytes.now → ⊥))) }
{
    if bytes.len() > MAX_TIME {
        return Err(NO_TIME);
    }
    let Ok(text) = str::from_utf8(bytes) else {
        return Err(NO_TIME);
    };
    match Moment::of_text(alloc, text) {
        Ok(at) => Ok(at),
        Err(fault) => Err(time_status(fault)),
    }
}

/// The command that the arguments name, or the status of libjumbetai's call.
fn command_of(alloc: Global, action: u32, order: u64, time: &[u8]) -> Result<OrderCommand, u32>
    ensures ok { IfOk result (λ c. NamesCommand action order time.now
        (record { status = c.status; order = c.order; at = c.at })) }
    ensures err { IfErr result (λ status. WantsTime action order time.now status
        ⊎ NamesNone action order time.now status) }
{
    let Some(status) = action_at(action) else {
        return Err(NO_SUCH_ACTION);
    };
    if order == 0 || order > MAX_SEQUENCE {
        return Err(NO_ORDER_NUMBER);
    }
    match moment_of(alloc, time) {
        Ok(at) => Ok(OrderCommand { status, order, at }),
        Err(status) => Err(status),
    }
}

/// Gives libjumbetai's service a command, and answers the event of its row.
fn command<S: Alter>(
    service: &mut Service<S>,
    status: Status,
    order: u64,
    at: &Moment,
) -> Result<Sequenced, OutboxFault>
    requires order { IsOrder order }
    requires short { IsShortTime at.now }
    ensures call { CommandCall (record { status = status; order = order; at = at.now })
        service.old service.new result }
    ensures effect { HasCleanDisk (state S.Store service.new.conn) → CommandEffect
        (record { status = status; order = order; at = at.now }) service.old
        (state S.Store service.old.conn) (state S.Store service.new.conn) result }
{
    match status {
        Status::Placed => service.place(order, at),
        Status::Shipped => service.ship(order, at),
        Status::Cancelled => service.cancel(order, at),
    }
}

/// The line of the event that the command of libjumbetai's caller has where it is accepted.
fn next_line<S: Alter>(
    alloc: Global,
    service: &Service<S>,
    status: Status,
    order: u64,
    at: &Moment,
) -> Result<Text, OutboxFault>
    ensures next { service.now.last < max_sequence → IfOk result (λ text.
        text ≡ event_line (row_event service.now.source (suc service.now.last)
        (record { status = status; order = order; at = at.now }))) }
    ensures fault { IfErr result (λ f. (f ≡ OutOfMemory) ⊎ (f ≡ Store)) }
{
    match service.next_event(status, order, at) {
        Ok(event) => Ok(event_line(alloc, &event)?),
        Err(fault) => Err(fault),
    }
}

/// An event of libjumbetai's outbox as a line.
fn event_line(alloc: Global, event: &Sequenced) -> Result<Text, AllocError>
    ensures { IfOk result (λ text. text ≡ event_line event.now) }
{
    let mut line = String::new(alloc);
    line.push_str(event.event().text())?;
    line.push_str("\n")?;
    Ok(Text::from_string(line))
}

/// Tells libjumbetai's caller of a refusal of its outbox; the text of before stays.
fn refuse(status: u32, text: &Text, reply: &mut OutboxReply)
    ensures replies { (reply.new.status ≡ status) × (reply.new.number ≡ 0)
        × (reply.new.listed ≡ 0) × (reply.new.length ≡ length text.now) }
    ensures none { (reply.new.base ≡ 0) × (reply.new.last ≡ 0) × (reply.new.orders ≡ 0) }
{
    tell(status, 0, 0, text.as_str().len() as u64, reply);
}

/// Gives libjumbetai's service a command, and keeps the line of its event as the text.
fn carry_out<S: Alter>(
    service: &mut Service<S>,
    alloc: Global,
    text: &mut Text,
    asked: &OrderCommand,
    reply: &mut OutboxReply,
)
    requires order { IsOrder asked.now.order }
    requires short { IsShortTime asked.now.at }
    ensures did { Carries S.Store (record {
      status = asked.now.status;
      order = asked.now.order;
      at = asked.now.at;
    }) service.old service.new text.old text.new reply.new.status reply.new.number }
    ensures listed { reply.new.listed ≡ 0 }
    ensures length { reply.new.length ≡ length text.new }
{
    // The line is made first, so that no memory is wanted once the command is written.
    match next_line(alloc, service, asked.status, asked.order, &asked.at) {
        Ok(line) => match command(service, asked.status, asked.order, &asked.at) {
            Ok(_) => {
                tell(DONE, last_of(service), 0, line.as_str().len() as u64, reply);
                *text = line;
            }
            Err(fault) => refuse(outbox_status(fault), text, reply),
        },
        Err(fault) => refuse(outbox_status(fault), text, reply),
    }
}

/// Gives libjumbetai's service the command that the arguments name, and keeps its event's line.
fn ordered<S: Alter>(
    service: &mut Service<S>,
    alloc: Global,
    text: &mut Text,
    action: u32,
    order: u64,
    time: &[u8],
    reply: &mut OutboxReply,
)
    ensures did { Commands S.Store action order time.now service.old service.new
        text.old text.new reply.new.status reply.new.number }
    ensures listed { reply.new.listed ≡ 0 }
    ensures length { reply.new.length ≡ length text.new }
{
    match command_of(alloc, action, order, time) {
        Ok(asked) => carry_out(service, alloc, text, &asked, reply),
        Err(status) => refuse(status, text, reply),
    }
}

/// Gives a service the arguments' command, keeps its event's line, and tells of the service.
fn order_and_tell<S: Alter>(
    service: &mut Service<S>,
    alloc: Global,
    text: &mut Text,
    action: u32,
    order: u64,
    time: &[u8],
    reply: &mut OutboxReply,
)
    ensures did { Commands S.Store action order time.now service.old service.new
        text.old text.new reply.new.status reply.new.number }
    ensures tells { TellsService S.Store service.new reply.new }
    ensures listed { reply.new.listed ≡ 0 }
    ensures length { reply.new.length ≡ length text.new }
{
    ordered(service, alloc, text, action, order, time, reply);
    tell_service(service, reply);
}

/// Gives libjumbetai's service a command, and answers what lies in the room then.
pub fn outbox_order(
    mut held: OutboxHeld,
    action: u32,
    order: u64,
    time: &[u8],
    reply: &mut OutboxReply,
) -> OutboxHeld
    ensures { OrderedOutbox action order time.now held result reply.new }
{
    let Some(service) = &mut held.service else {
        refuse(NOT_OPEN, &held.text, reply);
        return held;
    };
    order_and_tell(
        service,
        held.alloc,
        &mut held.text,
        action,
        order,
        time,
        reply,
    );
    held
}

/// The line of a batch of libjumbetai's next rows after a number, or the status.
fn rows_line<S: Alter>(service: &mut Service<S>, alloc: Global, after: u64) -> Result<Answered, u32>
    ensures stays { IsSameService service.old service.new }
    ensures same { IsServiceReading (state S.Store service.old.conn) (state S.Store service.new.conn) }
    ensures crash { LeavesAsBefore (state S.Store service.old.conn)
        (state S.Store service.new.conn) }
    ensures ok { IfOk result (λ m. (events : List EventValue) × IsPageLine events m.text m.listed
        × (HasCleanDisk (state S.Store service.new.conn)
        → IsNextRows S.Store after service.old service.new events)) }
    ensures err { IfErr result (λ status. IsWant status ⊎ (status ≡ 18)) }
{
    match service.rows_after(after, MAX_PAGE) {
        Ok(events) => page_line(alloc, Ok(events)),
        Err(fault) => Err(outbox_status(fault)),
    }
}

/// Shows libjumbetai's next rows of a service after a number: the text is their batch's line.
fn shown<S: Alter>(
    service: &mut Service<S>,
    alloc: Global,
    text: &mut Text,
    after: u64,
    reply: &mut OutboxReply,
)
    ensures did { ShowsRows S.Store after service.old service.new text.old text.new
        reply.new.status reply.new.listed }
    ensures number { reply.new.number ≡ 0 }
    ensures length { reply.new.length ≡ length text.new }
{
    match rows_line(service, alloc, after) {
        Ok(page) => {
            tell(DONE, 0, page.listed, page.text.as_str().len() as u64, reply);
            *text = page.text;
        }
        Err(status) => refuse(status, text, reply),
    }
}

/// Shows a service's next rows as libjumbetai's text, and tells of the service.
fn show_and_tell<S: Alter>(
    service: &mut Service<S>,
    alloc: Global,
    text: &mut Text,
    after: u64,
    reply: &mut OutboxReply,
)
    ensures did { ShowsRows S.Store after service.old service.new text.old text.new
        reply.new.status reply.new.listed }
    ensures tells { TellsService S.Store service.new reply.new }
    ensures number { reply.new.number ≡ 0 }
    ensures length { reply.new.length ≡ length text.new }
{
    shown(service, alloc, text, after, reply);
    tell_service(service, reply);
}

/// Shows the service's next rows after a number, and answers what lies in the room then.
pub fn outbox_rows(mut held: OutboxHeld, after: u64, reply: &mut OutboxReply) -> OutboxHeld
    ensures { ShownOutbox after held result reply.new }
{
    let Some(service) = &mut held.service else {
        refuse(NOT_OPEN, &held.text, reply);
        return held;
    };
    show_and_tell(service, held.alloc, &mut held.text, after, reply);
    held
}

/// Copies a piece of libjumbetai's outbox text, counted from 0; one behind its end has no bytes.
pub fn outbox_read(held: OutboxHeld, piece: u32, out: &mut Piece) -> OutboxHeld
    ensures { HasReadOutbox piece held result out.old out.new }
{
    out.length = copied(held.text.as_str().as_bytes(), piece, &mut out.bytes);
    held
}

/// Copies the log into the file, and lets libjumbetai's service go.
pub fn outbox_close(held: OutboxHeld)
    ensures { LetsGoOutbox held }
{
    let OutboxHeld {
        service,
        text: _,
        alloc: _,
    } = held;
    if let Some(service) = service {
        close(service.into_connection());
    }
}
