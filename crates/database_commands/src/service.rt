//! The service of a database: commands on its orders, and the rows of its outbox.
ghost use Rattle.std.specs.Prelude.{◌≡◌, ◌≢◌, ◌<◌, ◌≤◌, ◌↔◌, ◌⊎◌, ◌++◌, ◌-◌, suc, List, [], length, false, string_bytes, true, IfErr, IfOk, IsTrue, Ok, OnErr, OnOk};
ghost use Rattle.std.specs.List.{AllByRecursion};
ghost use Rattle.sqlite.specs.Held.{state};
ghost use Rattle.sqlite.specs.State.{HasCleanDisk};
ghost use Rattle.attributes.specs.Event.{EventValue};
ghost use Rattle.attributes.specs.Sequence.{max_sequence};
ghost use Rattle.outbox.specs.Call.{Accepts, IsAsItWas, IsServiceReading, Leaves, LeavesAsBefore, RefusesCommand, ShowsAfter};
ghost use Rattle.outbox.specs.Opening.{LeavesOrMakes};
ghost use Rattle.outbox.specs.Row.{row_event};
ghost use Rattle.outbox.specs.Shown.{StandsWithRows, IsSource};
ghost use Rattle.database_layout.specs.Layout.{has_name};
ghost use Rattle.outbox.specs.declared.fault.OutboxFault.{OutboxFault};
ghost use Rattle.outbox.specs.declared.fault.OutboxFault.TheVariants.{OutOfMemory, Store};
ghost use Rattle.relay.specs.Relay.{ForNextRows};
ghost use Rattle.databases.specs.declared.fault.CommandFault.TheVariants as command;
ghost use Rattle.databases.specs.Fault.{of_outbox};
ghost use Rattle.database_commands.specs.Effect.{OrderEffect};
ghost use Rattle.databases.specs.Held.{ForAllRows, HasAnother, IsBehind, IsNoOrders, IsNoRows, IsServiceThere, IsUntold, KeepsEvents, KeepsService, SaysAllRows, SaysOrder, SaysRows, ShowsAllRows, ShowsRows};
ghost use Rattle.databases.specs.Pages.{max_page, pages_text};
ghost use Rattle.databases.specs.Print.{batch_line, event_line};
ghost use Rattle.databases.specs.Service.{LeavesOrFounds};
ghost use Rattle.database_commands.specs.steps.Sent.{IsNextPage};
ghost use Rattle.database_commands.specs.steps.Served.{LeavesOrAccepts, LeavesRead};
ghost use Rattle.databases.specs.Done.{BesideIfDone, OpenIfDone, SettledIfDone, ShowsRowsIfDone};
ghost use Rattle.outbox.specs.Order.{IsOrder, IsShortTime};

use crate::command::CommandEnd;
use attributes::{Batch, Moment, Sequenced, Text};
use database_layout::has_name;
use databases::{CommandFault, batch_line, event_line, of_outbox, of_relay};
use outbox::{NotMade, OutboxFault, Service, Status};
use relay::{MemoryRoute, Relay};
use site::MAX_PAGE;
use sqlite::{Alter, Connection};
use std::alloc::{AllocError, Global};

/// The base of a service that is new: its first row has the number 1.
pub(crate) const BASE: u64 = 0;

/// The most pages of rows, which no service reaches.
const PAGES: u64 = 18_446_744_073_709_551_615;

/// A database whose service isn't to be had, and why.
#[derive(Drop)]
struct NotServed<S: Alter> {
    conn: Connection<S>,
    fault: CommandFault,
}

/// Whether the texts are the same source of a database's service.
pub(crate) fn is_same(one: &Text, other: &Text) -> bool
    ensures { IsTrue result ↔ (one.now ≡ other.now) }
{
    one.as_str() == other.as_str()
}

/// The service of a database, made with this source where there is none. Where the source was
/// named, a service that is there has to have it.
fn service_of<S: Alter + Drop>(
    alloc: Global,
    conn: Connection<S>,
    source: &Text,
    is_named: bool,
) -> Result<Service<S>, NotServed<S>>
    requires { IsSource source.now }
    ensures served { IfOk result (λ s. HasCleanDisk (state S.Store s.conn)
        → IsServiceThere source.now (state S.Store conn).now s.source s.base
        (state S.Store s.conn).now) }
    ensures named { IsTrue is_named → IfOk result (λ s. s.source ≡ source.now) }
    ensures back { IfErr result (λ e. IsAsItWas (state S.Store conn) (state S.Store e.conn)) }
    ensures another { IfErr result (λ e. e.fault ≡ command.AnotherSource → IsTrue is_named
        × (HasCleanDisk (state S.Store e.conn) → HasAnother source.now (state S.Store conn).now)) }
    ensures fault { IfErr result (λ e. IsNoOrders e.fault) }
    ensures beside { IfOk result (λ s. HasCleanDisk (state S.Store s.conn)
        → KeepsEvents (state S.Store conn).now (state S.Store s.conn).now) }
    ensures stands { IfOk result (λ s. HasCleanDisk (state S.Store s.conn)
        → StandsWithRows (state S.Store s.conn).now s.source s.base s.last) }
    ensures stays_open { IfOk result (λ s. HasCleanDisk (state S.Store s.conn)
        → IsTrue (state S.Store s.conn).is_open) }
    ensures clean { IfOk result (λ s. HasCleanDisk (state S.Store s.conn)
        → HasCleanDisk (state S.Store conn)) }
    ensures clean_refused { IfErr result (λ e. HasCleanDisk (state S.Store e.conn)
        → HasCleanDisk (state S.Store conn)) }
    ensures crash { IfOk result (λ s.
        LeavesOrMakes source.now 0 (state S.Store conn) (state S.Store s.conn)) }
    ensures crash_refused { IfErr result (λ e.
        LeavesOrMakes source.now 0 (state S.Store conn) (state S.Store e.conn)) }
{
    match Service::open(alloc, conn, source, BASE) {
        Ok(service) => {
            if is_named && !is_same(service.source(), source) {
                return Err(NotServed {
                    conn: service.into_connection(),
                    fault: CommandFault::AnotherSource,
                });
            }
            Ok(service)
        }
        Err(refused) => {
            let NotMade { conn, fault } = refused;
            Err(NotServed {
                conn,
                fault: of_outbox(fault),
            })
        }
    }
}

/// Gives an order of a database's service a status, and answers the event of its row.
fn command<S: Alter>(
    service: &mut Service<S>,
    status: Status,
    order: u64,
    at: &Moment,
) -> Result<Sequenced, OutboxFault>
    requires order { IsOrder order }
    requires short { IsShortTime at.now }
    ensures accepted { HasCleanDisk (state S.Store service.new.conn) → IfOk result
        (Accepts service.old.source service.old.base
        (record { status = status; order = order; at = at.now })
        (state S.Store service.old.conn).now (state S.Store service.new.conn).now) }
    ensures refused { HasCleanDisk (state S.Store service.new.conn)
        → IsTrue (state S.Store service.new.conn).is_open
        → IfErr result (λ f. f ≢ OutOfMemory → f ≢ Store
        → RefusesCommand service.old.source service.old.base status order
        (state S.Store service.old.conn).now f) }
    ensures next { IfOk result (λ e. (service.old.last < max_sequence)
        × (e ≡ row_event service.old.source (suc service.old.last)
        (record { status = status; order = order; at = at.now }))) }
    ensures same { OnErr result
        (IsAsItWas (state S.Store service.old.conn) (state S.Store service.new.conn)) }
    ensures beside { BesideIfDone (state S.Store service.old.conn) (state S.Store service.new.conn) result }
    ensures clean { HasCleanDisk (state S.Store service.new.conn)
        → HasCleanDisk (state S.Store service.old.conn) }
    ensures stays_open { OpenIfDone (state S.Store service.new.conn) result }
    ensures settled { SettledIfDone (state S.Store service.new.conn) result }
    ensures crash { LeavesOrAccepts service.old.source service.old.base
        (record { status = status; order = order; at = at.now })
        (state S.Store service.old.conn) (state S.Store service.new.conn) }
{
    match status {
        Status::Placed => service.place(order, at),
        Status::Shipped => service.ship(order, at),
        Status::Cancelled => service.cancel(order, at),
    }
}

/// Gives an order of a database's service a status, and answers the line of the event that says so.
/// The service is made with this source where there is none. Where the source was named, a service
/// that is there has to have it: `AnotherSource` else, and nothing is written.
pub fn order<S: Alter + Drop>(
    alloc: Global,
    conn: Connection<S>,
    source: &Text,
    is_source_named: bool,
    status: Status,
    order: u64,
    at: &Moment,
) -> CommandEnd<S, Text>
    requires source { IsSource source.now }
    requires order { IsOrder order }
    requires short { IsShortTime at.now }
    ensures did { OrderEffect is_source_named source.now
        (record { status = status; order = order; at = at.now }) result.outcome
        (state S.Store conn) (state S.Store result.conn) }
    ensures line { IfOk result.outcome (SaysOrder is_source_named source.now
        (record { status = status; order = order; at = at.now })) }
{
    match service_of(alloc, conn, source, is_source_named) {
        Ok(mut service) => {
            let outcome = command_line(alloc, &mut service, status, order, at);
            let conn = service.into_connection();
            CommandEnd { conn, outcome }
        }
        Err(refused) => {
            let NotServed { conn, fault } = refused;
            CommandEnd {
                conn,
                outcome: Err(fault),
            }
        }
    }
}

/// Gives an order of a database's service a status, and answers its event's line.
fn command_line<S: Alter>(
    alloc: Global,
    service: &mut Service<S>,
    status: Status,
    order: u64,
    at: &Moment,
) -> Result<Text, CommandFault>
    requires order { IsOrder order }
    requires short { IsShortTime at.now }
    ensures accepted { HasCleanDisk (state S.Store service.new.conn) → IfOk result (λ text.
        (e : EventValue) × (text ≡ event_line e)
        × Accepts service.old.source service.old.base
        (record { status = status; order = order; at = at.now })
        (state S.Store service.old.conn).now (state S.Store service.new.conn).now e) }
    ensures refused { HasCleanDisk (state S.Store service.new.conn)
        → IsTrue (state S.Store service.new.conn).is_open → IfErr result (λ f.
        f ≢ command.OutOfMemory → f ≢ command.Store → (why : OutboxFault) × (f ≡ of_outbox why)
        × RefusesCommand service.old.source service.old.base status order
        (state S.Store service.old.conn).now why) }
    ensures same { OnErr result
        (IsAsItWas (state S.Store service.old.conn) (state S.Store service.new.conn)) }
    ensures beside { BesideIfDone (state S.Store service.old.conn) (state S.Store service.new.conn) result }
    ensures clean { HasCleanDisk (state S.Store service.new.conn)
        → HasCleanDisk (state S.Store service.old.conn) }
    ensures stays_open { OpenIfDone (state S.Store service.new.conn) result }
    ensures settled { SettledIfDone (state S.Store service.new.conn) result }
    ensures crash { LeavesOrAccepts service.old.source service.old.base
        (record { status = status; order = order; at = at.now })
        (state S.Store service.old.conn) (state S.Store service.new.conn) }
    ensures fault { IfErr result (λ f. (why : OutboxFault) × (f ≡ of_outbox why)) }
    ensures line { IfOk result (λ text. text ≡ event_line
        (row_event service.old.source (suc service.old.last)
        (record { status = status; order = order; at = at.now }))) }
{
    // The line is made first, so that no memory is wanted once the command is written.
    match next_line(alloc, service, status, order, at) {
        Ok(text) => match command(service, status, order, at) {
            Ok(_) => Ok(text),
            Err(fault) => Err(of_outbox(fault)),
        },
        Err(fault) => Err(fault),
    }
}

/// The line of the event that a command to a database's service has where it is accepted.
fn next_line<S: Alter>(
    alloc: Global,
    service: &Service<S>,
    status: Status,
    order: u64,
    at: &Moment,
) -> Result<Text, CommandFault>
    ensures next { service.now.last < max_sequence → IfOk result (λ text.
        text ≡ event_line (row_event service.now.source (suc service.now.last)
        (record { status = status; order = order; at = at.now }))) }
    ensures fault { IfErr result (λ f. (f ≡ command.OutOfMemory) ⊎ (f ≡ command.Store)) }
{
    match service.next_event(status, order, at) {
        Ok(event) => said(alloc, &event),
        Err(fault) => Err(of_outbox(fault)),
    }
}

/// The line of an event that a command over a database answers.
fn said(alloc: Global, event: &Sequenced) -> Result<Text, CommandFault>
    ensures line { IfOk result (λ text. text ≡ event_line event.now) }
    ensures fault { IfErr result (λ f. f ≡ command.OutOfMemory) }
{
    match event_line(alloc, event) {
        Ok(text) => Ok(text),
        Err(_) => Err(CommandFault::OutOfMemory),
    }
}

/// The rows of a database's service with a greater number than `after`, at most 100, as the line of
/// a batch. The service is made with this source where there is none.
pub fn relay<S: Alter + Drop>(
    alloc: Global,
    conn: Connection<S>,
    source: &Text,
    after: u64,
) -> CommandEnd<S, Text>
    requires { IsSource source.now }
    ensures shown { HasCleanDisk (state S.Store result.conn) → IfOk result.outcome
        (ShowsRows source.now after (state S.Store conn).now) }
    ensures kept { HasCleanDisk (state S.Store result.conn)
        → IsTrue (state S.Store result.conn).is_open
        → KeepsService source.now (state S.Store conn).now (state S.Store result.conn).now }
    ensures beside { HasCleanDisk (state S.Store result.conn)
        → IsTrue (state S.Store result.conn).is_open
        → KeepsEvents (state S.Store conn).now (state S.Store result.conn).now }
    ensures stays_open { OpenIfDone (state S.Store result.conn) result.outcome }
    ensures settled { SettledIfDone (state S.Store result.conn) result.outcome }
    ensures clean { HasCleanDisk (state S.Store result.conn) → HasCleanDisk (state S.Store conn) }
    ensures crash { LeavesOrFounds source.now 0 (state S.Store conn) (state S.Store result.conn) }
    ensures fault { IfErr result.outcome IsNoRows }
    ensures line { IfOk result.outcome (SaysRows after) }
{
    match service_of(alloc, conn, source, false) {
        Ok(mut service) => {
            let outcome = rows_line(alloc, &mut service, after);
            let conn = service.into_connection();
            CommandEnd { conn, outcome }
        }
        Err(refused) => {
            let NotServed { conn, fault } = refused;
            CommandEnd {
                conn,
                outcome: Err(fault),
            }
        }
    }
}

/// The line of what a relay of a database's rows at this mark sends in one step.
fn rows_line<S: Alter>(
    alloc: Global,
    service: &mut Service<S>,
    after: u64,
) -> Result<Text, CommandFault>
    ensures rows { HasCleanDisk (state S.Store service.new.conn) → IfOk result (λ text.
        ForNextRows service.old.source service.old.base after
        (state S.Store service.old.conn).now (λ rows. text ≡ batch_line rows)) }
    ensures same { IsServiceReading (state S.Store service.old.conn) (state S.Store service.new.conn) }
    ensures stays_open { OpenIfDone (state S.Store service.new.conn) result }
    ensures settled { SettledIfDone (state S.Store service.new.conn) result }
    ensures crash { LeavesAsBefore (state S.Store service.old.conn)
        (state S.Store service.new.conn) }
    ensures fault { IfErr result IsNoRows }
    ensures line { IfOk result (SaysRows after) }
{
    let mut route = MemoryRoute::empty(alloc);
    let mut relay = Relay::at(0, after);
    match relay.step(service, &mut route) {
        Ok(_) => {
            let rows = route.accepted();
            if !are_behind(rows, after) {
                return Err(CommandFault::Store);
            }
            Ok(batch_line(alloc, rows)?)
        }
        Err(fault) => Err(of_relay(fault)),
    }
}

/// Whether each of the events of a database's service has a greater number.
fn are_behind(events: &Batch, after: u64) -> bool
    ensures { result ≡ true → AllByRecursion (IsBehind after) events.now }
{
    for i in 0..events.len() {
        if events.at(i).number().number() <= after {
            return false;
        }
    }
    true
}

/// All rows of a database's service with a greater number than `after`, in pages of 100, each as
/// the line of a batch; nothing where there are none. Nothing is made: where there is no service,
/// there are no rows. Time and memory in proportion to all rows, for the opening, and to the text.
pub fn relay_all<S: Alter + Drop>(
    alloc: Global,
    conn: Connection<S>,
    after: u64,
) -> CommandEnd<S, Text>
    ensures shown { ShowsRowsIfDone after (state S.Store conn) (state S.Store result.conn) result.outcome }
    ensures left { Leaves (state S.Store conn) (state S.Store result.conn) }
    ensures without { has_name (state S.Store conn).now.schema ≡ false
        → ((state S.Store result.conn).now ≡ (state S.Store conn).now)
        × (result.outcome ≡ Ok []) }
    ensures stays_open { has_name (state S.Store conn).now.schema ≡ true
        → OpenIfDone (state S.Store result.conn) result.outcome }
    ensures settled { has_name (state S.Store conn).now.schema ≡ true
        → SettledIfDone (state S.Store result.conn) result.outcome }
    ensures fault { IfErr result.outcome IsUntold }
    ensures line { IfOk result.outcome (SaysAllRows after) }
{
    if has_name(conn.schema()) {
        return found_rows(alloc, conn, after);
    }
    CommandEnd {
        conn,
        outcome: Ok(Text::from_string(String::new(alloc))),
    }
}

/// All rows with a greater number of the service that is there in a command's database.
fn found_rows<S: Alter + Drop>(
    alloc: Global,
    conn: Connection<S>,
    after: u64,
) -> CommandEnd<S, Text>
    ensures shown { ShowsRowsIfDone after (state S.Store conn) (state S.Store result.conn) result.outcome }
    ensures left { Leaves (state S.Store conn) (state S.Store result.conn) }
    ensures stays_open { OpenIfDone (state S.Store result.conn) result.outcome }
    ensures settled { SettledIfDone (state S.Store result.conn) result.outcome }
    ensures fault { IfErr result.outcome IsUntold }
    ensures line { IfOk result.outcome (SaysAllRows after) }
{
    match Service::adopt(alloc, conn) {
        Ok(mut service) => {
            let outcome = row_lines(alloc, &mut service, after);
            let conn = service.into_connection();
            CommandEnd { conn, outcome }
        }
        Err(refused) => {
            let NotMade { conn, fault } = refused;
            let outcome = Err(of_outbox(fault));
            CommandEnd { conn, outcome }
        }
    }
}

/// The mark to relay a database's rows from: every row has a number above the base.
fn first_mark(base: u64, after: u64) -> u64
    ensures { (base ≤ result) × (result - base ≡ after - base) }
{
    if after < base { base } else { after }
}

/// The lines of all rows of a database's service with a greater number than `after`, 100 a line.
/// Rows are numbered from the base on without a gap: behind a full page the mark is 100 higher.
fn row_lines<S: Alter>(
    alloc: Global,
    service: &mut Service<S>,
    after: u64,
) -> Result<Text, CommandFault>
    ensures rows { IfOk result (λ text. (events : List EventValue) × (text ≡ pages_text events)
        × AllByRecursion (IsBehind after) events
        × (HasCleanDisk (state S.Store service.new.conn) → ForAllRows service.old.source
        service.old.base after (state S.Store service.old.conn).now (λ rows. events ≡ rows))) }
    ensures same { IsServiceReading (state S.Store service.old.conn) (state S.Store service.new.conn) }
    ensures crash { LeavesRead (state S.Store service.old.conn) (state S.Store service.new.conn) }
    ensures stays_open { OpenIfDone (state S.Store service.new.conn) result }
    ensures fault { IfErr result IsUntold }
{
    let mut lines = String::new(alloc);
    let mut mark = first_mark(service.base(), after);
    for _ in 0..PAGES {
        match next_page(alloc, service, &mut lines, mark) {
            Ok(Some(next)) => mark = next,
            Ok(None) => return Ok(Text::from_string(lines)),
            Err(fault) => return Err(fault),
        }
    }
    Err(CommandFault::Store)
}

/// Puts the next rows of a database's service after a mark behind lines, as a line, and answers the
/// mark behind them where they are a full page.
fn next_page<S: Alter>(
    alloc: Global,
    service: &mut Service<S>,
    lines: &mut String,
    mark: u64,
) -> Result<Option<u64>, CommandFault>
    ensures page { IfOk result (λ next. IsNextPage (string_bytes lines.old) (string_bytes lines.new)
        mark next (λ rows. AllByRecursion (IsBehind mark) rows
        × (HasCleanDisk (state S.Store service.new.conn) → ShowsAfter service.old.source
        service.old.base mark max_page (state S.Store service.old.conn).now rows))) }
    ensures open { HasCleanDisk (state S.Store service.new.conn)
        → OnOk result (IsTrue (state S.Store service.old.conn).is_open) }
    ensures stays_open { OpenIfDone (state S.Store service.new.conn) result }
    ensures kept { (service.new.source ≡ service.old.source)
        × (service.new.base ≡ service.old.base) }
    ensures same { IsServiceReading (state S.Store service.old.conn) (state S.Store service.new.conn) }
    ensures crash { LeavesAsBefore (state S.Store service.old.conn)
        (state S.Store service.new.conn) }
    ensures fault { IfErr result IsUntold }
{
    let rows = match service.rows_after(mark, MAX_PAGE) {
        Ok(rows) => rows,
        Err(fault) => return Err(of_outbox(fault)),
    };
    let count = rows.len();
    if count > MAX_PAGE || !are_behind(&rows, mark) {
        return Err(CommandFault::Store);
    }
    push_page(alloc, lines, &rows)?;
    if count < MAX_PAGE {
        return Ok(None);
    }
    match mark.checked_add(MAX_PAGE) {
        Some(next) => Ok(Some(next)),
        None => Err(CommandFault::Store),
    }
}

/// Puts a page of a database's rows behind lines, as a line; of no rows nothing.
#[tactic(auto, using(crate::proofs::RowLemmas::one_line))]
fn push_page(alloc: Global, lines: &mut String, rows: &Batch) -> Result<(), AllocError>
    requires { length rows.now ≤ max_page }
    ensures { OnOk result
        (string_bytes lines.new ≡ string_bytes lines.old ++ pages_text rows.now) }
{
    if rows.is_empty() {
        return Ok(());
    }
    let line = batch_line(alloc, rows)?;
    lines.push_str(line.as_str())?;
    Ok(())
}
