//! What a database is: its inbox, and its service.
ghost use Rattle.std.specs.Prelude.{◌≡◌, ◌⊎◌, ◌++◌, List, [], IfErr, IfOk, OnOk};
ghost use Rattle.sqlite.specs.Held.{state};
ghost use Rattle.sqlite.specs.State.{HasCleanDisk};
ghost use Rattle.attributes.specs.Event.{EventValue};
ghost use Rattle.inbox.specs.KeyOrder.{key_cmp};
ghost use Rattle.inbox.specs.Ordered.{append_new};
ghost use Rattle.inbox_table.specs.Rows.{IsAnyInbox};
ghost use Rattle.outbox.specs.Call.{Leaves};
ghost use Rattle.outbox.specs.Shown.{IsNoService};
ghost use Rattle.databases.specs.Described.{CountsSources, Describes, SaysDatabase, SaysInbox, TellsInbox, version_number};
ghost use Rattle.databases.specs.Held.{IsUntold};
ghost use Rattle.database_commands.specs.steps.Told.{TellsInboxLine};
ghost use Rattle.databases.specs.declared.fault.CommandFault.TheVariants as command;

use crate::command::CommandEnd;
use crate::page::site_over;
use crate::told::told;
use attributes::{Batch, Text};
use database_layout::{Layout, has_inbox, has_name};
use databases::{CommandFault, database_line, of_table};
use inbox_table::{Inspected, Version, inspect};
use site::Site;
use sqlite::{Alter, Connection};
use std::alloc::{AllocError, Global};

/// What a database is, in lines of JSON, the first of which begins with its name: how many events
/// its inbox has, of how many sources, and its version, which is 0 where there is no inbox; and,
/// where there is a service, the line that tells of it, as `service` prints it. Nothing is written:
/// an inbox of version 1 stays what it is. `Foreign` where its tables aren't those that these
/// commands leave. Time and memory in proportion to the events and rows.
pub fn describe<S: Alter + Drop>(
    alloc: Global,
    conn: Connection<S>,
    name: &str,
) -> CommandEnd<S, Text>
    ensures told { HasCleanDisk (state S.Store result.conn) → IfOk result.outcome
        (Describes name.now (state S.Store conn).now) }
    ensures left { Leaves (state S.Store conn) (state S.Store result.conn) }
    ensures foreign { IfErr result.outcome (λ f. f ≡ command.Foreign
        → HasCleanDisk (state S.Store result.conn)
        → ((events : List EventValue) → IsAnyInbox (state S.Store conn).now events → ⊥)
        ⊎ IsNoService (state S.Store conn).now) }
    ensures fault { IfErr result.outcome IsUntold }
    ensures line { IfOk result.outcome (SaysDatabase name.now) }
{
    let mut conn = conn;
    let line = match inbox_line(alloc, &mut conn, name) {
        Ok(line) => line,
        Err(fault) => {
            return CommandEnd {
                conn,
                outcome: Err(fault),
            };
        }
    };
    if !has_name(conn.schema()) {
        return CommandEnd {
            conn,
            outcome: Ok(line),
        };
    }
    // No source is named here, so it doesn't matter which text stands for it.
    let CommandEnd { conn, outcome } = told(alloc, conn, &line, false, None);
    match outcome {
        Ok(more) => {
            let outcome = joined(line, &more);
            CommandEnd { conn, outcome }
        }
        Err(fault) => CommandEnd {
            conn,
            outcome: Err(fault),
        },
    }
}

/// Both lines that tell what the database of a name is, one behind the other.
fn joined(first: Text, rest: &Text) -> Result<Text, CommandFault>
    ensures both { IfOk result (λ text. text ≡ first ++ rest.now) }
    ensures fault { IfErr result (λ f. f ≡ command.OutOfMemory) }
{
    let mut text = first.into_string();
    text.push_str(rest.as_str())?;
    Ok(Text::from_string(text))
}

/// The line that tells of the inbox of a database, whether it has one or not. `Store` where it has
/// tables of others alone.
fn inbox_line<S: Alter>(
    alloc: Global,
    conn: &mut Connection<S>,
    name: &str,
) -> Result<Text, CommandFault>
    ensures told { HasCleanDisk (state S.Store conn.new) → IfOk result
        (TellsInbox name.now (state S.Store conn.old).now) }
    ensures line { IfOk result (SaysInbox name.now) }
    ensures left { Leaves (state S.Store conn.old) (state S.Store conn.new) }
    ensures same { HasCleanDisk (state S.Store conn.new)
        → OnOk result ((state S.Store conn.new).now ≡ (state S.Store conn.old).now) }
    ensures foreign { IfErr result (λ f. f ≡ command.Foreign → HasCleanDisk (state S.Store conn.new)
        → (events : List EventValue) → IsAnyInbox (state S.Store conn.old).now events → ⊥) }
    ensures fault { IfErr result IsUntold }
{
    if !has_inbox(conn.schema()) {
        if !has_name(conn.schema()) && Layout::of(conn.schema()).is_none() {
            return Err(CommandFault::Store);
        }
        return events_line(alloc, name, 0, Batch::empty(alloc));
    }
    match inspect(alloc, conn) {
        Ok(found) => {
            let Inspected { version, events } = found;
            events_line(alloc, name, version_number(version), events)
        }
        Err(fault) => Err(of_table(fault)),
    }
}

/// The number of a version of an inbox that a command describes.
fn version_number(version: Version) -> u64
    ensures { result ≡ version_number version }
{
    match version {
        Version::One => 1,
        Version::Two => 2,
    }
}

/// The line that tells of an inbox of that version with these events, each of which is there once.
fn events_line(alloc: Global, name: &str, version: u64, events: Batch) -> Result<Text, CommandFault>
    ensures line { IfOk result (TellsInboxLine name.now events version) }
    ensures fault { IfErr result (λ f. f ≡ command.OutOfMemory) }
{
    let count = events.len();
    let sources = sources_of(alloc, events)?;
    Ok(database_line(alloc, name, count, sources, version)?)
}

/// How many sources these events of a described database have.
fn sources_of(alloc: Global, events: Batch) -> Result<u64, AllocError>
    ensures { IfOk result (CountsSources (append_new key_cmp [] events)) }
{
    let mut site = site_over(alloc, events)?;
    count_sources(&mut site)
}

/// How many sources the events of a site have, to describe its database.
fn count_sources(site: &mut Site) -> Result<u64, AllocError>
    ensures { IfOk result (CountsSources site.old) }
{
    let summary = site.summary()?;
    Ok(summary.len())
}
