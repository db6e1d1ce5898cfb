//! Databases of the operating system, by the names of their files.
ghost use Rattle.std.specs.Prelude.{◌≡◌, false, Err, IfErr, IfOk, IsTrue, MatchResult};
ghost use Rattle.sqlite_wal.specs.Files.{image_at};
ghost use Rattle.sqlite.specs.Held.{state};
ghost use Rattle.database_layout.specs.Layout.{has_name};
ghost use Rattle.databases.specs.Fault.{IsOfNamed, OrOfNamed};
ghost use Rattle.database_commands.specs.OfFile.{Closes, IsOver};

use crate::command::{Command, CommandEnd};
use crate::commands::{
    ArrivalPage, ArrivalPages, DeltaPage, DeltaPages, Describe, GiveOrder, HeldEvents, RelayAll,
    RelayPage, ScrubPage, ScrubPages, SummaryLine, TakeEvents, TellService,
};
use crate::file::{close, is_there};
use crate::named::{growth_of, performed};
use crate::opener::Opener;
use crate::stream::{Streamed, begun, follow};
use attributes::{Batch, Moment, Text};
use coverage::Summary;
use database_layout::has_name;
use databases::{CommandFault, Databases, EventPages, Relayed, StreamFault, Trouble, of_fault};
use inbox_table::Watch;
use outbox::Status;
use sqlite::{Alter, Connection};
use sqlite_disk::{Start, Unknown};
use sqlite_std_file::File;
use sqlite_store::FileStore;
use std::alloc::Global;
use std::io::{Read, Write};

/// How many bytes the texts of events have that are to be added to a database.
fn bytes_in(events: &Batch) -> u64 {
    let mut bytes = 0u64;
    for i in 0..events.len() {
        bytes = bytes.saturating_add(events.at(i).event().text().len() as u64);
    }
    bytes
}

impl<'a> Databases for Opener<'a> {
    fn take<W: Watch>(
        &self,
        alloc: Global,
        name: &str,
        events: &Batch,
        watch: &W,
    ) -> Result<Text, CommandFault> {
        let growth = bytes_in(events);
        carry_out(alloc, self.open(name, growth), TakeEvents { events, watch })
    }

    fn follow<R: Read, W: Write>(
        &self,
        alloc: Global,
        name: &str,
        input: &mut R,
        out: &mut W,
    ) -> Result<u64, StreamFault> {
        let mut lines = match begun(alloc, input) {
            Ok(lines) => lines,
            Err(why) => return Err(StreamFault::Input(why)),
        };
        match self.open(name, growth_of(lines.buffer())) {
            Ok(conn) => {
                let Streamed { conn, outcome } = follow(alloc, conn, &mut lines, out);
                close(conn);
                outcome
            }
            Err(fault) => Err(StreamFault::Database(fault)),
        }
    }

    fn events(&self, alloc: Global, name: &str) -> Result<Batch, CommandFault> {
        give_there(self, alloc, name, HeldEvents)
    }

    fn summary(&self, alloc: Global, name: &str) -> Result<Text, CommandFault> {
        give_there(self, alloc, name, SummaryLine)
    }

    fn delta_pages(
        &self,
        alloc: Global,
        name: &str,
        summary: Summary,
    ) -> Result<EventPages, CommandFault> {
        give_there(self, alloc, name, DeltaPages { summary })
    }

    fn scrub_pages(&self, alloc: Global, name: &str) -> Result<EventPages, CommandFault> {
        give_there(self, alloc, name, ScrubPages)
    }

    fn delta(
        &self,
        alloc: Global,
        name: &str,
        summary: &Summary,
        from: u64,
    ) -> Result<Text, CommandFault> {
        give(self, alloc, name, DeltaPage { summary, from })
    }

    fn scrub(&self, alloc: Global, name: &str, from: u64) -> Result<Text, CommandFault> {
        give(self, alloc, name, ScrubPage { from })
    }

    fn arrivals(&self, alloc: Global, name: &str, after: u64) -> Result<Text, CommandFault> {
        give_there(self, alloc, name, ArrivalPage { after })
    }

    fn arrival_pages(
        &self,
        alloc: Global,
        name: &str,
        after: u64,
    ) -> Result<EventPages, CommandFault> {
        give_there(self, alloc, name, ArrivalPages { after })
    }

    fn order(
        &self,
        alloc: Global,
        name: &str,
        source: &Text,
        is_source_named: bool,
        status: Status,
        number: u64,
        at: &Moment,
    ) -> Result<Text, CommandFault> {
        let order = GiveOrder {
            source,
            is_source_named,
            status,
            number,
            at,
        };
        give(self, alloc, name, order)
    }

    fn service(
        &self,
        alloc: Global,
        name: &str,
        source: &Text,
        is_source_named: bool,
        base: Option<u64>,
    ) -> Result<Text, CommandFault> {
        let told = TellService {
            source,
            is_source_named,
            base,
        };
        give(self, alloc, name, told)
    }

    fn describe(&self, alloc: Global, name: &str) -> Result<Text, Trouble> {
        match performed(alloc, self.found(name), Describe { name }) {
            Ok(ended) => match answer_of(ended) {
                Ok(text) => Ok(text),
                Err(fault) => Err(of_fault(fault)),
            },
            Err(why) => Err(why),
        }
    }

    fn relay(
        &self,
        alloc: Global,
        name: &str,
        source: &Text,
        after: u64,
    ) -> Result<Relayed, CommandFault> {
        let opened = self.open(name, 0);
        let is_made = match &opened {
            Ok(conn) => lacks_service(conn),
            Err(_) => false,
        };
        match carry_out(alloc, opened, RelayPage { source, after }) {
            Ok(text) => Ok(Relayed { text, is_made }),
            Err(fault) => Err(fault),
        }
    }

    fn relay_all(&self, alloc: Global, name: &str, after: u64) -> Result<Text, CommandFault> {
        give_there(self, alloc, name, RelayAll { after })
    }

    fn is_there(&self, name: &str) -> bool {
        is_there(self.rt, name).is_ok()
    }

    fn waiting(&self, seconds: u64) -> Opener<'a> {
        self.tried_for(seconds)
    }
}

/// Gives a command to the database of that name, which is made where there is none, and closes it in
/// the end. Its cache isn't made larger for what the command adds.
fn give<C: Command + Drop>(
    opener: &Opener<'_>,
    alloc: Global,
    name: &str,
    command: C,
) -> Result<C::Answer, CommandFault>
    requires { C.may_come command }
    ensures answer { IfOk result (C.says command) }
    ensures fault { IfErr result (OrOfNamed (C.fails command)) }
{
    carry_out(alloc, opener.open(name, 0), command)
}

/// Gives a command to the database of that name; one that isn't there is not made: `CannotRead`.
fn give_there<C: Command + Drop>(
    opener: &Opener<'_>,
    alloc: Global,
    name: &str,
    command: C,
) -> Result<C::Answer, CommandFault>
    requires { C.may_come command }
    ensures answer { IfOk result (C.says command) }
    ensures fault { IfErr result (OrOfNamed (C.fails command)) }
{
    match opener.found(name) {
        Ok(conn) => carry_out(alloc, Ok(conn), command),
        Err(why) => Err(why.fault()),
    }
}

/// Gives a command to a database where it was opened, and closes it in the end. So all but
/// `Describe` meet the store of files here.
fn carry_out<C: Command + Drop>(
    alloc: Global,
    opened: Result<Connection<FileStore<File>>, CommandFault>,
    command: C,
) -> Result<C::Answer, CommandFault>
    requires come { C.may_come command }
    requires over { IfOk opened (IsOver (image_at ⟦<Unknown as Start>⟧)) }
    requires unopened { IfErr opened IsOfNamed }
    ensures answer { IfOk result (C.says command) }
    ensures fault { IfErr result (OrOfNamed (C.fails command)) }
{
    closed(performed(alloc, opened, command))
}

/// Whether a database has no service, so that a command that needs one makes it.
fn lacks_service<S: Alter>(conn: &Connection<S>) -> bool
    ensures { IsTrue result → has_name (state S.Store conn.now).now.schema ≡ false }
{
    !has_name(conn.schema())
}

/// Closes the database of a command, and answers what the command came to.
fn answer_of<A: Drop>(ended: CommandEnd<FileStore<File>, A>) -> Result<A, CommandFault>
    ensures answer { result ≡ ended.outcome }
    ensures closes { Closes ended.conn }
{
    let CommandEnd { conn, outcome } = ended;
    close(conn);
    outcome
}

/// Closes the database of a command where it was opened, and answers what came of it.
fn closed<A: Drop>(
    ended: Result<CommandEnd<FileStore<File>, A>, CommandFault>,
) -> Result<A, CommandFault>
    ensures answer { MatchResult ended (λ e. result ≡ e.outcome) (λ f. result ≡ Err f) }
    ensures closes { IfOk ended (λ e. Closes e.conn) }
{
    match ended {
        Ok(ended) => answer_of(ended),
        Err(fault) => Err(fault),
    }
}
