//! The service of a database: made where there is none, and told.
ghost use Rattle.std.specs.Prelude.{◌≡◌, ◌≢◌, ◌≤◌, ◌⊎◌, false, unwrap_or, IfErr, IfOk, IfSome, IsFalse, IsTrue, OnErr, OnOk};
ghost use Rattle.sqlite.specs.Held.{state};
ghost use Rattle.sqlite.specs.State.{HasCleanDisk};
ghost use Rattle.attributes.specs.Sequence.{max_sequence};
ghost use Rattle.database_layout.specs.Layout.{has_name};
ghost use Rattle.outbox.specs.Call.{IsAsItWas, IsFounded, Leaves};
ghost use Rattle.outbox.specs.Shown.{IsNoService, IsSource};
ghost use Rattle.databases.specs.declared.fault.CommandFault.TheVariants as command;
ghost use Rattle.database_commands.specs.Effect.{ServiceEffect};
ghost use Rattle.databases.specs.Held.{HasAnother, IsNoOrders};
ghost use Rattle.databases.specs.Print.{service_line};
ghost use Rattle.databases.specs.Service.{HasOtherBase, IsOtherBase, IsServiceTold, LeavesOrFounds, SaysService};
ghost use Rattle.database_commands.specs.steps.Told.{IsLineOf, TellsEach};
ghost use Rattle.databases.specs.Done.{OpenIfDone, SettledIfDone};

use crate::command::CommandEnd;
use crate::service::{BASE, is_same};
use attributes::Text;
use database_layout::has_name;
use databases::{CommandFault, of_outbox, service_line};
use outbox::{NotMade, Service};
use sqlite::{Alter, Connection};
use std::alloc::Global;

/// Tells of the service of a database, as the line `{"base":B,"orders":N,"rows":N,"source":S}`;
/// where there is none, makes it with this source and base, 0 where no base is given.
///
/// A service that is there is only told: where the source was named it has to have it,
/// `AnotherSource` else, and then the base that is given, `Foreign` else. `Foreign` are tables,
/// too, that no calls of a service leave. Of a refusal the database is as it was; the line is made
/// before anything is written. What lies beside the service, as an inbox, stays. Reads all rows
/// once; time and memory in proportion to them.
pub fn tell_service<S: Alter + Drop>(
    alloc: Global,
    conn: Connection<S>,
    source: &Text,
    is_source_named: bool,
    base: Option<u64>,
) -> CommandEnd<S, Text>
    requires source { IsSource source.now }
    requires base { IfSome base (λ n. n ≤ max_sequence) }
    ensures did { ServiceEffect is_source_named source.now base result.outcome
        (state S.Store conn) (state S.Store result.conn) }
    ensures line { IfOk result.outcome (SaysService is_source_named source.now base) }
{
    if has_name(conn.schema()) {
        return told(alloc, conn, source, is_source_named, base);
    }
    made(alloc, conn, source, base.unwrap_or(BASE))
}

/// Makes a database's service with this source and base, and tells of it.
fn made<S: Alter + Drop>(
    alloc: Global,
    conn: Connection<S>,
    source: &Text,
    base: u64,
) -> CommandEnd<S, Text>
    requires source { IsSource source.now }
    requires base { base ≤ max_sequence }
    requires none { has_name (state S.Store conn).now.schema ≡ false }
    ensures made { HasCleanDisk (state S.Store result.conn) → OnOk result.outcome
        (IsFounded source.now base (state S.Store conn).now (state S.Store result.conn).now) }
    ensures line { IfOk result.outcome (λ text. text ≡ service_line source.now base 0 0) }
    ensures settled { SettledIfDone (state S.Store result.conn) result.outcome }
    ensures back { OnErr result.outcome
        (IsAsItWas (state S.Store conn) (state S.Store result.conn)) }
    ensures open { OpenIfDone (state S.Store result.conn) result.outcome }
    ensures clean { HasCleanDisk (state S.Store result.conn) → HasCleanDisk (state S.Store conn) }
    ensures crash { LeavesOrFounds source.now base
        (state S.Store conn) (state S.Store result.conn) }
    ensures fault { IfErr result.outcome (λ f.
        (f ≡ command.OutOfMemory) ⊎ (f ≡ command.Store)) }
{
    // The line is made first, so that no memory is wanted once the service is there.
    let line = match service_line(alloc, source.as_str(), base, 0, 0) {
        Ok(line) => line,
        Err(_) => {
            return CommandEnd {
                conn,
                outcome: Err(CommandFault::OutOfMemory),
            };
        }
    };
    match Service::create(alloc, conn, source, base) {
        Ok(service) => {
            let conn = service.into_connection();
            CommandEnd {
                conn,
                outcome: Ok(line),
            }
        }
        Err(refused) => {
            let NotMade { conn, fault } = refused;
            CommandEnd {
                conn,
                outcome: Err(of_outbox(fault)),
            }
        }
    }
}

/// Tells of the service that is there in a command's database.
pub(crate) fn told<S: Alter + Drop>(
    alloc: Global,
    conn: Connection<S>,
    source: &Text,
    is_named: bool,
    base: Option<u64>,
) -> CommandEnd<S, Text>
    ensures left { Leaves (state S.Store conn) (state S.Store result.conn) }
    ensures told { HasCleanDisk (state S.Store result.conn) → IfOk result.outcome
        (λ text. IsTrue (state S.Store result.conn).is_open
        × TellsEach (state S.Store conn).now text × IsServiceTold (state S.Store conn).now text) }
    ensures another { IfErr result.outcome (λ f. f ≡ command.AnotherSource → IsTrue is_named
        × (HasCleanDisk (state S.Store result.conn)
        → HasAnother source.now (state S.Store conn).now)) }
    ensures foreign { IfErr result.outcome (λ f. f ≡ command.Foreign
        → HasCleanDisk (state S.Store result.conn) → IsNoService (state S.Store conn).now
        ⊎ HasOtherBase is_named source.now base (state S.Store conn).now) }
    ensures fault { IfErr result.outcome IsNoOrders }
    ensures line { IfOk result.outcome (SaysService is_named source.now base) }
{
    match Service::adopt(alloc, conn) {
        Ok(service) => {
            let outcome = line_of(alloc, &service, source, is_named, base);
            let conn = service.into_connection();
            CommandEnd { conn, outcome }
        }
        Err(refused) => {
            let NotMade { conn, fault } = refused;
            CommandEnd {
                conn,
                outcome: Err(of_outbox(fault)),
            }
        }
    }
}

/// The line of a database's service; where the source was named and the base is given, they have to
/// be its own.
fn line_of<S: Alter>(
    alloc: Global,
    service: &Service<S>,
    source: &Text,
    is_named: bool,
    base: Option<u64>,
) -> Result<Text, CommandFault>
    ensures line { IfOk result (IsLineOf (state S.Store service.now.conn)
        service.now.source service.now.base is_named source.now base) }
    ensures another { IfErr result (λ f. f ≡ command.AnotherSource
        → IsTrue is_named × (service.now.source ≢ source.now)) }
    ensures foreign { IfErr result (λ f. f ≡ command.Foreign
        → (IsTrue is_named → service.now.source ≡ source.now)
        × IsOtherBase base service.now.base) }
    ensures fault { IfErr result IsNoOrders }
{
    if is_named && !is_same(service.source(), source) {
        return Err(CommandFault::AnotherSource);
    }
    if is_other(base, service.base()) {
        return Err(CommandFault::Foreign);
    }
    let own = service.source().as_str();
    match service_line(alloc, own, service.base(), service.orders(), service.rows()) {
        Ok(text) => Ok(text),
        Err(_) => Err(CommandFault::OutOfMemory),
    }
}

/// Whether a base is given, and another than this one of a database's service.
fn is_other(given: Option<u64>, base: u64) -> bool
    ensures other { IsTrue result → IsOtherBase given base }
    ensures same { IsFalse result → IfSome given (λ n. base ≡ n) }
{
    match given {
        Some(given) => given != base,
        None => false,
    }
}
