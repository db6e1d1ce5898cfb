//! The tables of a new service.

ghost use Rattle.std.specs.Prelude.{◌≡◌, ◌<◌, ◌≤◌, ◌^◌, ◌⊎◌, ◌∷◌, [], IsTrue, true, List, ℕ, pos, OnOk, OnErr, IfOk, IfErr};
ghost use Rattle.std.specs.Result.{IsErrAnd};
ghost use Rattle.sqlite_value.specs.declared.value.Value.TheVariants.{Int, Text as Words};
ghost use Rattle.sqlite.specs.State.{HasCleanDisk, ExecutesInside, Survives};
ghost use Rattle.sqlite.specs.Held.{state};
ghost use Rattle.attributes.specs.Sequence.{max_sequence};
ghost use Rattle.database_layout.specs.Layout.{GainsService, has_name, schema_in};
ghost use Rattle.outbox.specs.Order.{Accepted};
ghost use Rattle.outbox.specs.Service.{IsService};
ghost use Rattle.outbox.specs.Shown.{IsSource};
ghost use Rattle.outbox.specs.Call.{FoundsIfDone, IsAsItWas, IsFounded, IsSettled, LeavesFounding, MayFound};
ghost use Rattle.outbox.specs.steps.Statement.{found_text};
ghost use Rattle.outbox.specs.declared.fault.OutboxFault.TheVariants.{OutOfMemory, Store, Foreign};

use crate::fault::OutboxFault;
use crate::service::{NotMade, Service};
use crate::statement::signed;
use attributes::Text;
use database_layout::{Layout, has_name, make_service};
use sqlite::{Alter, Connection, Error, ErrorCode, Transaction, params};
use std::alloc::Global;

/// INSERT INTO service: the row with the source and base of an outbox.
fn fill<S: Alter>(
    tx: &mut Transaction<'_, S>,
    one: i64,
    source: &str,
    base: i64,
) -> Result<usize, Error>
    ensures same_reference { tx.new.conn.ghost_name ≡ tx.old.conn.ghost_name }
    ensures runs { HasCleanDisk (state S.Store tx.new.conn.now)
        → IsTrue (state S.Store tx.old.conn.now).in_transaction
        → ExecutesInside 0 found_text (Int one ∷ Words source.now ∷ Int base ∷ [])
        (state S.Store tx.old.conn.now) (state S.Store tx.new.conn.now) result }
    ensures survives { Survives
        (state S.Store tx.old.conn.now) (state S.Store tx.new.conn.now) (λ _. ⊥) }
{
    tx.execute(
        "INSERT INTO service (one, source, base) VALUES (?1, ?2, ?3)",
        params![one, source, base],
    )
}

/// Makes the tables of a service's outbox with this source and base in one transaction, in a
/// database with this layout.
fn found<S: Alter>(
    conn: &mut Connection<S>,
    before: Layout,
    after: Layout,
    source: &str,
    base: u64,
) -> Result<(), Error>
    requires gains { GainsService before after }
    requires room { (state S.Store conn.old).now.schema ≡ schema_in before }
    requires base { base < 2 ^ 63 }
    ensures made { FoundsIfDone source.now base (state S.Store conn.old) (state S.Store conn.new) result }
    ensures open { HasCleanDisk (state S.Store conn.new)
        → OnOk result (IsTrue (state S.Store conn.new).is_open) }
    ensures committed { HasCleanDisk (state S.Store conn.new)
        → OnOk result ((state S.Store conn.new).committed ≡ (state S.Store conn.new).now) }
    ensures same { HasCleanDisk (state S.Store conn.new) → IsTrue (state S.Store conn.new).is_open
        → OnErr result ((state S.Store conn.new).now ≡ (state S.Store conn.old).now) }
    ensures crash { LeavesFounding source.now base (state S.Store conn.old) (state S.Store conn.new) }
{
    if !conn.is_autocommit() {
        return Err(Error::SqliteFailure(ErrorCode::TransactionState));
    }
    let mut tx = conn.transaction();
    make_service(&mut tx)?;
    fill(&mut tx, 1, source, signed(base))?;
    tx.commit()
}

/// Makes an outbox's tables where there is room for them; `Store` where the file has other tables
/// than an inbox's.
fn found_in_room<S: Alter>(
    conn: &mut Connection<S>,
    source: &Text,
    base: u64,
) -> Result<(), OutboxFault>
    requires { base ≤ max_sequence }
    ensures made { FoundsIfDone source.now base (state S.Store conn.old) (state S.Store conn.new) result }
    ensures open { HasCleanDisk (state S.Store conn.new)
        → OnOk result (IsTrue (state S.Store conn.new).is_open) }
    ensures committed { HasCleanDisk (state S.Store conn.new)
        → OnOk result ((state S.Store conn.new).committed ≡ (state S.Store conn.new).now) }
    ensures same { OnErr result (IsAsItWas (state S.Store conn.old) (state S.Store conn.new)) }
    ensures crash { LeavesFounding source.now base (state S.Store conn.old) (state S.Store conn.new) }
    ensures fault { IfErr result (λ f. (f ≡ OutOfMemory) ⊎ (f ≡ Store)) }
{
    let Some(before) = Layout::of(conn.schema()) else {
        return Err(OutboxFault::Store);
    };
    let Some(after) = before.with_service() else {
        return Err(OutboxFault::Store);
    };
    match found(conn, before, after, source.as_str(), base) {
        Ok(()) => Ok(()),
        Err(error) => Err(OutboxFault::from(error)),
    }
}

impl<S: Alter + Drop> Service<S> {
    /// Makes the tables of a service with this source and base (the number before that of its first
    /// row; a new service has 0) in a database that has none of them.
    ///
    /// The fault is `Foreign` where a table of one of their names is there, `Store` where the
    /// database stands inside a transaction or has tables that aren't an inbox's, or want of
    /// memory; the connection comes back, and the database is as it was. The tables are made in one
    /// transaction.
    pub fn create(
        alloc: Global,
        conn: Connection<S>,
        source: &Text,
        base: u64,
    ) -> Result<Service<S>, NotMade<S>>
        requires source { IsSource source.now }
        requires base { base ≤ max_sequence }
        ensures made { IfOk result (λ s. HasCleanDisk (state S.Store s.conn)
            → IsFounded source.now base (state S.Store conn).now (state S.Store s.conn).now) }
        ensures open { IfOk result (λ s. HasCleanDisk (state S.Store s.conn)
            → IsTrue (state S.Store s.conn).is_open) }
        ensures settled { IfOk result (λ s. HasCleanDisk (state S.Store s.conn)
            → IsSettled (state S.Store s.conn)) }
        ensures given { IfOk result (λ s. (s.source ≡ source.now) × (s.base ≡ base)
            × (s.last ≡ base)) }
        ensures first { IfOk result (λ _. (source : List ℕ) (base : ℕ) (commands : List Accepted)
            → IsService (state S.Store conn).now source base commands → ⊥) }
        ensures back { IfErr result (λ e. IsAsItWas (state S.Store conn) (state S.Store e.conn)) }
        ensures crash { IfOk result (λ s. Survives (state S.Store conn) (state S.Store s.conn)
            (MayFound source.now base (state S.Store conn).now)) }
        ensures crash_refused { IfErr result (λ e. Survives (state S.Store conn)
            (state S.Store e.conn) (MayFound source.now base (state S.Store conn).now)) }
        ensures foreign { IfErr result (λ e.
            e.fault ≡ Foreign → has_name (state S.Store conn).now.schema ≡ true) }
        ensures fault { IfErr result (λ e.
            (e.fault ≡ OutOfMemory) ⊎ ((e.fault ≡ Store) ⊎ (e.fault ≡ Foreign))) }

        // A name that is taken is found before any memory is asked for.
        ensures there { has_name (state S.Store conn).now.schema ≡ true
            → IsErrAnd result (λ e. e.fault ≡ Foreign) }
        ensures untouched { IfErr result (λ e. e.fault ≡ Foreign → e.conn ≡ conn) }
    {
        let mut conn = conn;
        if has_name(conn.schema()) {
            return Err(NotMade {
                conn,
                fault: OutboxFault::Foreign,
            });
        }
        let copy = match source.copy() {
            Ok(copy) => copy,
            Err(_) => {
                return Err(NotMade {
                    conn,
                    fault: OutboxFault::OutOfMemory,
                });
            }
        };
        match found_in_room(&mut conn, source, base) {
            Ok(()) => Ok(Service {
                conn,
                source: copy,
                base,
                last: base,
                orders: 0,
                alloc,
            }),
            Err(fault) => Err(NotMade { conn, fault }),
        }
    }
}
