//! The statements that make and drop tables.

ghost use Rattle.std.specs.Prelude.{◌≡◌, [], ◌∷◌, IsTrue, OnOk, OnErr};
ghost use Rattle.sqlite.specs.Held.{state};
ghost use Rattle.sqlite.specs.State.{ExecutesInside, HasCleanDisk, Survives};
ghost use Rattle.database_layout.specs.Layout.{GainsInbox2, GainsService, HasInbox, inbox_tree, schema_in};
ghost use Rattle.database_layout.specs.Making.{Changes, Makes, both_in, service_trees, upgraded};
ghost use Rattle.database_layout.specs.Texts.{create_orders, create_outbox, create_service, drop_inbox};
ghost use Rattle.database_layout.specs.declared.layout.Layout.{Layout};
ghost use Rattle.database_layout.specs.States.{KeepsCommitIfRefused};

use sqlite::{Alter, Error, Transaction};

/// CREATE TABLE service.
fn create_service<S: Alter>(tx: &mut Transaction<'_, S>) -> Result<usize, Error>
    ensures same_reference { tx.new.conn.ghost_name ≡ tx.old.conn.ghost_name }
    ensures runs { HasCleanDisk (state S.Store tx.new.conn.now)
        → IsTrue (state S.Store tx.old.conn.now).in_transaction
        → ExecutesInside 0 create_service []
        (state S.Store tx.old.conn.now) (state S.Store tx.new.conn.now) result }
    ensures survives { Survives
        (state S.Store tx.old.conn.now) (state S.Store tx.new.conn.now) (λ _. ⊥) }
{
    tx.execute(
        "CREATE TABLE service (one INTEGER PRIMARY KEY CHECK (one = 1), source TEXT NOT NULL, base INTEGER NOT NULL CHECK (base >= 0)) STRICT",
        &[],
    )
}

/// CREATE TABLE orders.
fn create_orders<S: Alter>(tx: &mut Transaction<'_, S>) -> Result<usize, Error>
    ensures same_reference { tx.new.conn.ghost_name ≡ tx.old.conn.ghost_name }
    ensures runs { HasCleanDisk (state S.Store tx.new.conn.now)
        → IsTrue (state S.Store tx.old.conn.now).in_transaction
        → ExecutesInside 0 create_orders []
        (state S.Store tx.old.conn.now) (state S.Store tx.new.conn.now) result }
    ensures survives { Survives
        (state S.Store tx.old.conn.now) (state S.Store tx.new.conn.now) (λ _. ⊥) }
{
    tx.execute(
        "CREATE TABLE orders (number INTEGER PRIMARY KEY, state INTEGER NOT NULL CHECK (state >= 1 AND state <= 3)) STRICT",
        &[],
    )
}

/// CREATE TABLE outbox.
fn create_outbox<S: Alter>(tx: &mut Transaction<'_, S>) -> Result<usize, Error>
    ensures same_reference { tx.new.conn.ghost_name ≡ tx.old.conn.ghost_name }
    ensures runs { HasCleanDisk (state S.Store tx.new.conn.now)
        → IsTrue (state S.Store tx.old.conn.now).in_transaction
        → ExecutesInside 0 create_outbox []
        (state S.Store tx.old.conn.now) (state S.Store tx.new.conn.now) result }
    ensures survives { Survives
        (state S.Store tx.old.conn.now) (state S.Store tx.new.conn.now) (λ _. ⊥) }
{
    tx.execute(
        "CREATE TABLE outbox (number INTEGER PRIMARY KEY, kind INTEGER NOT NULL CHECK (kind >= 1 AND kind <= 3), order_number INTEGER NOT NULL, at TEXT NOT NULL) STRICT",
        &[],
    )
}

/// DROP TABLE inbox.
fn drop<S: Alter>(tx: &mut Transaction<'_, S>) -> Result<usize, Error>
    ensures same_reference { tx.new.conn.ghost_name ≡ tx.old.conn.ghost_name }
    ensures runs { HasCleanDisk (state S.Store tx.new.conn.now)
        → IsTrue (state S.Store tx.old.conn.now).in_transaction
        → ExecutesInside 0 drop_inbox []
        (state S.Store tx.old.conn.now) (state S.Store tx.new.conn.now) result }
    ensures survives { Survives
        (state S.Store tx.old.conn.now) (state S.Store tx.new.conn.now) (λ _. ⊥) }
{
    tx.execute("DROP TABLE inbox", &[])
}

/// Makes the three tables of a service by CREATE, where the layout has room for them. A refusal may
/// leave some in the transaction, which its caller then gives up.
pub fn make_service<S: Alter>(tx: &mut Transaction<'_, S>) -> Result<(), Error>
    ensures same_reference { tx.new.conn.ghost_name ≡ tx.old.conn.ghost_name }
    ensures made { HasCleanDisk (state S.Store tx.new.conn.now)
        → IsTrue (state S.Store tx.old.conn.now).in_transaction
        → OnOk result ((before after : Layout) → GainsService before after
        → (state S.Store tx.old.conn.now).now.schema ≡ schema_in before
        → Makes (schema_in before) (schema_in after) (service_trees after)
        (state S.Store tx.old.conn.now) (state S.Store tx.new.conn.now)) }
    ensures failed { KeepsCommitIfRefused (state S.Store tx.old.conn.now)
        (state S.Store tx.new.conn.now) result }
    ensures survives { Survives
        (state S.Store tx.old.conn.now) (state S.Store tx.new.conn.now) (λ _. ⊥) }
{
    create_service(tx)?;
    create_orders(tx)?;
    create_outbox(tx)?;
    Ok(())
}

/// Makes the table of an inbox of version 2 if the layout has room for it or one of version 1.
pub fn make_inbox<S: Alter>(tx: &mut Transaction<'_, S>) -> Result<(), Error>
    ensures same_reference { tx.new.conn.ghost_name ≡ tx.old.conn.ghost_name }
    ensures made { HasCleanDisk (state S.Store tx.new.conn.now)
        → IsTrue (state S.Store tx.old.conn.now).in_transaction
        → OnOk result ((before after : Layout) → GainsInbox2 before after
        → (state S.Store tx.old.conn.now).now.schema ≡ schema_in before
        → Makes (schema_in before) (schema_in after) (inbox_tree after ∷ [])
        (state S.Store tx.old.conn.now) (state S.Store tx.new.conn.now)) }
    ensures beside { HasCleanDisk (state S.Store tx.new.conn.now)
        → IsTrue (state S.Store tx.old.conn.now).in_transaction
        → OnOk result ((l : Layout) → HasInbox l
        → (state S.Store tx.old.conn.now).now.schema ≡ schema_in l
        → Makes (schema_in l) (both_in l) (inbox_tree (upgraded l) ∷ [])
        (state S.Store tx.old.conn.now) (state S.Store tx.new.conn.now)) }
    ensures failed { KeepsCommitIfRefused (state S.Store tx.old.conn.now)
        (state S.Store tx.new.conn.now) result }
    ensures survives { Survives
        (state S.Store tx.old.conn.now) (state S.Store tx.new.conn.now) (λ _. ⊥) }
{
    tx.execute(
        "CREATE TABLE inbox2 (place INTEGER PRIMARY KEY, source TEXT NOT NULL, id TEXT NOT NULL, number INTEGER NOT NULL, body TEXT NOT NULL, block INTEGER NOT NULL, UNIQUE (source, id, body)) STRICT",
        &[],
    )?;
    Ok(())
}

/// Drops the table of an inbox of version 1, where the file has one of version 2 too.
pub fn drop_inbox<S: Alter>(tx: &mut Transaction<'_, S>) -> Result<(), Error>
    ensures same_reference { tx.new.conn.ghost_name ≡ tx.old.conn.ghost_name }
    ensures dropped { HasCleanDisk (state S.Store tx.new.conn.now)
        → IsTrue (state S.Store tx.old.conn.now).in_transaction
        → OnOk result ((l : Layout) → HasInbox l
        → (state S.Store tx.old.conn.now).now.schema ≡ both_in l
        → Changes (both_in l) (schema_in (upgraded l)) (schema_in (upgraded l))
        (state S.Store tx.old.conn.now) (state S.Store tx.new.conn.now)) }
    ensures failed { KeepsCommitIfRefused (state S.Store tx.old.conn.now)
        (state S.Store tx.new.conn.now) result }
    ensures survives { Survives
        (state S.Store tx.old.conn.now) (state S.Store tx.new.conn.now) (λ _. ⊥) }
{
    drop(tx)?;
    Ok(())
}
