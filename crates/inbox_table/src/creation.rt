//! A new table.

ghost use Rattle.std.specs.Prelude.{◌≡◌, true, Err, IsTrue, IfErr, OnOk, OnErr};
ghost use Rattle.sqlite.specs.Held.{state};
ghost use Rattle.sqlite.specs.State.{HasCleanDisk, Survives};
ghost use Rattle.database_layout.specs.Layout.{has_inbox};
ghost use Rattle.inbox_table.specs.Calls.{CreatesIfDone, IsAsItWas, MayMake};
ghost use Rattle.inbox_table.specs.declared.fault.TableFault.TheVariants.{Foreign};

use crate::fault::TableFault;
use database_layout::{Layout, has_inbox, make_inbox};
use sqlite::{Alter, Connection};

/// Makes the inbox's table, where none of the name is there, of either version, and nothing lies
/// beside it but a service.
pub(crate) fn create<S: Alter>(conn: &mut Connection<S>) -> Result<(), TableFault>
    ensures made { CreatesIfDone (state S.Store conn.old) (state S.Store conn.new) result }
    ensures there { has_inbox (state S.Store conn.old).now.schema ≡ true → result ≡ Err Foreign }
    ensures foreign { IfErr result (λ f. f ≡ Foreign
        → has_inbox (state S.Store conn.old).now.schema ≡ true) }
    ensures untouched { IfErr result (λ f. f ≡ Foreign → conn.new ≡ conn.old) }
    ensures same { OnErr result (IsAsItWas (state S.Store conn.old) (state S.Store conn.new)) }
    ensures crash { Survives (state S.Store conn.old) (state S.Store conn.new)
        (MayMake (state S.Store conn.old).now) }
{
    if has_inbox(conn.schema()) {
        return Err(TableFault::Foreign);
    }
    let Some(before) = Layout::of(conn.schema()) else {
        return Err(TableFault::Store);
    };
    let Some(after) = before.with_inbox2() else {
        return Err(TableFault::Store);
    };
    if !conn.is_autocommit() {
        return Err(TableFault::Store);
    }
    let mut tx = conn.transaction();
    make_inbox(&mut tx)?;
    tx.commit()?;
    Ok(())
}
