//! A window of rows, read before its workers start.

ghost use Rattle.std.specs.Prelude.{◌≡◌, ◌⊎◌, ◌≤◌, ◌++◌, IsTrue, OnOk, IfOk, IfErr};
ghost use Rattle.sqlite.specs.State.{HasCleanDisk};
ghost use Rattle.sqlite.specs.Held.{state};
ghost use Rattle.outbox.specs.Call.{IsServiceReading};
ghost use Rattle.relay_fan.specs.steps.Lane.{ShowsWindow};
ghost use Rattle.relay.specs.declared.fault.RelayFault.TheVariants.{OutOfMemory, Store};
ghost use Rattle.outbox.specs.Shown.{IsSameService};

use attributes::Batch;
use outbox::Service;
use paging::MAX_PAGE;
use relay::{RelayFault, fault_of};
use sqlite::Alter;

/// The most pages of a window: 1,000 rows.
const MAX_PAGES: u64 = 10;

/// Moves events behind others in a relay's window of rows.
fn append_page(rows: &mut Batch, page: Batch) -> Result<(), RelayFault>
    ensures ok { OnOk result (rows.new ≡ rows.old ++ page) }
    ensures fault { IfErr result (λ f. f ≡ OutOfMemory) }
{
    let mut page = page;
    'events: while let Some(event) = page.take_front() {
        match rows.push(event) {
            Ok(()) => {}
            Err(_) => return Err(RelayFault::OutOfMemory),
        }
    }
    Ok(())
}

/// Adds the next page to a relay's window, and answers whether it was full, so more may follow.
fn add_page<S: Alter>(
    service: &mut Service<S>,
    start: u64,
    rows: &mut Batch,
) -> Result<bool, RelayFault>
    requires { service.old.base ≤ start }
    ensures kept_service { IsSameService service.old service.new }
    ensures service { IsServiceReading (state S.Store service.old.conn) (state S.Store service.new.conn) }
    ensures open { HasCleanDisk (state S.Store service.new.conn)
        → OnOk result (IsTrue (state S.Store service.old.conn).is_open) }
    ensures rows { HasCleanDisk (state S.Store service.new.conn) → OnOk result
        (ShowsWindow service.old.source service.old.base start
        (state S.Store service.old.conn).now rows.old
        → ShowsWindow service.old.source service.old.base start
        (state S.Store service.old.conn).now rows.new) }
    ensures fault { IfErr result (λ f. (f ≡ OutOfMemory) ⊎ (f ≡ Store)) }
{
    let Some(after) = start.checked_add(rows.len()) else {
        return Err(RelayFault::Store);
    };
    let page = match service.rows_after(after, MAX_PAGE) {
        Ok(page) => page,
        Err(fault) => return Err(fault_of(fault)),
    };
    let is_full = page.len() == MAX_PAGE;
    match append_page(rows, page) {
        Ok(()) => Ok(is_full),
        Err(fault) => Err(fault),
    }
}

/// A relay's next rows after a number, which the base doesn't exceed: all, or some 1,000.
pub(crate) fn read_window<S: Alter>(
    service: &mut Service<S>,
    start: u64,
) -> Result<Batch, RelayFault>
    requires { service.old.base ≤ start }
    ensures kept_service { IsSameService service.old service.new }
    ensures service { IsServiceReading (state S.Store service.old.conn) (state S.Store service.new.conn) }
    ensures open { HasCleanDisk (state S.Store service.new.conn)
        → OnOk result (IsTrue (state S.Store service.old.conn).is_open) }
    ensures rows { HasCleanDisk (state S.Store service.new.conn) → IfOk result
        (ShowsWindow service.old.source service.old.base start
        (state S.Store service.old.conn).now) }
    ensures fault { IfErr result (λ f. (f ≡ OutOfMemory) ⊎ (f ≡ Store)) }
{
    let mut rows = match service.rows_after(start, MAX_PAGE) {
        Ok(rows) => rows,
        Err(fault) => return Err(fault_of(fault)),
    };
    for _page in 1..MAX_PAGES {
        match add_page(service, start, &mut rows) {
            Ok(true) => {}
            Ok(false) => return Ok(rows),
            Err(fault) => return Err(fault),
        }
    }
    Ok(rows)
}
