//! What came to a shared site, gathered page by page.

ghost use Rattle.std.specs.Prelude.{◌≡◌, ◌≤◌, ◌*◌, ◌++◌, List, IfOk, OnOk};
ghost use Rattle.attributes.specs.Event.{EventValue};
ghost use Rattle.site.specs.Arrival.{AreDistinct};
ghost use Rattle.site.specs.Page.{page};
ghost use Rattle.site_lock.specs.Pass.{leaves};
ghost use Rattle.keeper.specs.Keep.{AsksPages, EndsPaged, max_page};

use attributes::Batch;
use site::{DeskFault, MAX_PAGE};
use site_lock::laws::calls_follow;
use site_lock::{Pass, SharedSite};
use std::alloc::AllocError;
use std::sync::Wait;

/// Moves the events of a page behind others that the keeper gathers.
fn append(events: &mut Batch, page: Batch) -> Result<(), AllocError>
    ensures { OnOk result (events.new ≡ events.old ++ page) }
{
    let mut page = page;
    'events: while let Some(event) = page.take_front() {
        match events.push(event) {
            Ok(()) => {}
            Err(_) => return Err(AllocError),
        }
    }
    Ok(())
}

/// Waits for a turn a page, and asks for what the keeper lacks, the events that came to the site
/// behind the first `from`: so many pages at most, and none behind one that isn't full.
pub(crate) fn gathered<R: Wait>(
    rt: &R,
    shared: &SharedSite,
    pass: &mut Pass,
    from: u64,
    pages: u64,
) -> Result<Batch, DeskFault>
    requires own { pass.old.table ≡ shared.now }
    requires some { 1 ≤ pages }
    ensures asked { AsksPages pages from pass.old pass.new }
    ensures added { (others : List EventValue) × (leaves pass.new ≡ leaves pass.old ++ others) }
    ensures once { AreDistinct (leaves pass.new) }
    ensures page { IfOk result (λ events.
        events ≡ page (leaves pass.new) from (max_page * pages)) }
    ensures replied { OnOk result (EndsPaged pass.new) }
{
    calls_follow();
    let first = shared.fresh(rt, pass, from, MAX_PAGE);
    pass.stands();
    let mut events = match first {
        Ok(events) => events,
        Err(fault) => return Err(fault),
    };
    if events.len() < MAX_PAGE {
        return Ok(events);
    }
    for _page in 1..pages {
        let Some(next) = from.checked_add(events.len()) else {
            return Err(DeskFault::from(AllocError));
        };
        let more = shared.fresh(rt, pass, next, MAX_PAGE);
        pass.stands();
        let more = match more {
            Ok(more) => more,
            Err(fault) => return Err(fault),
        };
        let is_full = more.len() == MAX_PAGE;
        match append(&mut events, more) {
            Ok(()) => {}
            Err(error) => return Err(DeskFault::from(error)),
        }
        if !is_full {
            return Ok(events);
        }
    }
    Ok(events)
}
