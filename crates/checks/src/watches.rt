//! What a watch of a long call is told.

ghost use Rattle.std.specs.Prelude.{⊤};

use crate::fixture::created;
use crate::wants::add_rows;
use attributes::Batch;
use inbox_table::{Table, Watch};
use sqlite::MemStore;
use std::cell::Cell;
use std::process::Abort;

/// What it was told the first two times, and how often it was told anything.
#[derive(Drop)]
struct Counted {
    first: Cell<(u64, u64)>,
    second: Cell<(u64, u64)>,
    times: Cell<u64>,
}

impl Watch for Counted {
    // What it keeps the test asks for.
    ghost told = { λ _ _ _. ⊤ };

    fn kept(&self, count: u64, all: u64) {
        let times = self.times.get();
        if times == 0 {
            self.first.set((count, all));
        } else if times == 1 {
            self.second.set((count, all));
        }
        self.times.set(times.saturating_add(1));
    }
}

/// Whether a table keeps so many events under a watch.
fn keeps<R: AllocGlobal + Abort>(
    rt: &R,
    table: &mut Table<MemStore>,
    watch: &Counted,
    count: u64,
) -> bool {
    let mut events = Batch::empty(rt.alloc());
    add_rows(rt.alloc(), &mut events, 1, count) && table.keep_watched(&events, watch) == Ok(count)
}

/// Whether a new table keeps so many events under a watch.
fn is_kept<R: AllocGlobal + Abort>(rt: &R, watch: &Counted, count: u64) -> bool {
    let mut table = created(rt);
    keeps(rt, &mut table, watch, count)
}

// A watch is a value of the test, which is told while the call goes on.
#[test]
fn a_watch_is_told_each_thousand(rt: HostRuntime) {
    let watch = Counted {
        first: Cell::new((0, 0)),
        second: Cell::new((0, 0)),
        times: Cell::new(0),
    };
    let is_told = is_kept(&rt, &watch, 2500)
        && watch.first.get() == (1000, 2500)
        && watch.second.get() == (2000, 2500)
        && watch.times.get() == 2;
    assert!(rt; is_told);
}
