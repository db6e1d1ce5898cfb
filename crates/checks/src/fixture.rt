//! What the tests stand on: databases in memory, and services over them. Want of memory and what
//! can't be had end a test at once: so nothing is let go half-way, which would be dear to prove.

use attributes::{Moment, Sequenced, Text};
use inbox_table::Table;
use outbox::{OutboxFault, Service};
use sqlite::{Connection, MemStore};
use std::process::Abort;

const MAX: u64 = 9_223_372_036_854_775_807;

/// A database in memory.
pub fn database<R: AllocGlobal + Abort>(rt: &R) -> Connection<MemStore> {
    Connection::open_in_memory(rt.alloc()).expect(rt, "a database")
}

/// A new table of a database in memory.
pub fn created<R: AllocGlobal + Abort>(rt: &R) -> Table<MemStore> {
    match Table::create(rt.alloc(), database(rt)) {
        Ok(table) => table,
        Err(_) => panic!(rt; "no table"),
    }
}

/// The time of all commands.
pub fn time<R: AllocGlobal + Abort>(rt: &R) -> Moment {
    Moment::of_text(rt.alloc(), "2024-02-29T10:00:00Z").expect(rt, "a time")
}

/// A new service of the source `/orders` in memory, whose rows come after the base.
pub fn create<R: AllocGlobal + Abort>(rt: &R, base: u64) -> Service<MemStore> {
    let source = Text::of(rt.alloc(), "/orders").expect(rt, "memory");
    assert!(rt; source.is_source() && source.as_str().len() <= 1024 && base <= MAX);
    match Service::create(rt.alloc(), database(rt), &source, base) {
        Ok(service) => service,
        Err(_) => panic!(rt; "no service"),
    }
}

/// Places an order.
fn place(
    service: &mut Service<MemStore>,
    order: u64,
    at: &Moment,
) -> Result<Sequenced, OutboxFault> {
    if order == 0 || order > MAX || at.as_str().len() > 64 {
        return Err(OutboxFault::Foreign);
    }
    service.place(order, at)
}

/// Places so many orders, and answers whether it did.
fn place_all(service: &mut Service<MemStore>, at: &Moment, count: u64) -> bool {
    for order in 1..=count {
        if place(service, order, at).is_err() {
            return false;
        }
    }
    true
}

/// Places so many orders.
pub fn stock<R: AllocGlobal + Abort>(rt: &R, service: &mut Service<MemStore>, count: u64) {
    let is_placed = place_all(service, &time(rt), count);
    assert!(rt; is_placed);
}
