//! Calls of services, whatever the store of their database is.

use crate::said::{Said, line};
use crate::tables::acts::{End, Tried, done, parted, refused};
use crate::tables::known::Known;
use crate::words::number_of;
use attributes::{Batch, Moment, Sequenced, Text};
use outbox::{NotMade, OutboxFault, Service};
use sqlite::{Alter, Connection};
use std::alloc::Global;

/// The greatest number of a row, an order or a base.
const MAX: u64 = 9_223_372_036_854_775_807;

/// The time of all commands.
const TIME: &str = "2024-02-29T10:00:00Z";

/// The faults of a service, in the order of their numbers.
static FAULTS: [OutboxFault; 7] = [
    OutboxFault::OutOfMemory,
    OutboxFault::OrderExists,
    OutboxFault::NoOrder,
    OutboxFault::WrongState,
    OutboxFault::Full,
    OutboxFault::Store,
    OutboxFault::Foreign,
];

/// Adds a fault by its name, unless it is want of memory, which has the call made again.
fn faulty(out: &mut String, fault: OutboxFault) -> End {
    refused(fault != OutboxFault::OutOfMemory && write!(out, "{fault}\n").is_ok())
}

/// `faults service`: each by its number and name.
pub fn faults(out: &mut String) -> bool {
    for fault in &FAULTS {
        let (number, fault) = (fault.number(), *fault);
        if write!(out, "{number} {fault}\n").is_err() {
            return false;
        }
    }
    true
}

/// The command of a word.
fn command<S: Alter>(
    service: &mut Service<S>,
    word: &str,
    order: u64,
    at: &Moment,
) -> Result<Sequenced, OutboxFault> {
    if order == 0 || order > MAX || at.as_str().len() > 64 {
        return Err(OutboxFault::Foreign);
    }
    match word {
        "place" => service.place(order, at),
        "ship" => service.ship(order, at),
        _ => service.cancel(order, at),
    }
}

/// Gives a command; once more where memory was refused, with what was there then.
fn commanded<S: Alter>(
    service: &mut Service<S>,
    word: &str,
    order: u64,
    at: &Moment,
    said: &mut Said,
) -> Result<Sequenced, OutboxFault> {
    match command(service, word, order, at) {
        Err(OutboxFault::OutOfMemory) => {
            let (orders, rows) = (service.orders(), service.rows());
            if write!(said.left, "orders {orders}, rows {rows}").is_err() {
                return Err(OutboxFault::OutOfMemory);
            }
            command(service, word, order, at)
        }
        told => told,
    }
}

/// The rows after a number; once more where memory was refused.
fn rows_read<S: Alter>(service: &mut Service<S>, after: u64) -> Result<Batch, OutboxFault> {
    match service.rows_after(after, 100) {
        Err(OutboxFault::OutOfMemory) => service.rows_after(after, 100),
        told => told,
    }
}

/// Adds the rows after a number.
fn rows_after<S: Alter>(
    known: &Known,
    service: &mut Service<S>,
    after: u64,
    out: &mut String,
) -> End {
    match rows_read(service, after) {
        Ok(rows) => done(known.tell_line(out, &rows)),
        Err(fault) => faulty(out, fault),
    }
}

/// Gives a command at the time of all, and tells its event or why it is refused.
fn order<S: Alter>(
    known: &Known,
    service: &mut Service<S>,
    word: &str,
    number: u64,
    at: &Moment,
    said: &mut Said,
) -> End {
    match commanded(service, word, number, at, said) {
        Ok(event) => done(line(&mut said.text, known.name_of(event.event().text()))),
        Err(fault) => faulty(&mut said.text, fault),
    }
}

/// `place|ship|cancel ORDER` or `rows AFTER`
fn one<S: Alter>(
    known: &Known,
    service: &mut Service<S>,
    text: &str,
    at: &Moment,
    said: &mut Said,
) -> End {
    let Some((word, number)) = text.split_once(' ') else {
        return End::Untold;
    };
    match number_of(number) {
        Some(number) => match word {
            "rows" => rows_after(known, service, number, &mut said.text),
            _ => order(known, service, word, number, at, said),
        },
        None => End::Untold,
    }
}

/// Gives commands and asks for rows, one after another, at a time.
fn all_of<S: Alter>(
    known: &Known,
    service: &mut Service<S>,
    text: &str,
    at: &Moment,
    said: &mut Said,
) -> End {
    let mut all = End::Done;
    for call in text.split(';') {
        match one(known, service, call.trim(), at, said) {
            End::Done => {}
            End::Refused => all = End::Refused,
            End::Untold => return End::Untold,
        }
    }
    all
}

/// `orders CALL [; CALL]..`: gives commands and asks for rows, one after another; it is done where
/// none is refused.
fn orders<S: Alter>(
    alloc: Global,
    known: &Known,
    service: &mut Service<S>,
    text: &str,
    said: &mut Said,
) -> End {
    match Moment::of_text(alloc, TIME) {
        Ok(at) => all_of(known, service, text, &at, said),
        Err(_) => End::Untold,
    }
}

/// Places the orders from 1 to a number, and answers whether it did.
fn place_all<S: Alter>(service: &mut Service<S>, count: u64, at: &Moment) -> bool {
    for order in 1..=count {
        if command(service, "place", order, at).is_err() {
            return false;
        }
    }
    true
}

/// `fill ORDERS`: places the orders from 1 to that number, and tells how many rows there are then.
fn fill<S: Alter>(alloc: Global, service: &mut Service<S>, text: &str, out: &mut String) -> End {
    let is_filled = match (number_of(text), Moment::of_text(alloc, TIME)) {
        (Some(count), Ok(at)) => place_all(service, count, &at),
        _ => false,
    };
    let rows = service.rows();
    done(is_filled && write!(out, "rows {rows}\n").is_ok())
}

/// Adds the source and base of a service, and how many rows it has.
fn tell<S: Alter>(service: &Service<S>, out: &mut String) -> bool {
    let (base, rows) = (service.base(), service.rows());
    out.push_str(service.source().as_str()).is_ok()
        && write!(out, ", base {base}, rows {rows}\n").is_ok()
}

/// Adds the rows that a service holds.
fn tell_rows<S: Alter>(known: &Known, service: &mut Service<S>, out: &mut String) -> bool {
    match service.rows_after(0, 100) {
        Ok(rows) => out.push_str("service ").is_ok() && known.tell(out, &rows),
        Err(fault) => write!(out, "rows refused: {fault}").is_ok(),
    }
}

/// A call of a service that was made, opened or adopted.
fn call<S: Alter>(
    alloc: Global,
    known: &Known,
    service: &mut Service<S>,
    word: &str,
    text: &str,
    said: &mut Said,
) -> End {
    match word {
        "orders" => orders(alloc, known, service, text, said),
        "fill" => fill(alloc, service, text, &mut said.text),
        "look" => done(tell_rows(known, service, &mut said.text)),
        _ => done(tell(service, &mut said.text)),
    }
}

/// Adds why there is no service.
fn tell_not_made(word: &str, fault: OutboxFault, out: &mut String) -> End {
    if word != "look" {
        return faulty(out, fault);
    }
    done(match fault {
        OutboxFault::Foreign => out.push_str("no service").is_ok(),
        _ => write!(out, "service refused: {fault}").is_ok(),
    })
}

/// The source and base of words `service SOURCE BASE`.
fn source_and_base(alloc: Global, text: &str) -> Option<(Text, u64)> {
    let (source, base) = parted(text).1.split_once(' ')?;
    let base = number_of(base)?;
    Some((Text::of(alloc, source).ok()?, base))
}

/// A service of this source and base, made or opened. One that can't have them is told as want of
/// memory is, by no answer.
fn founded<S: Alter + Drop>(
    alloc: Global,
    conn: Connection<S>,
    word: &str,
    source: &Text,
    base: u64,
) -> Result<Service<S>, NotMade<S>> {
    if !source.is_source() || source.as_str().len() > 1024 || base > MAX {
        let fault = OutboxFault::OutOfMemory;
        return Err(NotMade { conn, fault });
    }
    match word {
        "open" => Service::open(alloc, conn, source, base),
        _ => Service::create(alloc, conn, source, base),
    }
}

/// The service that a call is of: one that is made or opened, or the one that a database has.
fn made<S: Alter + Drop>(
    alloc: Global,
    conn: Connection<S>,
    word: &str,
    text: &str,
) -> Result<Service<S>, NotMade<S>> {
    match word {
        "create" | "open" => match source_and_base(alloc, text) {
            Some((source, base)) => founded(alloc, conn, word, &source, base),
            None => {
                let fault = OutboxFault::OutOfMemory;
                Err(NotMade { conn, fault })
            }
        },
        _ => Service::adopt(alloc, conn),
    }
}

/// A call of the service that a database has; `create|open service SOURCE BASE` and `adopt service`
/// tell its source and base, and how many rows it has, and `look` what it holds.
pub fn of_service<S: Alter + Drop>(
    alloc: Global,
    conn: Connection<S>,
    known: &Known,
    word: &str,
    text: &str,
    said: &mut Said,
) -> Tried<S> {
    match made(alloc, conn, word, text) {
        Ok(mut service) => {
            let end = call(alloc, known, &mut service, word, text, said);
            let conn = service.into_connection();
            Tried { conn, end }
        }
        Err(NotMade { conn, fault }) => {
            let end = tell_not_made(word, fault, &mut said.text);
            Tried { conn, end }
        }
    }
}
