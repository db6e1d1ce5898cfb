//! The event of an outbox row.

ghost use Rattle.std.specs.Prelude.{◌≡◌, ◌⊎◌, IfOk, IfErr, ◌++◌, length, ◌-◌, replicate, string_bytes};
ghost use Rattle.std.specs.Fmt.{decimal};
ghost use Rattle.attributes.specs.declared.scalar.Given.TheVariants as given;
ghost use Rattle.outbox.specs.Row.{twenty, type_of, row_event, row_parts};
ghost use Rattle.outbox.specs.declared.fault.OutboxFault.TheVariants.{OutOfMemory, Store};

use crate::fault::OutboxFault;
use crate::status::Status;
use attributes::{Event, Fault, Given, Parts, Sequenced, Text};
use std::alloc::{AllocError, Global};

fn in_decimal(alloc: Global, number: u64) -> Result<String, AllocError>
    ensures { IfOk result (λ t. string_bytes t ≡ decimal number) }
{
    Ok(format!(in alloc; "{}", number)?)
}

fn zeros(alloc: Global, count: usize) -> Result<String, AllocError>
    ensures { IfOk result (λ t. string_bytes t ≡ replicate count 48) }
{
    let mut text = String::new(alloc);
    for _place in 0..count {
        text.push('0')?;
    }
    Ok(text)
}

/// The twenty digits of a number, as the event of an outbox row has them.
fn in_twenty(alloc: Global, number: u64) -> Result<Text, AllocError>
    ensures { IfOk result (λ t. t ≡ twenty number) }
{
    let digits = in_decimal(alloc, number)?;
    let mut text = zeros(alloc, 20usize.saturating_sub(digits.as_str().len()))?;
    text.push_str(digits.as_str())?;
    Ok(Text::from_string(text))
}

fn type_text(status: Status) -> &'static str
    ensures { result.now ≡ type_of status }
{
    match status {
        Status::Placed => "order.placed",
        Status::Shipped => "order.shipped",
        Status::Cancelled => "order.cancelled",
    }
}

fn words(alloc: Global, text: &str) -> Result<Given, AllocError>
    ensures { IfOk result (λ g. g ≡ given.Words text.now) }
{
    Ok(Given::Words(Text::of(alloc, text)?))
}

fn parts(
    alloc: Global,
    source: &str,
    number: u64,
    status: Status,
    order: u64,
    at: &str,
) -> Result<Parts, AllocError>
    ensures { IfOk result (λ p. p ≡ row_parts source.now number
        (record { status = status; order = order; at = at.now })) }
{
    let mut parts = Parts::empty(alloc);
    parts.set("id", Given::Words(in_twenty(alloc, number)?))?;
    parts.set("sequence", Given::Words(in_twenty(alloc, number)?))?;
    parts.set("source", words(alloc, source)?)?;
    parts.set("specversion", words(alloc, "1.0")?)?;
    parts.set(
        "subject",
        Given::Words(Text::from_string(in_decimal(alloc, order)?)),
    )?;
    parts.set("time", words(alloc, at)?)?;
    parts.set("type", words(alloc, type_text(status))?)?;
    Ok(parts)
}

/// The event of an outbox's row. No row of a service is refused but for want of memory; should one
/// be, the answer is `Store`.
pub(crate) fn event(
    alloc: Global,
    source: &str,
    number: u64,
    status: Status,
    order: u64,
    at: &str,
) -> Result<Sequenced, OutboxFault>
    ensures event { IfOk result (λ e. e ≡ row_event source.now number
        (record { status = status; order = order; at = at.now })) }
    ensures fault { IfErr result (λ f. (f ≡ OutOfMemory) ⊎ (f ≡ Store)) }
{
    match Event::build(parts(alloc, source, number, status, order, at)?) {
        Ok(event) => match Sequenced::of(event) {
            Ok(event) => Ok(event),
            Err(_) => Err(OutboxFault::Store),
        },
        Err(Fault::OutOfMemory) => Err(OutboxFault::OutOfMemory),
        Err(_) => Err(OutboxFault::Store),
    }
}
