//! Rows of the three tables, as they are read.

ghost use Rattle.std.specs.Prelude.{◌≡◌, ◌≢◌, ◌<◌, ℕ, pos, List, length, IfSome, IfNone, IsUtf8};
ghost use Rattle.sqlite_value.specs.declared.value.Value.TheVariants.{Int, Text as Words};
ghost use Rattle.sqlite_value.specs.Order.{column};
ghost use Rattle.outbox.specs.Order.{Accepted};
ghost use Rattle.outbox.specs.Service.{code};
ghost use Rattle.outbox.specs.steps.Change.{stored_order, stored_row, shown_service};
ghost use Rattle.outbox.specs.declared.status.Status.{Status};

use crate::status::Status;
use sqlite::Row;
use sqlite::types::ValueRef;
use std::str;

/// What a row of `outbox` holds.
#[derive(Clone, Copy)]
pub(crate) struct Stored<'row> {
    pub(crate) number: u64,
    pub(crate) status: Status,
    pub(crate) order: u64,
    pub(crate) at: &'row str,
}

/// The whole number, 0 or more, that a row of the outbox's tables has there.
fn number_at(row: &Row, at: usize) -> Option<u64>
    ensures some { IfSome result (λ n. column row.now at ≡ Int (pos n)) }
    ensures none { IfNone result ((n : ℕ) → at < length row.now → column row.now at ≢ Int (pos n)) }
{
    match row.get_ref(at) {
        Ok(ValueRef::Int(n)) if n >= 0 => Some(n as u64),
        _ => None,
    }
}

/// The text that a row of the outbox's tables has there.
fn text_at(row: &Row, at: usize) -> Option<&str>
    ensures some { IfSome result (λ t. column row.now at ≡ Words t.now) }
    ensures none { IfNone result ((t : List ℕ) → IsUtf8 t → at < length row.now
        → column row.now at ≢ Words t) }
{
    match row.get_ref(at) {
        Ok(ValueRef::Text(bytes)) => match str::from_utf8(bytes) {
            Ok(text) => Some(text),
            Err(_) => None,
        },
        _ => None,
    }
}

/// The order's status whose number a row of the outbox's tables has there.
pub(crate) fn status_in_row(row: &Row, at: usize) -> Option<Status>
    ensures some { IfSome result (λ s. column row.now at ≡ Int (pos (code s))) }
    ensures none { IfNone result ((s : Status) → at < length row.now
        → column row.now at ≢ Int (pos (code s))) }
{
    match number_at(row, at) {
        Some(number) => Status::of_code(number),
        None => None,
    }
}

/// What a row of `outbox` holds, where it is that of a number and a command.
pub(crate) fn read_row(row: &Row) -> Option<Stored<'_>>
    ensures some { IfSome result (λ s. row.now ≡ stored_row s.number
        (record { status = s.status; order = s.order; at = s.at.now })) }
    ensures text { IfSome result (λ s. IsUtf8 s.at.now) }
    ensures none { IfNone result ((number : ℕ) (c : Accepted) → IsUtf8 c.at
        → row.now ≢ stored_row number c) }
{
    if row.column_count() != 4 {
        return None;
    }
    let number = number_at(row, 0)?;
    let status = status_in_row(row, 1)?;
    let order = number_at(row, 2)?;
    let at = text_at(row, 3)?;
    Some(Stored {
        number,
        status,
        order,
        at,
    })
}

/// The order and the status of a row of `orders`.
pub(crate) fn order_in(row: &Row) -> Option<(u64, Status)>
    ensures some { IfSome result (λ p. row.now ≡ stored_order p.0 p.1) }
    ensures none { IfNone result ((order : ℕ) (status : Status)
        → row.now ≢ stored_order order status) }
{
    if row.column_count() != 2 {
        return None;
    }
    let order = number_at(row, 0)?;
    let status = status_in_row(row, 1)?;
    Some((order, status))
}

/// The source and the base of the row of an outbox's `service`.
pub(crate) fn source_in(row: &Row) -> Option<(&str, u64)>
    ensures some { IfSome result (λ p. row.now ≡ shown_service p.0.now p.1) }
    ensures none { IfNone result ((source : List ℕ) (base : ℕ) → IsUtf8 source
        → row.now ≢ shown_service source base) }
{
    if row.column_count() != 3 {
        return None;
    }
    let one = number_at(row, 0)?;
    let source = text_at(row, 1)?;
    let base = number_at(row, 2)?;
    if one == 1 { Some((source, base)) } else { None }
}
