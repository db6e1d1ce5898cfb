//! Where in data a number stands that is at fault.

ghost use Rattle.std.specs.Prelude.{◌≡◌, ◌++◌, IfOk, OnOk, option_map, string_bytes};
ghost use Rattle.serde_json.specs.View.{items_view, members_view, view};
ghost use Rattle.fault_lines.specs.Place.{items_place, key_char, name_in_pointer, members_place, place};

use serde_json::{Map, Value};
use std::alloc::{AllocError, Global};

/// The JSON pointer (RFC 6901) for a fault's line: of the first number within a value that isn't
/// whole or doesn't fit 64 bits, if there is one; an object's members are looked at in the order of
/// their names. Time in proportion to the value.
#[cycle(places)]
pub(crate) fn place(alloc: Global, value: &Value) -> Result<Option<String>, AllocError>
    ensures { IfOk result (λ found. option_map string_bytes found ≡ place (view value.now)) }
{
    match value {
        Value::Number(number) => {
            if number.is_f64() {
                Ok(Some(String::new(alloc)))
            } else {
                Ok(None)
            }
        }
        Value::Array(items) => items_place(alloc, items.as_slice()),
        Value::Object(members) => members_place(alloc, members),
        _ => Ok(None),
    }
}

/// The JSON pointer for a fault's line, of the first such number of an array's items.
#[cycle(places)]
fn items_place(alloc: Global, items: &[Value]) -> Result<Option<String>, AllocError>
    ensures { IfOk result (λ found. option_map string_bytes found ≡ items_place 0 (items_view items.now)) }
{
    for (at, item) in items.iter().enumerate() {
        if let Some(rest) = place(alloc, item)? {
            let found = format!(in alloc; "/{at}{rest}")?;
            return Ok(Some(found));
        }
    }
    Ok(None)
}

/// The JSON pointer for a fault's line, of the first such number of an object's members.
#[cycle(places)]
fn members_place(alloc: Global, members: &Map<String, Value>) -> Result<Option<String>, AllocError>
    ensures { IfOk result (λ found. option_map string_bytes found ≡ members_place (members_view members.now.entries)) }
{
    for (name, value) in members {
        if let Some(rest) = place(alloc, value)? {
            let key = key_text(alloc, name.as_str())?;
            let found = format!(in alloc; "/{key}{rest}")?;
            return Ok(Some(found));
        }
    }
    Ok(None)
}

/// A name within the JSON pointer of a fault's line.
fn key_text(alloc: Global, name: &str) -> Result<String, AllocError>
    ensures { IfOk result (λ key. string_bytes key ≡ name_in_pointer name.now) }
{
    let mut key = String::new(alloc);
    for c in name.chars() {
        push_key_char(&mut key, c)?;
    }
    Ok(key)
}

/// Appends a character of a name to the JSON pointer of a fault's line.
fn push_key_char(key: &mut String, c: char) -> Result<(), AllocError>
    ensures { OnOk result (string_bytes key.new ≡ string_bytes key.old ++ key_char c) }
{
    match c {
        '~' => key.push_str("~0"),
        '/' => key.push_str("~1"),
        _ => key.push(c),
    }
}
