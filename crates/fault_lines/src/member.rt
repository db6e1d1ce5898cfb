//! Which member of an event a fault is of.

ghost use Rattle.std.specs.Prelude.{◌≡◌, ◌&&◌, length, codes, bytes_eq};
ghost use Rattle.std.specs.List.{list_all};
ghost use Rattle.std.specs.Option.{option_copied};
ghost use Rattle.serde_json.specs.Find.{as_i64};
ghost use Rattle.serde_json.specs.View.{members_view, number_view, view};
ghost use Rattle.attributes.specs.Character.{is_name, is_name_byte, is_printable};
ghost use Rattle.attributes.specs.Fault.{is_attribute};
ghost use Rattle.event_json.specs.Payload.{is_payload};
ghost use Rattle.event_json.specs.Spelling.{given_in, given_whole, members_in};
ghost use Rattle.fault_lines.specs.Member.{first_where, is_fit, is_misnamed, is_unfit, member_at_fault};

use crate::words::attribute_name;
use attributes::Fault;
use serde_json::{Map, Number, Value};

/// The name of the member that a fault's line tells: of a name or a value that no attribute has the
/// first in the order of names, of another fault always the same, if it has one.
pub fn member_at_fault<'a>(fault: Fault, tree: &'a Value) -> Option<&'a str>
    ensures { option_copied result ≡ member_at_fault fault (view tree.now) }
{
    match fault {
        Fault::ExtensionName => first_misnamed(tree),
        Fault::ExtensionValue => first_unfit(tree),
        _ => attribute_name(fault),
    }
}

/// The name to tell in a fault's line: an object's first member that no attribute may have.
fn first_misnamed(tree: &Value) -> Option<&str>
    ensures { option_copied result ≡ first_where is_misnamed (members_in (view tree.now)) }
{
    match tree.as_object() {
        Some(members) => misnamed_of(members),
        None => None,
    }
}

/// The name to tell in a fault's line: an object's first member whose value no attribute may have.
fn first_unfit(tree: &Value) -> Option<&str>
    ensures { option_copied result ≡ first_where is_unfit (members_in (view tree.now)) }
{
    match tree.as_object() {
        Some(members) => unfit_of(members),
        None => None,
    }
}

/// The name for a fault's line: of these members the first whose name no attribute may have.
fn misnamed_of(members: &Map<String, Value>) -> Option<&str>
    ensures { option_copied result ≡ first_where is_misnamed (members_view members.now.entries) }
{
    for (name, value) in members {
        if is_misnamed(name.as_str(), value) {
            return Some(name.as_str());
        }
    }
    None
}

/// The name for a fault's line: of these members the first whose value no attribute may have.
fn unfit_of(members: &Map<String, Value>) -> Option<&str>
    ensures { option_copied result ≡ first_where is_unfit (members_view members.now.entries) }
{
    for (name, value) in members {
        if is_unfit(name.as_str(), value) {
            return Some(name.as_str());
        }
    }
    None
}

/// For a fault's line: whether a set member, without data, has a name that no attribute has.
fn is_misnamed(name: &str, value: &Value) -> bool
    ensures { result ≡ is_misnamed name.now (view value.now) }
{
    !is_payload(name) && !value.is_null() && !is_name(name)
}

/// For a fault's line: whether a member without data has a value that no attribute has.
fn is_unfit(name: &str, value: &Value) -> bool
    ensures { result ≡ is_unfit name.now (view value.now) }
{
    !is_payload(name) && !is_fit(value)
}

/// For a fault's line: whether a member of that name carries data.
fn is_payload(name: &str) -> bool
    ensures { result ≡ is_payload name.now }
{
    name == "data" || name == "data_base64"
}

/// For a fault's line: whether a member's value is unset or that of an attribute.
fn is_fit(value: &Value) -> bool
    ensures { result ≡ is_fit (given_in (view value.now)) }
{
    match value {
        Value::Null => true,
        Value::Bool(_) => true,
        Value::Number(number) => is_integer(number),
        Value::String(text) => is_printable(text.as_str()),
        Value::Array(_) => false,
        Value::Object(_) => false,
    }
}

/// For a fault's line: whether a member's number is a whole one of 32 bits.
fn is_integer(number: &Number) -> bool
    ensures { result ≡ is_attribute (given_whole (as_i64 (number_view number.now))) }
{
    match number.as_i64() {
        Some(n) => n >= -2_147_483_648 && n < 2_147_483_648,
        None => false,
    }
}

/// For a fault's line: whether no character of a member is a control character.
fn is_printable(text: &str) -> bool
    ensures { result ≡ is_printable text.now }
{
    text.chars().all(|c| !c.is_control())
}

/// For a fault's line: whether a byte of a name is a lower-case letter or a digit of ASCII.
fn is_name_byte(byte: u8) -> bool
    ensures { result ≡ is_name_byte byte }
{
    (byte >= b'a' && byte <= b'z') || (byte >= b'0' && byte <= b'9')
}

/// For a fault's line: whether each byte of a name is a lower-case letter or a digit of ASCII.
fn are_name_bytes(name: &str) -> bool
    ensures { result ≡ list_all is_name_byte name.now }
{
    name.bytes().all(|b| is_name_byte(b))
}

/// For a fault's line: whether a member's name is `data`.
fn is_data(name: &str) -> bool
    ensures { result ≡ bytes_eq name.now (codes "data") }
{
    name == "data"
}

/// For a fault's line: whether a member's name is one of an attribute.
fn is_name(name: &str) -> bool
    ensures { result ≡ is_name name.now }
{
    !name.is_empty() && are_name_bytes(name) && !is_data(name)
}
