//! From a file's bytes to the lines that tell what is wrong with them.

ghost use Rattle.std.specs.Prelude.{◌≡◌, IfOk, Some, false, true, map, option_map, string_bytes};
ghost use Rattle.std.specs.Option.{option_copied};
ghost use Rattle.serde_json.specs.View.{view};
ghost use Rattle.serde_json.specs.Written.{has_float};
ghost use Rattle.event_json.specs.Faulty.{member_of};
ghost use Rattle.fault_lines.specs.Member.{member_at_fault};
ghost use Rattle.fault_lines.specs.Lines.{IsFaultText, IsReadingText, IsToldText, attribute_and_value, event_line, is_of_number, told_lines, whole_file_line, id_member, id_of_member, if_short, is_plain_value, line_with, member_line, place_at_fault, pointer_member, string_text, value_member, where_members};

use crate::member::member_at_fault;
use crate::place::place;
use crate::words::{fault_name, hint, whole_hint, whole_words};
use attributes::{Fault, Text};
use event_json::{Faulty, ReadFault, read_faulty};
use serde_json::Value;
use std::alloc::{AllocError, Global};

/// How many bytes the text of a value that is shown may have.
const SHOWN: usize = 200;

/// The lines that tell what is wrong with the file of that name and these bytes: one for each
/// member that is no event or has no number, in their order, or one that says why the file is
/// refused as a whole. None where all are events with numbers.
///
/// Time and memory in proportion to the bytes, and to the name for each line.
pub fn fault_lines(alloc: Global, name: &Text, bytes: &[u8]) -> Result<Text, AllocError>
    ensures { IfOk result (IsFaultText name.now bytes.now) }
{
    told_text(alloc, name, bytes, true)
}

/// As [`fault_lines`], of events that need no numbers: nothing is told of a member whose number
/// alone is at fault. None where all are events.
pub fn reading_fault_lines(alloc: Global, name: &Text, bytes: &[u8]) -> Result<Text, AllocError>
    ensures { IfOk result (IsReadingText name.now bytes.now) }
{
    told_text(alloc, name, bytes, false)
}

/// The lines that tell what is wrong with a file, where numbers count or don't.
fn told_text(alloc: Global, name: &Text, bytes: &[u8], numbers: bool) -> Result<Text, AllocError>
    ensures { IfOk result (IsToldText numbers name.now bytes.now) }
{
    let file = string_text(alloc, name.as_str())?;
    let text = match read_faulty(alloc, bytes) {
        Ok(members) => member_lines(alloc, file.as_str(), members.as_slice(), numbers)?,
        Err(ReadFault::OutOfMemory) => return Err(AllocError),
        Err(fault) => file_line(alloc, file.as_str(), fault)?,
    };
    Ok(Text::from_string(text))
}

/// A text as a JSON string, for a line about a file at fault.
fn string_text(alloc: Global, words: &str) -> Result<String, AllocError>
    ensures { IfOk result (λ text. string_bytes text ≡ string_text words.now) }
{
    let value = Value::String(String::from_str(alloc, words)?);
    value.to_string(alloc)
}

/// The line that tells of the event at the index of the file of that name, with the words for its
/// fault and for what to do, which stand in JSON strings as they are. Time and memory in proportion
/// to them.
pub fn event_line(
    alloc: Global,
    name: &Text,
    index: u64,
    id: &str,
    words: &str,
    hint: &str,
) -> Result<Text, AllocError>
    ensures { IfOk result (λ text. text
        ≡ event_line (string_text name.now) index (string_text id.now) words.now hint.now) }
{
    let file = string_text(alloc, name.as_str())?;
    let id = string_text(alloc, id)?;
    let line = format!(in alloc;
        "{{\"file\":{file},\"index\":{index},\"id\":{id},\"fault\":\"{words}\",\"hint\":\"{hint}\"}}\n"
    )?;
    Ok(Text::from_string(line))
}

/// The fault line of a file that is refused as a whole.
fn file_line(alloc: Global, file: &str, fault: ReadFault) -> Result<String, AllocError>
    ensures { IfOk result (λ text. string_bytes text ≡ whole_file_line file.now fault) }
{
    line_with(alloc, file, whole_words(fault), whole_hint(fault))
}

/// The fault line of a file whose name is this JSON string, with these words.
fn line_with(alloc: Global, file: &str, words: &str, hint: &str) -> Result<String, AllocError>
    ensures { IfOk result (λ text.
        string_bytes text ≡ line_with file.now words.now hint.now) }
{
    let line = format!(in alloc;
        "{{\"file\":{file},\"fault\":\"{words}\",\"hint\":\"{hint}\"}}\n"
    )?;
    Ok(line)
}

/// Whether an event's fault is of its number alone.
fn is_of_number(fault: Fault) -> bool
    ensures { result ≡ is_of_number fault }
{
    matches!(fault, Fault::NoSequence | Fault::BadSequence)
}

/// The fault lines of a file's members at fault; where numbers don't count, of those that are no
/// events.
fn member_lines(
    alloc: Global,
    file: &str,
    members: &[Faulty],
    numbers: bool,
) -> Result<String, AllocError>
    ensures { IfOk result (λ text.
        string_bytes text ≡ told_lines numbers file.now (map member_of members.now)) }
{
    let mut out = String::new(alloc);
    for member in members {
        if numbers || !is_of_number(member.fault) {
            let line = member_line(alloc, file, member)?;
            out.push_str(line.as_str())?;
        }
    }
    Ok(out)
}

/// The fault line of a member of a file.
fn member_line(alloc: Global, file: &str, member: &Faulty) -> Result<String, AllocError>
    ensures { IfOk result (λ text.
        string_bytes text ≡ member_line file.now (member_of member.now)) }
{
    let index = member.index;
    let id = id_member(alloc, id_of(&member.tree))?;
    let name = fault_name(member.fault);
    let at = where_members(alloc, member.fault, &member.tree)?;
    let hint = hint(member.fault);
    let line = format!(in alloc;
        "{{\"file\":{file},\"index\":{index}{id},\"fault\":\"{name}\"{at},\"hint\":\"{hint}\"}}\n"
    )?;
    Ok(line)
}

/// The id of a file's member at fault, where it is a text.
fn id_of(tree: &Value) -> Option<&str>
    ensures { option_copied result ≡ id_of_member (view tree.now) }
{
    match tree.get("id") {
        Some(id) => id.as_str(),
        None => None,
    }
}

/// The member `id` of a fault's line, where there is one.
fn id_member(alloc: Global, id: Option<&str>) -> Result<String, AllocError>
    ensures { IfOk result (λ text. string_bytes text ≡ id_member (option_copied id.entry)) }
{
    match id {
        Some(id) => {
            let id = string_text(alloc, id)?;
            format!(in alloc; ",\"id\":{id}")
        }
        None => Ok(String::new(alloc)),
    }
}

/// The members of a fault's line that tell where in an event the fault is.
fn where_members(alloc: Global, fault: Fault, tree: &Value) -> Result<String, AllocError>
    ensures { IfOk result (λ text. string_bytes text ≡ where_members fault (view tree.now)) }
{
    let mut text = attribute_members(alloc, fault, tree)?;
    let pointer = pointer_member(alloc, fault, tree)?;
    text.push_str(pointer.as_str())?;
    Ok(text)
}

/// The members `attribute` and `value` of a fault's line, for a fault of one member.
fn attribute_members(alloc: Global, fault: Fault, tree: &Value) -> Result<String, AllocError>
    ensures { IfOk result (λ text. string_bytes text
        ≡ attribute_and_value (member_at_fault fault (view tree.now)) (view tree.now)) }
{
    match member_at_fault(fault, tree) {
        Some(name) => {
            let value = value_member(alloc, tree.get(name))?;
            let name = string_text(alloc, name)?;
            let members = format!(in alloc; ",\"attribute\":{name}{value}")?;
            Ok(members)
        }
        None => Ok(String::new(alloc)),
    }
}

/// The member `pointer` of a fault's line, where a number of the data is at fault; else nothing.
fn pointer_member(alloc: Global, fault: Fault, tree: &Value) -> Result<String, AllocError>
    ensures { IfOk result (λ text. string_bytes text
        ≡ pointer_member (place_at_fault fault (view tree.now))) }
{
    match place_at_fault(alloc, fault, tree)? {
        Some(at) => {
            let path = format!(in alloc; "/data{at}")?;
            let path = string_text(alloc, path.as_str())?;
            format!(in alloc; ",\"pointer\":{path}")
        }
        None => Ok(String::new(alloc)),
    }
}

/// Where in the data of a file's faulty event the fault is, if it is of a number there.
fn place_at_fault(alloc: Global, fault: Fault, tree: &Value) -> Result<Option<String>, AllocError>
    ensures { IfOk result (λ found. option_map string_bytes found
        ≡ place_at_fault fault (view tree.now)) }
{
    match (fault, tree.get("data")) {
        (Fault::DataNumber, Some(data)) => place(alloc, data),
        _ => Ok(None),
    }
}

/// The member `value` of a fault's line, where a value is there, plain and short; else nothing.
fn value_member(alloc: Global, value: Option<&Value>) -> Result<String, AllocError>
    ensures { IfOk result (λ text. string_bytes text
        ≡ value_member (option_map (λ v. view v.now) value.entry)) }
{
    match value {
        Some(value) => plain_member(alloc, value),
        None => Ok(String::new(alloc)),
    }
}

/// A fault line's member `value`, of a value that is there, where plain and short; else nothing.
fn plain_member(alloc: Global, value: &Value) -> Result<String, AllocError>
    ensures { IfOk result (λ text. string_bytes text ≡ value_member (Some (view value.now))) }
{
    if is_plain(value) {
        if_short(alloc, value.to_string(alloc)?)
    } else {
        Ok(String::new(alloc))
    }
}

/// Whether a fault's line may show a value: null, truth value, text, or whole number of 64 bits.
fn is_plain(value: &Value) -> bool
    ensures plain { result ≡ is_plain_value (view value.now) }
    ensures whole { result ≡ true → has_float (view value.now) ≡ false }
{
    match value {
        Value::Null => true,
        Value::Bool(_) => true,
        Value::Number(number) => !number.is_f64(),
        Value::String(_) => true,
        Value::Array(_) => false,
        Value::Object(_) => false,
    }
}

/// A text as the member `value` of a fault's line, where it is short.
fn if_short(alloc: Global, text: String) -> Result<String, AllocError>
    ensures { IfOk result (λ member. string_bytes member ≡ if_short (string_bytes text)) }
{
    if text.len() <= SHOWN {
        format!(in alloc; ",\"value\":{text}")
    } else {
        Ok(String::new(alloc))
    }
}
