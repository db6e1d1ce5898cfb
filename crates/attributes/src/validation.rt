//! The tests of members, in the order of their faults.

ghost use Rattle.std.specs.Prelude.{◌≡◌, [], true, codes, unwrap_or};
ghost use Rattle.std.specs.List.{list_all};
ghost use Rattle.std.specs.Option.{option_copied};
ghost use Rattle.serde_json.specs.View.{view as tree_of};
ghost use Rattle.attributes.specs.declared.content.Offered.TheVariants.{Tree};
ghost use Rattle.attributes.specs.Character.{is_filled, is_name};
ghost use Rattle.attributes.specs.Members.{named, value_at};
ghost use Rattle.attributes.specs.steps.Given.{FindsAt, given_words, is_allowed_value};
ghost use Rattle.attributes.specs.Fault.{is_allowed, is_attribute, is_required, is_time, is_version, member_fault, payload_fault};

use crate::character::{is_name, is_printable};
use crate::content::Offered;
use crate::fault::Fault;
use crate::scalar::Given;
use crate::time::day_in;
use crate::tree::{any_float, is_within};
use serde_json::Value;
use std::collections::BTreeMap;

/// How deep arrays and objects may nest in data.
const MAX_DATA_DEPTH: u8 = 120;

/// What is given at a name for an attribute.
fn at<'a>(members: &'a BTreeMap<String, Given>, name: &str) -> Option<&'a Given>
    ensures { option_copied result ≡ value_at name.now (named members.now.entries) }
{
    members.get(name)
}

/// What is given for an attribute, where it is a text.
fn given_words(given: Option<&Given>) -> Option<&str>
    ensures { option_copied result ≡ given_words (option_copied given.entry) }
{
    match given {
        Some(Given::Words(text)) => Some(text.as_str()),
        _ => None,
    }
}

/// The text given for an attribute, where it is there and a text.
pub(crate) fn words_at<'a>(members: &'a BTreeMap<String, Given>, name: &str) -> Option<&'a str>
    ensures { option_copied result ≡ given_words (value_at name.now (named members.now.entries)) }
{
    given_words(at(members, name))
}

/// The text given for an attribute, or else the empty text.
pub(crate) fn words_or_empty_at<'a>(members: &'a BTreeMap<String, Given>, name: &str) -> &'a str
    ensures { result.now
        ≡ unwrap_or (given_words (value_at name.now (named members.now.entries))) [] }
{
    match words_at(members, name) {
        Some(words) => words,
        None => "",
    }
}

/// Whether the attribute `specversion` is there, and the one version.
fn is_required_version(given: Option<&Given>) -> bool
    ensures { result ≡ is_required is_version (option_copied given.entry) }
{
    match given {
        Some(Given::Words(text)) => text.as_str() == "1.0",
        _ => false,
    }
}

/// Whether an attribute is there and a filled text; `passed` says that all texts are printable.
fn is_filled_text(given: Option<&Given>, passed: bool) -> bool
    requires { passed ≡ true → is_allowed_value (option_copied given) ≡ true }
    ensures { result ≡ is_required is_filled (option_copied given.entry) }
{
    match given {
        Some(Given::Words(text)) => {
            !text.as_str().is_empty() && (passed || is_printable(text.as_str()))
        }
        _ => false,
    }
}

/// Whether an attribute that may be there is a filled text; `passed`: all texts are printable.
fn is_allowed_text(given: Option<&Given>, passed: bool) -> bool
    requires { passed ≡ true → is_allowed_value (option_copied given) ≡ true }
    ensures { result ≡ is_allowed is_filled (option_copied given.entry) }
{
    match given {
        None => true,
        given => is_filled_text(given, passed),
    }
}

/// Whether the attribute `time` is a time, where it is there.
fn is_allowed_time(given: Option<&Given>) -> bool
    ensures { result ≡ is_allowed is_time (option_copied given.entry) }
{
    match given {
        None => true,
        Some(Given::Words(text)) => day_in(text.as_str()).is_some(),
        _ => false,
    }
}

/// What one pass over an event's attributes finds: whether all names pass, whether all values do,
/// and what is given at the names that have tests of their own.
#[derive(Clone, Copy)]
struct Survey<'a> {
    names: bool,
    values: bool,
    version: Option<&'a Given>,
    id: Option<&'a Given>,
    source: Option<&'a Given>,
    kind: Option<&'a Given>,
    subject: Option<&'a Given>,
    time: Option<&'a Given>,
    content_type: Option<&'a Given>,
    schema: Option<&'a Given>,
}

/// Whether a value may be that of an attribute.
fn is_attribute(given: &Given) -> bool
    ensures { result ≡ is_attribute given.now }
{
    match given {
        Given::Flag(_) => true,
        Given::Whole(number) => {
            let _whole = *number;
            true
        }
        Given::Words(text) => is_printable(text.as_str()),
        Given::Other => false,
    }
}

/// What is given at an attribute's name: what was found before, else this, where it is its name.
fn first_at<'a>(
    before: Option<&'a Given>,
    sought: &str,
    name: &str,
    given: &'a Given,
) -> Option<&'a Given>
    ensures { FindsAt sought.now name.now given.now (option_copied before.entry)
        (option_copied result) }
{
    match before {
        None if name == sought => Some(given),
        _ => before,
    }
}

/// Goes over an event's attributes once: tests their names and values, and finds what is given at
/// the names that have tests of their own.
fn go_over(members: &BTreeMap<String, Given>) -> Survey<'_>
    ensures names { result.names ≡ list_all (λ m. is_name m.0) (named members.now.entries) }
    ensures values { result.values ≡ list_all (λ m. is_attribute m.1) (named members.now.entries) }
    ensures version { option_copied result.version
        ≡ value_at (codes "specversion") (named members.now.entries) }
    ensures id { option_copied result.id ≡ value_at (codes "id") (named members.now.entries) }
    ensures source { option_copied result.source
        ≡ value_at (codes "source") (named members.now.entries) }
    ensures kind { option_copied result.kind
        ≡ value_at (codes "type") (named members.now.entries) }
    ensures subject { option_copied result.subject
        ≡ value_at (codes "subject") (named members.now.entries) }
    ensures time { option_copied result.time
        ≡ value_at (codes "time") (named members.now.entries) }
    ensures content_type { option_copied result.content_type
        ≡ value_at (codes "datacontenttype") (named members.now.entries) }
    ensures schema { option_copied result.schema
        ≡ value_at (codes "dataschema") (named members.now.entries) }
{
    let mut found = Survey {
        names: true,
        values: true,
        version: None,
        id: None,
        source: None,
        kind: None,
        subject: None,
        time: None,
        content_type: None,
        schema: None,
    };
    for (name, given) in members {
        let name = name.as_str();
        found.names = found.names && is_name(name);
        found.values = found.values && is_attribute(given);
        found.version = first_at(found.version, "specversion", name, given);
        found.id = first_at(found.id, "id", name, given);
        found.source = first_at(found.source, "source", name, given);
        found.kind = first_at(found.kind, "type", name, given);
        found.subject = first_at(found.subject, "subject", name, given);
        found.time = first_at(found.time, "time", name, given);
        found.content_type = first_at(found.content_type, "datacontenttype", name, given);
        found.schema = first_at(found.schema, "dataschema", name, given);
    }
    found
}

/// The first fault of an event's attributes, where they have one. They are gone over once.
pub(crate) fn first_member_fault(members: &BTreeMap<String, Given>) -> Option<Fault>
    ensures { result ≡ member_fault (named members.now.entries) }
{
    let found = go_over(members);
    if !is_required_version(found.version) {
        return Some(Fault::SpecVersion);
    }
    if !is_filled_text(found.id, found.values) {
        return Some(Fault::Id);
    }
    if !is_filled_text(found.source, found.values) {
        return Some(Fault::Source);
    }
    if !is_filled_text(found.kind, found.values) {
        return Some(Fault::Kind);
    }
    if !is_allowed_text(found.subject, found.values) {
        return Some(Fault::Subject);
    }
    if !is_allowed_time(found.time) {
        return Some(Fault::Time);
    }
    if !is_allowed_text(found.content_type, found.values) {
        return Some(Fault::ContentType);
    }
    if !is_allowed_text(found.schema, found.values) {
        return Some(Fault::Schema);
    }
    if !found.names {
        return Some(Fault::ExtensionName);
    }
    if !found.values {
        return Some(Fault::ExtensionValue);
    }
    None
}

/// The first fault of an event's data, where it has one.
fn tree_fault(value: &Value) -> Option<Fault>
    ensures { result ≡ payload_fault (Tree (tree_of value.now)) }
{
    if any_float(value) {
        return Some(Fault::DataNumber);
    }
    if !is_within(value, MAX_DATA_DEPTH) {
        return Some(Fault::TooDeep);
    }
    None
}

/// The first fault of an event's offered data, where it has one. A tree is gone through twice.
pub(crate) fn first_payload_fault(offered: &Offered) -> Option<Fault>
    ensures { result ≡ payload_fault offered.now }
{
    match offered {
        Offered::Nothing => None,
        Offered::Tree(tree) => tree_fault(tree.value()),
        Offered::Bytes(_) => None,
        Offered::Both => Some(Fault::TwoData),
        Offered::Undecodable => Some(Fault::Base64),
    }
}
