//! All members of an input that are no events with a number.

ghost use Rattle.std.specs.Prelude.{◌≡◌, ◌≢◌, ◌<◌, ◌+◌, ◌^◌, ◌++◌, [], Err, IfErr, IfOk, List, OnOk, Some, None, length, map, true};
ghost use Rattle.std.specs.List.{AllByRecursion};
ghost use Rattle.serde_json.specs.Data.{Data};
ghost use Rattle.serde_json.specs.View.{view};
ghost use Rattle.event_json.specs.Spelling.{candidates};
ghost use Rattle.event_json.specs.Reading.{max_input};
ghost use Rattle.event_json.specs.Faulty.{RefusesWhole, TellsFaulty, faulty, fault_of_numbered, member_of, number_fault};
ghost use Rattle.event_json.specs.steps.FaultyMembers.{AreFaultyOf, HasMembers};
ghost use Rattle.event_json.specs.steps.Told.{AllAreNone, IsNoMember};

use crate::fault::ReadFault;
use crate::pieces::{Gather, read_batch_text};
use crate::read::{MAX_INPUT, parse, read_item};
use attributes::{Event, Fault, Sequenced};
use serde_json::Value;
use std::alloc::{AllocError, Global};

/// A member of an input that is no event with a number.
#[derive(Drop)]
pub struct Faulty {
    /// Its place in the batch, from 0. That of a lone event is 0.
    pub index: u64,
    /// Its first fault: the reader's, or `NoSequence` or `BadSequence` where that is all.
    pub fault: Fault,
    /// What it is.
    pub tree: Value,
}

/// Reads what [`read_events`](crate::read_events) reads, and tells each member that is no event or
/// has no number, in their order: none where all of them are events with numbers. What is refused
/// as a whole is refused as there, and a fault of a member is no refusal.
///
/// Too much is refused before any memory is asked for. Time and memory are proportional to the
/// length of the input; a batch is read member by member, as there. Nothing is copied: a member at
/// fault is read once more for the tree that is told.
pub fn read_faulty(alloc: Global, bytes: &[u8]) -> Result<Vec<Faulty>, ReadFault>
    ensures ok { IfOk result (λ told. TellsFaulty bytes.now (map member_of told.items)) }
    ensures refused { IfErr result (λ f. f ≢ ReadFault.OutOfMemory → RefusesWhole bytes.now f) }
    ensures too_large { max_input < length bytes.now → result ≡ Err ReadFault.InputTooLarge }
    ensures named { IfOk result (λ told.
        AllByRecursion (λ m. m.fault ≢ Fault.OutOfMemory) told.items) }
    ensures memory { IfErr result (λ f. f ≡ ReadFault.OutOfMemory → 0 < length bytes.now) }
{
    if bytes.len() as u64 > MAX_INPUT {
        return Err(ReadFault::InputTooLarge);
    }
    if let Some(found) = read_batch_text(alloc, bytes, FaultyMembers::empty(alloc))? {
        return Ok(found.told);
    }
    let value = parse(alloc, bytes)?;
    let members = members(alloc, value)?;
    let mut told = Vec::new(alloc);
    tell_faulty(alloc, bytes, members, 0, &mut told)?;
    Ok(told)
}

/// Those of the members of a batch so far that are at fault.
#[derive(Drop)]
struct FaultyMembers {
    told: Vec<Faulty>,
    /// How many members there were.
    count: u64,
}

impl FaultyMembers {
    /// The faulty members of an input that has none.
    fn empty(alloc: Global) -> FaultyMembers
        ensures { AreFaultyOf result [] }
    {
        FaultyMembers {
            told: Vec::new(alloc),
            count: 0,
        }
    }
}

impl Gather for FaultyMembers {
    ghost is_of = { AreFaultyOf };

    fn add(
        self,
        alloc: Global,
        text: &[u8],
        members: Vec<Value>,
    ) -> Result<FaultyMembers, AllocError> {
        let FaultyMembers { mut told, count } = self;
        let more = members.len() as u64;
        if more > u64::MAX - count {
            return Err(AllocError);
        }
        tell_faulty(alloc, text, members, count, &mut told)?;
        Ok(FaultyMembers {
            told,
            count: count + more,
        })
    }
}

/// Tells those of the members of a JSON text that are at fault, of which the first stands at a
/// place. The text is read once more for their trees, where there are some.
fn tell_faulty(
    alloc: Global,
    text: &[u8],
    members: Vec<Value>,
    first: u64,
    told: &mut Vec<Faulty>,
) -> Result<(), AllocError>
    requires text { HasMembers text.now (map view members.items) }
    requires places { first + length members.items < 2 ^ 64 }
    ensures { OnOk result (map member_of told.new.items
        ≡ map member_of told.old.items ++ faulty first (map view members.items)) }
{
    let faults = faults_of(alloc, members)?;
    if all_are_none(&faults) {
        return Ok(());
    }
    let trees = members_again(alloc, text)?;
    tell(trees, faults, first, told)
}

/// The members of a JSON text that was read before.
fn members_again(alloc: Global, text: &[u8]) -> Result<Vec<Value>, AllocError>
    ensures { IfOk result (λ found. HasMembers text.now (map view found.items)) }
{
    let Ok(value) = parse(alloc, text) else {
        return Err(AllocError);
    };
    match members(alloc, value) {
        Ok(found) => Ok(found),
        Err(_) => Err(AllocError),
    }
}

/// What a JSON value has as members of an input: the items of an array, or the object that it is.
fn members(alloc: Global, value: Value) -> Result<Vec<Value>, ReadFault>
    ensures ok { IfOk result (λ found. candidates (view value) ≡ Some (map view found.items)) }
    ensures refused { IfErr result (λ f. f ≢ ReadFault.OutOfMemory → IsNoMember (view value) f) }
{
    match value {
        Value::Array(items) => Ok(items),
        Value::Object(members) => {
            let mut alone = Vec::new(alloc);
            alone.push(Value::Object(members))?;
            Ok(alone)
        }
        _ => Err(ReadFault::NotEvent),
    }
}

/// The first fault of each, where it has one. Each tree is given back as soon as it was read.
fn faults_of(alloc: Global, trees: Vec<Value>) -> Result<Vec<Option<Fault>>, AllocError>
    ensures { IfOk result (λ faults. faults.items ≡ map fault_of_numbered (map view trees.items)) }
{
    let mut faults = Vec::new(alloc);
    for tree in trees {
        faults.push(member_fault(alloc, tree)?)?;
    }
    Ok(faults)
}

/// The first fault of an input's member, read from JSON.
fn member_fault(alloc: Global, tree: Value) -> Result<Option<Fault>, AllocError>
    ensures { IfOk result (λ fault. fault ≡ fault_of_numbered (view tree)) }
{
    match read_item(alloc, tree) {
        Ok(event) => Ok(number_fault(event)),
        Err(Fault::OutOfMemory) => Err(AllocError),
        Err(fault) => Ok(Some(fault)),
    }
}

/// Why an event that was read from JSON has no number.
fn number_fault(event: Event) -> Option<Fault>
    ensures { result ≡ number_fault event }
{
    match Sequenced::of(event) {
        Ok(_) => None,
        Err(unsequenced) => Some(unsequenced.fault),
    }
}

/// Whether none of an input's members is at fault.
fn all_are_none(faults: &[Option<Fault>]) -> bool
    ensures { result ≡ true → AllAreNone faults.now }
{
    for fault in faults {
        if fault.is_some() {
            return false;
        }
    }
    true
}

/// Tells the trees of an input's members that have a fault, of which the first stands at a place.
fn tell(
    trees: Vec<Value>,
    faults: Vec<Option<Fault>>,
    first: u64,
    told: &mut Vec<Faulty>,
) -> Result<(), AllocError>
    requires { first + length trees.items < 2 ^ 64 }
    ensures { faults.items ≡ map fault_of_numbered (map view trees.items)
        → OnOk result (map member_of told.new.items
        ≡ map member_of told.old.items ++ faulty first (map view trees.items)) }
{
    let mut faults = faults.into_iter();
    for (place, tree) in trees.into_iter().enumerate() {
        if let Some(fault) = faults.next().flatten() {
            let index = first + place as u64;
            told.push(Faulty { index, fault, tree })?;
        }
    }
    Ok(())
}
