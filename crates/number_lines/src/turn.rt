//! The lines of an input whose events are numbered in one transaction.

ghost use Rattle.std.specs.Prelude.{◌≡◌, ◌≢◌, ◌↔◌, ◌≤◌, ◌<◌, ◌+◌, ◌^◌, ℕ, List, Option, [], ◌++◌, ◌∷◌, IfNone, IfOk, IfSome, IsTrue, None, OnOk, Some, codes};
ghost use Rattle.std.specs.Io.KnownBytes.{IsAtEnd, prepend_known};
ghost use Rattle.attributes.specs.Event.{EventValue, attribute_of};
ghost use Rattle.line_intake.specs.Lines.{IsNext};
ghost use Rattle.number_lines.specs.Judged.{IsGatheredToNumber, IsJudgedToNumber, IsOwn, refusals_in};
ghost use Rattle.number_lines.specs.steps.Owned.{AreOwned};

use crate::refusal::{LineRefusal, Told};
use attributes::{Event, Events, List, Octets, Text};
use event_json::{ReadFault, read_events};
use line_intake::{LineFault, Next, Pending, next_line};
use numbers::{refusal, set_aside};
use std::alloc::{AllocError, Global};
use std::io::Read;

/// The most lines that are gathered, empty ones too.
const MOST_LINES: u64 = 65_536;

/// How many events are enough for one transaction.
const ENOUGH_EVENTS: u64 = 1_000;

/// How many bytes of text are enough for one transaction.
const ENOUGH_TEXT: u64 = 1_048_576;

/// Lines that were read: which, with what is told of each, and their events.
#[derive(Drop)]
pub struct Gathered {
    /// Of each line that isn't empty its place in the input, and why it is refused, if so.
    pub tells: List<Told>,
    /// The events of each of these lines; of one that is refused none.
    pub lists: List<Events>,
    /// How many lines the input has had, with those before.
    pub lines: u64,
    events: u64,
    text: u64,
}

/// Whether the line to be numbered is empty.
fn is_blank(line: &Octets) -> bool
    ensures { IsTrue result ↔ (line.now ≡ []) }
{
    line.as_bytes().is_empty()
}

/// A line with its events, or without them since it is refused.
#[derive(Drop)]
struct Judged {
    fault: Option<LineRefusal>,
    events: Events,
}

/// Events as they are numbered, or the place of the first whose number can't be set aside.
#[derive(Drop)]
enum Owned {
    Events(Events),
    Aside(u64),
}

/// The event of a line as it is numbered, with its own `sequence`, where it has one, by the name.
fn own(alloc: Global, event: &Event, name: &str) -> Result<Option<Event>, AllocError>
    ensures own { IfOk result (λ o. IfSome o (IsOwn (Some name.now) event.now)) }
    ensures has { IfOk result (λ o. IfNone o (attribute_of (codes "sequence") event.now ≢ None)) }
{
    if event.attribute("sequence").is_none() {
        return Ok(Some(event.copy()?));
    }
    set_aside(alloc, event, name)
}

/// A line's events as they are numbered, each with its own `sequence`, if it has one, by the name.
fn own_each(alloc: Global, given: &Events, name: &str) -> Result<Owned, AllocError>
    ensures { IfOk result (AreOwned (Some name.now) given.now) }
{
    let mut events = List::empty(alloc);
    for i in 0..given.len() {
        match own(alloc, given.at(i), name)? {
            Some(event) => events.push(event)?,
            None => return Ok(Owned::Aside(i)),
        }
    }
    Ok(Owned::Events(events))
}

/// The events of a line as they are numbered.
fn own_all(alloc: Global, given: Events, aside: &Option<Text>) -> Result<Owned, AllocError>
    ensures { IfOk result (AreOwned aside.now given) }
{
    match aside {
        Some(name) => own_each(alloc, &given, name.as_str()),
        None => Ok(Owned::Events(given)),
    }
}

/// What the bytes of a line to be numbered come to.
fn judge(alloc: Global, line: &Octets, aside: &Option<Text>) -> Result<Judged, AllocError>
    ensures { IfOk result (λ j. IsJudgedToNumber aside.now line.now j.fault j.events) }
{
    match read_events(alloc, line.as_bytes()) {
        Ok(given) => match own_all(alloc, given, aside)? {
            Owned::Events(events) => match refusal(&events) {
                None => Ok(Judged {
                    fault: None,
                    events,
                }),
                Some(why) => Ok(refuse(alloc, LineRefusal::Number(why))),
            },
            Owned::Aside(index) => Ok(refuse(alloc, LineRefusal::Aside { index })),
        },
        Err(ReadFault::OutOfMemory) => Err(AllocError),
        Err(why) => Ok(refuse(alloc, LineRefusal::Read(why))),
    }
}

/// A line to be numbered that is refused.
fn refuse(alloc: Global, fault: LineRefusal) -> Judged
    ensures fault { result.fault ≡ Some fault }
    ensures events { result.events ≡ [] }
{
    Judged {
        fault: Some(fault),
        events: List::empty(alloc),
    }
}

impl Gathered {
    /// No lines to be numbered yet behind so many.
    fn behind(alloc: Global, lines: u64) -> Gathered
        ensures tells { result.tells ≡ [] }
        ensures lists { result.lists ≡ [] }
        ensures lines { result.lines ≡ lines }
    {
        Gathered {
            tells: List::empty(alloc),
            lists: List::empty(alloc),
            lines,
            events: 0,
            text: 0,
        }
    }

    /// How many of the gathered lines to be numbered are refused.
    pub fn faults(&self) -> u64
        ensures { result ≡ refusals_in self.now.tells }
    {
        self.tells
            .as_slice()
            .iter()
            .filter(|told| told.fault.is_some())
            .count() as u64
    }

    /// Whether the lines so far are enough for numbering in one transaction.
    fn is_full(&self) -> bool {
        self.events >= ENOUGH_EVENTS || self.text >= ENOUGH_TEXT
    }

    /// Adds a line to be numbered that isn't empty.
    fn add(&mut self, judged: Judged) -> Result<(), AllocError>
        requires { self.old.lines + 1 < 2 ^ 64 }
        ensures tells { OnOk result (self.new.tells ≡ self.old.tells
            ++ (record { line = self.old.lines + 1; fault = judged.fault }) ∷ []) }
        ensures lists { OnOk result (self.new.lists ≡ self.old.lists ++ judged.events ∷ []) }
        ensures lines { OnOk result (self.new.lines ≡ self.old.lines + 1) }
    {
        self.lines = self.lines + 1;
        let Judged { fault, events } = judged;
        self.events = self.events.saturating_add(events.len());
        self.tells.push(Told {
            line: self.lines,
            fault,
        })?;
        self.lists.push(events)?;
        Ok(())
    }

    /// Adds the line to be numbered that came next, if one did. An empty one is only counted.
    fn take(&mut self, alloc: Global, next: Next, aside: &Option<Text>) -> Result<(), AllocError>
        requires { self.old.lines + 1 < 2 ^ 64 }
        ensures taken { OnOk result ((before : ℕ) (old mid new : Option (List ℕ))
            → IsGatheredToNumber aside.now before self.old.lines old mid self.old.tells self.old.lists
            → IsNext mid new next
            → IsGatheredToNumber aside.now before self.new.lines old new self.new.tells self.new.lists) }
        ensures few { OnOk result (self.new.lines ≤ self.old.lines + 1) }
    {
        match next {
            Next::End => Ok(()),
            Next::TooLong => {
                let fault = LineRefusal::Read(ReadFault::InputTooLarge);
                self.add(refuse(alloc, fault))
            }
            Next::Line(bytes) => {
                if is_blank(&bytes) {
                    self.lines = self.lines + 1;
                    return Ok(());
                }
                self.text = self.text.saturating_add(bytes.as_bytes().len() as u64);
                self.add(judge(alloc, &bytes, aside)?)
            }
        }
    }
}

/// Lines of an input, and whether it is at its end behind them.
#[derive(Drop)]
pub struct Part {
    pub gathered: Gathered,
    pub is_over: bool,
}

/// The next lines to number of an input, of which so many were before: one, and those that stand
/// whole in what was read, as many as are enough for one transaction. It waits for the first line
/// alone. The number of an event that has one is set aside under the name, if one is given.
pub fn gather<R: Read>(
    alloc: Global,
    input: &mut R,
    pending: &mut Pending,
    before: u64,
    aside: &Option<Text>,
) -> Result<Part, LineFault>
    requires { before ≤ 2 ^ 62 }
    ensures gathered { IfOk result (λ part. IsGatheredToNumber aside.now before part.gathered.lines
        (prepend_known pending.old (R.remaining input.old))
        (prepend_known pending.new (R.remaining input.new))
        part.gathered.tells part.gathered.lists) }
    ensures over { IfOk result (λ part. IsTrue part.is_over
        → IsAtEnd (prepend_known pending.new (R.remaining input.new))) }
    ensures few { IfOk result (λ part. part.gathered.lines ≤ before + 65536) }
{
    let mut gathered = Gathered::behind(alloc, before);
    for _ in 0..MOST_LINES {
        let next = next_line(alloc, input, pending)?;
        let is_over = is_end(&next);
        gathered.take(alloc, next, aside)?;
        if is_over {
            return Ok(Part { gathered, is_over });
        }
        if gathered.is_full() || !pending.has_line() {
            break;
        }
    }
    Ok(Part {
        gathered,
        is_over: false,
    })
}

/// Whether the input of lines to be numbered is at its end.
fn is_end(next: &Next) -> bool
    ensures { IsTrue result → next.now ≡ Next.End }
{
    matches!(next, Next::End)
}
