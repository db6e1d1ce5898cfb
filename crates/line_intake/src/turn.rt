//! The lines of an input that are kept in one transaction.

ghost use Rattle.std.specs.Prelude.{◌≡◌, ◌↔◌, ◌≤◌, ◌<◌, ◌+◌, ◌^◌, ℕ, List, Option, [], ◌++◌, ◌∷◌, IfOk, IsTrue, OnOk, Some};
ghost use Rattle.std.specs.Io.KnownBytes.{IsAtEnd, prepend_known};
ghost use Rattle.line_intake.specs.Judged.{IsGathered, IsJudged, faults_in};
ghost use Rattle.line_intake.specs.Lines.{IsNext};

use crate::answer::Told;
use crate::line::{LineFault, Next, Pending, next_line};
use attributes::{Batch, List, Octets};
use event_files::{ReportFault, SequentialReader, events_of};
use event_json::ReadFault;
use std::alloc::{AllocError, Global};
use std::io::Read;

/// The most lines that are gathered, empty ones too.
const MOST_LINES: u64 = 65_536;

/// How many events are enough for one transaction.
const ENOUGH_EVENTS: u64 = 1_000;

/// How many bytes of text are enough for one transaction.
const ENOUGH_TEXT: u64 = 1_048_576;

/// Lines that were read: which, with what is told of each, and their events.
#[derive(Drop)]
pub struct Gathered {
    /// Of each line that isn't empty its place in the input, and its fault, if it has one.
    pub tells: List<Told>,
    /// The events of each of these lines; of one at fault none.
    pub lists: List<Batch>,
    /// How many lines the input has had, with those before.
    pub lines: u64,
    events: u64,
    text: u64,
}

/// Whether a line of the input is empty, which gets no acknowledgement.
fn is_blank(line: &Octets) -> bool
    ensures { IsTrue result ↔ (line.now ≡ []) }
{
    line.as_bytes().is_empty()
}

/// A line with its events, or without them since it is at fault.
#[derive(Drop)]
struct Judged {
    fault: Option<ReportFault>,
    events: Batch,
}

/// What the bytes of an input's line come to: its events, or its fault.
fn judge(alloc: Global, line: Octets) -> Result<Judged, AllocError>
    ensures { IfOk result (λ j. IsJudged line j.fault j.events) }
{
    let mut lines = List::empty(alloc);
    lines.push(line)?;
    match events_of(alloc, &SequentialReader {}, lines.as_slice()) {
        Ok(events) => Ok(Judged {
            fault: None,
            events,
        }),
        Err(refused) => match refused.fault {
            ReportFault::OutOfMemory => Err(AllocError),
            ReportFault::Read(why) => Ok(refuse(alloc, ReportFault::Read(why))),
            ReportFault::Event { index, fault } => {
                Ok(refuse(alloc, ReportFault::Event { index, fault }))
            }
        },
    }
}

/// A line of the input at fault, to be acknowledged as such.
fn refuse(alloc: Global, fault: ReportFault) -> Judged
    ensures fault { result.fault ≡ Some fault }
    ensures events { result.events ≡ [] }
{
    Judged {
        fault: Some(fault),
        events: Batch::empty(alloc),
    }
}

impl Gathered {
    /// A turn without lines yet behind so many lines of the input.
    fn behind(alloc: Global, lines: u64) -> Gathered
        ensures tells { result.tells ≡ [] }
        ensures lists { result.lists ≡ [] }
        ensures lines { result.lines ≡ lines }
    {
        Gathered {
            tells: List::empty(alloc),
            lists: List::empty(alloc),
            lines,
            events: 0,
            text: 0,
        }
    }

    /// How many of the turn's lines are at fault.
    pub fn faults(&self) -> u64
        ensures { result ≡ faults_in self.now.tells }
    {
        self.tells
            .as_slice()
            .iter()
            .filter(|told| told.fault.is_some())
            .count() as u64
    }

    /// Whether the turn's lines so far are enough for one transaction.
    fn is_full(&self) -> bool {
        self.events >= ENOUGH_EVENTS || self.text >= ENOUGH_TEXT
    }

    /// Adds a line of the input that isn't empty to the turn.
    fn add(&mut self, judged: Judged) -> Result<(), AllocError>
        requires { self.old.lines + 1 < 2 ^ 64 }
        ensures tells { OnOk result (self.new.tells ≡ self.old.tells
            ++ (record { line = self.old.lines + 1; fault = judged.fault }) ∷ []) }
        ensures lists { OnOk result (self.new.lists ≡ self.old.lists ++ judged.events ∷ []) }
        ensures lines { OnOk result (self.new.lines ≡ self.old.lines + 1) }
    {
        self.lines = self.lines + 1;
        let Judged { fault, events } = judged;
        self.events = self.events.saturating_add(events.len());
        self.tells.push(Told {
            line: self.lines,
            fault,
        })?;
        self.lists.push(events)?;
        Ok(())
    }

    /// Adds the line that came next to the turn, if one did. An empty one is only counted.
    fn take(&mut self, alloc: Global, next: Next) -> Result<(), AllocError>
        requires { self.old.lines + 1 < 2 ^ 64 }
        ensures taken { OnOk result ((before : ℕ) (old mid new : Option (List ℕ))
            → IsGathered before self.old.lines old mid self.old.tells self.old.lists
            → IsNext mid new next
            → IsGathered before self.new.lines old new self.new.tells self.new.lists) }
        ensures few { OnOk result (self.new.lines ≤ self.old.lines + 1) }
    {
        match next {
            Next::End => Ok(()),
            Next::TooLong => {
                let fault = ReportFault::Read(ReadFault::InputTooLarge);
                self.add(refuse(alloc, fault))
            }
            Next::Line(bytes) => {
                if is_blank(&bytes) {
                    self.lines = self.lines + 1;
                    return Ok(());
                }
                self.text = self.text.saturating_add(bytes.as_bytes().len() as u64);
                self.add(judge(alloc, bytes)?)
            }
        }
    }
}

/// Lines of an input, and whether it is at its end behind them.
#[derive(Drop)]
pub struct Part {
    pub gathered: Gathered,
    pub is_over: bool,
}

/// The next lines of an input, of which so many were there before: one, and those that stand whole
/// in what was read, as many as are enough for one transaction. It waits for the first line alone.
pub fn gather<R: Read>(
    alloc: Global,
    input: &mut R,
    pending: &mut Pending,
    before: u64,
) -> Result<Part, LineFault>
    requires { before ≤ 2 ^ 62 }
    ensures gathered { IfOk result (λ part. IsGathered before part.gathered.lines
        (prepend_known pending.old (R.remaining input.old))
        (prepend_known pending.new (R.remaining input.new))
        part.gathered.tells part.gathered.lists) }
    ensures over { IfOk result (λ part. IsTrue part.is_over
        → IsAtEnd (prepend_known pending.new (R.remaining input.new))) }
    ensures few { IfOk result (λ part. part.gathered.lines ≤ before + 65536) }
{
    let mut gathered = Gathered::behind(alloc, before);
    for _ in 0..MOST_LINES {
        let next = next_line(alloc, input, pending)?;
        let is_over = is_end(&next);
        gathered.take(alloc, next)?;
        if is_over {
            return Ok(Part { gathered, is_over });
        }
        if gathered.is_full() || !pending.has_line() {
            break;
        }
    }
    Ok(Part {
        gathered,
        is_over: false,
    })
}

/// Whether the input of lines is at its end.
fn is_end(next: &Next) -> bool
    ensures { IsTrue result → next.now ≡ Next.End }
{
    matches!(next, Next::End)
}
