//! Lines of an input, taken one by one.

ghost use Rattle.std.specs.Prelude.{◌≡◌, ◌==◌, ◌≤◌, ◌+◌, ◌++◌, ℕ, List, [], drop, take, length, position, IfOk, IsSome, IsTrue, ◌↔◌};
ghost use Rattle.std.specs.Io.KnownBytes.{prepend_known};
ghost use Rattle.line_intake.specs.Lines.{EndsWith, IsNext, IsPartOf, ended_of, last_of};
ghost use Rattle.line_intake.specs.declared.line.LineFault.TheVariants.{OutOfMemory};

use attributes::Octets;
use event_json::MAX_INPUT;
use std::alloc::{AllocError, Global};
use std::io::Read;
use std::marker::Model;
use thiserror::Error;

/// The most reads of one line, which no input reaches.
const READS: u64 = 18_446_744_073_709_551_615;

/// Why no line could be taken.
#[derive(Clone, Copy, PartialEq, Eq, Debug, Error)]
pub enum LineFault {
    #[error("out of memory")]
    OutOfMemory,
    /// A read failed; one that a signal cut short counts too, since nothing is read twice.
    #[error("cannot read")]
    CannotRead,
}

impl From<AllocError> for LineFault {
    ghost from_gives = { λ _ e. e ≡ OutOfMemory };

    fn from(_error: AllocError) -> LineFault {
        LineFault::OutOfMemory
    }
}

/// What comes next of an input.
#[derive(Drop)]
pub enum Next {
    /// A line, without its LF.
    Line(Octets),
    /// A line of more than 33,554,432 bytes, which was passed over.
    TooLong,
    /// The input is at its end.
    End,
}

/// Bytes of an input that were read and not taken yet, at most 64 KiB. Contracts see the bytes.
#[derive(Drop)]
pub struct Pending {
    bytes: Vec<u8>,
    from: usize,
}

impl Model for Pending {
    ghost use Rattle.std.specs.Prelude.{List, ℕ, drop, length, ◌≤◌};

    ghost Value = { List ℕ };

    ghost view = { λ p. drop p.from p.bytes.items };

    ghost invariant = { λ p. p.from ≤ length p.bytes.items };
}

impl Pending {
    /// Nothing of the input of lines was read. It takes no memory.
    pub fn empty(alloc: Global) -> Pending
        ensures { result ≡ [] }
    {
        Pending {
            bytes: Vec::new(alloc),
            from: 0,
        }
    }

    /// Whether a line of the input stands there to its LF, so the next comes without a read.
    pub fn has_line(&self) -> bool
        ensures { IsTrue result ↔ IsSome (position (λ b. b == 10) self.now) }
    {
        self.line_end().is_some()
    }

    /// The bytes of the input that were read and belong to no taken line yet, lent.
    fn rest(&self) -> &[u8]
        ensures { result.now ≡ self.now }
    {
        &self.bytes.as_slice()[self.from..]
    }

    /// So many bytes from the front of the input's read bytes, lent.
    fn front(&self, count: usize) -> &[u8]
        requires { count ≤ length self.now }
        ensures { result.now ≡ take count self.now }
    {
        &self.rest()[..count]
    }

    /// The place of the LF that ends the input's next line.
    fn line_end(&self) -> Option<usize>
        ensures { result ≡ position (λ b. b == 10) self.now }
    {
        self.rest().iter().position(|b| *b == b'\n')
    }

    /// Takes so many bytes from the front of the input's read bytes.
    fn pass(&mut self, count: usize)
        requires { count ≤ length self.old }
        ensures { self.new ≡ drop count self.old }
    {
        self.from = self.from + count;
    }

    /// Takes all read bytes of the input of lines, and reads anew; whether it goes on.
    fn refill<R: Read>(&mut self, reader: &mut R) -> Result<bool, LineFault>
        ensures { IfOk result (λ goes_on. EndsWith goes_on
            (prepend_known self.old (R.remaining reader.old))
            (prepend_known self.new (R.remaining reader.new)) self.old) }
    {
        self.bytes.clear();
        self.from = 0;
        let mut piece = [0u8; 65_536];
        match reader.read(&mut piece) {
            Ok(count) => {
                self.bytes.extend_from_slice(&piece[..count])?;
                Ok(count > 0)
            }
            Err(_) => Err(LineFault::CannotRead),
        }
    }
}

/// Puts a part behind what is there of an input's line, unless that is too long; whether it is.
fn gain(line: &mut Vec<u8>, is_long: bool, part: &[u8]) -> Result<bool, AllocError>
    ensures { IfOk result (λ long. (bs : List ℕ) → IsPartOf line.old.items is_long bs
        → IsPartOf line.new.items long (bs ++ part.now)) }
{
    if is_long {
        return Ok(true);
    }
    if line.len().saturating_add(part.len()) > MAX_INPUT as usize {
        line.clear();
        return Ok(true);
    }
    line.extend_from_slice(part)?;
    Ok(false)
}

/// The next line of an input, without its LF. One that is too long is passed over, and never held.
/// Time in proportion to the line; memory too, up to the limit.
pub fn next_line<R: Read>(
    alloc: Global,
    reader: &mut R,
    pending: &mut Pending,
) -> Result<Next, LineFault>
    ensures { IfOk result (IsNext (prepend_known pending.old (R.remaining reader.old))
        (prepend_known pending.new (R.remaining reader.new))) }
{
    let mut line = Vec::new(alloc);
    let mut is_long = false;
    for _ in 0..READS {
        match pending.line_end() {
            Some(at) => {
                is_long = gain(&mut line, is_long, pending.front(at))?;
                pending.pass(at + 1);
                return Ok(ended(line, is_long));
            }
            None => {
                is_long = gain(&mut line, is_long, pending.rest())?;
                if !pending.refill(reader)? {
                    return Ok(last(line, is_long));
                }
            }
        }
    }
    Err(LineFault::CannotRead)
}

/// A line of the input that came to its LF.
fn ended(line: Vec<u8>, is_long: bool) -> Next
    ensures { result ≡ ended_of line.items is_long }
{
    if is_long {
        return Next::TooLong;
    }
    Next::Line(Octets::from_vec(line))
}

/// The line that is left where the input ended, if any.
fn last(line: Vec<u8>, is_long: bool) -> Next
    ensures { result ≡ last_of line.items is_long }
{
    if !is_long && line.is_empty() {
        return Next::End;
    }
    ended(line, is_long)
}
