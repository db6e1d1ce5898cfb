//! Reading an input to its end.
ghost use Rattle.std.specs.Prelude.{◌≡◌, ◌<◌, ◌≤◌, length, IfOk, IfSome, Err};
ghost use Rattle.std.specs.Io.KnownBytes.{Consumes, IsAtEnd};
ghost use Rattle.event_json.specs.Reading.{max_input};
ghost use Rattle.event_files.specs.declared.input.Unread.TheVariants.{OutOfMemory};

use attributes::Octets;
use event_json::MAX_INPUT;
use std::alloc::{AllocError, Global};
use std::io::Read;
use thiserror::Error;

/// The most reads of one input: one for each byte, one for a byte too many, and one for the end.
const READS: u64 = 33_554_434;

/// Why an input was not read.
#[derive(Clone, Copy, PartialEq, Eq, Debug, Error)]
pub enum Unread {
    #[error("out of memory")]
    OutOfMemory,
    /// A read failed; one that a signal cut short counts too, since nothing is read twice.
    #[error("cannot read")]
    CannotRead,
    /// There are more than 33,554,432 bytes, or 33,554,434 reads did not come to the end.
    #[error("too large")]
    TooLarge,
}

impl Unread {
    ghost use Rattle.event_files.specs.Numbers.{unread_number};

    /// The number, from 1, of the reason why an input, such as a file, was not read.
    pub fn number(self) -> u8
        ensures { result ≡ unread_number self }
    {
        match self {
            Unread::OutOfMemory => 1,
            Unread::CannotRead => 2,
            Unread::TooLarge => 3,
        }
    }
}

impl From<AllocError> for Unread {
    ghost from_gives = { λ _ e. e ≡ OutOfMemory };

    fn from(_error: AllocError) -> Unread {
        Unread::OutOfMemory
    }
}

/// All bytes of an input up to its end, read in pieces of 64 KiB.
///
/// That `CannotRead` comes only from a reader that failed is not stated: readers keep no count of
/// their failures.
pub fn read_all<R: Read>(alloc: Global, reader: &mut R) -> Result<Octets, Unread>
    ensures size { IfOk result (λ bytes. length bytes ≤ max_input) }
    ensures bytes { IfOk result (λ bytes.
        Consumes (R.remaining reader.old) (R.remaining reader.new) bytes) }
    ensures end { IfOk result (λ bytes. IsAtEnd (R.remaining reader.new)) }
    ensures large { result ≡ Err Unread.TooLarge
        → IfSome (R.remaining reader.old) (λ all. max_input < length all) }
{
    let mut bytes = Vec::new(alloc);
    let mut piece = [0u8; 65_536];
    for count in 0..READS {
        match reader.read(&mut piece) {
            Ok(0) => return Ok(Octets::from_vec(bytes)),
            Ok(n) => {
                if n > MAX_INPUT as usize - bytes.len() {
                    return Err(Unread::TooLarge);
                }
                bytes.extend_from_slice(&piece[..n])?;
            }
            Err(_) => return Err(Unread::CannotRead),
        }
    }
    Err(Unread::TooLarge)
}
