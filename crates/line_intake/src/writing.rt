//! Writing a text whole.

ghost use Rattle.std.specs.Prelude.{List, ℕ, OnErr, OnOk};
ghost use Rattle.std.specs.Io.KnownBytes.{Appends};
ghost use Rattle.line_intake.specs.Written.{Wrote};

use std::io::Write;

/// The writing of a text failed.
#[derive(Clone, Copy, Debug, PartialEq, Eq)]
pub struct Unwritten;

/// Writes the answers to lines whole, or a front of them where it fails; no write is tried again.
pub fn put<W: Write>(to: &mut W, bytes: &[u8]) -> Result<(), Unwritten>
    ensures ok { OnOk result (Appends (W.contents to.old) (W.contents to.new) bytes.now) }
    ensures err { OnErr result ((rest : List ℕ)
        × Wrote (W.contents to.old) (W.contents to.new) bytes.now rest) }
{
    let mut rest = bytes;
    for _ in 0..bytes.len() {
        if rest.is_empty() {
            break;
        }
        match to.write(rest) {
            Ok(count) => rest = &rest[count..],
            Err(_) => return Err(Unwritten),
        }
    }
    if !rest.is_empty() || to.flush().is_err() {
        return Err(Unwritten);
    }
    Ok(())
}
