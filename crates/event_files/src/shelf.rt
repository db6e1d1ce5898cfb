//! Files read by their names.
ghost use Rattle.std.specs.Prelude.{◌≡◌, ℕ, List, IfErr, IfOk};
ghost use Rattle.event_files.specs.Shelves.{AreContents, IsUnreadAt};
ghost use Rattle.event_files.specs.declared.input.Unread.{Unread};

use crate::input::Unread;
use attributes::{Octets, Text};
use std::alloc::Global;

/// Where files are read from.
///
/// Its two relations say what a name was read as, or why it wasn't. They tie contents and refusals
/// to their names; of the files of the operating system no clause can say more, and there both hold
/// of everything.
pub trait Shelf {
    ghost is_content: { Self → List ℕ → List ℕ → Type 0 };

    ghost is_unread: { Self → List ℕ → Unread → Type 0 };

    /// The whole content of the file that the shelf has under that name.
    fn content(&self, alloc: Global, name: &str) -> Result<Octets, Unread>
        ensures content { IfOk result (λ bytes. is_content self.now name.now bytes) }
        ensures unread { IfErr result (λ why. is_unread self.now name.now why) };
}

/// The first file that was not read, counted from 0, and why.
#[derive(Clone, Copy, PartialEq, Eq, Debug)]
pub struct UnreadAt {
    pub file: u64,
    pub why: Unread,
}

/// The contents of all files on a shelf, in the order of their names.
pub fn contents_of<S: Shelf>(
    alloc: Global,
    shelf: &S,
    names: &[Text],
) -> Result<Vec<Octets>, UnreadAt>
    ensures ok { IfOk result (λ contents.
        AreContents (S.is_content shelf.now) names.now contents.items) }
    ensures err { IfErr result (λ at.
        IsUnreadAt (S.is_content shelf.now) (S.is_unread shelf.now) names.now at) }
{
    let mut contents = Vec::new(alloc);
    for (file, name) in names.iter().enumerate() {
        match shelf.content(alloc, name.as_str()) {
            Ok(bytes) => {
                let Ok(()) = contents.push(bytes) else {
                    let file = file as u64;
                    return Err(UnreadAt {
                        file,
                        why: Unread::OutOfMemory,
                    });
                };
            }
            Err(why) => {
                let file = file as u64;
                return Err(UnreadAt { file, why });
            }
        }
    }
    Ok(contents)
}
