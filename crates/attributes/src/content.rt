//! What an event carries.

ghost use Rattle.std.specs.Prelude.{◌≡◌, IfOk};
ghost use Rattle.attributes.specs.steps.Kept.{kept_of};

use crate::text::Octets;
use crate::tree::Tree;
use std::alloc::AllocError;

/// What is offered as an event's data: by the payload members of its JSON object, or none.
#[derive(Drop)]
pub enum Offered {
    Nothing,
    /// `data`. A tree that is null is taken for nothing.
    Tree(Tree),
    /// `data_base64`, decoded.
    Bytes(Octets),
    /// Both payload members were there.
    Both,
    /// `data_base64` couldn't be decoded.
    Undecodable,
}

/// What an event carries (CloudEvents 1.0.2, "Event Data").
#[derive(Drop)]
pub enum Content {
    Nothing,
    Tree(Tree),
    Bytes(Octets),
}

/// What an event carries, lent by it: of a JSON value its compact text.
#[derive(Clone, Copy, Debug, Drop)]
pub enum Payload<'a> {
    Nothing,
    /// The text of the member `data` in the event's canonical text.
    Json(&'a str),
    Bytes(&'a [u8]),
}

/// What an event keeps of what it carries, beside its canonical text.
#[derive(Drop)]
pub(crate) enum Kept {
    Nothing,
    /// The text of the JSON value stands in the canonical text.
    Json,
    Bytes(Octets),
}

impl Kept {
    /// What is kept of an event's content, whose tree is let go.
    pub(crate) fn of(content: Content) -> Kept
        ensures { result ≡ kept_of content }
    {
        match content {
            Content::Nothing => Kept::Nothing,
            Content::Tree(_) => Kept::Json,
            Content::Bytes(bytes) => Kept::Bytes(bytes),
        }
    }

    /// What is equal to an event's kept content. Time and memory in proportion to the bytes.
    pub(crate) fn copy(&self) -> Result<Kept, AllocError>
        ensures { IfOk result (λ k. k ≡ self.now) }
    {
        match self {
            Kept::Nothing => Ok(Kept::Nothing),
            Kept::Json => Ok(Kept::Json),
            Kept::Bytes(bytes) => Ok(Kept::Bytes(bytes.copy()?)),
        }
    }
}
