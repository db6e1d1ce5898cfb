//! Texts and byte strings that an event owns.

ghost use Rattle.std.specs.Prelude.{◌≡◌, IfOk, string_bytes};
ghost use Rattle.base64.specs.GeneralPurpose.{IsBytes};
ghost use Rattle.attributes.specs.Character.{is_filled};

use crate::character::is_filled;
use crate::list::List;
use std::alloc::{AllocError, Global};
use std::marker::Model;

/// A text in UTF-8, seen as its bytes.
#[derive(Drop)]
pub struct Text {
    string: String,
}

/// Texts in an order.
pub type Texts = List<Text>;

impl Model for Text {
    ghost use Rattle.std.specs.Prelude.{List, ℕ, string_bytes};

    ghost Value = { List ℕ };

    ghost view = { λ t. string_bytes t.string };
}

impl Text {
    /// A copy of the text. Time and memory in proportion to its bytes.
    pub fn of(alloc: Global, text: &str) -> Result<Text, AllocError>
        ensures { IfOk result (λ t. t ≡ text.now) }
    {
        let mut string = String::new(alloc);
        string.push_str(text)?;
        Ok(Text { string })
    }

    /// The text of a `String`, moved.
    pub fn from_string(string: String) -> Text
        ensures { result ≡ string_bytes string }
    {
        Text { string }
    }

    /// The text as a `String`, moved.
    pub fn into_string(self) -> String
        ensures { string_bytes result ≡ self }
    {
        self.string
    }

    /// A text that is equal. Time and memory in proportion to its bytes.
    pub fn copy(&self) -> Result<Text, AllocError>
        ensures { IfOk result (λ t. t ≡ self.now) }
    {
        Text::of(*self.string.allocator(), self.string.as_str())
    }

    /// The text, lent.
    pub fn as_str(&self) -> &str
        ensures { result.now ≡ self.now }
    {
        self.string.as_str()
    }

    /// Whether the text may name a source: at least one character, and no control character
    /// (CloudEvents 1.0.2, "source" and "Type System").
    pub fn is_source(&self) -> bool
        ensures { result ≡ is_filled self.now }
    {
        is_filled(self.string.as_str())
    }
}

/// The bytes, each known to be one.
fn as_they_are(bytes: &[u8]) -> &[u8]
    ensures value { result.now ≡ bytes.now }
    ensures bytes { IsBytes bytes.now }
{
    bytes
}

/// Bytes as they are.
#[derive(Drop)]
pub struct Octets {
    bytes: Vec<u8>,
}

impl Model for Octets {
    ghost use Rattle.std.specs.Prelude.{List, ℕ};

    ghost Value = { List ℕ };

    ghost view = { λ o. o.bytes.items };
}

impl Octets {
    /// A copy of the bytes. Time and memory in proportion to them.
    pub fn of(alloc: Global, bytes: &[u8]) -> Result<Octets, AllocError>
        ensures { IfOk result (λ o. o ≡ bytes.now) }
    {
        let mut own = Vec::new(alloc);
        own.extend_from_slice(bytes)?;
        Ok(Octets { bytes: own })
    }

    /// The bytes of a `Vec`, moved.
    pub fn from_vec(bytes: Vec<u8>) -> Octets
        ensures { result ≡ bytes.items }
    {
        Octets { bytes }
    }

    /// Bytes that are equal. Time and memory in proportion to them.
    pub fn copy(&self) -> Result<Octets, AllocError>
        ensures { IfOk result (λ o. o ≡ self.now) }
    {
        Octets::of(*self.bytes.allocator(), self.bytes.as_slice())
    }

    /// The bytes, lent.
    pub fn as_bytes(&self) -> &[u8]
        ensures value { result.now ≡ self.now }
        ensures bytes { IsBytes self.now }
    {
        as_they_are(self.bytes.as_slice())
    }
}
