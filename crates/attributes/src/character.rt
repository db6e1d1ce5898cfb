//! Tests of the characters of texts and names.

ghost use Rattle.std.specs.Prelude.{◌≡◌, bytes_eq, codes};
ghost use Rattle.std.specs.Char.{is_ascii_digit};
ghost use Rattle.std.specs.List.{list_all};
ghost use Rattle.attributes.specs.Character.{is_filled, is_name, is_name_byte, is_printable, is_visible};
ghost use Rattle.attributes.specs.steps.Plain.{is_plain, is_plain_byte};

/// Whether a byte of an attribute is a space or a visible character of ASCII.
fn is_visible(byte: u8) -> bool
    ensures { result ≡ is_visible byte }
{
    byte >= 32 && byte < 127
}

/// Whether each byte of an attribute's text is a space or a visible character of ASCII. It has no
/// early end, so that many bytes are tested at once.
fn are_visible(bytes: &[u8]) -> bool
    ensures { result ≡ list_all is_visible bytes.now }
{
    let mut all = true;
    for byte in bytes {
        all = all & is_visible(*byte);
    }
    all
}

/// Whether no character of an attribute's text is a control character.
fn has_no_control(text: &str) -> bool
    ensures { result ≡ is_printable text.now }
{
    text.chars().all(|c| !c.is_control())
}

/// Whether an attribute's text has no control character; texts of ASCII are tested byte by byte.
pub(crate) fn is_printable(text: &str) -> bool
    ensures { result ≡ is_printable text.now }
{
    are_visible(text.as_bytes()) || has_no_control(text)
}

/// Whether a byte of an attribute stands in the canonical text's JSON as it is.
fn is_plain_byte(byte: u8) -> bool
    ensures { result ≡ is_plain_byte byte }
{
    byte >= 32 && byte != b'"' && byte != b'\\'
}

/// Whether each byte of an attribute stands in the canonical text's JSON as it is.
fn are_plain(bytes: &[u8]) -> bool
    ensures { result ≡ list_all is_plain_byte bytes.now }
{
    let mut all = true;
    for byte in bytes {
        all = all & is_plain_byte(*byte);
    }
    all
}

/// Whether an attribute's text stands in JSON as it is, between quotation marks.
pub(crate) fn is_plain(text: &str) -> bool
    ensures { result ≡ is_plain text.now }
{
    are_plain(text.as_bytes())
}

/// Whether an attribute's text has a character, and no control character.
pub(crate) fn is_filled(text: &str) -> bool
    ensures { result ≡ is_filled text.now }
{
    !text.is_empty() && is_printable(text)
}

/// Whether each byte of an attribute's text is a digit of ASCII.
pub(crate) fn are_digits(text: &str) -> bool
    ensures { result ≡ list_all is_ascii_digit text.now }
{
    text.bytes().all(|b| b.is_ascii_digit())
}

/// Whether a byte of an attribute's name is a lower-case letter or a digit of ASCII.
fn is_name_byte(byte: u8) -> bool
    ensures { result ≡ is_name_byte byte }
{
    (byte >= b'a' && byte <= b'z') || (byte >= b'0' && byte <= b'9')
}

/// Whether each byte of an attribute's name is a lower-case letter or a digit of ASCII.
fn are_name_bytes(name: &str) -> bool
    ensures { result ≡ list_all is_name_byte name.now }
{
    name.bytes().all(|b| is_name_byte(b))
}

/// Whether a member's name is `data`, which no attribute has.
fn is_data(name: &str) -> bool
    ensures { result ≡ bytes_eq name.now (codes "data") }
{
    name == "data"
}

/// Whether a text is an allowed name of an attribute.
pub(crate) fn is_name(name: &str) -> bool
    ensures { result ≡ is_name name.now }
{
    !name.is_empty() && are_name_bytes(name) && !is_data(name)
}
