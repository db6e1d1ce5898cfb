//! What a file seems to be, by its first bytes.

/// How many bytes of a file are looked at.
pub const LOOKED: usize = 16_384;

/// What a file seems to be, for who is told why it can't be used.
#[derive(Clone, Copy, PartialEq, Eq, Debug)]
pub enum Look {
    /// There is none of that name.
    Missing,
    /// It is a folder.
    Folder,
    /// This user may not read it.
    Denied,
    /// It has nothing but white space.
    Empty,
    /// UTF-8 behind a byte order mark.
    Marked,
    /// A file of gzip.
    Packed,
    /// A database of SQLite.
    Database,
    /// UTF-16.
    Wide,
    /// A summary.
    Summary,
    /// Objects or arrays of JSON, each on a line of its own.
    Lines,
    /// An object or an array whose members stand on lines of their own.
    Pretty,
    /// Nothing that is known here.
    Other,
}

/// What a file seems to be that begins with these bytes, for a hint.
pub fn look_of(bytes: &[u8]) -> Look {
    if bytes.starts_with(b"\xef\xbb\xbf") {
        return Look::Marked;
    }
    if bytes.starts_with(b"\x1f\x8b") {
        return Look::Packed;
    }
    if bytes.starts_with(b"SQLite format 3\0") {
        return Look::Database;
    }
    if bytes.starts_with(b"\xff\xfe") || bytes.starts_with(b"\xfe\xff") {
        return Look::Wide;
    }
    look_of_text(bytes)
}

/// What a file's text seems to be, for a hint.
fn look_of_text(bytes: &[u8]) -> Look {
    if bytes.iter().all(|b| b.is_ascii_whitespace()) {
        return Look::Empty;
    }
    if bytes.starts_with(b"{\"blocks\":") || bytes.starts_with(b"{\"sources\":") {
        return Look::Summary;
    }
    look_of_lines(bytes)
}

/// What a file seems to be by its first line and what stands behind it, for a hint.
fn look_of_lines(bytes: &[u8]) -> Look {
    let Some(end) = bytes.iter().position(|b| *b == b'\n') else {
        return Look::Other;
    };
    let (first, rest) = bytes.split_at(end);
    let first = first.trim_ascii();
    if first == b"{".as_slice() || first == b"[".as_slice() {
        return Look::Pretty;
    }
    if is_whole(first) && rest.iter().any(|b| *b == b'{' || *b == b'[') {
        return Look::Lines;
    }
    Look::Other
}

/// Whether a file's text begins and ends as an object or an array does, for a hint.
fn is_whole(text: &[u8]) -> bool {
    text.starts_with(b"{") && text.ends_with(b"}") || text.starts_with(b"[") && text.ends_with(b"]")
}
