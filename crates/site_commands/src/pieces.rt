//! What is judged of files: each as a whole, or each of their lines as a file of its own.
ghost use Rattle.std.specs.Prelude.{◌≡◌, ◌==◌, ◌<◌, ◌+◌, ◌^◌, ◌++◌, ◌∷◌, [], List, ℕ, IfErr, IfOk, IfSome, OnOk, length, position};
ghost use Rattle.std.specs.Option.{option_map_or};
ghost use Rattle.event_files.specs.Files.{IsRefusal};
ghost use Rattle.event_files.specs.Shelves.{IsUnreadAt};
ghost use Rattle.site_commands.specs.Lines.{line_names};
ghost use Rattle.site_commands.specs.Pieces.{ArePieces, IsInputRefused, file_lines, is_blank, is_white, line_at, lines_from, lines_of, pieces_of, places_in, places_of_lines, bytes_of_lines};

use crate::line::{Refusal, line_name};
use crate::names::name_at;
use attributes::{Octets, Text, Texts};
use event_files::{Refused, ReportFault, Shelf, Unread, UnreadAt, contents_of};
use std::alloc::{AllocError, Global};

/// Which line of which file.
#[derive(Clone, Copy, PartialEq, Eq, Debug)]
pub struct LineAt {
    /// The place of the file, from 0.
    pub file: u64,
    /// The number of the line in its file, from 1.
    pub line: u64,
}

/// A line at fault, and its first fault. Where memory ran out the line says nothing.
#[derive(Clone, Copy, PartialEq, Eq, Debug)]
pub struct RefusedLine {
    pub at: LineAt,
    pub fault: ReportFault,
}

/// What is judged of files, each as a file of its own.
#[derive(Drop)]
pub struct Pieces {
    pub texts: Vec<Octets>,
    /// Where each stands, if they are lines; none, if they are whole files.
    pub places: Vec<LineAt>,
}

/// Whether a byte of a file's line is white space of JSON.
fn is_white(byte: u8) -> bool
    ensures { result ≡ is_white byte }
{
    byte == b' ' || byte == b'\t' || byte == b'\r'
}

/// Whether a line of a file has nothing but white space.
pub fn is_blank(line: &[u8]) -> bool
    ensures { result ≡ is_blank line.now }
{
    line.iter().all(|byte| is_white(*byte))
}

/// The place of the first LF in a file's text.
fn line_end(text: &[u8]) -> Option<usize>
    ensures { result ≡ position (λ b. b == 10) text.now }
{
    text.iter().position(|byte| *byte == b'\n')
}

/// The first line of a file's text, and what stands behind its LF, where it has one.
pub fn first_line(text: &[u8]) -> (&[u8], Option<&[u8]>)
    ensures lines { lines_of text.now
        ≡ result.0.now ∷ option_map_or (λ rest. lines_of rest.now) result.1 [] }
    ensures shorter { IfSome result.1 (λ rest. length rest.now < length text.now) }
{
    match line_end(text) {
        Some(at) => (&text[..at], Some(&text[at + 1..])),
        None => (text, None),
    }
}

impl Pieces {
    /// No lines of files to judge.
    fn empty(alloc: Global) -> Pieces
        ensures texts { result.texts.items ≡ [] }
        ensures places { result.places.items ≡ [] }
    {
        Pieces {
            texts: Vec::new(alloc),
            places: Vec::new(alloc),
        }
    }

    /// Adds the line of a file to judge, behind so many others, unless it is blank.
    fn add(&mut self, alloc: Global, file: u64, before: u64, line: &[u8]) -> Result<(), AllocError>
        requires { before + 1 < 2 ^ 64 }
        ensures texts { OnOk result (self.new.texts.items
            ≡ self.old.texts.items ++ bytes_of_lines (line_at file before line.now)) }
        ensures places { OnOk result (self.new.places.items
            ≡ self.old.places.items ++ places_of_lines (line_at file before line.now)) }
    {
        if is_blank(line) {
            return Ok(());
        }
        self.texts.push(Octets::of(alloc, line)?)?;
        self.places.push(LineAt {
            file,
            line: before + 1,
        })?;
        Ok(())
    }

    /// Adds the lines of a file to judge.
    fn add_file(&mut self, alloc: Global, file: u64, bytes: &[u8]) -> Result<(), AllocError>
        ensures texts { OnOk result (self.new.texts.items
            ≡ self.old.texts.items ++ bytes_of_lines (lines_from file 0 (lines_of bytes.now))) }
        ensures places { OnOk result (self.new.places.items
            ≡ self.old.places.items ++ places_of_lines (lines_from file 0 (lines_of bytes.now))) }
    {
        let mut left = Some(bytes);
        let mut before: u64 = 0;
        while let Some(rest) = left {
            let (line, behind) = first_line(rest);
            self.add(alloc, file, before, line)?;
            before += 1;
            left = behind;
        }
        Ok(())
    }
}

/// The lines of all files to judge. The bytes of a file are given back before the next are cut.
fn file_lines(alloc: Global, contents: Vec<Octets>) -> Result<Pieces, AllocError>
    ensures texts { IfOk result (λ p. p.texts.items ≡ bytes_of_lines (file_lines contents.items)) }
    ensures places { IfOk result (λ p. p.places.items ≡ places_of_lines (file_lines contents.items)) }
{
    // Their count bounds that of those that were cut.
    let _count = contents.len();
    let mut pieces = Pieces::empty(alloc);
    let mut file: u64 = 0;
    for bytes in contents {
        pieces.add_file(alloc, file, bytes.as_bytes())?;
        file += 1;
    }
    Ok(pieces)
}

/// What is judged of these contents of files: the lines, or each as it is.
pub fn pieces_of(
    alloc: Global,
    contents: Vec<Octets>,
    has_lines: bool,
) -> Result<Pieces, AllocError>
    ensures texts { IfOk result (λ p. p.texts.items ≡ pieces_of has_lines contents.items) }
    ensures places { IfOk result (λ p. p.places.items ≡ places_in has_lines contents.items) }
{
    if has_lines {
        return file_lines(alloc, contents);
    }
    Ok(Pieces {
        texts: contents,
        places: Vec::new(alloc),
    })
}

/// What is judged of the files of these names: their lines, or each file as a whole. All are read
/// first.
pub fn read_pieces<S: Shelf>(
    alloc: Global,
    shelf: &S,
    files: &[Text],
    has_lines: bool,
) -> Result<Pieces, UnreadAt>
    ensures ok { IfOk result (λ p.
        ArePieces (S.is_content shelf.now) has_lines files.now p.texts.items p.places.items) }
    ensures err { IfErr result
        (IsUnreadAt (S.is_content shelf.now) (S.is_unread shelf.now) files.now) }
{
    match contents_of(alloc, shelf, files) {
        Ok(contents) => match pieces_of(alloc, contents, has_lines) {
            Ok(pieces) => Ok(pieces),
            Err(_) => Err(UnreadAt {
                file: 0,
                why: Unread::OutOfMemory,
            }),
        },
        Err(at) => Err(at),
    }
}

/// The program's refusal of what is judged of files: of a file, or of the line that stands there.
pub fn refusal_at(has_lines: bool, places: &[LineAt], refused: Refused) -> Refusal
    ensures { (contents : List (List ℕ)) → places.now ≡ places_in has_lines contents
        → IsRefusal (pieces_of has_lines contents) refused
        → IsInputRefused has_lines contents result }
{
    if !has_lines {
        return Refusal::File(refused);
    }
    let fault = refused.fault;
    match places.get(refused.file as usize) {
        Some(at) => Refusal::Line(RefusedLine { at: *at, fault }),
        None => Refusal::Line(RefusedLine {
            at: LineAt { file: 0, line: 0 },
            fault,
        }),
    }
}

/// The program's refusal for want of memory of what is judged of files.
pub fn memory_refusal(has_lines: bool) -> Refusal
    ensures { (contents : List (List ℕ)) → IsInputRefused has_lines contents result }
{
    let fault = ReportFault::OutOfMemory;
    if has_lines {
        return Refusal::Line(RefusedLine {
            at: LineAt { file: 0, line: 0 },
            fault,
        });
    }
    Refusal::File(Refused { file: 0, fault })
}

/// The names of lines of these files, for error lines.
pub fn line_names(alloc: Global, files: &[Text], places: &[LineAt]) -> Result<Texts, AllocError>
    ensures { IfOk result (λ names. names ≡ line_names files.now places.now) }
{
    let mut names = Texts::empty(alloc);
    for at in places {
        names.push(line_name(alloc, name_at(files, at.file), at.line)?)?;
    }
    Ok(names)
}
