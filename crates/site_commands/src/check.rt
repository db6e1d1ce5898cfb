//! The command that judges files and keeps nothing of them, and tells what a database is.
ghost use Rattle.std.specs.Prelude.{◌≡◌, IfErr, IfOk, IsFalse, IsTrue, length};
ghost use Rattle.site_commands.specs.Checks.{AreFaultsOf, FindsNone, FindsSome, IsCheckEnding, IsFaultOf, RefusesCheck, TellsDatabase, TellsGiven, piece_names};
ghost use Rattle.site_commands.specs.steps.Checks.{FindsIn};

use crate::ending::{Ending, refused};
use crate::files::Looks;
use crate::hint::hint_of;
use crate::line::Refusal;
use crate::names::Names;
use crate::pieces::{Pieces, line_names, read_pieces};
use crate::progress::Progress;
use crate::refusal::number_fault_lines;
use attributes::{Octets, Text};
use command_words::Check;
use databases::{Databases, Trouble, trouble_line};
use event_files::{Shelf, Unread, UnreadAt};
use fault_lines::fault_lines;
use std::alloc::{AllocError, Global};

/// What is told of a database.
#[derive(Drop)]
struct Told {
    is_sound: bool,
    text: Text,
}

/// What a check found, and whether nothing is at fault.
#[derive(Drop)]
struct Found {
    is_faultless: bool,
    text: Text,
}

/// What the command `check` comes to: what the database is, and the lines of the files' faults.
pub fn ending_of_check<S: Looks, D: Databases + Drop, P: Progress>(
    alloc: Global,
    shelf: &S,
    databases: &D,
    plan: &Check,
    progress: &P,
) -> Ending
    ensures { IsCheckEnding (S.is_content shelf.now) (S.is_unread shelf.now) plan.now result }
{
    match check(alloc, shelf, databases, plan) {
        Ok(found) => {
            let Found { is_faultless, text } = found;
            if is_faultless {
                Ending::Answer(text)
            } else {
                Ending::Findings(text)
            }
        }
        Err(refusal) => {
            let names = Names::of_check(plan);
            let hint = hint_of(alloc, shelf, databases, progress, names, refusal);
            refused(alloc, names, refusal, hint)
        }
    }
}

/// What `check` finds of the database and in all files. All files are read before one is judged,
/// and the database is looked at behind that.
fn check<S: Shelf, D: Databases>(
    alloc: Global,
    shelf: &S,
    databases: &D,
    plan: &Check,
) -> Result<Found, Refusal>
    ensures none { IfOk result (λ f. IsTrue f.is_faultless
        → FindsNone (S.is_content shelf.now) plan.now f.text) }
    ensures some { IfOk result (λ f. IsFalse f.is_faultless
        → FindsSome (S.is_content shelf.now) plan.now f.text) }
    ensures err { IfErr result
        (RefusesCheck (S.is_content shelf.now) (S.is_unread shelf.now) plan.now.files) }
{
    match read_pieces(alloc, shelf, plan.files.as_slice(), plan.has_lines) {
        Ok(pieces) => match found_of(alloc, databases, plan, &pieces) {
            Ok(found) => Ok(found),
            Err(_) => Err(Refusal::Unread(UnreadAt {
                file: 0,
                why: Unread::OutOfMemory,
            })),
        },
        Err(at) => Err(Refusal::Unread(at)),
    }
}

/// What `check` finds of the database and in these pieces of the files.
fn found_of<D: Databases>(
    alloc: Global,
    databases: &D,
    plan: &Check,
    pieces: &Pieces,
) -> Result<Found, AllocError>
    requires { length pieces.now.texts.items ≡ length
        (piece_names plan.now.has_lines plan.now.files pieces.now.places.items) }
    ensures { IfOk result (λ f. FindsIn plan.now.is_for_number plan.now.db
        (piece_names plan.now.has_lines plan.now.files pieces.now.places.items)
        pieces.now.texts.items f.is_faultless f.text) }
{
    let files = plan.files.as_slice();
    let texts = pieces.texts.as_slice();
    if plan.has_lines {
        let names = line_names(alloc, files, pieces.places.as_slice())?;
        return found_in(alloc, databases, plan, names.as_slice(), texts);
    }
    found_in(alloc, databases, plan, files, texts)
}

/// What `check` finds of the database and in these contents, each of the name at its place.
fn found_in<D: Databases>(
    alloc: Global,
    databases: &D,
    plan: &Check,
    names: &[Text],
    contents: &[Octets],
) -> Result<Found, AllocError>
    requires { length contents.now ≡ length names.now }
    ensures { IfOk result (λ f. FindsIn plan.now.is_for_number plan.now.db names.now contents.now
        f.is_faultless f.text) }
{
    let Told { is_sound, text } = told_if_given(alloc, databases, &plan.db)?;
    let lines = lines_of(alloc, names, contents, plan.is_for_number)?;
    let is_faultless = is_sound && lines.as_str().is_empty();
    let mut text = text.into_string();
    text.push_str(lines.as_str())?;
    Ok(Found {
        is_faultless,
        text: Text::from_string(text),
    })
}

/// What `check` tells of the database, where one is given.
fn told_if_given<D: Databases>(
    alloc: Global,
    databases: &D,
    db: &Option<Text>,
) -> Result<Told, AllocError>
    ensures { IfOk result (λ t. TellsGiven db.now t.is_sound t.text) }
{
    match db {
        Some(db) => told_of(alloc, databases, db.as_str()),
        None => Ok(Told {
            is_sound: true,
            text: Text::from_string(String::new(alloc)),
        }),
    }
}

/// What `check` tells of the database of this name.
fn told_of<D: Databases>(alloc: Global, databases: &D, db: &str) -> Result<Told, AllocError>
    ensures { IfOk result (λ t. TellsDatabase db.now t.is_sound t.text) }
{
    match databases.describe(alloc, db) {
        Ok(text) => Ok(Told {
            is_sound: true,
            text,
        }),
        Err(why) => {
            if why == Trouble::OutOfMemory {
                return Err(AllocError);
            }
            let text = trouble_line(alloc, db, why)?;
            Ok(Told {
                is_sound: false,
                text,
            })
        }
    }
}

/// The lines of `check` on what is at fault in these contents, each of the file of that name.
fn lines_of(
    alloc: Global,
    files: &[Text],
    contents: &[Octets],
    is_for_number: bool,
) -> Result<Text, AllocError>
    requires { length contents.now ≡ length files.now }
    ensures { IfOk result (AreFaultsOf is_for_number files.now contents.now) }
{
    let mut text = String::new(alloc);
    for i in 0..files.len() {
        let lines = lines_in(alloc, &files[i], &contents[i], is_for_number)?;
        text.push_str(lines.as_str())?;
    }
    Ok(Text::from_string(text))
}

/// What `check` tells of faults in this content: as sites take it, or as `number` does, in lines.
fn lines_in(
    alloc: Global,
    file: &Text,
    content: &Octets,
    is_for_number: bool,
) -> Result<Text, AllocError>
    ensures { IfOk result (IsFaultOf is_for_number file.now content.now) }
{
    if is_for_number {
        return number_fault_lines(alloc, file, content);
    }
    fault_lines(alloc, file, content.as_bytes())
}
