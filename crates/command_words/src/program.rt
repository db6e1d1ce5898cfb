//! The program as a whole, for its help, its version and what it says of faulty words.
ghost use Rattle.std.specs.Prelude.{◌≢◌, ⊤};
ghost use Rattle.clap.specs.Words.{kind_of};
ghost use Rattle.clap.specs.declared.error.kind.ErrorKind.{ErrorKind};
ghost use Rattle.command_words.specs.Plans.{Blames};

use crate::command::{COMMANDS, Command};
use crate::fault::Faulty;
use attributes::Text;
use clap::Error;
use clap::error::ErrorKind;
use std::alloc::{AllocError, Global};

/// The program with all its commands, as clap reads it. It reads words whose first is no command,
/// for its help, its version, and what it says of a word that it doesn't know.
fn program<'a>(alloc: Global) -> Result<clap::Command<'a>, AllocError> {
    let mut program = clap::Command::new(alloc, "site")
        .bin_name("site")?
        .version("0.2.1")
        .about("Keeps the CloudEvents of several regions in step, and answers questions about them")
        .no_binary_name(true)
        .subcommand_required(true)
        .arg_required_else_help(true);
    for command in &COMMANDS {
        program = program.subcommand(command.parser(alloc)?)?;
    }
    Ok(program)
}

/// What is said of words whose first is no command: help, the version, which word is unknown, or
/// that a command stands behind its options.
pub fn no_command(alloc: Global, words: &[&str]) -> Faulty
    ensures { Blames ⊤ result }
{
    if let Some(place) = late_command(words) {
        return command_first(alloc, words, place);
    }
    match program(alloc) {
        Ok(program) => match program.try_get_matches_from(words) {
            Ok(_) => unknown_word(alloc),
            Err(error) => faulty_of(alloc, error),
        },
        Err(_) => Faulty::OutOfMemory,
    }
}

/// Whether the command line's word is an option, and none that the program has without a command.
fn is_own_option(word: &str) -> bool {
    word.starts_with("--") && word != "--" && word != "--help" && word != "--version"
}

/// The place of the command line's first word that is a command, where it begins with its options.
fn late_command(words: &[&str]) -> Option<usize> {
    let first = words.first()?;
    if !is_own_option(first) {
        return None;
    }
    words
        .iter()
        .position(|word| Command::of_word(word).is_some())
}

/// The words of the command line with that at a place as the first.
fn words_from(alloc: Global, words: &[&str], place: usize) -> Result<String, AllocError> {
    let mut line = String::new(alloc);
    if let Some(word) = words.get(place) {
        line.push_str(word)?;
    }
    for i in 0..words.len() {
        if i != place {
            line.push_str(" ")?;
            line.push_str(words[i])?;
        }
    }
    Ok(line)
}

/// What is said of words whose command, at that place, stands behind its options.
fn command_first(alloc: Global, words: &[&str], place: usize) -> Faulty {
    let Ok(line) = words_from(alloc, words, place) else {
        return Faulty::OutOfMemory;
    };
    let said = format!(in alloc;
        "error: the command comes first: site {line}\n\nFor more information, try '--help'.\n"
    );
    match said {
        Ok(text) => Faulty::Words {
            text: Text::from_string(text),
            is_help: false,
        },
        Err(_) => Faulty::OutOfMemory,
    }
}

/// The refusal of faulty words that an error of clap is.
pub fn faulty_of(alloc: Global, error: Error) -> Faulty
    ensures { Blames (kind_of error ≢ ErrorKind.OutOfMemory) result }
{
    let kind = error.kind();
    if matches!(kind, ErrorKind::OutOfMemory) {
        return Faulty::OutOfMemory;
    }
    let is_help = matches!(kind, ErrorKind::DisplayHelp | ErrorKind::DisplayVersion);
    match format!(in alloc; "{error}") {
        Ok(text) => Faulty::Words {
            text: Text::from_string(text),
            is_help,
        },
        Err(_) => Faulty::OutOfMemory,
    }
}

/// The refusal where clap finds a command in words whose first is none, which it never does.
fn unknown_word(alloc: Global) -> Faulty {
    match Text::of(alloc, "error: the first word is no command\n") {
        Ok(text) => Faulty::Words {
            text,
            is_help: false,
        },
        Err(_) => Faulty::OutOfMemory,
    }
}
