//! The texts that clap matched for arguments.
ghost use Rattle.std.specs.Prelude.{◌≡◌, IfOk, [], unwrap_or, map};
ghost use Rattle.clap.specs.Words.{all_of, first_of, found_of, rows_of};
ghost use Rattle.command_words.specs.Plans.{is_given, text_in, texts_in};

use attributes::{Text, Texts};
use clap::ArgMatches;
use clap::parser::ValueSource;
use std::alloc::{AllocError, Global};

/// The text that clap matched for an argument; empty where it wasn't given.
pub fn str_of<'a>(matches: &ArgMatches<'a>, id: &str) -> &'a str
    ensures { result.now ≡ text_in (rows_of (found_of matches.now)) id.now }
{
    match matches.get_str(id) {
        Some(text) => text,
        None => "",
    }
}

/// The text that clap matched for an argument, as a text of its own; empty where it wasn't given.
pub fn text_of(alloc: Global, matches: &ArgMatches<'_>, id: &str) -> Result<Text, AllocError>
    ensures { IfOk result (λ text. text ≡ text_in (rows_of (found_of matches.now)) id.now) }
{
    Text::of(alloc, str_of(matches, id))
}

/// The text that clap matched for an argument, as a text of its own; none where it wasn't given.
pub fn given_text_of(
    alloc: Global,
    matches: &ArgMatches<'_>,
    id: &str,
) -> Result<Option<Text>, AllocError>
    ensures { IfOk result (λ text. text ≡ first_of id.now (rows_of (found_of matches.now))) }
{
    match matches.get_str(id) {
        Some(text) => Ok(Some(Text::of(alloc, text)?)),
        None => Ok(None),
    }
}

/// Whether the words of the command line gave the argument themselves, and not its default.
pub fn is_given(matches: &ArgMatches<'_>, id: &str) -> bool
    ensures { result ≡ is_given (rows_of (found_of matches.now)) id.now }
{
    match matches.value_source(id) {
        Some(ValueSource::CommandLine) => true,
        Some(ValueSource::DefaultValue) => false,
        None => false,
    }
}

/// The texts that clap matched for an argument, in their order; none where it wasn't given.
pub fn texts_of(alloc: Global, matches: &ArgMatches<'_>, id: &str) -> Result<Texts, AllocError>
    ensures { IfOk result (λ texts. texts ≡ texts_in (rows_of (found_of matches.now)) id.now) }
{
    let mut texts = Texts::empty(alloc);
    let Some(values) = matches.get_strs(id) else {
        return Ok(texts);
    };
    for value in values {
        texts.push(Text::of(alloc, value)?)?;
    }
    Ok(texts)
}
