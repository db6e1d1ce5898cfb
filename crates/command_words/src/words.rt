//! From the words of the command line to a plan.
ghost use Rattle.std.specs.Prelude.{◌≡◌, ℕ, IfOk, IfErr, None, Option, Some, codes, map};
ghost use Rattle.clap.specs.Words.{first_of, found_of, rows_of};
ghost use Rattle.command_words.specs.Plans.{AreFaulty, Blames, HasPages, HasRequestOf, HasTextsOf, HaveNoPlan, IsBase, IsInvocation, IsPartWritten, IsPartCount, command_of, text_in};
ghost use Rattle.command_words.specs.declared.command.Command.TheVariants as command;
ghost use Rattle.command_words.specs.declared.request.Invocation.{Invocation};
ghost use Rattle.command_words.specs.declared.request.Pages.{Pages};
ghost use Rattle.command_words.specs.declared.request.Request.{Request};

use crate::command::Command;
use crate::fault::Faulty;
use crate::matched::{given_text_of, is_given, str_of, text_of, texts_of};
use crate::program::{faulty_of, no_command};
use crate::request::{
    Alone, Check, Combine, Follow, Invocation, Number, Once, Pages, Plan, Request, Run, Split,
};
use crate::value::{
    action, base, both_pages, both_parts, no_events, number, order_number, part_count, part_number,
    question, source, time, wait, workers,
};
use attributes::Text;
use clap::ArgMatches;
use std::alloc::{AllocError, Global};

/// What the words after the program's name ask for; the first word is the command.
///
/// A request for help or for the version counts as faulty words.
pub fn invocation(alloc: Global, words: &[Text]) -> Result<Invocation, Faulty>
    ensures ok { IfOk result (IsInvocation words.now) }
    ensures err { IfErr result (Blames (AreFaulty words.now)) }
{
    let Some(first) = words.first() else {
        return Err(no_command(alloc, &[]));
    };
    let strs = as_strs(alloc, words)?;
    let Some(command) = Command::of_word(first.as_str()) else {
        return Err(no_command(alloc, strs.as_slice()));
    };
    let parser = command.parser(alloc)?;
    let matches = match parser.try_get_matches_from(strs.as_slice()) {
        Ok(matches) => matches,
        Err(error) => return Err(faulty_of(alloc, error)),
    };
    let plan = match matched(alloc, command, &matches) {
        Ok(plan) => plan,
        Err(faulty) => return Err(faulty),
    };
    match wait(alloc, str_of(&matches, "wait")) {
        Ok(wait) => Ok(Invocation { plan, wait }),
        Err(faulty) => Err(faulty),
    }
}

/// The command with the values of its arguments, as clap matched them.
fn matched(alloc: Global, command: Command, matches: &ArgMatches<'_>) -> Result<Plan, Faulty>
    ensures command { IfOk result (λ plan. command_of plan ≡ command) }
    ensures texts { IfOk result (HasTextsOf (rows_of (found_of matches.now))) }
    ensures err { IfErr result (Blames (HaveNoPlan (rows_of (found_of matches.now)) command)) }
{
    match command {
        Command::Ask(query) => {
            let db = given_text_of(alloc, matches, "db")?;
            let files = texts_of(alloc, matches, "file")?;
            if db.is_none() && files.is_empty() {
                return Err(no_events(alloc));
            }
            let has_lines = is_given(matches, "lines");
            Ok(Plan::Alone(Alone::Once(Once::Ask {
                query,
                db,
                files,
                has_lines,
            })))
        }
        Command::Check => {
            let db = given_text_of(alloc, matches, "db")?;
            let files = texts_of(alloc, matches, "file")?;
            if db.is_none() && files.is_empty() {
                return Err(no_events(alloc));
            }
            let has_lines = is_given(matches, "lines");
            let is_for_number = is_given(matches, "numbers");
            Ok(Plan::Alone(Alone::Check(Check {
                db,
                files,
                has_lines,
                is_for_number,
            })))
        }
        Command::Summary => {
            let db = text_of(alloc, matches, "db")?;
            Ok(Plan::Alone(Alone::Once(Once::Summary { db })))
        }
        Command::Take => {
            let db = text_of(alloc, matches, "db")?;
            let files = texts_of(alloc, matches, "file")?;
            let has_lines = is_given(matches, "lines");
            Ok(Plan::Alone(Alone::Once(Once::Take {
                db,
                files,
                has_lines,
            })))
        }
        Command::Follow => {
            let db = text_of(alloc, matches, "db")?;
            let file = text_of(alloc, matches, "file")?;
            Ok(Plan::Alone(Alone::Follow(Follow { db, file })))
        }
        Command::Delta => {
            let db = text_of(alloc, matches, "db")?;
            let summary = text_of(alloc, matches, "summary")?;
            match pages(alloc, matches) {
                Ok(pages) => Ok(Plan::Alone(Alone::Once(Once::Delta { db, pages, summary }))),
                Err(faulty) => Err(faulty),
            }
        }
        Command::Scrub => {
            let db = text_of(alloc, matches, "db")?;
            match pages(alloc, matches) {
                Ok(pages) => Ok(Plan::Alone(Alone::Once(Once::Scrub { db, pages }))),
                Err(faulty) => Err(faulty),
            }
        }
        Command::Arrivals => {
            let db = text_of(alloc, matches, "db")?;
            let is_all = is_given(matches, "all");
            match number(alloc, "--after <N>", str_of(matches, "after")) {
                Ok(after) => Ok(Plan::Alone(Alone::Once(Once::Arrivals { db, after, is_all }))),
                Err(faulty) => Err(faulty),
            }
        }
        Command::Run => run(alloc, matches),
        Command::Service => service(alloc, matches),
        Command::Order => match request(alloc, matches) {
            Ok(request) => Ok(Plan::Alone(Alone::Once(Once::Order(request)))),
            Err(faulty) => Err(faulty),
        },
        Command::Relay => {
            let db = text_of(alloc, matches, "db")?;
            let is_all = is_given(matches, "all");
            match number(alloc, "--after <N>", str_of(matches, "after")) {
                Ok(after) => Ok(Plan::Alone(Alone::Once(Once::Relay { db, after, is_all }))),
                Err(faulty) => Err(faulty),
            }
        }
        Command::Number => {
            let db = text_of(alloc, matches, "db")?;
            let aside = given_text_of(alloc, matches, "aside")?;
            let file = text_of(alloc, matches, "file")?;
            match base(alloc, str_of(matches, "base")) {
                Ok(base) => Ok(Plan::Alone(Alone::Number(Number {
                    db,
                    aside,
                    base,
                    file,
                }))),
                Err(faulty) => Err(faulty),
            }
        }
        Command::Part => part(alloc, matches),
        Command::Combine => {
            let covers = texts_of(alloc, matches, "cover")?;
            let files = texts_of(alloc, matches, "file")?;
            match question(alloc, str_of(matches, "question")) {
                Ok(query) => Ok(Plan::Alone(Alone::Combine(Combine {
                    query,
                    covers,
                    files,
                }))),
                Err(faulty) => Err(faulty),
            }
        }
    }
}

/// Which pages are printed, by the words of the command line.
fn pages(alloc: Global, matches: &ArgMatches<'_>) -> Result<Pages, Faulty>
    ensures ok { IfOk result (HasPages (rows_of (found_of matches.now))) }
    ensures err { IfErr result (Blames ((p : Pages)
        → HasPages (rows_of (found_of matches.now)) p → ⊥)) }
{
    if !is_given(matches, "all") {
        return match number(alloc, "--from <N>", str_of(matches, "from")) {
            Ok(passed) => Ok(Pages::Behind(passed)),
            Err(faulty) => Err(faulty),
        };
    }
    if is_given(matches, "from") {
        return Err(both_pages(alloc));
    }
    Ok(Pages::All)
}

/// The plan of a command line for files that are taken side by side.
fn run(alloc: Global, matches: &ArgMatches<'_>) -> Result<Plan, Faulty>
    ensures command { IfOk result (λ plan. command_of plan ≡ command.Run) }
    ensures texts { IfOk result (HasTextsOf (rows_of (found_of matches.now))) }
    ensures err { IfErr result (Blames (HaveNoPlan (rows_of (found_of matches.now)) command.Run)) }
{
    let db = text_of(alloc, matches, "db")?;
    let peer = given_text_of(alloc, matches, "peer")?;
    let files = texts_of(alloc, matches, "file")?;
    let has_lines = is_given(matches, "lines");
    match workers(alloc, peer.is_some(), files.len()) {
        Ok(()) => Ok(Plan::Run(Run {
            db,
            peer,
            files,
            has_lines,
        })),
        Err(faulty) => Err(faulty),
    }
}

/// A command line's plan of a service. Its values are tested in this order: the source, the base.
fn service(alloc: Global, matches: &ArgMatches<'_>) -> Result<Plan, Faulty>
    ensures command { IfOk result (λ plan. command_of plan ≡ command.Service) }
    ensures texts { IfOk result (HasTextsOf (rows_of (found_of matches.now))) }
    ensures err { IfErr result
        (Blames (HaveNoPlan (rows_of (found_of matches.now)) command.Service)) }
{
    let db = text_of(alloc, matches, "db")?;
    let source = match source(alloc, str_of(matches, "source")) {
        Ok(source) => source,
        Err(faulty) => return Err(faulty),
    };
    let is_source_named = is_given(matches, "source");
    match given_base(alloc, matches) {
        Ok(base) => Ok(Plan::Alone(Alone::Once(Once::Service {
            db,
            source,
            is_source_named,
            base,
        }))),
        Err(faulty) => Err(faulty),
    }
}

/// The base of a service, where the words of the command line gave one.
fn given_base(alloc: Global, matches: &ArgMatches<'_>) -> Result<Option<u64>, Faulty>
    ensures ok { IfOk result (IsBase (first_of (codes "base") (rows_of (found_of matches.now)))) }
    ensures err { IfErr result (Blames ((b : Option ℕ)
        → IsBase (first_of (codes "base") (rows_of (found_of matches.now))) b → ⊥)) }
{
    match matches.get_str("base") {
        Some(text) => match base(alloc, text) {
            Ok(number) => Ok(Some(number)),
            Err(faulty) => Err(faulty),
        },
        None => Ok(None),
    }
}

/// The command line's plan of a region's parts: with a prefix they go into files.
fn part(alloc: Global, matches: &ArgMatches<'_>) -> Result<Plan, Faulty>
    ensures command { IfOk result (λ plan. command_of plan ≡ command.Part) }
    ensures texts { IfOk result (HasTextsOf (rows_of (found_of matches.now))) }
    ensures err { IfErr result (Blames (HaveNoPlan (rows_of (found_of matches.now)) command.Part)) }
{
    match given_text_of(alloc, matches, "into")? {
        Some(prefix) => parts_into(alloc, matches, prefix),
        None => parts_shown(alloc, matches),
    }
}

/// The plan of parts that go into files whose names begin with this prefix, by the command line.
/// That no part is asked for is tested first, then the count.
fn parts_into(alloc: Global, matches: &ArgMatches<'_>, prefix: Text) -> Result<Plan, Faulty>
    requires { first_of (codes "into") (rows_of (found_of matches.now)) ≡ Some prefix }
    ensures command { IfOk result (λ plan. command_of plan ≡ command.Part) }
    ensures texts { IfOk result (HasTextsOf (rows_of (found_of matches.now))) }
    ensures err { IfErr result (Blames (HaveNoPlan (rows_of (found_of matches.now)) command.Part)) }
{
    let part = given_text_of(alloc, matches, "part")?;
    if part.is_some() {
        return Err(both_parts(alloc));
    }
    let files = texts_of(alloc, matches, "file")?;
    let has_lines = is_given(matches, "lines");
    match part_count(alloc, str_of(matches, "of")) {
        Ok(count) => Ok(Plan::Alone(Alone::Split(Split {
            count,
            prefix,
            files,
            has_lines,
        }))),
        Err(faulty) => Err(faulty),
    }
}

/// The plan of parts that are printed. Its values are tested in this order: the count, the part.
fn parts_shown(alloc: Global, matches: &ArgMatches<'_>) -> Result<Plan, Faulty>
    requires { first_of (codes "into") (rows_of (found_of matches.now)) ≡ None }
    ensures command { IfOk result (λ plan. command_of plan ≡ command.Part) }
    ensures texts { IfOk result (HasTextsOf (rows_of (found_of matches.now))) }
    ensures err { IfErr result (Blames (HaveNoPlan (rows_of (found_of matches.now)) command.Part)) }
{
    let files = texts_of(alloc, matches, "file")?;
    let has_lines = is_given(matches, "lines");
    let count = match part_count(alloc, str_of(matches, "of")) {
        Ok(count) => count,
        Err(faulty) => return Err(faulty),
    };
    match given_part(alloc, matches, count) {
        Ok(part) => Ok(Plan::Alone(Alone::Once(Once::Part {
            count,
            part,
            files,
            has_lines,
        }))),
        Err(faulty) => Err(faulty),
    }
}

/// The number of a part, of as many as the command line says, where it gave one.
fn given_part(alloc: Global, matches: &ArgMatches<'_>, count: u64) -> Result<Option<u64>, Faulty>
    requires { IsPartCount (text_in (rows_of (found_of matches.now)) (codes "of")) count }
    ensures ok { IfOk result
        (IsPartWritten (first_of (codes "part") (rows_of (found_of matches.now))) count) }
    ensures err { IfErr result (Blames ((n : ℕ) (part : Option ℕ)
        → IsPartCount (text_in (rows_of (found_of matches.now)) (codes "of")) n
        → IsPartWritten (first_of (codes "part") (rows_of (found_of matches.now))) n part → ⊥)) }
{
    match matches.get_str("part") {
        Some(text) => match part_number(alloc, text, count) {
            Ok(number) => Ok(Some(number)),
            Err(faulty) => Err(faulty),
        },
        None => Ok(None),
    }
}

/// What the command line asks of an order. Its values are tested in this order: the time, the
/// source, the action, the number.
fn request(alloc: Global, matches: &ArgMatches<'_>) -> Result<Request, Faulty>
    ensures ok { IfOk result (HasRequestOf (rows_of (found_of matches.now))) }
    ensures err { IfErr result (Blames ((r : Request)
        → HasRequestOf (rows_of (found_of matches.now)) r → ⊥)) }
{
    let db = text_of(alloc, matches, "db")?;
    let at = match time(alloc, str_of(matches, "at")) {
        Ok(at) => at,
        Err(faulty) => return Err(faulty),
    };
    let source = match source(alloc, str_of(matches, "source")) {
        Ok(source) => source,
        Err(faulty) => return Err(faulty),
    };
    let is_source_named = is_given(matches, "source");
    let action = match action(alloc, str_of(matches, "action")) {
        Ok(action) => action,
        Err(faulty) => return Err(faulty),
    };
    match order_number(alloc, str_of(matches, "order")) {
        Ok(order) => Ok(Request {
            db,
            source,
            is_source_named,
            at,
            action,
            order,
        }),
        Err(faulty) => Err(faulty),
    }
}

/// The words of the command line, borrowed.
fn as_strs<'a>(alloc: Global, words: &'a [Text]) -> Result<Vec<&'a str>, AllocError>
    ensures { IfOk result (λ list. map (λ s. s.now) list.items ≡ words.now) }
{
    let mut list = Vec::new(alloc);
    for word in words {
        list.push(word.as_str())?;
    }
    Ok(list)
}
