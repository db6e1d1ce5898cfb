//! The arguments of the commands, as clap declares them.
ghost use Rattle.std.specs.Prelude.{◌≡◌, false, codes};
ghost use Rattle.clap.specs.Words.{rule_of};
ghost use Rattle.command_words.specs.Commands.{covers_rule, default_rule, files_rule, flag_rule, from_rule, lines_rule, needed_rule, option_rule, place_rule, question_files_rule, wait_rule};

use clap::{Arg, ArgAction};
use std::alloc::Global;

/// `--NAME VALUE` of the command line.
fn option<'a>(alloc: Global, name: &'a str, value: &'a str, help: &'a str) -> Arg<'a>
    ensures rule { rule_of result ≡ option_rule name.now }
    ensures local { result.global ≡ false }
{
    Arg::new(alloc, name)
        .long(name)
        .value_name(value)
        .help(help)
}

/// `--NAME VALUE` of the command line, required.
fn needed<'a>(alloc: Global, name: &'a str, value: &'a str, help: &'a str) -> Arg<'a>
    ensures rule { rule_of result ≡ needed_rule name.now }
    ensures local { result.global ≡ false }
{
    Arg::new(alloc, name)
        .long(name)
        .value_name(value)
        .help(help)
        .required(true)
}

/// `--NAME VALUE` of the command line, with this value where it isn't given.
fn with_default<'a>(
    alloc: Global,
    name: &'a str,
    value: &'a str,
    default: &'a str,
    help: &'a str,
) -> Arg<'a>
    ensures rule { rule_of result ≡ default_rule name.now default.now }
    ensures local { result.global ≡ false }
{
    Arg::new(alloc, name)
        .long(name)
        .value_name(value)
        .help(help)
        .default_value(default)
}

/// `--NAME` of the command line.
fn flag<'a>(alloc: Global, name: &'a str, help: &'a str) -> Arg<'a>
    ensures rule { rule_of result ≡ flag_rule name.now }
    ensures local { result.global ≡ false }
{
    Arg::new(alloc, name)
        .long(name)
        .help(help)
        .action(ArgAction::SetTrue)
}

/// A word of the command line at its place, required.
fn place<'a>(alloc: Global, name: &'a str, value: &'a str, help: &'a str) -> Arg<'a>
    ensures rule { rule_of result ≡ place_rule name.now }
    ensures local { result.global ≡ false }
{
    Arg::new(alloc, name)
        .value_name(value)
        .help(help)
        .required(true)
}

/// `FILE..` of the command line, one or more.
fn some_files<'a>(alloc: Global, help: &'a str) -> Arg<'a>
    ensures rule { rule_of result ≡ files_rule }
    ensures local { result.global ≡ false }
{
    Arg::new(alloc, "file")
        .value_name("FILE")
        .help(help)
        .action(ArgAction::Append)
        .required(true)
}

/// `FILE..` of the command line, or none.
fn any_files<'a>(alloc: Global, help: &'a str) -> Arg<'a>
    ensures rule { rule_of result ≡ question_files_rule }
    ensures local { result.global ≡ false }
{
    Arg::new(alloc, "file")
        .value_name("FILE")
        .help(help)
        .action(ArgAction::Append)
}

/// `FILE..` of the command line, one or more.
pub fn files<'a>(alloc: Global) -> Arg<'a>
    ensures rule { rule_of result ≡ files_rule }
    ensures local { result.global ≡ false }
{
    some_files(
        alloc,
        "Files of CloudEvents in JSON, an event or a batch each; - is standard input",
    )
}

/// `FILE..` of the command line, one or more, whose events all have numbers.
pub fn numbered_files<'a>(alloc: Global) -> Arg<'a>
    ensures rule { rule_of result ≡ files_rule }
    ensures local { result.global ≡ false }
{
    some_files(
        alloc,
        "Files of CloudEvents in JSON, each with a sequence of twenty digits, as 00000000000000000001; - is standard input",
    )
}

/// `FILE..` of the command line, which a question over a database may have none of.
pub fn question_files<'a>(alloc: Global) -> Arg<'a>
    ensures rule { rule_of result ≡ question_files_rule }
    ensures local { result.global ≡ false }
{
    any_files(
        alloc,
        "Files of CloudEvents in JSON, an event or a batch each; - is standard input",
    )
}

/// `FILE` of the command line, standard input where it isn't given.
pub fn lines<'a>(alloc: Global) -> Arg<'a>
    ensures rule { rule_of result ≡ lines_rule }
    ensures local { result.global ≡ false }
{
    Arg::new(alloc, "file")
        .value_name("FILE")
        .help("A file of lines, an event or a batch each; - is standard input")
        .default_value("-")
}

/// `--db DB` of the command line, of a command that only reads.
pub fn read_db<'a>(alloc: Global) -> Arg<'a>
    ensures rule { rule_of result ≡ needed_rule (codes "db") }
    ensures local { result.global ≡ false }
{
    needed(
        alloc,
        "db",
        "DB",
        "The database file, cached up to 256 MiB or SITE_CACHE_MIB",
    )
}

/// `--db DB` of the command line, of a question.
pub fn question_db<'a>(alloc: Global) -> Arg<'a>
    ensures rule { rule_of result ≡ option_rule (codes "db") }
    ensures local { result.global ≡ false }
{
    option(
        alloc,
        "db",
        "DB",
        "A database file, cached up to 256 MiB or SITE_CACHE_MIB, whose events are asked with those of the files",
    )
}

/// `--db DB` of the command line, of a check.
pub fn checked_db<'a>(alloc: Global) -> Arg<'a>
    ensures rule { rule_of result ≡ option_rule (codes "db") }
    ensures local { result.global ≡ false }
{
    option(
        alloc,
        "db",
        "DB",
        "A database file, cached up to 256 MiB or SITE_CACHE_MIB, to be told what it is",
    )
}

/// `FILE..` of a command line, whose events all have numbers; a check of a database may have none.
pub fn checked_files<'a>(alloc: Global) -> Arg<'a>
    ensures rule { rule_of result ≡ question_files_rule }
    ensures local { result.global ≡ false }
{
    any_files(
        alloc,
        "Files of CloudEvents in JSON, each with a sequence of twenty digits, as 00000000000000000001; - is standard input",
    )
}

/// The argument `--numbers` of the command line.
pub fn for_number<'a>(alloc: Global) -> Arg<'a>
    ensures rule { rule_of result ≡ flag_rule (codes "numbers") }
    ensures local { result.global ≡ false }
{
    flag(
        alloc,
        "numbers",
        "Judge each file, or line, as number does, which gives events their sequence",
    )
}

/// The argument `--lines` of the command line.
pub fn by_line<'a>(alloc: Global) -> Arg<'a>
    ensures rule { rule_of result ≡ flag_rule (codes "lines") }
    ensures local { result.global ≡ false }
{
    flag(
        alloc,
        "lines",
        "Each line of a file is an event or a batch; a line of white space is passed over",
    )
}

/// The argument `--all` of the command line.
pub fn all<'a>(alloc: Global) -> Arg<'a>
    ensures rule { rule_of result ≡ flag_rule (codes "all") }
    ensures local { result.global ≡ false }
{
    flag(
        alloc,
        "all",
        "Every page, each as a line of its own, instead of one",
    )
}

/// The argument `--db DB` of the command line.
pub fn db<'a>(alloc: Global) -> Arg<'a>
    ensures rule { rule_of result ≡ needed_rule (codes "db") }
    ensures local { result.global ≡ false }
{
    needed(
        alloc,
        "db",
        "DB",
        "The database file, made where there is none, cached up to 256 MiB or SITE_CACHE_MIB",
    )
}

/// `--db DB` of the command line, of a command that prints one page or all.
pub fn paged_db<'a>(alloc: Global) -> Arg<'a>
    ensures rule { rule_of result ≡ needed_rule (codes "db") }
    ensures local { result.global ≡ false }
{
    needed(
        alloc,
        "db",
        "DB",
        "The database file, cached up to 256 MiB or SITE_CACHE_MIB; for one page it is made where there is none",
    )
}

/// The argument `--from N` of the command line.
pub fn from<'a>(alloc: Global) -> Arg<'a>
    ensures rule { rule_of result ≡ from_rule }
    ensures local { result.global ≡ false }
{
    with_default(
        alloc,
        "from",
        "N",
        "0",
        "How many events to pass over: 100 for the second page",
    )
}

/// The argument `SUMMARY` of the command line.
pub fn summary<'a>(alloc: Global) -> Arg<'a>
    ensures rule { rule_of result ≡ place_rule (codes "summary") }
    ensures local { result.global ≡ false }
{
    place(
        alloc,
        "summary",
        "SUMMARY",
        "A file with the other site's summary, as summary or cover prints it; - is standard input",
    )
}

/// The argument `--peer FILE` of the command line.
pub fn peer<'a>(alloc: Global) -> Arg<'a>
    ensures rule { rule_of result ≡ option_rule (codes "peer") }
    ensures local { result.global ≡ false }
{
    option(
        alloc,
        "peer",
        "FILE",
        "A file with another site's events; - is standard input",
    )
}

/// The argument `--source S` of the command line.
pub fn source<'a>(alloc: Global) -> Arg<'a>
    ensures rule { rule_of result ≡ default_rule (codes "source") (codes "/orders") }
    ensures local { result.global ≡ false }
{
    with_default(
        alloc,
        "source",
        "S",
        "/orders",
        "The source of the service's events; a service that is there must have it",
    )
}

/// The argument `--base N` of the command line.
pub fn base<'a>(alloc: Global) -> Arg<'a>
    ensures rule { rule_of result ≡ option_rule (codes "base") }
    ensures local { result.global ≡ false }
{
    option(
        alloc,
        "base",
        "N",
        "The number before the service's first row, 0 for a new one; a service that is there must have it",
    )
}

/// The argument `--at TIME` of the command line.
pub fn at<'a>(alloc: Global) -> Arg<'a>
    ensures rule { rule_of result ≡ needed_rule (codes "at") }
    ensures local { result.global ≡ false }
{
    needed(
        alloc,
        "at",
        "TIME",
        "When it was done, as RFC 3339 writes it: 2024-02-29T10:00:00Z",
    )
}

/// The argument `ACTION` of the command line.
pub fn action<'a>(alloc: Global) -> Arg<'a>
    ensures rule { rule_of result ≡ place_rule (codes "action") }
    ensures local { result.global ≡ false }
{
    place(
        alloc,
        "action",
        "ACTION",
        "What is done with the order: place, ship or cancel",
    )
}

/// The argument `ORDER` of the command line.
pub fn order<'a>(alloc: Global) -> Arg<'a>
    ensures rule { rule_of result ≡ place_rule (codes "order") }
    ensures local { result.global ≡ false }
{
    place(alloc, "order", "ORDER", "The number of the order, from 1")
}

/// The argument `--after N` of the command line.
pub fn after<'a>(alloc: Global) -> Arg<'a>
    ensures rule { rule_of result ≡ needed_rule (codes "after") }
    ensures local { result.global ≡ false }
{
    needed(
        alloc,
        "after",
        "N",
        "The number of the last row that was sent, 0 for none",
    )
}

/// `--after N` of the command line, of events that came.
pub fn arrived<'a>(alloc: Global) -> Arg<'a>
    ensures rule { rule_of result ≡ needed_rule (codes "after") }
    ensures local { result.global ≡ false }
{
    needed(
        alloc,
        "after",
        "N",
        "How many events were read already: the number of the last one, 0 for none",
    )
}

/// The argument `--db NUMBERS` of the command line.
pub fn numbers_db<'a>(alloc: Global) -> Arg<'a>
    ensures rule { rule_of result ≡ needed_rule (codes "db") }
    ensures local { result.global ≡ false }
{
    needed(
        alloc,
        "db",
        "NUMBERS",
        "The file of the numbers that were given, made where there is none, cached up to 256 MiB or SITE_CACHE_MIB; a source has one such file",
    )
}

/// The argument `--aside NAME` of the command line.
pub fn aside<'a>(alloc: Global) -> Arg<'a>
    ensures rule { rule_of result ≡ option_rule (codes "aside") }
    ensures local { result.global ≡ false }
{
    option(
        alloc,
        "aside",
        "NAME",
        "The attribute under which a sequence that an event has already is set aside; without it such an event is refused",
    )
}

/// `--base N` of the command line, of numbers.
pub fn numbers_base<'a>(alloc: Global) -> Arg<'a>
    ensures rule { rule_of result ≡ default_rule (codes "base") (codes "0") }
    ensures local { result.global ≡ false }
{
    with_default(
        alloc,
        "base",
        "N",
        "0",
        "The number before the first of each source; a file that is there must have it",
    )
}

/// `--cover FILE` of the command line, one a part.
pub fn covers<'a>(alloc: Global) -> Arg<'a>
    ensures rule { rule_of result ≡ covers_rule }
    ensures local { result.global ≡ false }
{
    Arg::new(alloc, "cover")
        .long("cover")
        .value_name("FILE")
        .help(
            "A file with a part's answer to cover, given once a part in the order of the answers; beside cover and shown none is read",
        )
        .action(ArgAction::Append)
}

/// The argument `QUESTION` of the command line.
pub fn question<'a>(alloc: Global) -> Arg<'a>
    ensures rule { rule_of result ≡ place_rule (codes "question") }
    ensures local { result.global ≡ false }
{
    place(
        alloc,
        "question",
        "QUESTION",
        "What the parts were asked: cover, gaps, shown, latest, kinds, days or conflicts",
    )
}

/// `FILE..` of the command line, of answers.
pub fn answers<'a>(alloc: Global) -> Arg<'a>
    ensures rule { rule_of result ≡ files_rule }
    ensures local { result.global ≡ false }
{
    some_files(
        alloc,
        "Files with the answers of the parts, one a part; - is standard input",
    )
}

/// The argument `--of N` of the command line.
pub fn part_count<'a>(alloc: Global) -> Arg<'a>
    ensures rule { rule_of result ≡ needed_rule (codes "of") }
    ensures local { result.global ≡ false }
{
    needed(alloc, "of", "N", "How many parts there are, 1 to 65536")
}

/// The argument `--part I` of the command line.
pub fn part<'a>(alloc: Global) -> Arg<'a>
    ensures rule { rule_of result ≡ option_rule (codes "part") }
    ensures local { result.global ≡ false }
{
    option(
        alloc,
        "part",
        "I",
        "The part whose events are printed as a batch, from 0",
    )
}

/// The argument `--into PREFIX` of the command line.
pub fn into<'a>(alloc: Global) -> Arg<'a>
    ensures rule { rule_of result ≡ option_rule (codes "into") }
    ensures local { result.global ≡ false }
{
    option(
        alloc,
        "into",
        "PREFIX",
        "Write each part's batch into a file of its own, PREFIX0.json and so on, and print how many events it has",
    )
}

/// The argument `--wait SECONDS` of the command line.
pub fn wait<'a>(alloc: Global) -> Arg<'a>
    ensures rule { rule_of result ≡ wait_rule }
    ensures local { result.global ≡ false }
{
    with_default(
        alloc,
        "wait",
        "SECONDS",
        "0",
        "For how long to wait for a database that another process has open, at most 86400",
    )
}
