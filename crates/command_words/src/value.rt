//! The values that texts of the command line write.
ghost use Rattle.std.specs.Prelude.{◌≡◌, ◌≢◌, ℕ, true, IfErr, IfOk, IfSome, IsNone};
ghost use Rattle.command_words.specs.Commands.{word_of};
ghost use Rattle.command_words.specs.Plans.{AreFew, Blames, IsBaseNumber, IsNumber, IsOrderNumber, IsPartCount, IsPartNumber, IsServiceSource, IsTime, IsWait, action_word};
ghost use Rattle.command_words.specs.declared.command.Command.TheVariants as command;
ghost use Rattle.command_words.specs.declared.request.Action.{Action};
ghost use Rattle.views.specs.declared.query.Query.{Query};

use crate::fault::Faulty;
use crate::request::Action;
use attributes::{Fault, MAX_SEQUENCE, Moment, Text};
use std::alloc::Global;
use views::Query;

/// The most digits of a number.
const MAX_DIGITS: usize = 20;
/// The most files of a run.
const MAX_WORKERS: u64 = 16;
/// The most bytes of the time of a command.
const MAX_TIME: usize = 64;
/// The most bytes of a service's source.
const MAX_SOURCE: usize = 1_024;
/// The most parts of a region.
const MAX_PARTS: u64 = 65_536;
/// The most seconds that a database is waited for: a day.
const MAX_WAIT: u64 = 86_400;

/// The number that at most twenty decimal digits of a command line write, where it fits 64 bits.
fn number_of(text: &str) -> Option<u64>
    ensures some { IfSome result (IsNumber text.now) }
    ensures none { IsNone result → (n : ℕ) → IsNumber text.now n → ⊥ }
{
    if text.len() > MAX_DIGITS {
        return None;
    }
    if let Some(b'+') = text.as_bytes().first() {
        return None;
    }
    text.parse::<u64>().ok()
}

/// A number on the command line. `name` is that of its argument, for what is said of another text.
pub fn number(alloc: Global, name: &str, text: &str) -> Result<u64, Faulty>
    ensures ok { IfOk result (IsNumber text.now) }
    ensures err { IfErr result (Blames ((n : ℕ) → IsNumber text.now n → ⊥)) }
{
    match number_of(text) {
        Some(number) => Ok(number),
        None => Err(not_allowed(alloc, name, text, "a number of 1 to 20 digits, below 2^64")),
    }
}

/// The number of an order on the command line.
pub fn order_number(alloc: Global, text: &str) -> Result<u64, Faulty>
    ensures ok { IfOk result (IsOrderNumber text.now) }
    ensures err { IfErr result (Blames ((n : ℕ) → IsOrderNumber text.now n → ⊥)) }
{
    match number_of(text) {
        Some(number) => {
            if number == 0 || number > MAX_SEQUENCE {
                return Err(no_order(alloc, text));
            }
            Ok(number)
        }
        None => Err(no_order(alloc, text)),
    }
}

/// What is said of a text on the command line that is no order's number.
fn no_order(alloc: Global, text: &str) -> Faulty {
    not_allowed(
        alloc,
        "<ORDER>",
        text,
        "a number from 1 to 9223372036854775807",
    )
}

/// The number before a service's first row, or a source's first event, on the command line.
pub fn base(alloc: Global, text: &str) -> Result<u64, Faulty>
    ensures ok { IfOk result (IsBaseNumber text.now) }
    ensures err { IfErr result (Blames ((n : ℕ) → IsBaseNumber text.now n → ⊥)) }
{
    match number_of(text) {
        Some(number) => {
            if number > MAX_SEQUENCE {
                return Err(no_base(alloc, text));
            }
            Ok(number)
        }
        None => Err(no_base(alloc, text)),
    }
}

/// What is said of a text on the command line that is no such number.
fn no_base(alloc: Global, text: &str) -> Faulty {
    not_allowed(
        alloc,
        "--base <N>",
        text,
        "a number from 0 to 9223372036854775807",
    )
}

/// For how many seconds a database is waited for, by the command line.
pub fn wait(alloc: Global, text: &str) -> Result<u64, Faulty>
    ensures ok { IfOk result (IsWait text.now) }
    ensures err { IfErr result (Blames ((n : ℕ) → IsWait text.now n → ⊥)) }
{
    match number_of(text) {
        Some(seconds) => {
            if seconds > MAX_WAIT {
                return Err(no_wait(alloc, text));
            }
            Ok(seconds)
        }
        None => Err(no_wait(alloc, text)),
    }
}

/// What is said of a text on the command line that is no such number of seconds.
fn no_wait(alloc: Global, text: &str) -> Faulty {
    not_allowed(alloc, "--wait <SECONDS>", text, "a number from 0 to 86400")
}

/// What is done with an order, by a word of the command line.
pub fn action(alloc: Global, text: &str) -> Result<Action, Faulty>
    ensures ok { IfOk result (λ action. text.now ≡ action_word action) }
    ensures err { IfErr result (Blames ((action : Action) → text.now ≢ action_word action)) }
{
    match text {
        "place" => Ok(Action::Place),
        "ship" => Ok(Action::Ship),
        "cancel" => Ok(Action::Cancel),
        _ => Err(not_allowed(alloc, "<ACTION>", text, "place, ship or cancel")),
    }
}

/// What the parts of a region were asked, by a word of the command line.
pub fn question(alloc: Global, text: &str) -> Result<Query, Faulty>
    ensures ok { IfOk result (λ query. text.now ≡ word_of (command.Ask query)) }
    ensures err { IfErr result (Blames ((query : Query) → text.now ≢ word_of (command.Ask query))) }
{
    match text {
        "cover" => Ok(Query::Cover),
        "gaps" => Ok(Query::Gaps),
        "shown" => Ok(Query::Shown),
        "latest" => Ok(Query::Latest),
        "kinds" => Ok(Query::Kinds),
        "days" => Ok(Query::Days),
        "conflicts" => Ok(Query::Conflicts),
        _ => Err(not_allowed(
            alloc,
            "<QUESTION>",
            text,
            "cover, gaps, shown, latest, kinds, days or conflicts",
        )),
    }
}

/// How many parts a region has, by the command line.
pub fn part_count(alloc: Global, text: &str) -> Result<u64, Faulty>
    ensures ok { IfOk result (IsPartCount text.now) }
    ensures err { IfErr result (Blames ((n : ℕ) → IsPartCount text.now n → ⊥)) }
{
    match number_of(text) {
        Some(number) => {
            if number == 0 || number > MAX_PARTS {
                return Err(no_count(alloc, text));
            }
            Ok(number)
        }
        None => Err(no_count(alloc, text)),
    }
}

/// What is said of a text on the command line that is no such count.
fn no_count(alloc: Global, text: &str) -> Faulty {
    not_allowed(alloc, "--of <N>", text, "a number from 1 to 65536")
}

/// The number of a part, of so many, on the command line.
pub fn part_number(alloc: Global, text: &str, count: u64) -> Result<u64, Faulty>
    ensures ok { IfOk result (IsPartNumber text.now count) }
    ensures err { IfErr result (Blames ((i : ℕ) → IsPartNumber text.now count i → ⊥)) }
{
    match number_of(text) {
        Some(number) => {
            if number >= count {
                return Err(no_part(alloc, text));
            }
            Ok(number)
        }
        None => Err(no_part(alloc, text)),
    }
}

/// What is said of a text on the command line that is the number of no part.
fn no_part(alloc: Global, text: &str) -> Faulty {
    not_allowed(
        alloc,
        "--part <I>",
        text,
        "a number from 0, below that of --of",
    )
}

/// The time of a command on an order, on the command line.
pub fn time(alloc: Global, text: &str) -> Result<Moment, Faulty>
    ensures ok { IfOk result (λ at. at ≡ text.now) }
    ensures allowed { IfOk result (λ at. IsTime text.now) }
    ensures err { IfErr result (Blames (IsTime text.now → ⊥)) }
{
    let wanted = "a time of RFC 3339 of at most 64 bytes, such as 2024-02-29T10:00:00Z";
    if text.len() > MAX_TIME {
        return Err(not_allowed(alloc, "--at <TIME>", text, wanted));
    }
    match Moment::of_text(alloc, text) {
        Ok(at) => Ok(at),
        Err(Fault::OutOfMemory) => Err(Faulty::OutOfMemory),
        Err(_) => Err(not_allowed(alloc, "--at <TIME>", text, wanted)),
    }
}

/// Whether a command line's run may have so many files, with a peer's or not: each has a thread.
pub fn workers(alloc: Global, has_peer: bool, files: u64) -> Result<(), Faulty>
    ensures ok { IfOk result (λ _. AreFew has_peer files) }
    ensures err { IfErr result (Blames (AreFew has_peer files → ⊥)) }
{
    let most = if has_peer {
        MAX_WORKERS - 1
    } else {
        MAX_WORKERS
    };
    if files > most {
        return Err(too_many(alloc));
    }
    Ok(())
}

/// What is said of a command line for a run of too many files.
fn too_many(alloc: Global) -> Faulty {
    said(
        alloc,
        "error: a run takes at most 16 files, its peer's counted\n\nFor more information, try '--help'.\n",
    )
}

/// Faulty words of a command line, of which this is said.
fn said(alloc: Global, what: &str) -> Faulty {
    match Text::of(alloc, what) {
        Ok(text) => Faulty::Words {
            text,
            is_help: false,
        },
        Err(_) => Faulty::OutOfMemory,
    }
}

/// What is said of a command line for a question or a check without a file and without a database.
pub fn no_events(alloc: Global) -> Faulty {
    said(
        alloc,
        "error: a file or a database is wanted: <FILE>... or --db <DB>\n\nFor more information, try '--help'.\n",
    )
}

/// What is said of words of a command line that ask for one page and for all.
pub fn both_pages(alloc: Global) -> Faulty {
    said(
        alloc,
        "error: the argument '--from <N>' cannot be used with '--all'\n\nFor more information, try '--help'.\n",
    )
}

/// What is said of words of a command line that ask for one part and for all.
pub fn both_parts(alloc: Global) -> Faulty {
    said(
        alloc,
        "error: the argument '--part <I>' cannot be used with '--into <PREFIX>'\n\nFor more information, try '--help'.\n",
    )
}

/// The source of a service on the command line.
pub fn source(alloc: Global, text: &str) -> Result<Text, Faulty>
    ensures ok { IfOk result (λ source. source ≡ text.now) }
    ensures allowed { IfOk result (λ source. IsServiceSource text.now) }
    ensures err { IfErr result (Blames (IsServiceSource text.now → ⊥)) }
{
    let source = Text::of(alloc, text)?;
    if text.len() > MAX_SOURCE || !source.is_source() {
        return Err(not_allowed(
            alloc,
            "--source <S>",
            text,
            "1 to 1,024 bytes without a control character",
        ));
    }
    Ok(source)
}

/// What is said of a text on the command line that its argument doesn't allow.
fn not_allowed(alloc: Global, name: &str, text: &str, wanted: &str) -> Faulty {
    let said = format!(in alloc;
        "error: invalid value '{text}' for '{name}': {wanted} is wanted\n\nFor more information, try '--help'.\n"
    );
    match said {
        Ok(text) => Faulty::Words {
            text: Text::from_string(text),
            is_help: false,
        },
        Err(_) => Faulty::OutOfMemory,
    }
}
