//! The table of the commands: their words, their help lines and their arguments.
ghost use Rattle.std.specs.Prelude.{◌≡◌, ℕ, IfOk, IfSome, IsNone, IsOk, Some, false, slice_get, ◌≢◌};
ghost use Rattle.clap.specs.Words.{app_of, new_app, rule_of, with_rule};
ghost use Rattle.command_words.specs.Commands.{app_for, app_in, own_app, word_of};
ghost use Rattle.command_words.specs.declared.command.Command.{Command};

use crate::argument::{
    action, after, all, answers, arrived, aside, at, base, by_line, checked_db, checked_files,
    covers, db, files, for_number, from, into, lines, numbered_files, numbers_base, numbers_db,
    order, paged_db, part, part_count, peer, question, question_db, question_files, read_db,
    source, summary, wait,
};
use clap::Arg;
use std::alloc::{AllocError, Global};
use views::Query;

/// A command of the program. Each has `[--wait SECONDS]` too.
#[derive(Clone, Copy, Debug, PartialEq, Eq)]
pub enum Command {
    /// `WORD [--db DB] [--lines] FILE..`: answers the query for the events of all files together, and
    /// those of a database.
    Ask(Query),
    /// `check [--db DB] [--lines] [--numbers] FILE..`: each event of the files that can't be taken, and
    /// why, or why `number` refuses it, and what a database is.
    Check,
    /// `summary --db DB`: which events a database has, for another site to compare.
    Summary,
    /// `take --db DB [--lines] FILE..`: adds the files' events to a database.
    Take,
    /// `follow --db DB [FILE]`: keeps lines in a database, and acknowledges each.
    Follow,
    /// `delta --db DB [--from N | --all] SUMMARY`: the events that a summary lacks.
    Delta,
    /// `scrub --db DB [--from N | --all]`: all events.
    Scrub,
    /// `arrivals --db DB --after N [--all]`: the events that came behind the first N.
    Arrivals,
    /// `run --db DB [--peer FILE] [--lines] FILE..`: takes files side by side into a database.
    Run,
    /// `service --db DB [--source S] [--base N]`: the service of a database, made where there is
    /// none.
    Service,
    /// `order --db DB [--source S] --at TIME ACTION ORDER`: a command to a service.
    Order,
    /// `relay --db DB --after N [--all]`: the next rows of a service's outbox.
    Relay,
    /// `number --db NUMBERS [--aside NAME] [--base N] [FILE]`: gives each event of lines its number.
    Number,
    /// `part --of N [--part I | --into PREFIX] [--lines] FILE..`: the part of each source, the
    /// events of one part, or the events of each part into a file of its own.
    Part,
    /// `combine [--cover FILE].. QUESTION FILE..`: the answer of a region from those of its parts.
    Combine,
}

/// All commands, in the order in which help lists them.
pub static COMMANDS: [Command; 21] = [
    Command::Ask(Query::Cover),
    Command::Ask(Query::Gaps),
    Command::Ask(Query::Shown),
    Command::Ask(Query::Latest),
    Command::Ask(Query::Kinds),
    Command::Ask(Query::Days),
    Command::Ask(Query::Conflicts),
    Command::Check,
    Command::Take,
    Command::Follow,
    Command::Summary,
    Command::Delta,
    Command::Scrub,
    Command::Arrivals,
    Command::Run,
    Command::Service,
    Command::Order,
    Command::Relay,
    Command::Number,
    Command::Part,
    Command::Combine,
];

impl Command {
    /// The command of a word of the command line.
    pub fn of_word(word: &str) -> Option<Command>
        ensures some { IfSome result (λ command. word_of command ≡ word.now) }
        ensures none { IsNone result → (command : Command) → word_of command ≢ word.now }
    {
        named(&COMMANDS, word)
    }

    /// A command's word on the command line: the first behind the program's name.
    fn word<'a>(self) -> &'a str
        ensures { result.now ≡ word_of self }
    {
        match self {
            Command::Ask(Query::Cover) => "cover",
            Command::Ask(Query::Gaps) => "gaps",
            Command::Ask(Query::Shown) => "shown",
            Command::Ask(Query::Latest) => "latest",
            Command::Ask(Query::Kinds) => "kinds",
            Command::Ask(Query::Days) => "days",
            Command::Ask(Query::Conflicts) => "conflicts",
            Command::Check => "check",
            Command::Take => "take",
            Command::Follow => "follow",
            Command::Summary => "summary",
            Command::Delta => "delta",
            Command::Scrub => "scrub",
            Command::Arrivals => "arrivals",
            Command::Run => "run",
            Command::Service => "service",
            Command::Order => "order",
            Command::Relay => "relay",
            Command::Number => "number",
            Command::Part => "part",
            Command::Combine => "combine",
        }
    }

    /// The command's word with the program's name before it, for the usage in its help.
    fn full_name<'a>(self) -> &'a str {
        match self {
            Command::Ask(Query::Cover) => "site cover",
            Command::Ask(Query::Gaps) => "site gaps",
            Command::Ask(Query::Shown) => "site shown",
            Command::Ask(Query::Latest) => "site latest",
            Command::Ask(Query::Kinds) => "site kinds",
            Command::Ask(Query::Days) => "site days",
            Command::Ask(Query::Conflicts) => "site conflicts",
            Command::Check => "site check",
            Command::Take => "site take",
            Command::Follow => "site follow",
            Command::Summary => "site summary",
            Command::Delta => "site delta",
            Command::Scrub => "site scrub",
            Command::Arrivals => "site arrivals",
            Command::Run => "site run",
            Command::Service => "site service",
            Command::Order => "site order",
            Command::Relay => "site relay",
            Command::Number => "site number",
            Command::Part => "site part",
            Command::Combine => "site combine",
        }
    }

    /// One line of help on what the command prints.
    fn about<'a>(self) -> &'a str {
        match self {
            Command::Ask(Query::Cover) =>
                "Prints which numbers each source has, as a summary that sites compare",
            Command::Ask(Query::Gaps) =>
                "Prints which numbers each source lacks, to see what was lost on the way",
            Command::Ask(Query::Shown) =>
                "Prints the events, of each source and id the one with the least text",
            Command::Ask(Query::Latest) =>
                "Prints the latest event of each source and subject, as its state now",
            Command::Ask(Query::Kinds) =>
                "Prints how many shown events have each type, as a count of what happened",
            Command::Ask(Query::Days) =>
                "Prints how many shown events have each type and UTC day, for a report by day",
            Command::Ask(Query::Conflicts) =>
                "Prints the events that share a source and id, to find producers at fault",
            Command::Check =>
                "Prints what a database is, and each event of the files that can't be taken",
            Command::Take =>
                "Adds the files' events to a database, each once, and prints how many were new",
            Command::Follow =>
                "Keeps lines of events in a database, and acknowledges each once it is kept",
            Command::Summary =>
                "Prints which events a database has, as a summary that delta compares",
            Command::Delta =>
                "Prints a batch of the events that another site lacks, to be sent to it",
            Command::Scrub =>
                "Prints a batch of all events, page by page, to mend what a delta can't find",
            Command::Arrivals =>
                "Prints a batch of the events that came after those that were read, in their order",
            Command::Run => "Takes files side by side into a database, and prints its summary",
            Command::Service => "Makes the service of a database, or tells which one is there",
            Command::Order =>
                "Places, ships or cancels an order, and prints the event that says so",
            Command::Relay =>
                "Prints a batch of the next events of the orders, to be sent to the sites",
            Command::Number =>
                "Gives each event of lines its number, for producers that send none, and prints it once it is kept",
            Command::Part =>
                "Prints which part of a region each source falls to, or the events of one part, or writes those of each",
            Command::Combine =>
                "Prints the answer of a whole region, from the answers of its parts to a question",
        }
    }

    /// The command of the command line as clap reads it.
    pub fn parser<'a>(self, alloc: Global) -> Result<clap::Command<'a>, AllocError>
        ensures { IfOk result (λ parser. app_of parser ≡ app_for self) }
    {
        with(self.own_parser(alloc), wait(alloc))
    }

    /// The command with the arguments of the command line that not every one has.
    fn own_parser<'a>(self, alloc: Global) -> Result<clap::Command<'a>, AllocError>
        ensures { IsOk result → app_in result ≡ own_app self }
    {
        let bare = self.bare(alloc);
        match self {
            Command::Ask(_) => {
                let begun = with(with(bare, question_db(alloc)), by_line(alloc));
                with(begun, question_files(alloc))
            }
            Command::Check => {
                let begun = with(with(bare, checked_db(alloc)), by_line(alloc));
                with(with(begun, for_number(alloc)), checked_files(alloc))
            }
            Command::Summary => with(bare, read_db(alloc)),
            Command::Take => {
                with(
                    with(with(bare, db(alloc)), by_line(alloc)),
                    numbered_files(alloc),
                )
            }
            Command::Follow => with(with(bare, db(alloc)), lines(alloc)),
            Command::Delta => {
                let begun = with(with(bare, paged_db(alloc)), from(alloc));
                with(with(begun, all(alloc)), summary(alloc))
            }
            Command::Scrub => with(with(with(bare, paged_db(alloc)), from(alloc)), all(alloc)),
            Command::Arrivals => {
                with(with(with(bare, read_db(alloc)), arrived(alloc)), all(alloc))
            }
            Command::Run => {
                let begun = with(with(bare, db(alloc)), peer(alloc));
                with(with(begun, by_line(alloc)), files(alloc))
            }
            Command::Service => with(with(with(bare, db(alloc)), source(alloc)), base(alloc)),
            Command::Order => {
                let begun = with(with(bare, db(alloc)), source(alloc));
                with(with(with(begun, at(alloc)), action(alloc)), order(alloc))
            }
            Command::Relay => with(with(with(bare, paged_db(alloc)), after(alloc)), all(alloc)),
            Command::Number => {
                let begun = with(with(bare, numbers_db(alloc)), aside(alloc));
                with(with(begun, numbers_base(alloc)), lines(alloc))
            }
            Command::Part => {
                let begun = with(with(bare, part_count(alloc)), part(alloc));
                let begun = with(begun, into(alloc));
                with(with(begun, by_line(alloc)), numbered_files(alloc))
            }
            Command::Combine => {
                let begun = with(with(bare, covers(alloc)), question(alloc));
                with(begun, answers(alloc))
            }
        }
    }

    /// The command's word with its help line, without arguments.
    fn bare<'a>(self, alloc: Global) -> Result<clap::Command<'a>, AllocError>
        ensures { IsOk result → app_in result ≡ new_app (word_of self) }
    {
        let named = clap::Command::new(alloc, self.word()).bin_name(self.full_name())?;
        Ok(named.about(self.about()))
    }
}

/// The first of the command line's commands with this word.
fn named<'a>(commands: &[Command], word: &'a str) -> Option<Command>
    ensures some { IfSome result (λ command. word_of command ≡ word.now) }
    ensures none { IsNone result → (i : ℕ) (command : Command)
        → slice_get commands.now i ≡ Some command → word_of command ≢ word.now }
{
    for i in 0..commands.len() {
        let command = commands[i];
        let own: &'a str = command.word();
        if own == word {
            return Some(command);
        }
    }
    None
}

/// The command with one more argument for clap, if memory was left so far.
fn with<'a>(
    begun: Result<clap::Command<'a>, AllocError>,
    arg: Arg<'a>,
) -> Result<clap::Command<'a>, AllocError>
    requires { arg.global ≡ false }
    ensures { IsOk result → IsOk begun.entry
        × (app_in result ≡ with_rule (app_in begun.entry) (rule_of arg.entry)) }
{
    begun?.arg(arg)
}
