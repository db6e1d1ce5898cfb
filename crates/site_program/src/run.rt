//! The whole program, over any runtime and writers.
ghost use Rattle.std.specs.Prelude.{◌≡◌, ◌≤◌, Err, IfErr, IfOk, MatchResult, Ok, length};
ghost use Rattle.std.specs.Option.{is_some};
ghost use Rattle.std.specs.Process.{exit_status};
ghost use Rattle.command_words.specs.Plans.{AreFaulty, AreFew};
ghost use Rattle.site_program.specs.Answers.{AnswersOnce, IsAllowedOnce, IsAllowedAlone, RefusesOnce};
ghost use Rattle.site_commands.specs.Inputs.{MayBeRead, MayBeUnread};
ghost use Rattle.site_commands.specs.Printed.{printed};
ghost use Rattle.site_commands.specs.declared.printed.Printed.TheVariants as Printed;
ghost use Rattle.site_program.specs.Runs.{EndsUnheard, IsOnceEnding, IsRunEnding, IsUnheard, PrintsAnswer, RunsAlone, RunsBeside, RunsWords, said};

use crate::number::number;
use crate::workers::run;
use attributes::Text;
use command_words::{Alone, Faulty, Once, Pages, Plan, Run, invocation};
use databases::Databases;
use event_files::{EventReader, Shelf};
use number_lines::Numberers;
use parallel_reader::ParallelReader;
use run_command::Runs;
use site_commands::check::ending_of_check;
use site_commands::combine::ending_of_combine;
use site_commands::database::{arrivals, delta, order, relay, scrub, service, summary, take};
use site_commands::part::part;
use site_commands::query::ask;
use site_commands::split::ending_of_split;
use site_commands::stream::follow;
use site_commands::{
    Ending, Looks, Names, Printed, Progress, Refusal, SystemFiles, SystemOutputs, answered, finish,
    hint_of, refused,
};
use std::alloc::Global;
use std::io;
use std::io::{ErrorKind, Write};
use std::process::ExitCode;
use std::rt::Files;
use std::sync::Wait;
use std::thread::Threads;

/// Runs the program on the words after its name, and answers its exit code. Words that couldn't be
/// had are at fault, or memory was refused.
pub fn exit<
    R: AllocGlobal + Files + Threads + Wait + Sync,
    D: Databases + Numberers + Drop,
    U: Runs + Drop,
    O: Write,
    E: Write,
    P: Progress,
>(
    rt: &R,
    databases: &D,
    runs: &U,
    words: io::Result<Vec<Text>>,
    out: &mut O,
    err: &mut E,
    progress: &P,
) -> ExitCode
    ensures { MatchResult words
        (λ words. RunsWords MayBeRead MayBeUnread words.items (exit_status result)
        (O.contents out.old) (O.contents out.new) (E.contents err.old) (E.contents err.new))
        (λ _. EndsUnheard (exit_status result)
        (O.contents out.old) (O.contents out.new) (E.contents err.old) (E.contents err.new)) }
{
    match words {
        Ok(words) => {
            let words = words.as_slice();
            ExitCode::from(perform(rt, databases, runs, words, out, err, progress))
        }
        Err(error) => {
            let ending = unheard(rt.alloc(), error.kind());
            ExitCode::from(finish(ending, out, err, progress))
        }
    }
}

/// Runs the program on the words after its name, and answers its exit status: 0 for a result, 1 for
/// a refusal and for output that can't be written, 2 for faulty words and for help.
///
/// All files are read before any is judged, and judged before a database is opened, but for the
/// feeds of `run`, which their workers judge, and for `follow` and `number`, whose lines are answered
/// as they come. A result is written to `out` in one piece, or by pages, a refusal as one line to
/// `err`; what a page was made for, the file or a service in it, is told there too. Help that was
/// asked for goes to `out`, what is said of faulty words to `err`. After a write that fails nothing
/// more is written. It waits where `run` does, and for a database that another process has, as long
/// as the words say.
///
/// How far `take`, `check` and `run` came is told by `progress` alone, before anything is written,
/// and how far `follow` came before it reads on.
pub fn perform<
    R: AllocGlobal + Files + Threads + Wait + Sync,
    D: Databases + Numberers + Drop,
    U: Runs + Drop,
    O: Write,
    E: Write,
    P: Progress,
>(rt: &R, databases: &D, runs: &U, words: &[Text], out: &mut O, err: &mut E, progress: &P) -> u8
    ensures status { result ≤ 2 }
    ensures answer { result ≡ 0
        → PrintsAnswer MayBeRead words.now (O.contents out.old) (O.contents out.new) }
    ensures faulty { result ≡ 2 → AreFaulty words.now }
    ensures runs { RunsWords MayBeRead MayBeUnread words.now result
        (O.contents out.old) (O.contents out.new) (E.contents err.old) (E.contents err.new) }
{
    match invocation(rt.alloc(), words) {
        Ok(asked) => {
            let databases = databases.waiting(asked.wait);
            match &asked.plan {
                Plan::Alone(plan) => {
                    let reader = ParallelReader { rt };
                    perform_alone(rt, &databases, &reader, plan, out, err, progress)
                }
                Plan::Run(plan) => {
                    let runs = runs.waiting(asked.wait);
                    perform_run(rt, &databases, &runs, plan, out, err, progress)
                }
            }
        }
        Err(faulty) => finish(said(faulty), out, err, progress),
    }
}

/// What the program says of faulty words.
fn said(faulty: Faulty) -> Ending
    ensures { result ≡ said faulty }
{
    match faulty {
        Faulty::Words { text, is_help } => {
            if is_help {
                Ending::Help(text)
            } else {
                Ending::Faulty(text)
            }
        }
        Faulty::OutOfMemory => Ending::NoMemory,
    }
}

/// Carries out a plan that waits for no thread, and answers the exit status, as [`perform`] does.
/// The reader of the files' events alone may start threads. A stream is written as it goes; of every other plan
/// it is known what it comes to before anything is written.
pub fn perform_alone<
    R: AllocGlobal + Files,
    D: Databases + Numberers + Drop,
    F: EventReader,
    O: Write,
    E: Write,
    P: Progress,
>(rt: &R, databases: &D, reader: &F, plan: &Alone, out: &mut O, err: &mut E, progress: &P) -> u8
    requires allowed { IsAllowedAlone plan.now }
    requires reader { F.can_read reader.now }
    ensures { RunsAlone MayBeRead MayBeUnread plan.now result
        (O.contents out.old) (O.contents out.new) (E.contents err.old) (E.contents err.new) }
{
    match plan {
        Alone::Once(plan) => {
            let shelf = SystemFiles::new(rt, progress, long_files(plan));
            let ending = ending_of(rt.alloc(), &shelf, reader, databases, plan, progress);
            progress.over();
            finish(ending, out, err, progress)
        }
        Alone::Follow(plan) => {
            let shelf = SystemFiles::new(rt, progress, 0);
            follow(rt.alloc(), &shelf, databases, plan, out, err, progress)
        }
        Alone::Check(plan) => {
            let shelf = SystemFiles::new(rt, progress, plan.files.len());
            let ending = ending_of_check(rt.alloc(), &shelf, databases, plan, progress);
            progress.over();
            finish(ending, out, err, progress)
        }
        Alone::Number(plan) => {
            let shelf = SystemFiles::new(rt, progress, 0);
            number(rt.alloc(), &shelf, databases, plan, out, err, progress)
        }
        Alone::Combine(plan) => {
            let shelf = SystemFiles::new(rt, progress, 0);
            let ending = ending_of_combine(rt.alloc(), &shelf, databases, plan, progress);
            progress.over();
            finish(ending, out, err, progress)
        }
        Alone::Split(plan) => {
            let shelf = SystemFiles::new(rt, progress, 0);
            let mut outputs = SystemOutputs::new(rt);
            let ending = ending_of_split(
                rt.alloc(),
                &shelf,
                reader,
                &mut outputs,
                databases,
                plan,
                progress,
            );
            progress.over();
            finish(ending, out, err, progress)
        }
    }
}

/// Carries out a run, and answers the exit status. It waits.
fn perform_run<
    R: AllocGlobal + Files + Threads + Wait + Sync,
    D: Databases + Drop,
    U: Runs,
    O: Write,
    E: Write,
    P: Progress,
>(rt: &R, databases: &D, runs: &U, plan: &Run, out: &mut O, err: &mut E, progress: &P) -> u8
    requires { AreFew (is_some plan.now.peer) (length plan.now.files) }
    ensures { RunsBeside MayBeRead MayBeUnread plan.now result
        (O.contents out.old) (O.contents out.new) (E.contents err.old) (E.contents err.new) }
{
    let left = plan.files.len().saturating_add(plan.peer.is_some() as u64);
    let shelf = SystemFiles::new(rt, progress, left);
    let ending = ending_of_run(rt, rt.alloc(), &shelf, databases, runs, plan, progress);
    progress.over();
    finish(ending, out, err, progress)
}

/// How many files are read by a plan that may take long, so that it is worth while to tell how many
/// are left.
fn long_files(plan: &Once) -> u64 {
    match plan {
        Once::Take { files, .. } => files.len(),
        _ => 0,
    }
}

/// The database that the program's plan makes where there is none, though it only asks for a page.
fn made_by(plan: &Once) -> Option<&str> {
    match plan {
        Once::Delta {
            db,
            pages: Pages::Behind(_),
            ..
        } => Some(db.as_str()),
        Once::Scrub {
            db,
            pages: Pages::Behind(_),
        } => Some(db.as_str()),
        Once::Relay {
            db,
            is_all: false,
            ..
        } => Some(db.as_str()),
        _ => None,
    }
}

/// What a plan with one answer comes to over a shelf of files, before anything is written.
fn ending_of<S: Looks, F: EventReader, D: Databases + Drop, P: Progress>(
    alloc: Global,
    shelf: &S,
    reader: &F,
    databases: &D,
    plan: &Once,
    progress: &P,
) -> Ending
    requires allowed { IsAllowedOnce plan.now }
    requires reader { F.can_read reader.now }
    ensures { IsOnceEnding (S.is_content shelf.now) (S.is_unread shelf.now) plan.now result }
{
    let names = Names::of_once(plan);
    let is_made = match made_by(plan) {
        Some(db) => !databases.is_there(db),
        None => false,
    };
    match answer_once(alloc, shelf, reader, databases, plan, progress) {
        Ok(Printed::Line(text)) => answered(alloc, names.db, text, is_made, false),
        Ok(Printed::Founded(text)) => answered(alloc, names.db, text, is_made, true),
        Ok(Printed::Pages(events)) => Ending::Pages(events),
        Err(refusal) => {
            let hint = hint_of(alloc, shelf, databases, progress, names, refusal);
            refused(alloc, names, refusal, hint)
        }
    }
}

/// What a run comes to over a shelf of files, before anything is written.
fn ending_of_run<R: Threads + Wait + Sync, S: Looks, D: Databases + Drop, U: Runs, P: Progress>(
    rt: &R,
    alloc: Global,
    shelf: &S,
    databases: &D,
    runs: &U,
    plan: &Run,
    progress: &P,
) -> Ending
    requires { AreFew (is_some plan.now.peer) (length plan.now.files) }
    ensures { IsRunEnding (S.is_content shelf.now) (S.is_unread shelf.now) plan.now result }
{
    match run(
        rt,
        alloc,
        shelf,
        runs,
        plan.db.as_str(),
        &plan.peer,
        plan.files.as_slice(),
        plan.has_lines,
        progress,
    ) {
        Ok(text) => Ending::Answer(text),
        Err(refusal) => {
            let names = Names::of_run(plan);
            let hint = hint_of(alloc, shelf, databases, progress, names, refusal);
            refused(alloc, names, refusal, hint)
        }
    }
}

/// The program's answer to a plan that has one.
fn answer_once<S: Shelf, F: EventReader, D: Databases, P: Progress>(
    alloc: Global,
    shelf: &S,
    reader: &F,
    databases: &D,
    plan: &Once,
    progress: &P,
) -> Result<Printed, Refusal>
    requires allowed { IsAllowedOnce plan.now }
    requires reader { F.can_read reader.now }
    ensures ok { IfOk result (λ p. AnswersOnce (S.is_content shelf.now) plan.now (printed p)) }
    ensures err { IfErr result
        (RefusesOnce (S.is_content shelf.now) (S.is_unread shelf.now) plan.now) }
{
    match plan {
        Once::Ask {
            query,
            db,
            files,
            has_lines,
        } => printed_line(ask(
            alloc,
            shelf,
            reader,
            databases,
            *query,
            db,
            files.as_slice(),
            *has_lines,
        )),
        Once::Take {
            db,
            files,
            has_lines,
        } => printed_line(take(
            alloc,
            shelf,
            reader,
            databases,
            db.as_str(),
            files.as_slice(),
            *has_lines,
            progress,
        )),
        Once::Summary { db } => printed_line(summary(alloc, databases, db.as_str())),
        Once::Delta { db, pages, summary } => delta(
            alloc,
            shelf,
            databases,
            db.as_str(),
            *pages,
            summary.as_str(),
        ),
        Once::Scrub { db, pages } => scrub(alloc, databases, db.as_str(), *pages),
        Once::Arrivals { db, after, is_all } => {
            arrivals(alloc, databases, db.as_str(), *after, *is_all)
        }
        Once::Service {
            db,
            source,
            is_source_named,
            base,
        } => printed_line(service(
            alloc,
            databases,
            db.as_str(),
            source,
            *is_source_named,
            *base,
        )),
        Once::Order(request) => printed_line(order(alloc, databases, request)),
        Once::Relay { db, after, is_all } => {
            relay(alloc, databases, db.as_str(), *after, *is_all)
        }
        Once::Part {
            count,
            part: place,
            files,
            has_lines,
        } => printed_line(part(
            alloc,
            shelf,
            reader,
            *count,
            *place,
            files.as_slice(),
            *has_lines,
        )),
    }
}

/// An answer of the program that is one text.
fn printed_line(answer: Result<Text, Refusal>) -> Result<Printed, Refusal>
    ensures { MatchResult answer (λ text. result ≡ Ok (Printed.Line text)) (λ e. result ≡ Err e) }
{
    match answer {
        Ok(text) => Ok(Printed::Line(text)),
        Err(refusal) => Err(refusal),
    }
}

/// The program's ending where its words couldn't be had: memory was refused, or one isn't UTF-8.
fn unheard(alloc: Global, kind: ErrorKind) -> Ending
    ensures { IsUnheard result }
{
    match kind {
        ErrorKind::OutOfMemory => Ending::NoMemory,
        _ => match Text::of(alloc, "site: the arguments aren't text\n") {
            Ok(text) => Ending::Faulty(text),
            Err(_) => Ending::NoMemory,
        },
    }
}
