//! The command `run`: files taken side by side.
ghost use Rattle.std.specs.Prelude.{◌≡◌, ◌≤◌, ◌+◌, ◌∷◌, [], length, true, false, IfErr, IfOk};
ghost use Rattle.std.specs.Option.{is_some};
ghost use Rattle.command_words.specs.Plans.{AreFew};
ghost use Rattle.run_command.specs.Peer.{peer_of};
ghost use Rattle.site_program.specs.Answers.{AnswersRun, RefusesRun};
ghost use Rattle.site_program.specs.Jobs.{AnswersFeeds, AnswersJobs, ArePeers, RefusesFeeds, RefusesJobs};
ghost use Rattle.site_commands.specs.Names.{files_of_run};
ghost use Rattle.site_commands.specs.Pieces.{IsInputRefused, pieces_of, places_in};

use crate::batches::{FeedFault, append, feeds_of};
use attributes::{Batch, List, Octets, Text, Texts};
use databases::CommandFault;
use event_files::{
    Refused, ReportFault, SequentialReader, Shelf, Unread, UnreadAt, contents_of, events_of,
};
use inbox_table::Watch;
use run_command::{Jobs, RunFault, Runs};
use site::Site;
use site_commands::{Pieces, Refusal, memory_refusal, pieces_of, refusal_at};
use std::alloc::{AllocError, Global};
use std::sync::Wait;
use std::thread::Threads;

/// Takes files side by side into a database, each in a thread of its own, with the events of a
/// peer's file where one is given. All files are read, the peer's first, and the peer's is judged,
/// before the database is opened; of files that have lines each line is an event or a batch, and all
/// lines are judged before. Answers how many events the files had, how many of them had no number,
/// how many the database has now, and its summary. Of several faults the first is told, in the order
/// of the files. It may wait. With lines a file's events stand in memory twice while its batch is
/// made.
#[tactic(auto, using(crate::proofs::WorkerLemmas::answers_run, crate::proofs::WorkerLemmas::refuses_run))]
pub fn run<R: Threads + Wait + Sync, S: Shelf, U: Runs, W: Watch>(
    rt: &R,
    alloc: Global,
    shelf: &S,
    runs: &U,
    db: &str,
    peer: &Option<Text>,
    files: &[Text],
    has_lines: bool,
    watch: &W,
) -> Result<Text, Refusal>
    requires { AreFew (is_some peer.now) (length files.now) }
    ensures ok { IfOk result
        (AnswersRun (S.is_content shelf.now) peer.now files.now has_lines) }
    ensures err { IfErr result (RefusesRun (S.is_content shelf.now) (S.is_unread shelf.now)
        peer.now files.now has_lines) }
{
    let Ok(names) = files_of_run(alloc, peer, files) else {
        return Err(Refusal::Unread(UnreadAt {
            file: 0,
            why: Unread::OutOfMemory,
        }));
    };
    match contents_of(alloc, shelf, names.as_slice()) {
        Ok(contents) => {
            if peer.is_some() {
                run_with_peer(rt, alloc, runs, db, contents, has_lines, watch)
            } else {
                run_feeds(rt, alloc, runs, db, contents, has_lines, watch)
            }
        }
        Err(at) => Err(Refusal::Unread(at)),
    }
}

/// The names of a run's files, its peer's first.
fn files_of_run(alloc: Global, peer: &Option<Text>, files: &[Text]) -> Result<Texts, AllocError>
    ensures { IfOk result (λ names. names ≡ files_of_run peer.now files.now) }
{
    let copies = copies(alloc, files)?;
    match peer {
        Some(name) => {
            let mut names = Texts::empty(alloc);
            names.push(Text::of(alloc, name.as_str())?)?;
            append(&mut names, copies.into_vec())?;
            Ok(names)
        }
        None => Ok(copies),
    }
}

/// The names or texts of the program's plan as a list of their own.
fn copies(alloc: Global, texts: &[Text]) -> Result<Texts, AllocError>
    ensures { IfOk result (λ copies. copies ≡ texts.now) }
{
    let mut copies = Texts::empty(alloc);
    for text in texts {
        copies.push(Text::of(alloc, text.as_str())?)?;
    }
    Ok(copies)
}

/// The peer of a run of this file's content: a site with its events.
fn peer_of(alloc: Global, content: Octets, has_lines: bool) -> Result<Site, Refusal>
    ensures ok { IfOk result (λ site. ArePeers true has_lines (content ∷ []) (site ∷ [])) }
    ensures err { IfErr result (IsInputRefused has_lines (content ∷ [])) }
{
    let Ok(pieces) = piece_of(alloc, content, has_lines) else {
        return Err(memory_refusal(has_lines));
    };
    let events = match events_of(alloc, &SequentialReader {}, pieces.texts.as_slice()) {
        Ok(events) => events,
        Err(refused) => {
            return Err(refusal_at(has_lines, pieces.places.as_slice(), refused));
        }
    };
    match site_of(alloc, events) {
        Ok(site) => Ok(site),
        Err(_) => Err(memory_refusal(has_lines)),
    }
}

/// What is judged of the content of one file of a run.
fn piece_of(alloc: Global, content: Octets, has_lines: bool) -> Result<Pieces, AllocError>
    ensures texts { IfOk result (λ p. p.texts.items ≡ pieces_of has_lines (content ∷ [])) }
    ensures places { IfOk result (λ p. p.places.items ≡ places_in has_lines (content ∷ [])) }
{
    let mut contents = Vec::new(alloc);
    contents.push(content)?;
    pieces_of(alloc, contents, has_lines)
}

/// A site that took these events of the peer's file of a run.
fn site_of(alloc: Global, events: Batch) -> Result<Site, AllocError>
    ensures { IfOk result (λ site. site ≡ peer_of events) }
{
    let mut events = events;
    let mut site = Site::empty(alloc);
    match site.take_batch(&mut events) {
        Ok(_) => Ok(site),
        Err(_) => Err(AllocError),
    }
}

/// Runs files into a database with a peer, whose content is the first.
fn run_with_peer<R: Threads + Wait + Sync, U: Runs, W: Watch>(
    rt: &R,
    alloc: Global,
    runs: &U,
    db: &str,
    contents: Vec<Octets>,
    has_lines: bool,
    watch: &W,
) -> Result<Text, Refusal>
    requires { (1 ≤ length contents.items) × (length contents.items ≤ 16) }
    ensures ok { IfOk result (AnswersJobs true has_lines contents.items) }
    ensures err { IfErr result (RefusesJobs true has_lines contents.items) }
{
    let mut contents = contents;
    let content = contents.remove(0);
    let site = match peer_of(alloc, content, has_lines) {
        Ok(site) => site,
        Err(refusal) => return Err(refusal),
    };
    let mut peers = List::empty(alloc);
    if peers.push(site).is_err() {
        return Err(memory_refusal(has_lines));
    }
    run_workers(rt, alloc, runs, db, contents, has_lines, peers, 1, watch)
}

/// Runs files into a database without a peer.
fn run_feeds<R: Threads + Wait + Sync, U: Runs, W: Watch>(
    rt: &R,
    alloc: Global,
    runs: &U,
    db: &str,
    contents: Vec<Octets>,
    has_lines: bool,
    watch: &W,
) -> Result<Text, Refusal>
    requires { length contents.items ≤ 16 }
    ensures ok { IfOk result (AnswersJobs false has_lines contents.items) }
    ensures err { IfErr result (RefusesJobs false has_lines contents.items) }
{
    let peers = List::empty(alloc);
    run_workers(rt, alloc, runs, db, contents, has_lines, peers, 0, watch)
}

/// Runs files into a database beside these peers; the feeds' files stand from the place `first` on.
fn run_workers<R: Threads + Wait + Sync, U: Runs, W: Watch>(
    rt: &R,
    alloc: Global,
    runs: &U,
    db: &str,
    contents: Vec<Octets>,
    has_lines: bool,
    peers: List<Site>,
    first: u64,
    watch: &W,
) -> Result<Text, Refusal>
    requires few { length contents.items + length peers ≤ 16 }
    requires first { first ≤ 1 }
    ensures ok { IfOk result (AnswersFeeds has_lines first contents.items peers) }
    ensures err { IfErr result (RefusesFeeds has_lines first contents.items peers) }
{
    let growth = bytes_in(contents.as_slice());
    let feeds = match feeds_of(alloc, contents, has_lines, first) {
        Ok(feeds) => feeds,
        Err(FeedFault::Line(refused)) => return Err(Refusal::Line(refused)),
        Err(FeedFault::OutOfMemory) => {
            return Err(Refusal::Database(CommandFault::OutOfMemory));
        }
    };
    let jobs = Jobs {
        feeds,
        peers,
        asks: List::empty(alloc),
    };
    match runs.run(rt, alloc, db, jobs, growth, watch) {
        Ok(text) => Ok(text),
        Err(RunFault::Database(why)) => Err(Refusal::Database(why)),
        Err(RunFault::NoThread) => Err(Refusal::NoThread),
        Err(RunFault::Feed { feed, fault }) => Err(Refusal::File(Refused {
            file: first.saturating_add(feed),
            fault: ReportFault::Read(fault),
        })),
    }
}

/// About how many bytes a database grows by when a run takes these contents of files.
fn bytes_in(contents: &[Octets]) -> u64 {
    let mut bytes: u64 = 0;
    for content in contents {
        bytes = bytes.saturating_add(content.as_bytes().len() as u64);
    }
    bytes.saturating_mul(2)
}
