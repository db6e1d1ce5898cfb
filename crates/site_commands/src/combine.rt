//! The command that makes the answer of a whole region from the answers of its parts.
ghost use Rattle.std.specs.Prelude.{◌≡◌, ℕ, IfErr, IfOk, false, map, if◌then◌else◌};
ghost use Rattle.site_commands.specs.Lines.{name_at, unread_line};
ghost use Rattle.site_commands.specs.Parts.{IsCombineEnding, IsNoText, IsOfCovers, IsOverlapOf, IsWholeOfFiles, RefusesContents, combine_line, count_line, covers_beside, has_covers, no_answer, overlap_line};
ghost use Rattle.site_commands.specs.steps.Combines.{IsContentsEnding, IsRefusalLine};
ghost use Rattle.site_commands.specs.declared.combine.TextFault.TheVariants as text;

use crate::ending::Ending;
use crate::files::Looks;
use crate::hint::{Hint, hint_of};
use crate::line::{Refusal, file_line, line_of, push_name};
use crate::names::{Names, name_at};
use crate::progress::Progress;
use attributes::{Octets, Text};
use command_words::Combine;
use databases::Databases;
use event_files::{UnreadAt, contents_of};
use parts::{CombineFault, combine, has_covers, no_answer};
use std::alloc::{AllocError, AllocFailed, Global};
use views::Query;

/// Why contents of files aren't texts.
#[derive(Clone, Copy, PartialEq, Eq, Debug)]
enum TextFault {
    OutOfMemory,
    /// The content at that place isn't UTF-8.
    NoText(u64),
}

impl<T: Drop> From<AllocFailed<T>> for TextFault {
    ghost use Rattle.std.specs.Prelude.{◌≡◌};
    ghost use Rattle.site_commands.specs.declared.combine.TextFault.TheVariants.{OutOfMemory};

    ghost from_gives = { λ _ fault. fault ≡ OutOfMemory };

    fn from(_refused: AllocFailed<T>) -> TextFault {
        TextFault::OutOfMemory
    }
}

/// Why contents of files make no answer, and whether that is a fault of the covers.
#[derive(Drop)]
struct Blamed {
    fault: CombineFault,
    is_of_covers: bool,
}

/// What the answers of parts come to for the program. All files are read before one is judged,
/// those of the answers first; where the answers show each source of their parts, no covers are.
pub fn ending_of_combine<S: Looks, D: Databases + Drop, P: Progress>(
    alloc: Global,
    shelf: &S,
    databases: &D,
    plan: &Combine,
    progress: &P,
) -> Ending
    ensures { IsCombineEnding (S.is_content shelf.now) (S.is_unread shelf.now) plan.now result }
{
    let files = plan.files.as_slice();
    let cover_files = covers_beside(plan.query, plan.covers.as_slice());
    match contents_of(alloc, shelf, files) {
        Ok(answers) => match contents_of(alloc, shelf, cover_files) {
            Ok(covers) => ending_of_contents(
                alloc,
                progress,
                plan.query,
                files,
                cover_files,
                answers.as_slice(),
                covers.as_slice(),
            ),
            Err(at) => ending_of_unread(alloc, shelf, databases, progress, cover_files, at),
        },
        Err(at) => ending_of_unread(alloc, shelf, databases, progress, files, at),
    }
}

/// The covers in files that stand beside the answers to the question, of those that are given.
fn covers_beside<'a>(query: Query, covers: &'a [Text]) -> &'a [Text]
    ensures { result.now ≡ covers_beside query covers.now }
{
    if has_covers(query) { covers } else { &[] }
}

/// The ending of `combine` where one of these files wasn't read.
fn ending_of_unread<S: Looks, D: Databases + Drop, P: Progress>(
    alloc: Global,
    shelf: &S,
    databases: &D,
    progress: &P,
    files: &[Text],
    at: UnreadAt,
) -> Ending
    ensures { IsRefusalLine (unread_line (name_at files.now at.file) at.why) result }
{
    let names = Names::of_files(files);
    let refusal = Refusal::Unread(at);
    let hint = hint_of(alloc, shelf, databases, progress, names, refusal);
    match line_of(alloc, names, refusal) {
        Ok(line) => Ending::Uncombined { line, hint },
        Err(_) => Ending::NoMemory,
    }
}

/// What the contents of these files come to in `combine`.
fn ending_of_contents<P: Progress>(
    alloc: Global,
    progress: &P,
    query: Query,
    files: &[Text],
    cover_files: &[Text],
    answers: &[Octets],
    covers: &[Octets],
) -> Ending
    ensures { IsContentsEnding query files.now cover_files.now answers.now covers.now result }
{
    match combine_contents(alloc, query, answers, covers) {
        Ok(text) => Ending::Answer(text),
        Err(blamed) => {
            let Blamed {
                fault,
                is_of_covers,
            } = blamed;
            let blamed = blamed_files(files, cover_files, is_of_covers);
            ending_of_fault(alloc, progress, blamed, fault)
        }
    }
}

/// The files that are to blame for the error line of `combine`.
fn blamed_files<'a>(files: &'a [Text], cover_files: &'a [Text], is_of_covers: bool) -> &'a [Text]
    ensures { result.now ≡ (if is_of_covers then cover_files.now else files.now) }
{
    if is_of_covers { cover_files } else { files }
}

/// The ending of `combine` for a fault of these files.
fn ending_of_fault<P: Progress>(
    alloc: Global,
    progress: &P,
    files: &[Text],
    fault: CombineFault,
) -> Ending
    ensures { IsRefusalLine (combine_line files.now fault) result }
{
    let hint = fault_hint(progress, &fault);
    match combine_line(alloc, files, fault) {
        Ok(line) => Ending::Uncombined { line, hint },
        Err(_) => Ending::NoMemory,
    }
}

/// The answer of the whole from the contents of files of parts, or why there is none.
fn combine_contents(
    alloc: Global,
    query: Query,
    answers: &[Octets],
    covers: &[Octets],
) -> Result<Text, Blamed>
    ensures whole { IfOk result (IsWholeOfFiles query answers.now covers.now) }
    ensures refused { IfErr result (λ b. RefusesContents query answers.now covers.now b.fault) }
    ensures blamed { IfErr result (λ b. IsOfCovers query covers.now b.fault b.is_of_covers) }
{
    let answers = match texts_in(alloc, answers) {
        Ok(texts) => texts,
        Err(TextFault::NoText(i)) => return Err(of_answers(no_answer(query, i))),
        Err(TextFault::OutOfMemory) => return Err(of_answers(CombineFault::OutOfMemory)),
    };
    let covers = match texts_in(alloc, covers) {
        Ok(texts) => texts,
        Err(TextFault::NoText(i)) => {
            return Err(Blamed {
                fault: CombineFault::NotACover { part: i },
                is_of_covers: has_covers(query),
            });
        }
        Err(TextFault::OutOfMemory) => return Err(of_answers(CombineFault::OutOfMemory)),
    };
    combine_texts(alloc, query, answers.as_slice(), covers.as_slice())
}

/// A fault of the answers of parts in files.
fn of_answers(fault: CombineFault) -> Blamed
    ensures fault { result.fault ≡ fault }
    ensures answers { result.is_of_covers ≡ false }
{
    Blamed {
        fault,
        is_of_covers: false,
    }
}

/// The contents of files of parts' answers as texts.
fn texts_in<'a>(alloc: Global, contents: &'a [Octets]) -> Result<Vec<&'a str>, TextFault>
    ensures ok { IfOk result (λ texts. map (λ t. t.now) texts.items ≡ contents.now) }
    ensures err { IfErr result (λ f. (i : ℕ) → f ≡ text.NoText i → IsNoText contents.now i) }
{
    let mut texts = Vec::new(alloc);
    for i in 0..contents.len() {
        match str::from_utf8(contents[i].as_bytes()) {
            Ok(text) => texts.push(text)?,
            Err(_) => return Err(TextFault::NoText(i as u64)),
        }
    }
    Ok(texts)
}

/// The answer of the whole from texts in files of parts, or why there is none.
fn combine_texts(
    alloc: Global,
    query: Query,
    answers: &[&str],
    covers: &[&str],
) -> Result<Text, Blamed>
    ensures whole { IfOk result (IsWholeOfFiles query
        (map (λ t. t.now) answers.now) (map (λ t. t.now) covers.now)) }
    ensures refused { IfErr result (λ b. RefusesContents query
        (map (λ t. t.now) answers.now) (map (λ t. t.now) covers.now) b.fault) }
    ensures blamed { IfErr result (λ b. IsOfCovers query (map (λ t. t.now) covers.now)
        b.fault b.is_of_covers) }
{
    match combine(alloc, query, answers, covers) {
        Ok(text) => Ok(text),
        Err(fault) => match is_of_covers(alloc, query, covers, &fault) {
            Ok(is_of_covers) => Err(Blamed {
                fault,
                is_of_covers,
            }),
            Err(_) => Err(of_answers(CombineFault::OutOfMemory)),
        },
    }
}

/// Whether a fault is of the files of covers, and not of those of the answers.
fn is_of_covers(
    alloc: Global,
    query: Query,
    covers: &[&str],
    fault: &CombineFault,
) -> Result<bool, AllocError>
    ensures { IfOk result (IsOfCovers query (map (λ t. t.now) covers.now) fault.now) }
{
    match fault {
        CombineFault::NotACover { .. } => Ok(has_covers(query)),
        CombineFault::Overlap { .. } => is_overlap_of_covers(alloc, query, covers),
        _ => Ok(false),
    }
}

/// Whether a source that stands in two parts is seen in the files of covers. Events that lines tell
/// have sources too.
fn is_overlap_of_covers(alloc: Global, query: Query, covers: &[&str]) -> Result<bool, AllocError>
    ensures { IfOk result (IsOverlapOf query (map (λ t. t.now) covers.now)) }
{
    match query {
        Query::Conflicts | Query::Latest => match combine(alloc, Query::Cover, covers, &[]) {
            Ok(_) => Ok(false),
            Err(CombineFault::OutOfMemory) => Err(AllocError),
            Err(_) => Ok(true),
        },
        _ => Ok(has_covers(query)),
    }
}

/// The error line of a fault of these files of parts.
fn combine_line(alloc: Global, files: &[Text], fault: CombineFault) -> Result<Text, AllocError>
    ensures { IfOk result (λ line. line ≡ combine_line files.now fault) }
{
    match fault {
        CombineFault::OutOfMemory => Text::of(alloc, "site: out of memory\n"),
        CombineFault::NotACover { part } => file_line(alloc, name_at(files, part), "NotACover"),
        CombineFault::NotAnAnswer { part } => {
            file_line(alloc, name_at(files, part), "NotAnAnswer")
        }
        CombineFault::CoverCount { answers, covers } => count_line(alloc, answers, covers),
        CombineFault::TooMany => Text::of(alloc, "site: the parts: TooMany\n"),
        CombineFault::Overlap {
            name,
            first,
            second,
        } => overlap_line(
            alloc,
            name_at(files, second),
            name_at(files, first),
            name.as_str(),
        ),
    }
}

/// The error line `site: M covers beside N answers: CoverCount`.
fn count_line(alloc: Global, answers: u64, covers: u64) -> Result<Text, AllocError>
    ensures { IfOk result (λ line. line ≡ count_line answers covers) }
{
    let line = format!(in alloc; "site: {covers} covers beside {answers} answers: CoverCount\n")?;
    Ok(Text::from_string(line))
}

/// The error line `site: FILE: Overlap with FILE: SOURCE`.
fn overlap_line(alloc: Global, name: &str, other: &str, source: &str) -> Result<Text, AllocError>
    ensures { IfOk result (λ line. line ≡ overlap_line name.now other.now source.now) }
{
    let mut line = String::new(alloc);
    line.push_str("site: ")?;
    push_name(&mut line, name)?;
    line.push_str(": Overlap with ")?;
    push_name(&mut line, other)?;
    line.push_str(": ")?;
    push_name(&mut line, source)?;
    line.push_str("\n")?;
    Ok(Text::from_string(line))
}

/// The hint of what can be done about a fault of parts' files; none where nobody looks on.
fn fault_hint<P: Progress>(progress: &P, fault: &CombineFault) -> Option<Hint> {
    if !progress.is_watched() {
        return None;
    }
    match fault {
        CombineFault::OutOfMemory | CombineFault::TooMany => None,
        CombineFault::NotACover { .. } => Some(Hint::Words(
            "a cover is what site cover prints for a part, as it is",
        )),
        CombineFault::NotAnAnswer { .. } => Some(Hint::Words(
            "each FILE is what site QUESTION prints for a part, as it is; gaps are of the events of their cover",
        )),
        CombineFault::CoverCount { .. } => Some(Hint::Words(
            "beside each FILE stands a --cover FILE, in the same order: what site cover prints for that part",
        )),
        CombineFault::Overlap { .. } => Some(Hint::Words(
            "a source stands in one part alone: site part --of N FILE says in which",
        )),
    }
}
