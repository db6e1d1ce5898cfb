//! A region in parts by source: the part of a source, events in parts, and the answer of the whole
//! from those of its parts.

ghost use Rattle.std.specs.Prelude.{◌≡◌, ◌≤◌, ℕ, List, Err, IfErr, IfOk, OnErr, OnOk, drop, if◌then◌else◌, length, map, sum, take};
ghost use Rattle.attributes.specs.Event.{EventValue};
ghost use Rattle.parts.specs.Part.{IsCountOfParts};
ghost use Rattle.parts.specs.Told.{IsHeld};
ghost use Rattle.parts.specs.Whole.{AreApartIn, ArePartsOf, RefusesParts};
ghost use Rattle.parts.specs.declared.fault.CombineFault.TheVariants as fault;
ghost use Rattle.views.specs.Question.{IsAnswer};
ghost use Rattle.views.specs.declared.query.Query.{Query};
ghost use Rattle.library_calls.specs.Calls.{IsDoneOrWant, question_number};
ghost use Rattle.library_calls.specs.Parts.{AnswersQuestionOrSummary, AnswersSummary, AnswersWhole, IsNoPartText, IsSplit, IsUnsplit, IsWholeOfTexts, IsWholeSummary, RefusesSummaryTexts, RefusesTexts, Split, SummariesWantMemoryAlone, TellsCombineFault, TellsSourcePart, TellsCombineStatus, WantsMemoryAlone, cut, has_covers, no_answer, no_text, part_lines, summary_number, text_after};
ghost use Rattle.library_calls.specs.declared.part_calls.TextFault.TheVariants as text;

use crate::calls::{
    Answered, DONE, NO_SUCH_QUESTION, OUT_OF_MEMORY, Reply, batch_line, batch_of, keep, query_at,
};
use attributes::{Batch, Text};
use parts::{
    CombineFault, combine, combine_summaries, has_covers, is_count, no_answer, part_of, split,
};
use site::Site;
use std::alloc::{AllocError, AllocFailed, Global};
use views::Query;

/// The number of the summary, behind those of the questions.
const SUMMARY: u32 = 8;

/// A region isn't in so many parts.
const BAD_PARTS: u32 = 32;

/// A text is no answer to `cover`.
const NOT_A_COVER: u32 = 33;

/// A text is no answer to the question.
const NOT_AN_ANSWER: u32 = 34;

/// There are more or fewer covers than answers.
const COVER_COUNT: u32 = 35;

/// A sum is above 2^64 - 1.
const TOO_MANY: u32 = 36;

/// A source stands in two parts.
const OVERLAP: u32 = 37;

/// What putting answers together comes to: a status, and of which parts it tells, counted from 0.
#[repr(C)]
#[derive(Drop)]
pub struct CombineReply {
    /// 0: done. 1: out of memory. 4: no such question. 33: a text is no answer to `cover`. 34: a
    /// text is no answer to the question, or no summary of version 2. 35: there are more or fewer
    /// covers than answers. 36: a sum is above 2^64 - 1. 37: a source stands in two parts.
    pub status: u32,
    /// The part of which 33 and 34 tell, the first one of 37; of 35 how many answers there are;
    /// else 0.
    pub first: u64,
    /// The second part of 37; of 35 how many covers there are; else 0.
    pub second: u64,
    /// How many bytes the text in the room has: the answer, or at 37 the source.
    pub length: u64,
}

/// Why bytes aren't texts.
#[derive(Clone, Copy, PartialEq, Eq, Debug)]
enum TextFault {
    OutOfMemory,
    /// The text at that place isn't there as a whole, or isn't UTF-8.
    NoText(u64),
}

impl<T: Drop> From<AllocFailed<T>> for TextFault {
    ghost use Rattle.std.specs.Prelude.{◌≡◌};
    ghost use Rattle.library_calls.specs.declared.part_calls.TextFault.TheVariants.{OutOfMemory};

    ghost from_gives = { λ _ fault. fault ≡ OutOfMemory };

    /// Want of memory for a text of parts that libjumbetai's caller gave.
    fn from(_refused: AllocFailed<T>) -> TextFault {
        TextFault::OutOfMemory
    }
}

/// Tells libjumbetai's caller a source's part, of so many, or answers the status, without memory.
pub fn source_part(source: &[u8], count: u64, place: &mut u64) -> u32
    ensures { TellsSourcePart source.now count result place.new }
{
    *place = 0;
    if !is_count(count) {
        return BAD_PARTS;
    }
    *place = part_of(source, count);
    DONE
}

/// A line of libjumbetai's text for each of so many parts, the batch of its events.
fn part_lines(alloc: Global, events: Batch, count: u64) -> Result<Text, AllocError>
    requires { IsCountOfParts count }
    ensures { IfOk result (λ text. text ≡ part_lines count events) }
{
    let batches = split(alloc, events, count)?;
    let mut lines = String::new(alloc);
    for i in 0..count {
        let line = batch_line(alloc, &batches[i as usize])?;
        lines.push_str(line.as_str())?;
    }
    Ok(Text::from_string(lines))
}

/// The events that the bytes spell in so many parts, or the status of libjumbetai's call.
fn split_bytes(alloc: Global, bytes: &[u8], count: u64) -> Result<Answered, u32>
    ensures ok { IfOk result (λ m. IsSplit bytes.now count m.text m.listed) }
    ensures err { IfErr result (IsUnsplit bytes.now count) }
{
    if !is_count(count) {
        return Err(BAD_PARTS);
    }
    match batch_of(alloc, bytes) {
        Ok(events) => {
            let listed = events.len();
            match part_lines(alloc, events, count) {
                Ok(text) => Ok(Answered { text, listed }),
                Err(_) => Err(OUT_OF_MEMORY),
            }
        }
        Err(refused) => Err(refused.fault.number() as u32),
    }
}

/// Keeps as libjumbetai's text the lines of the parts of the events that the bytes spell.
pub(crate) fn show_split(
    site: &Site,
    alloc: Global,
    text: &mut Text,
    bytes: &[u8],
    count: u64,
    reply: &mut Reply,
)
    ensures { Split bytes.now count (record { site = site.now; text = text.old })
        (record { site = site.now; text = text.new }) reply.new }
{
    let made = split_bytes(alloc, bytes, count);
    keep(site, text, made, reply);
}

/// The texts that lie one behind the other in the caller's bytes, by how many bytes each has.
fn texts_in<'a>(alloc: Global, bytes: &'a [u8], lengths: &[u64]) -> Result<Vec<&'a str>, TextFault>
    ensures ok { IfOk result (λ texts. map (λ t. t.now) texts.items ≡ cut bytes.now lengths.now) }
    ensures fit { IfOk result (λ texts. sum lengths.now ≤ length bytes.now) }
    ensures err { IfErr result (λ f. (i : ℕ) → f ≡ text.NoText i
        → IsNoPartText bytes.now lengths.now i) }
{
    let mut texts = Vec::new(alloc);
    let mut rest = bytes;
    for i in 0..lengths.len() {
        let length = lengths[i];
        if length > rest.len() as u64 {
            return Err(TextFault::NoText(i as u64));
        }
        let (text, behind) = rest.split_at(length as usize);
        match str::from_utf8(text) {
            Ok(text) => texts.push(text)?,
            Err(_) => return Err(TextFault::NoText(i as u64)),
        }
        rest = behind;
    }
    Ok(texts)
}

/// At most so many of the lengths of the texts that libjumbetai's caller gives.
fn first_lengths<'a>(count: usize, lengths: &'a [u64]) -> &'a [u64]
    ensures { result.now ≡ take count lengths.now }
{
    if count >= lengths.len() {
        return lengths;
    }
    &lengths[..count]
}

/// At most so many of the lengths of the caller's texts, where no covers stand beside the answers.
fn lengths_of<'a>(query: Query, answers: usize, lengths: &'a [u64]) -> &'a [u64]
    ensures { result.now
        ≡ (if has_covers query then lengths.now else take answers lengths.now) }
{
    if has_covers(query) {
        return lengths;
    }
    first_lengths(answers, lengths)
}

/// The fault of a text of libjumbetai's caller that is none, where so many are answers.
fn no_text(query: Query, answers: u64, place: u64) -> CombineFault
    ensures { result ≡ no_text query answers place }
{
    if place < answers {
        return no_answer(query, place);
    }
    CombineFault::NotACover {
        part: place - answers,
    }
}

/// The answer of the whole from a caller's texts, of which so many are answers, the others covers.
fn combine_texts(
    alloc: Global,
    query: Query,
    answers: usize,
    texts: &[&str],
) -> Result<Text, CombineFault>
    ensures combined { (p : List ℕ → ℕ) (E : List EventValue) → IsHeld E
        → ArePartsOf query p E (take answers (map (λ t. t.now) texts.now))
        (drop answers (map (λ t. t.now) texts.now)) → IfOk result (IsAnswer query E) }
    ensures apart { OnOk result (AreApartIn query (take answers (map (λ t. t.now) texts.now))
        (drop answers (map (λ t. t.now) texts.now))) }
    ensures refused { IfErr result (RefusesParts query
        (take answers (map (λ t. t.now) texts.now))
        (drop answers (map (λ t. t.now) texts.now))) }
    ensures taken { (p : List ℕ → ℕ) (E : List EventValue) → IsHeld E
        → ArePartsOf query p E (take answers (map (λ t. t.now) texts.now))
        (drop answers (map (λ t. t.now) texts.now))
        → OnErr result (result ≡ Err fault.OutOfMemory) }
{
    let count = answers.min(texts.len());
    let (answers, covers) = texts.split_at(count);
    combine(alloc, query, answers, covers)
}

/// The answer of the whole from texts that lie in the caller's bytes, of which so many are answers,
/// and the others covers.
fn whole_of(
    alloc: Global,
    query: Query,
    answers: u64,
    bytes: &[u8],
    lengths: &[u64],
) -> Result<Text, CombineFault>
    ensures whole { IfOk result (IsWholeOfTexts query
        (record { answers = answers; bytes = bytes.now; lengths = lengths.now })) }
    ensures refused { IfErr result (RefusesTexts query
        (record { answers = answers; bytes = bytes.now; lengths = lengths.now })) }
    ensures taken { WantsMemoryAlone query
        (record { answers = answers; bytes = bytes.now; lengths = lengths.now })
        (OnErr result (result ≡ Err fault.OutOfMemory)) }
{
    let looked_at = lengths_of(query, answers as usize, lengths);
    match texts_in(alloc, bytes, looked_at) {
        Ok(texts) => combine_texts(alloc, query, answers as usize, texts.as_slice()),
        Err(TextFault::NoText(i)) => Err(no_text(query, answers, i)),
        Err(TextFault::OutOfMemory) => Err(CombineFault::OutOfMemory),
    }
}

/// The summary of the whole from texts in the caller's bytes, of which so many are summaries.
fn whole_summary(
    alloc: Global,
    answers: u64,
    bytes: &[u8],
    lengths: &[u64],
) -> Result<Text, CombineFault>
    ensures whole { IfOk result (IsWholeSummary
        (record { answers = answers; bytes = bytes.now; lengths = lengths.now })) }
    ensures refused { IfErr result (RefusesSummaryTexts
        (record { answers = answers; bytes = bytes.now; lengths = lengths.now })) }
    ensures taken { SummariesWantMemoryAlone
        (record { answers = answers; bytes = bytes.now; lengths = lengths.now })
        (OnErr result (result ≡ Err fault.OutOfMemory)) }
{
    let looked_at = first_lengths(answers as usize, lengths);
    match texts_in(alloc, bytes, looked_at) {
        Ok(texts) => combine_summaries(alloc, texts.as_slice()),
        Err(TextFault::NoText(part)) => Err(CombineFault::NotAnAnswer { part }),
        Err(TextFault::OutOfMemory) => Err(CombineFault::OutOfMemory),
    }
}

/// Sets what a reply to libjumbetai's caller tells of parts.
fn tell(status: u32, first: u64, second: u64, reply: &mut CombineReply)
    ensures status { reply.new.status ≡ status }
    ensures first { reply.new.first ≡ first }
    ensures second { reply.new.second ≡ second }
{
    reply.status = status;
    reply.first = first;
    reply.second = second;
}

/// Tells the caller of a fault, and keeps the source that stands in two parts in place of the text.
fn tell_fault(fault: CombineFault, text: &mut Text, reply: &mut CombineReply)
    ensures tells { TellsCombineFault fault reply.new }
    ensures text { text.new ≡ text_after text.old fault }
{
    match fault {
        CombineFault::OutOfMemory => tell(OUT_OF_MEMORY, 0, 0, reply),
        CombineFault::NotACover { part } => tell(NOT_A_COVER, part, 0, reply),
        CombineFault::NotAnAnswer { part } => tell(NOT_AN_ANSWER, part, 0, reply),
        CombineFault::CoverCount { answers, covers } => tell(COVER_COUNT, answers, covers, reply),
        CombineFault::TooMany => tell(TOO_MANY, 0, 0, reply),
        CombineFault::Overlap {
            name,
            first,
            second,
        } => {
            tell(OVERLAP, first, second, reply);
            *text = Text::from_string(name);
        }
    }
}

/// Keeps the answer of the whole in place of libjumbetai's text, or tells why there is none.
fn tell_whole(made: Result<Text, CombineFault>, text: &mut Text, reply: &mut CombineReply)
    ensures ok { IfOk made (λ whole. TellsCombineStatus 0 reply.new × (text.new ≡ whole)) }
    ensures err { IfErr made (λ f. TellsCombineFault f reply.new × (text.new ≡ text_after text.old f)) }
{
    match made {
        Ok(whole) => {
            tell(DONE, 0, 0, reply);
            *text = whole;
        }
        Err(fault) => tell_fault(fault, text, reply),
    }
}

/// Answers a question over the whole in place of libjumbetai's text, or tells why there is none.
fn answer_whole(
    alloc: Global,
    text: &mut Text,
    query: Query,
    answers: u64,
    bytes: &[u8],
    lengths: &[u64],
    reply: &mut CombineReply,
)
    ensures answers { AnswersWhole query
        (record { answers = answers; bytes = bytes.now; lengths = lengths.now })
        text.old text.new reply.new }
    ensures taken { WantsMemoryAlone query
        (record { answers = answers; bytes = bytes.now; lengths = lengths.now })
        (IsDoneOrWant reply.new.status) }
{
    let made = whole_of(alloc, query, answers, bytes, lengths);
    tell_whole(made, text, reply);
}

/// Puts the summary of the whole in place of libjumbetai's text, or tells why there is none.
fn answer_summary(
    alloc: Global,
    text: &mut Text,
    answers: u64,
    bytes: &[u8],
    lengths: &[u64],
    reply: &mut CombineReply,
)
    ensures answers { AnswersSummary
        (record { answers = answers; bytes = bytes.now; lengths = lengths.now })
        text.old text.new reply.new }
    ensures taken { SummariesWantMemoryAlone
        (record { answers = answers; bytes = bytes.now; lengths = lengths.now })
        (IsDoneOrWant reply.new.status) }
{
    let made = whole_summary(alloc, answers, bytes, lengths);
    tell_whole(made, text, reply);
}

/// Answers what a number stands for over the whole in place of libjumbetai's text, or tells why
/// there is no answer.
pub(crate) fn answer_number(
    alloc: Global,
    text: &mut Text,
    number: u32,
    answers: u64,
    bytes: &[u8],
    lengths: &[u64],
    reply: &mut CombineReply,
)
    ensures answers { AnswersQuestionOrSummary number
        (record { answers = answers; bytes = bytes.now; lengths = lengths.now })
        text.old text.new reply.new }
    ensures taken { (q : Query) → number ≡ question_number q → WantsMemoryAlone q
        (record { answers = answers; bytes = bytes.now; lengths = lengths.now })
        (IsDoneOrWant reply.new.status) }
    ensures summary_taken { number ≡ summary_number → SummariesWantMemoryAlone
        (record { answers = answers; bytes = bytes.now; lengths = lengths.now })
        (IsDoneOrWant reply.new.status) }
{
    match query_at(number) {
        Some(query) => answer_whole(alloc, text, query, answers, bytes, lengths, reply),
        None => {
            if number == SUMMARY {
                answer_summary(alloc, text, answers, bytes, lengths, reply);
            } else {
                tell(NO_SUCH_QUESTION, 0, 0, reply);
            }
        }
    }
}
