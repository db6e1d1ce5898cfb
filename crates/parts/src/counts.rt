//! Counts of parts, read and put together.

ghost use Rattle.std.specs.Prelude.{◌≡◌, ◌≢◌, ◌≤◌, ◌^◌, ◌+◌, ℕ, List, IfErr, IfNone, IfOk, IfSome, OnOk, length, map};
ghost use Rattle.std.specs.BTreeMap.{get, insert_entry};
ghost use Rattle.std.specs.Cmp.{IsTotalOrder};
ghost use Rattle.std.specs.Option.{option_map_or};
ghost use Rattle.parts.specs.Combined.{AreApart, AreCovers};
ghost use Rattle.parts.specs.Counts.{AreBeside, RefusesBeside, RefusesAnswers, TellsNoRows};
ghost use Rattle.parts.specs.Lines.{AreJoined};

use crate::cover::{check_apart, read_covers};
use crate::fault::CombineFault;
use crate::lines::append;
use attributes::List;
use coverage::Summary;
use std::alloc::{AllocError, Global};
use std::collections::BTreeMap;

/// A row of an answer that has counts.
pub(crate) trait CountRow: Drop {
    ghost use Rattle.std.specs.Prelude.{ℕ, List, IfNone, IfOk, IfSome};
    ghost use Rattle.parts.specs.Counts.{TellsNoRows};

    /// The text tells the rows.
    ghost tells: { List ℕ → List Self → Type 0 };

    /// The rows that a part's answer tells, where it tells any.
    fn read_text(alloc: Global, text: &str) -> Result<Option<List<Self>>, AllocError>
        ensures some { IfOk result (λ o. IfSome o (tells text.now)) }
        ensures none { IfOk result (λ o. IfNone o (TellsNoRows tells text.now)) };
}

/// The rows of counts that the answers of all parts tell, part by part.
pub(crate) fn read_counts<R: CountRow>(
    alloc: Global,
    answers: &[&str],
) -> Result<List<R>, CombineFault>
    ensures ok { IfOk result (λ all. AreJoined R.tells (map (λ t. t.now) answers.now) all) }
    ensures err { IfErr result (RefusesAnswers R.tells (map (λ t. t.now) answers.now)) }
{
    let mut all = List::empty(alloc);
    for i in 0..answers.len() {
        let answer = answers[i];
        match R::read_text(alloc, answer)? {
            Some(rows) => append(&mut all, rows)?,
            None => return Err(CombineFault::NotAnAnswer { part: i as u64 }),
        }
    }
    Ok(all)
}

/// Adds a part's count to the sum of a key. Time logarithmic in the keys.
pub(crate) fn add<K: Ord + Drop>(
    table: &mut BTreeMap<K, u64>,
    key: K,
    count: u64,
) -> Result<(), CombineFault>
    requires ordered { IsTotalOrder K.cmp }
    ensures entries { OnOk result (table.new.entries ≡ insert_entry K.cmp table.old.entries key
        (option_map_or (λ n. n) (get K.cmp table.old key) 0 + count)) }
    ensures err { IfErr result (λ e. e ≢ CombineFault.OutOfMemory → (e ≡ CombineFault.TooMany)
        × (2 ^ 64 ≤ option_map_or (λ n. n) (get K.cmp table.old key) 0 + count)) }
{
    let before = match table.get(&key) {
        Some(before) => *before,
        None => 0,
    };
    let Some(sum) = before.checked_add(count) else {
        return Err(CombineFault::TooMany);
    };
    table.insert(key, sum)?;
    Ok(())
}

/// The summaries in `cover` beside the answers of parts, one each: no source has numbers in two.
pub(crate) fn read_beside(
    alloc: Global,
    answers: &[&str],
    covers: &[&str],
) -> Result<Vec<Summary>, CombineFault>
    ensures len { OnOk result (length covers.now ≡ length answers.now) }
    ensures read { IfOk result (λ v. AreCovers (map (λ t. t.now) covers.now) v.items) }
    ensures apart { IfOk result (λ v. AreApart v.items) }
    ensures refused { IfErr result (RefusesBeside (map (λ t. t.now) answers.now)
        (map (λ t. t.now) covers.now)) }
{
    if covers.len() != answers.len() {
        return Err(CombineFault::CoverCount {
            answers: answers.len() as u64,
            covers: covers.len() as u64,
        });
    }
    let summaries = read_covers(alloc, covers)?;
    check_apart(alloc, &summaries)?;
    Ok(summaries)
}

/// Whether the covers of parts stand beside their answers, one each, with no source in two of them.
pub(crate) fn check_beside(
    alloc: Global,
    answers: &[&str],
    covers: &[&str],
) -> Result<(), CombineFault>
    ensures beside { OnOk result (AreBeside (map (λ t. t.now) answers.now)
        (map (λ t. t.now) covers.now)) }
    ensures refused { IfErr result (RefusesBeside (map (λ t. t.now) answers.now)
        (map (λ t. t.now) covers.now)) }
{
    let _summaries = read_beside(alloc, answers, covers)?;
    Ok(())
}
