//! A table of how often something comes.

ghost use Rattle.std.specs.Prelude.{◌≡◌, ◌+◌, ◌-◌, ◌<◌, ◌≤◌, ◌^◌, ℕ, List, Some, bytes_eq, string_bytes, if◌then◌else◌};
ghost use Rattle.std.specs.Option.{unwrap_or};
ghost use Rattle.indexmap.specs.IndexMap.{get_by_text, hasher_of, spare};
ghost use Rattle.kept_views.specs.Tables.{count_in_table};

use crate::seed::Seed;
use indexmap::IndexMap;

/// Counts of texts. A text that isn't there has the count 0.
pub(crate) type Tally = IndexMap<String, u64, Seed>;

/// Counts a type once more in kept views, for which there must be room. It takes no memory.
pub(crate) fn raise(tally: &mut Tally, text: String)
    requires room { 0 < spare tally.old }
    requires fits { unwrap_or (get_by_text tally.old (string_bytes text)) 0 + 1 < 2 ^ 64 }
    ensures counts { (k : List ℕ) → get_by_text tally.new k ≡ (if bytes_eq (string_bytes text) k
        then Some (unwrap_or (get_by_text tally.old (string_bytes text)) 0 + 1)
        else get_by_text tally.old k) }
    ensures hasher { hasher_of tally.new ≡ hasher_of tally.old }
{
    let before = tally.get(text.as_str()).copied().unwrap_or(0);
    let _ = tally.insert(text, before + 1);
}

/// Counts a type once less in kept views, which must have been counted; a count that falls to 0 is
/// taken out. It takes no memory.
pub(crate) fn lower(tally: &mut Tally, text: &str)
    requires counted { 0 < unwrap_or (get_by_text tally.old text.now) 0 }
    ensures counts { (k : List ℕ) → get_by_text tally.new k ≡ (if bytes_eq text.now k
        then count_in_table (unwrap_or (get_by_text tally.old text.now) 0 - 1)
        else get_by_text tally.old k) }
    ensures hasher { hasher_of tally.new ≡ hasher_of tally.old }
{
    let before = tally.get(text).copied().unwrap_or(0);
    if before == 1 {
        tally.swap_remove(text);
        return;
    }
    if let Some(count) = tally.get_mut(text) {
        *count = before - 1;
    }
}
