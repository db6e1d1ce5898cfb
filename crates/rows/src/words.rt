//! What words say.

use views::Query;

/// The number of a word.
pub fn number_of(word: &str) -> Option<u64> {
    word.parse::<u64>().ok()
}

/// The question of a word.
pub fn query_of(word: &str) -> Option<Query> {
    match word {
        "cover" => Some(Query::Cover),
        "shown" => Some(Query::Shown),
        "conflicts" => Some(Query::Conflicts),
        "latest" => Some(Query::Latest),
        "kinds" => Some(Query::Kinds),
        "days" => Some(Query::Days),
        "gaps" => Some(Query::Gaps),
        _ => None,
    }
}
