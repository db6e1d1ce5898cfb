//! How long pages are, of events and of an outbox's rows.
#![tactic(auto)]

/// The most events of a page, and the most rows. Longer answers are given page after page.
pub const MAX_PAGE: u64 = 100;
