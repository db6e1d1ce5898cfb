//! Laws of what lies in a caller's room, each as the contract of a function that does nothing.

ghost use Rattle.library_calls.specs.Law.{NumberersMayGo, OutboxesMayGo, SitesMayGo};

/// A site of libjumbetai may go to another thread, with its files, which belong to none. Whoever
/// takes it there sees to it that one thread at a time uses it.
pub fn sites_may_go()
    ensures { SitesMayGo }
{}

/// So may libjumbetai's outbox over files go to another thread.
pub fn outboxes_may_go()
    ensures { OutboxesMayGo }
{}

/// So may libjumbetai's numberer over files go to another thread.
pub fn numberers_may_go()
    ensures { NumberersMayGo }
{}
