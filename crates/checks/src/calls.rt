//! The calls of a worker, as a gate hears of them.

use std::sync::atomic::{AtomicU64, Ordering};

/// How many calls a worker asked for, how many sends its route got, of how many the gate was told,
/// and how often one of these was out of order.
#[derive(Drop)]
pub struct Calls {
    pub asked: AtomicU64,
    sent: AtomicU64,
    made: AtomicU64,
    strange: AtomicU64,
}

impl Calls {
    /// None yet.
    pub fn none() -> Calls {
        Calls {
            asked: AtomicU64::new(0),
            sent: AtomicU64::new(0),
            made: AtomicU64::new(0),
            strange: AtomicU64::new(0),
        }
    }

    /// Counts it where a worker hasn't come to just these calls.
    fn expect(&self, asked: u64, sent: u64, made: u64) {
        let is_so = self.asked.load(Ordering::SeqCst) == asked
            && self.sent.load(Ordering::SeqCst) == sent
            && self.made.load(Ordering::SeqCst) == made;
        if !is_so {
            self.strange.fetch_add(1, Ordering::SeqCst);
        }
    }

    /// A call is asked for: all before it were made.
    pub fn ask(&self, call: u64) {
        let before = call.wrapping_sub(1);
        self.expect(before, before, before);
        self.asked.fetch_add(1, Ordering::SeqCst);
    }

    /// The route gets a send: its call was let through, and nothing is told of it.
    pub fn send(&self) {
        let before = self.sent.load(Ordering::SeqCst);
        self.expect(before.wrapping_add(1), before, before);
        self.sent.fetch_add(1, Ordering::SeqCst);
    }

    /// A call is told: the route got its send.
    pub fn tell(&self, call: u64) {
        self.expect(call, call, call.wrapping_sub(1));
        self.made.fetch_add(1, Ordering::SeqCst);
    }

    /// Whether so many were made, all of them in order.
    pub fn are(&self, count: u64) -> bool {
        self.expect(count, count, count);
        self.strange.load(Ordering::SeqCst) == 0
    }
}
