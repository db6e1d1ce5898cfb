//! What tests do to sites.

use attributes::Batch;
use exchange::{Step, Steps};
use inbox::Counts;
use site::Site;

/// Counts of new and repeated events.
pub fn counts(fresh: u64, repeated: u64) -> Counts {
    Counts { fresh, repeated }
}

/// A site takes the events of a batch, all of them, and tells how many were new.
pub fn take_all(site: &mut Site, batch: &mut Batch) -> Option<Counts> {
    let counts = site.take_batch(batch).ok()?;
    if batch.is_empty() { Some(counts) } else { None }
}

/// Adds a step, and answers whether it did.
pub fn then(steps: &mut Steps, step: Step) -> bool {
    steps.push(step).is_ok()
}
