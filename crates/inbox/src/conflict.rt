//! Keys that several events have.

use attributes::{Batch, List, Text};

/// A source and an id that two or more events have, with those events in the order of their texts.
/// The first is shown.
#[derive(Drop)]
pub struct Conflict {
    pub source: Text,
    pub id: Text,
    pub events: Batch,
}

/// Conflicts in an order.
pub type Conflicts = List<Conflict>;
