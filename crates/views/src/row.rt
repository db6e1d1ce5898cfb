//! Rows of answers.

use crate::day::Day;
use attributes::{List, Text};
use coverage::Intervals;

/// A type, and how many shown events have it.
pub type KindCount = (Text, u64);

/// Types with counts, in an order.
pub type Kinds = List<KindCount>;

/// A type and a day, and how many shown events have both.
pub type DayCount = ((Text, Day), u64);

/// Types and days with counts, in an order.
pub type Days = List<DayCount>;

/// A source, and the numbers that are missing below its greatest.
pub type SourceGaps = (Text, Intervals);

/// Sources with their missing numbers, in an order.
pub type Gaps = List<SourceGaps>;
