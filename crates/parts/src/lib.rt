//! The events of a region in parts by source, and the answers of parts as those of the whole.
#![tactic(auto)]

mod civil_day;
mod counts;
mod cover;
mod days;
mod division;
mod events;
mod fault;
mod gaps;
mod kinds;
pub mod laws;
mod lines;
mod summaries;
mod told;
mod whole;

pub use division::{MAX_PARTS, is_count, part_of, split};
pub use fault::CombineFault;
pub use summaries::combine_summaries;
pub use whole::{combine, has_covers, no_answer};
