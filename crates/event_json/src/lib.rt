//! Events in the JSON Event Format of CloudEvents 1.0.2: a reader of single events and of batches,
//! and writers of the canonical texts.
#![tactic(auto)]

mod fault;
mod faulty;
mod pieces;
mod read;
mod write;

pub use fault::ReadFault;
pub use faulty::{Faulty, read_faulty};
pub use pieces::next_comma;
pub use read::{MAX_INPUT, batch_parts_join, read_events, read_part_events, readings_are_one};
pub use write::{
    batch_texts_read_back, batch_texts_tell_lists, texts_read_back, write_batch, write_event,
    write_lent, write_sequenced,
};
