//! A reader with as many threads as there are processors.
ghost use Rattle.std.specs.Prelude.{◌≡◌, ◌≤◌, IfOk, IfSome, length};
ghost use Rattle.event_json.specs.Reading.{max_input};
ghost use Rattle.event_files.specs.Files.{SpellsBatch};

use crate::part::read_halves;
use attributes::Batch;
use event_files::{EventReader, ReportFault, SequentialReader};
use event_json::{MAX_INPUT, batch_parts_join};
use std::alloc::{AllocError, Global};
use std::thread::{Threads, available_parallelism};

/// Below so many bytes a file is read with one thread, since to start others takes longer (1 MiB).
const PARTED: usize = 1_048_576;

/// How many parts a file is read in, where it isn't known how many processors there are: 2 to the
/// power of this.
const LEVELS: u32 = 2;

/// A reader that reads a large file in parts, each with a thread of its own: at most as many as
/// there are processors, rounded down to a power of two, and four where that isn't known. What
/// can't be read in parts (one event alone, a file at fault) is read with one thread after that.
#[derive(Drop)]
pub struct ParallelReader<'r, R> {
    /// What starts the threads.
    pub rt: &'r R,
}

impl<'r, R: Threads + Sync> ParallelReader<'r, R> {
    /// The events of a large file, where it was read in parts with several threads.
    fn read_parts(
        &self,
        alloc: Global,
        bytes: &[u8],
        is_sorted: bool,
    ) -> Result<Option<Batch>, AllocError>
        requires { length bytes.now ≤ max_input }
        ensures { IfOk result (λ o. IfSome o (SpellsBatch bytes.now is_sorted)) }
    {
        // That parts that were read are the whole is a law; it does nothing.
        batch_parts_join();
        let levels = match available_parallelism(self.rt) {
            Ok(count) => count.get().ilog2(),
            Err(_) => LEVELS,
        };
        read_halves(self.rt, alloc, bytes, true, true, is_sorted, levels)
    }
}

impl<'r, R: Threads + Sync> EventReader for ParallelReader<'r, R> {
    ghost use Rattle.std.specs.Thread.{IsSync};

    ghost can_read = { λ _. IsSync R.row };

    fn read(&self, alloc: Global, bytes: &[u8], is_sorted: bool) -> Result<Batch, ReportFault> {
        if bytes.len() >= PARTED && bytes.len() as u64 <= MAX_INPUT {
            if let Some(events) = self.read_parts(alloc, bytes, is_sorted)? {
                return Ok(events);
            }
        }
        SequentialReader {}.read(alloc, bytes, is_sorted)
    }
}
