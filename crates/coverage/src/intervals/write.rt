//! A set, written as JSON.
ghost use Rattle.std.specs.Prelude.{◌≡◌, ◌++◌, OnOk};
ghost use Rattle.coverage.specs.SummaryText.{intervals_tokens};

use super::Intervals;
use json::Writer;
use std::alloc::AllocError;

impl Intervals {
    /// Writes each interval as an array of its first and its last number, without an array around
    /// them. Time and memory linear in the intervals.
    pub fn write(&self, out: &mut Writer) -> Result<(), AllocError>
        ensures before { OnOk result (out.new.before ≡ out.old.before) }
        ensures tokens { OnOk result (out.new.tokens
            ≡ out.old.tokens ++ intervals_tokens self.now) }
    {
        for (first, last) in &self.starts {
            out.begin_array()?;
            out.u64(*first)?;
            out.u64(*last)?;
            out.end_array()?;
        }
        Ok(())
    }
}
