//! A summary's text, written.
ghost use Rattle.std.specs.Prelude.{◌≡◌, ◌++◌, IfOk, OnOk};
ghost use Rattle.coverage.specs.Numbers.{AreListed, holds_in};
ghost use Rattle.coverage.specs.CoverText.{IsCoverText};
ghost use Rattle.coverage.specs.DigestsText.{digests_text};
ghost use Rattle.coverage.specs.NumbersText.{numbers_text};
ghost use Rattle.coverage.specs.steps.Tokens.{entry_tokens, sources_tokens};

use super::Numbers;
use crate::digests::SourceDigests;
use crate::intervals::Intervals;
use attributes::Text;
use json::Writer;
use std::alloc::AllocError;

/// Writes a source of a summary's text, and then its intervals.
fn write_entry(out: &mut Writer, source: &str, numbers: &Intervals) -> Result<(), AllocError>
    ensures before { OnOk result (out.new.before ≡ out.old.before) }
    ensures tokens { OnOk result
        (out.new.tokens ≡ out.old.tokens ++ entry_tokens (source.now, numbers.now)) }
{
    out.key(source)?;
    out.begin_array()?;
    numbers.write(out)?;
    out.end_array()?;
    Ok(())
}

impl Numbers {
    /// Writes each source of a summary with an array of its intervals, without an object around
    /// them. Time and memory linear in the sources and the intervals.
    pub fn write(&self, out: &mut Writer) -> Result<(), AllocError>
        ensures before { OnOk result (out.new.before ≡ out.old.before) }
        ensures tokens { OnOk result (out.new.tokens
            ≡ out.old.tokens ++ sources_tokens self.now) }
    {
        for (source, numbers) in &self.entries {
            write_entry(out, source.as_str(), numbers)?;
        }
        Ok(())
    }

    /// The summary's text, version 1: a JSON object without white space that has the sources in
    /// byte order, each with the arrays of the first and the last number of its intervals. Time and
    /// memory linear in the sources and the intervals.
    pub fn to_text(&self) -> Result<Text, AllocError>
        ensures text { IfOk result (λ t. t ≡ numbers_text self.now) }
        ensures cover_text { IfOk result (IsCoverText (holds_in self.now)) }
        ensures summary { AreListed self.now }
    {
        let mut out = Writer::new(Vec::new(self.alloc));
        out.begin_object()?;
        out.key("sources")?;
        out.begin_object()?;
        self.write(&mut out)?;
        out.end_object()?;
        out.key("version")?;
        out.u64(1)?;
        out.end_object()?;
        let text = String::from_utf8(out.into_inner()).unwrap();
        Ok(Text::from_string(text))
    }

    /// The text of a summary's numbers with digests, version 2: a JSON object without white space
    /// that has the blocks and the intervals of the sources, both in byte order. Time and memory
    /// linear in the sources, the blocks and the intervals.
    pub fn to_text_with(&self, digests: &SourceDigests) -> Result<Text, AllocError>
        ensures text { IfOk result (λ t. t ≡ digests_text self.now digests.now) }
        ensures summary { AreListed self.now }
    {
        let mut out = Writer::new(Vec::new(self.alloc));
        out.begin_object()?;
        out.key("blocks")?;
        out.begin_object()?;
        digests.write(&mut out)?;
        out.end_object()?;
        out.key("sources")?;
        out.begin_object()?;
        self.write(&mut out)?;
        out.end_object()?;
        out.key("version")?;
        out.u64(2)?;
        out.end_object()?;
        let text = String::from_utf8(out.into_inner()).unwrap();
        Ok(Text::from_string(text))
    }
}
