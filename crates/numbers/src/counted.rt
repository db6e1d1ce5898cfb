//! What is counted of events: the last number of each source, which texts may have a number, and the
//! numbers of those that came lately.

ghost use Rattle.std.specs.Prelude.{◌≡◌, ◌⊎◌, ◌≤◌, ◌<◌, ◌↔◌, [], IfOk, IsTrue, MatchOption, OnOk, unwrap_or};
ghost use Rattle.attributes.specs.Members.{value_at};
ghost use Rattle.attributes.specs.Sequence.{max_sequence};
ghost use Rattle.numbers.specs.Counts.{IsCounted, next};
ghost use Rattle.numbers.specs.Filter.{MayHave};

use crate::filter::Filter;
use crate::known::{Known, at, put};
use attributes::{MAX_SEQUENCE, Sequence};
use std::alloc::{AllocError, Global};
use std::collections::BTreeMap;
use std::marker::Model;
use std::mem;

/// The last number of each source, the number behind which a source begins that has none yet, a
/// filter of the texts that have numbers, and the numbers of texts that came lately. Memory in
/// proportion to the sources, for the filter 1 to 16 MiB, and for these texts at most 1 MiB.
#[derive(Drop)]
pub struct Counted {
    last: BTreeMap<String, Sequence>,
    seen: Filter,
    recent: Known,
    base: u64,
    alloc: Global,
}

impl Model for Counted {
    ghost use Rattle.attributes.specs.Members.{named};
    ghost use Rattle.numbers.specs.Counts.{Counts};

    ghost Value = { Counts };

    ghost view = { λ c. record {
      last = named c.last.entries;
      base = c.base;
      seen = c.seen;
      recent = c.recent;
    } };
}

impl Counted {
    /// A numberer's counts of no events, for about so many texts: 4 bytes are taken for each, but
    /// 1 MiB at least and 16 MiB at most.
    pub fn empty(alloc: Global, base: u64, texts: u64) -> Result<Counted, AllocError>
        ensures { IfOk result (λ c. (c.last ≡ []) × (c.base ≡ base) × (c.recent ≡ [])) }
    {
        Ok(Counted {
            last: BTreeMap::new(alloc),
            seen: Filter::sized(alloc, texts)?,
            recent: Known::empty(alloc),
            base,
            alloc,
        })
    }

    /// Whether the text may have a number: each that has one may, and few others. The time is that
    /// of a hash of its bytes.
    pub fn may_have(&self, text: &str) -> bool
        ensures { IsTrue result ↔ MayHave self.now.seen text.now }
    {
        self.seen.may_have(text)
    }

    /// The last number that the source was given, or else that behind which it begins.
    pub fn last_of(&self, source: &str) -> u64
        ensures { result ≡ unwrap_or (value_at source.now self.now.last) self.now.base }
    {
        match at(&self.last, source) {
            Some(number) => number.number(),
            None => self.base,
        }
    }

    /// The next number to be given to the source, unless that is above [`MAX_SEQUENCE`].
    pub fn next_of(&self, source: &str) -> Option<Sequence>
        ensures { MatchOption result (max_sequence < next self.now source.now)
            (λ n. n ≡ next self.now source.now) }
    {
        let last = self.last_of(source);
        if last >= MAX_SEQUENCE {
            return None;
        }
        Sequence::of_u64(last + 1)
    }

    /// Counts one event more for the numberer, which has this text and its source's next number.
    /// Where memory is refused half of it may be counted.
    pub fn add(&mut self, text: &str, source: &str, number: Sequence) -> Result<(), AllocError>
        requires { number ≡ next self.old source.now }
        ensures { OnOk result (IsCounted self.old self.new text.now source.now) }
    {
        self.seen.add(text);
        put(self.alloc, &mut self.last, source, number)
    }

    /// Hands out the numbers of texts that were left known by the calls before. None are left.
    pub fn take_recent(&mut self) -> Known
        ensures taken { result ≡ self.old.recent }
        ensures left { self.new ≡ record self.old { recent = [] } }
    {
        mem::replace(&mut self.recent, Known::empty(self.alloc))
    }

    /// Leaves these numbers of texts known, in place of those that were, unless they take above
    /// 1 MiB: then none are.
    pub fn put_recent(&mut self, known: Known)
        ensures { (self.new ≡ record self.old { recent = known })
            ⊎ (self.new ≡ record self.old { recent = [] }) }
    {
        if !known.is_small() {
            self.recent = Known::empty(self.alloc);
            return;
        }
        self.recent = known;
    }
}
