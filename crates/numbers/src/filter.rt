//! A filter of texts, which takes three bits for each.

ghost use Rattle.std.specs.Prelude.{◌≡◌, ◌≤◌, ◌<◌, ◌*◌, ◌/◌, ◌↔◌, IsTrue, length};
ghost use Rattle.std.specs.Int.{bit_at};
ghost use Rattle.numbers.specs.Filter.{HasBitOf, KeepsBits, KeepsTexts, MayHave, hash_of, place_of};

use std::alloc::{AllocError, Global};
use std::marker::Model;

/// How many words of 64 bits a filter has at least: they take 1 MiB.
const MIN_WORDS: u64 = 131_072;

/// How many words a filter has at most: they take 16 MiB.
const MAX_WORDS: u64 = 2_097_152;

/// Texts, of which three bits each are kept. It may seem to have a text that was never added, but has
/// each that was.
#[derive(Drop)]
pub(crate) struct Filter {
    words: Vec<u64>,
}

impl Model for Filter {
    ghost use Rattle.std.specs.Prelude.{ℕ, List, ◌<◌, ◌≤◌, length};

    ghost Value = { List ℕ };

    ghost view = { λ f. f.words.items };

    ghost invariant = { λ f. (0 < length f.words.items) × (length f.words.items ≤ 2097152) };
}

/// The hash of a text that the filter knows it by.
fn hash_of(text: &str) -> u64
    ensures { result ≡ hash_of text.now }
{
    let bytes = text.as_bytes();
    let mut hash = 14_695_981_039_346_656_037u64;
    for i in 0..bytes.len() {
        hash = (hash ^ bytes[i] as u64).wrapping_mul(1_099_511_628_211);
    }
    hash
}

/// The place of one of the three bits of a text's hash in a filter of so many words.
fn place_of(words: u64, hash: u64, i: u64) -> u64
    requires some { 0 < words }
    requires few { words ≤ 2097152 }
    requires third { i < 3 }
    ensures value { result ≡ place_of (64 * words) hash i }
    ensures within { result / 64 < words }
{
    let bits = 64 * words;
    let first = hash % bits;
    let apart = hash / bits % bits;
    (first + i * apart) % bits
}

/// Whether a word of the filter has the bit.
fn has_bit(word: u64, bit: u64) -> bool
    requires { bit < 64 }
    ensures { IsTrue result ↔ (bit_at word bit ≡ 1) }
{
    word & (1 << bit) != 0
}

impl Filter {
    /// An empty filter for about so many texts: 32 bits for each of them, between 2^23 and 2^27.
    pub(crate) fn sized(alloc: Global, texts: u64) -> Result<Filter, AllocError> {
        let words = (texts / 2).clamp(MIN_WORDS, MAX_WORDS);
        Ok(Filter {
            words: vec![in alloc; 0u64; words as usize]?,
        })
    }

    /// Whether a bit of the hash is set in the filter.
    fn has_bit_of(&self, hash: u64, i: u64) -> bool
        requires { i < 3 }
        ensures { IsTrue result ↔ HasBitOf self.now hash i }
    {
        let place = place_of(self.words.len() as u64, hash, i);
        has_bit(self.words[(place / 64) as usize], place % 64)
    }

    /// Sets a bit of the hash in the filter.
    fn set_bit_of(&mut self, hash: u64, i: u64)
        requires { i < 3 }
        ensures has { HasBitOf self.new hash i }
        ensures keeps { KeepsBits self.old self.new }
        ensures long { length self.new ≡ length self.old }
    {
        let place = place_of(self.words.len() as u64, hash, i);
        let at = (place / 64) as usize;
        self.words[at] |= 1 << (place % 64);
    }

    /// Whether the filter may have the text. The time is that of a hash of its bytes.
    pub(crate) fn may_have(&self, text: &str) -> bool
        ensures { IsTrue result ↔ MayHave self.now text.now }
    {
        let hash = hash_of(text);
        self.has_bit_of(hash, 0) && self.has_bit_of(hash, 1) && self.has_bit_of(hash, 2)
    }

    /// Adds a text to the filter, which takes no memory more. The time is that of a hash.
    pub(crate) fn add(&mut self, text: &str)
        ensures has { MayHave self.new text.now }
        ensures keeps { KeepsTexts self.old self.new }
    {
        let hash = hash_of(text);
        self.set_bit_of(hash, 0);
        self.set_bit_of(hash, 1);
        self.set_bit_of(hash, 2);
    }
}
