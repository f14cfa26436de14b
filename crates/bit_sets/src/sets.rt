//! Sets of numbers.
ghost use Rattle.std.specs.Prelude.{
  ◌≡◌,
  ◌≢◌,
  ℕ,
  ◌*◌,
  ◌<◌,
  ◌≤◌,
  ◌↔◌,
  true,
  false,
  All,
  IfOk,
  IsTrue,
  bit_or,
  length,
  slice_index,
};
ghost use Rattle.bit_sets.specs.Bits.{bit_of};

use std::alloc::{AllocError, Global};
use std::marker::Model;

/// How many bits a word has.
const BITS: u64 = 64;

/// A set of numbers, one bit each; contracts see the words. Numbers past the last word aren't in
/// it, and can't come into it.
#[derive(Drop)]
pub struct BitSet {
    words: Vec<u64>,
}

impl Model for BitSet {
    ghost use Rattle.std.specs.Prelude.{List, ℕ};

    ghost Value = { List ℕ };

    ghost view = { λ set. set.words.items };
}

impl BitSet {
    /// All numbers below the bound, and some past it.
    pub fn full(alloc: Global, bound: u64) -> Result<BitSet, AllocError>
        ensures room { IfOk result (λ set. bound ≤ 64 * length set) }
        ensures full { IfOk result (λ set. All (λ word. word ≡ 18446744073709551615) set) }
    {
        let mut words = Vec::new(alloc);
        for _word in 0..bound / BITS + 1 {
            words.push(u64::MAX)?;
        }
        Ok(BitSet { words })
    }

    /// The same again.
    pub fn copy(&self, alloc: Global) -> Result<BitSet, AllocError>
        ensures { IfOk result (λ set. set ≡ self.now) }
    {
        Ok(BitSet {
            words: Vec::from_slice(alloc, self.words.as_slice())?,
        })
    }

    /// Whether the number is in the set.
    pub fn has(&self, number: u64) -> bool
        ensures { result ≡ bit_of self.now number }
    {
        let at = (number / BITS) as usize;
        at < self.words.len() && (self.words[at] >> (number % BITS)) & 1 == 1
    }

    /// Puts the number in, where there is room for it.
    pub fn insert(&mut self, number: u64)
        ensures number { number < 64 * length self.old → bit_of self.new number ≡ true }
        ensures others { (other : ℕ) → other ≢ number →
            bit_of self.new other ≡ bit_of self.old other }
        ensures room { length self.new ≡ length self.old }
    {
        let at = (number / BITS) as usize;
        if at < self.words.len() {
            self.words[at] |= 1u64 << (number % BITS);
        }
    }

    /// Takes the number out.
    pub fn remove(&mut self, number: u64)
        ensures number { bit_of self.new number ≡ false }
        ensures others { (other : ℕ) → other ≢ number →
            bit_of self.new other ≡ bit_of self.old other }
        ensures room { length self.new ≡ length self.old }
    {
        let at = (number / BITS) as usize;
        if at < self.words.len() {
            self.words[at] &= !(1u64 << (number % BITS));
        }
    }

    /// Puts in the numbers of another set that there is room for.
    pub fn unite(&mut self, other: &BitSet)
        ensures united { (at : ℕ) → at < length self.old →
            slice_index self.new at ≡ bit_or (slice_index self.old at) (slice_index other.now at) }
        ensures room { length self.new ≡ length self.old }
    {
        unite_words(&mut self.words, other.words.as_slice());
    }

    /// Whether the set has all numbers of another one that there is room for.
    pub fn has_all(&self, other: &BitSet) -> bool
        ensures { IsTrue result ↔ ((at : ℕ) → at < length self.now →
            bit_or (slice_index self.now at) (slice_index other.now at) ≡ slice_index self.now at) }
    {
        have_all(self.words.as_slice(), other.words.as_slice())
    }
}

// What is past the last word of the others counts as 0.
fn word_at(words: &[u64], at: usize) -> u64
    ensures { result ≡ slice_index words.now at }
{
    if at < words.len() { words[at] } else { 0 }
}

fn unite_words(words: &mut Vec<u64>, more: &[u64])
    ensures united { (at : ℕ) → at < length words.old.items →
        slice_index words.new.items at
        ≡ bit_or (slice_index words.old.items at) (slice_index more.now at) }
    ensures room { length words.new.items ≡ length words.old.items }
{
    for i in 0..words.len() {
        words[i] |= word_at(more, i);
    }
}

fn have_all(words: &[u64], more: &[u64]) -> bool
    ensures { IsTrue result ↔ ((at : ℕ) → at < length words.now →
        bit_or (slice_index words.now at) (slice_index more.now at) ≡ slice_index words.now at) }
{
    for i in 0..words.len() {
        if words[i] | word_at(more, i) != words[i] {
            return false;
        }
    }
    true
}
