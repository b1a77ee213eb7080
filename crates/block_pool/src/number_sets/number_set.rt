//! A set of numbers whose members can be taken lowest first.
ghost use Rattle.std.specs.Prelude.{◌≡◌, ◌≢◌, ◌∷◌, [], ℕ, ◌<◌, ◌≤◌, ◌↔◌, ◌⊎◌, length, IsTrue, IfOk, slice_index_or};
ghost use Rattle.std.specs.List.{Contains, All};
ghost use Rattle.std.specs.List.Sorted.{IsStrictlyIncreasing};
ghost use Rattle.std.specs.Option.{MatchOption};
ghost use Rattle.block_pool.specs.Members.{numbers_below, without, insert_rising};

use crate::number_sets::ranked_set::RankedSet;
use std::alloc::{AllocError, Allocator, Global};
use std::marker::Model;

/// A set of numbers below a limit.
#[derive(Drop)]
pub struct NumberSet<A: Allocator = Global> {
    words: Vec<u64, A>,
    limit: u32,
    count: usize,
    lowest: usize,
}

impl<A: Allocator> Model for NumberSet<A> {
    ghost use Rattle.block_pool.specs.Members.{NumberSetValue, number_set_code};
    ghost use Rattle.block_pool.specs.NumberSetsWords.{members_of, IsNumberSet};

    ghost Value = { NumberSetValue };

    ghost coded = { number_set_code };

    ghost view = { λ s. record { limit = s.limit; members = members_of s.words.items } };

    ghost invariant = { λ s. IsNumberSet s.words.items s.limit s.count s.lowest };
}

/// The first word, from `from` on, that is not 0, or the number of words where there is none.
pub(crate) fn next_word(words: &[u64], from: usize) -> usize
    requires { from ≤ length words.now }
    ensures from { from ≤ result }
    ensures to { result ≤ length words.now }
    ensures passed { (k : ℕ) → from ≤ k → k < result → slice_index_or words.now k 0 ≡ 0 }
    ensures found { result < length words.now → 0 < slice_index_or words.now result 0 }
{
    let mut at = from;
    while at < words.len() && words[at] == 0 {
        at += 1;
    }
    at
}

impl<A: Allocator> NumberSet<A> {
    /// All the numbers below a limit. An error says that memory ran out.
    pub fn full(alloc: A, limit: u32) -> Result<Self, AllocError>
        requires { limit ≤ 65535 }
        ensures { IfOk result (λ set. set ≡ record { limit = limit; members = numbers_below limit }) }
    {
        let count = limit as usize;
        let mut words = vec![in alloc; u64::MAX; count / 64 + 1]?;
        words[count / 64] = (1 << (limit % 64)) - 1;
        Ok(NumberSet {
            words,
            limit,
            count,
            lowest: 0,
        })
    }

    /// The members are below this.
    pub fn limit(&self) -> u32
        ensures value { result ≡ self.now.limit }
        ensures in_range { result ≤ 65535 }
    {
        self.limit
    }

    /// How many members there are.
    pub fn len(&self) -> usize
        ensures value { result ≡ length self.now.members }
        ensures in_limit { result ≤ self.now.limit }
        ensures rising { IsStrictlyIncreasing self.now.members }
        ensures below { All (λ n. n < self.now.limit) self.now.members }
    {
        self.count
    }

    /// Whether the number is a member. A number past the limit is none.
    pub fn contains(&self, number: u32) -> bool
        ensures value { IsTrue result ↔ Contains self.now.members number }
        ensures in_limit { Contains self.now.members number → number < self.now.limit }
    {
        number < self.limit && self.words[number as usize / 64] >> (number % 64) & 1 == 1
    }

    /// Takes the lowest member out. None says that there is no member.
    pub fn pop_first(&mut self) -> Option<u32>
        ensures value { MatchOption result ((self.old.members ≡ []) × (self.new ≡ self.old))
            (λ n. self.old.members ≡ n ∷ self.new.members) }
        ensures limit { self.new.limit ≡ self.old.limit }
    {
        let at = next_word(&self.words, self.lowest);
        self.lowest = at;
        if at == self.words.len() {
            return None;
        }
        let word = self.words[at];
        let bit = word.trailing_zeros();
        self.words[at] = word & !(1u64 << bit);
        self.count -= 1;
        Some(at as u32 * 64 + bit)
    }

    /// Takes a member out.
    pub fn remove(&mut self, number: u32)
        requires { Contains self.old.members number }
        ensures removed { self.new ≡ record self.old { members = without number self.old.members } }
        ensures members { (n : ℕ) → Contains self.new.members n ↔ (Contains self.old.members n × (n ≢ number)) }
    {
        self.words[number as usize / 64] &= !(1u64 << (number % 64));
        self.count -= 1;
    }

    /// Puts in a number, which is no member.
    pub fn insert(&mut self, number: u32)
        requires in_limit { number < self.old.limit }
        requires absent { ¬ Contains self.old.members number }
        ensures inserted { self.new ≡ record self.old { members = insert_rising number self.old.members } }
        ensures members { (n : ℕ) → Contains self.new.members n ↔ ((n ≡ number) ⊎ Contains self.old.members n) }
    {
        let at = number as usize / 64;
        self.words[at] |= 1u64 << (number % 64);
        self.count += 1;
        self.lowest = self.lowest.min(at);
    }

    /// The members as they are now, found by how many are below them. An error says that memory ran out.
    pub fn ranked<B: Allocator + Clone>(&self, alloc: B) -> Result<RankedSet<B>, AllocError>
        ensures value { IfOk result (λ ranked. ranked ≡ self.now.members) }
        ensures rising { IsStrictlyIncreasing self.now.members }
        ensures in_limit { All (λ n. n < self.now.limit) self.now.members }
    {
        RankedSet::of_words(alloc, &self.words, self.count)
    }
}
