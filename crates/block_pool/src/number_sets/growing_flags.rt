//! Flags by number, as words that grow.
ghost use Rattle.std.specs.Prelude.{◌≡◌, ◌≢◌, ℕ, [], ◌<◌, ◌≤◌, length, true, false, IsOk, OnOk, OnErr, IfNone, IfSome, slice_index_or};
ghost use Rattle.block_pool.specs.NumberSetsWords.{NoneSetFrom, NoneSetBetween};

use crate::number_sets::number_set::next_word;
use std::alloc::{AllocError, Allocator, Global};
use std::marker::Model;

/// Flags by number. Past the last word no flag is set.
#[derive(Drop)]
pub struct Flags<A: Allocator = Global> {
    words: Vec<u64, A>,
}

impl<A: Allocator> Model for Flags<A> {
    ghost use Rattle.std.specs.Prelude.{List, Bool, ◌*◌, ◌^◌, ◌≤◌, length};
    ghost use Rattle.std.specs.Coded.{coded_list, coded_bool};
    ghost use Rattle.block_pool.specs.NumberSetsWords.{flags_of};

    ghost Value = { List Bool };

    ghost coded = { coded_list coded_bool };

    ghost view = { λ s. flags_of s.words.items };

    ghost invariant = { λ s. 64 * length s.words.items ≤ 2 ^ 64 };
}

impl<A: Allocator> Flags<A> {
    /// No flag, and none is set.
    pub fn new(alloc: A) -> Self
        ensures { result ≡ [] }
    {
        Flags {
            words: Vec::new(alloc),
        }
    }

    /// Whether the flag with that number is set.
    pub fn is_set(&self, n: usize) -> bool
        ensures { result ≡ slice_index_or self.now n false }
    {
        n / 64 < self.words.len() && self.words[n / 64] >> (n % 64) & 1 == 1
    }

    /// Makes room for a flag with that number. An error says that memory ran out.
    pub fn reserve(&mut self, n: usize) -> Result<(), AllocError>
        ensures within { OnOk result (n < length self.new) }
        ensures kept { (k : ℕ) → slice_index_or self.new k false ≡ slice_index_or self.old k false }
        ensures err { OnErr result (self.new ≡ self.old) }
        ensures already { n < length self.old → IsOk result × (self.new ≡ self.old) }
    {
        if n / 64 >= self.words.len() {
            self.words.resize(n / 64 + 1, 0)?;
        }
        Ok(())
    }

    /// Sets the flag with that number.
    pub fn set(&mut self, n: usize)
        requires { n < length self.old }
        ensures flag { slice_index_or self.new n false ≡ true }
        ensures others { (k : ℕ) → k ≢ n → slice_index_or self.new k false ≡ slice_index_or self.old k false }
        ensures len { length self.new ≡ length self.old }
    {
        self.words[n / 64] |= 1u64 << (n % 64);
    }

    /// Unsets the flag with that number.
    pub fn unset(&mut self, n: usize)
        ensures flag { slice_index_or self.new n false ≡ false }
        ensures others { (k : ℕ) → k ≢ n → slice_index_or self.new k false ≡ slice_index_or self.old k false }
        ensures len { length self.new ≡ length self.old }
    {
        if n / 64 < self.words.len() {
            self.words[n / 64] &= !(1u64 << (n % 64));
        }
    }

    /// The first flag that is set, from that number on. None says that no flag is set from there on.
    pub fn next(&self, from: usize) -> Option<usize>
        ensures none { IfNone result (NoneSetFrom self.now from) }
        ensures from { IfSome result (λ n. from ≤ n) }
        ensures flag { IfSome result (λ n. slice_index_or self.now n false ≡ true) }
        ensures first { IfSome result (λ n. NoneSetBetween self.now from n) }
    {
        let at = from / 64;
        if at >= self.words.len() {
            return None;
        }
        let rest = self.words[at] >> (from % 64);
        if rest != 0 {
            return Some(from + rest.trailing_zeros() as usize);
        }
        let at = next_word(&self.words, at + 1);
        if at == self.words.len() {
            return None;
        }
        Some(at * 64 + self.words[at].trailing_zeros() as usize)
    }
}
