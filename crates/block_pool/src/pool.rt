//! The numbers of a heap's blocks, of which some are free.
ghost use Rattle.std.specs.Prelude.{◌≡◌, ◌≢◌, ℕ, ◌+◌, ◌<◌, ◌≤◌, ◌↔◌, ◌⊎◌, length, take, drop, Err, IsTrue, IfOk, OnOk, OnErr};
ghost use Rattle.std.specs.List.{Contains, All};
ghost use Rattle.std.specs.List.Sorted.{IsStrictlyIncreasing};
ghost use Rattle.block_pool.specs.PoolValue.{PoolValue, numbers_below, without, insert_rising};

use crate::claims::{NumberSet, RankedSet};
use std::alloc::{AllocError, Allocator, Global};
use std::marker::Model;
use thiserror::Error;

/// Why no blocks were granted.
#[derive(Clone, Copy, Debug, PartialEq, Eq, Error)]
pub enum GrantError {
    /// Fewer blocks are free.
    #[error("too few blocks are free")]
    HeapFull,
    /// Memory ran out.
    #[error("no memory")]
    NoMemory,
}

/// The numbers of the blocks of a heap, of which some are free.
#[derive(Drop)]
pub struct Pool<A: Allocator = Global> {
    numbers: NumberSet<A>,
}

impl<A: Allocator> Model for Pool<A> {
    ghost use Rattle.block_pool.specs.PoolValue.{PoolValue, pool_code};

    ghost Value = { PoolValue };

    ghost coded = { pool_code };

    ghost view = { λ p. record { limit = p.numbers.limit; free = p.numbers.members } };
}

impl<A: Allocator> Pool<A> {
    /// A pool of `limit` blocks, all free. An error says that memory ran out.
    pub fn new(alloc: A, limit: u32) -> Result<Self, AllocError>
        requires { limit ≤ 65535 }
        ensures { IfOk result (λ pool. pool ≡ record { limit = limit; free = numbers_below limit }) }
    {
        Ok(Pool {
            numbers: NumberSet::full(alloc, limit)?,
        })
    }

    /// How many blocks there are, free or not.
    pub fn limit(&self) -> u32
        ensures value { result ≡ self.now.limit }
        ensures in_range { result ≤ 65535 }
    {
        self.numbers.limit()
    }

    /// How many blocks are free.
    pub fn free_count(&self) -> usize
        ensures value { result ≡ length self.now.free }
        ensures in_limit { result ≤ self.now.limit }
        ensures rising { IsStrictlyIncreasing self.now.free }
    {
        self.numbers.len()
    }

    /// Whether the block with that number is free. A number past the limit is not.
    pub fn is_free(&self, number: u32) -> bool
        ensures value { IsTrue result ↔ Contains self.now.free number }
        ensures in_limit { Contains self.now.free number → number < self.now.limit }
    {
        self.numbers.contains(number)
    }

    /// The numbers of the free blocks, rising. An error says that memory ran out.
    pub fn free_numbers<B: Allocator + Clone>(&self, alloc: B) -> Result<RankedSet<B>, AllocError>
        ensures value { IfOk result (λ numbers. numbers ≡ self.now.free) }
        ensures rising { IsStrictlyIncreasing self.now.free }
        ensures in_limit { All (λ n. n < self.now.limit) self.now.free }
    {
        self.numbers.ranked(alloc)
    }

    /// Takes the `count` free blocks with the lowest numbers, and returns these, rising.
    /// `HeapFull` says that fewer are free, and `NoMemory` that there was no room for the result.
    pub fn grant<B: Allocator>(&mut self, alloc: B, count: usize) -> Result<Vec<u32, B>, GrantError>
        ensures granted { IfOk result (λ numbers. numbers.items ≡ take count self.old.free) }
        ensures rest { OnOk result (self.new ≡ record self.old { free = drop count self.old.free }) }
        ensures full { (result ≡ Err GrantError.HeapFull) ↔ (length self.old.free < count) }
        ensures err { OnErr result (self.new ≡ self.old) }

        // What follows for the granted numbers.
        ensures rising { IfOk result (λ numbers. IsStrictlyIncreasing numbers.items) }
        ensures in_limit { IfOk result (λ numbers. All (λ n. n < self.old.limit) numbers.items) }
        ensures members { IfOk result (λ numbers. (n : ℕ) →
            Contains self.old.free n ↔ (Contains numbers.items n ⊎ Contains self.new.free n)) }
        ensures apart { IfOk result (λ numbers. (n : ℕ) → Contains numbers.items n → ¬ Contains self.new.free n) }
    {
        if self.numbers.len() < count {
            return Err(GrantError::HeapFull);
        }
        let Ok(mut granted) = Vec::with_capacity(alloc, count) else {
            return Err(GrantError::NoMemory);
        };
        while granted.len() < count {
            match self.numbers.pop_first() {
                Some(number) => granted.push(number).unwrap(),
                None => unreachable!(),
            }
        }
        Ok(granted)
    }

    /// Takes a free block.
    pub fn take(&mut self, number: u32)
        requires { Contains self.old.free number }
        ensures taken { self.new ≡ record self.old { free = without number self.old.free } }
        ensures members { (n : ℕ) → Contains self.new.free n ↔ (Contains self.old.free n × (n ≢ number)) }
    {
        self.numbers.remove(number);
    }

    /// Gives back a block, which is not free.
    pub fn give_back(&mut self, number: u32)
        requires in_limit { number < self.old.limit }
        requires taken { ¬ Contains self.old.free number }
        ensures given { self.new ≡ record self.old { free = insert_rising number self.old.free } }
        ensures members { (n : ℕ) → Contains self.new.free n ↔ ((n ≡ number) ⊎ Contains self.old.free n) }
    {
        self.numbers.insert(number);
    }
}
