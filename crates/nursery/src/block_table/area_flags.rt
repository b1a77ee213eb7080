//! Flags, for each generation, of the blocks that hold objects of it or of the younger ones.
ghost use Rattle.std.specs.Prelude.{◌≡◌, ℕ, ◌<◌, ◌≤◌, [], true, false, length, replicate, nat_eq, nat_le, ◌&&◌, if◌then◌else◌, IfOk, OnOk, IfNone, IfSome};
ghost use Rattle.nursery.specs.Areas.{is_flagged, HasRoom};

use block_pool::Flags;
use std::alloc::{AllocError, Allocator, Global};
use std::marker::Model;

/// For each generation the numbers of the blocks that hold objects of it or of the younger ones.
#[derive(Drop)]
pub struct AreaFlags<A: Allocator = Global> {
    young: Vec<Flags<A>, A>,
}

impl<A: Allocator> Model for AreaFlags<A> {
    ghost use Rattle.std.specs.Prelude.{List, Bool, ◌<◌, length};
    ghost use Rattle.std.specs.Coded.{coded_list, coded_bool};

    ghost Value = { List (List Bool) };

    ghost coded = { coded_list (coded_list coded_bool) };

    ghost view = { λ s. s.young.items };

    ghost invariant = { λ s. 0 < length s.young.items };
}

impl<A: Allocator + Clone> AreaFlags<A> {
    /// No numbers. An error says that memory ran out.
    pub fn new(alloc: A, generations: usize) -> Result<Self, AllocError>
        requires { 0 < generations }
        ensures { IfOk result (λ areas. areas ≡ replicate generations []) }
    {
        let mut young = Vec::with_capacity(alloc.clone()?, generations)?;
        for _ in 0..generations {
            young.push(Flags::new(alloc.clone()?))?;
        }
        Ok(AreaFlags { young })
    }
}

impl<A: Allocator> AreaFlags<A> {
    /// Makes room for all numbers below `len`. An error says that memory ran out.
    pub fn reserve(&mut self, len: usize) -> Result<(), AllocError>
        ensures room { OnOk result (HasRoom self.new len) }
        ensures no_less { (len : ℕ) → HasRoom self.old len → HasRoom self.new len }
        ensures same { (g n : ℕ) → is_flagged self.new g n ≡ is_flagged self.old g n }
        ensures generations { length self.new ≡ length self.old }
    {
        for generation in 0..self.young.len() {
            self.young[generation].reserve(len)?;
        }
        Ok(())
    }

    /// Puts in the number of a block of that generation.
    pub fn add(&mut self, generation: usize, number: usize)
        requires generation { generation < length self.old }
        requires room { (len : ℕ) × HasRoom self.old len × (number < len) }
        ensures flags { (g n : ℕ) → is_flagged self.new g n
            ≡ (if nat_le generation g && nat_eq n number then true else is_flagged self.old g n) }
        ensures room { (len : ℕ) → HasRoom self.old len → HasRoom self.new len }
        ensures generations { length self.new ≡ length self.old }
    {
        for older in generation..self.young.len() {
            self.young[older].set(number);
        }
    }

    /// Takes out the number, whatever its block's generation is. It takes no memory.
    pub fn remove(&mut self, number: usize)
        ensures flags { (g n : ℕ) → is_flagged self.new g n
            ≡ (if nat_eq n number then false else is_flagged self.old g n) }
        ensures room { (len : ℕ) → HasRoom self.old len → HasRoom self.new len }
        ensures generations { length self.new ≡ length self.old }
    {
        for generation in 0..self.young.len() {
            self.young[generation].unset(number);
        }
    }

    /// The first number, from that one on, of a block of generation at most `generation`.
    pub fn next_young(&self, generation: u8, from: usize) -> Option<usize>
        ensures none { IfNone result ((n : ℕ) → from ≤ n → is_flagged self.now generation n ≡ false) }
        ensures from { IfSome result (λ number. from ≤ number) }
        ensures flag { IfSome result (λ number. is_flagged self.now generation number ≡ true) }
        ensures first { IfSome result (λ number. (n : ℕ) → from ≤ n → n < number →
            is_flagged self.now generation n ≡ false) }
    {
        let last = self.young.len() - 1;
        self.young[last.min(generation as usize)].next(from)
    }
}
