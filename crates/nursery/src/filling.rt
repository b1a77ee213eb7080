//! A mutator's nursery: blocks of a table that are filled one after the other.
ghost use Rattle.std.specs.Prelude.{◌≡◌, ℕ, ◌+◌, ◌<◌, ◌≤◌, ◌↔◌, Some, None, length, IsErr, IsTrue, IsSome, IfOk, OnErr, slice_set};
ghost use Rattle.model.specs.Room.{room_after};
ghost use Rattle.layout.specs.Header.{size_of};
ghost use Rattle.layout.specs.Place.{place_word};
ghost use Rattle.block_pool.specs.BlockValue.{BlockValue, used_of, new_object};
ghost use Rattle.nursery.specs.Table.{slot_at, slot_words, with_more};
ghost use Rattle.nursery.specs.NurseryValue.{NurseryValue, nursery_room, IsNursery, IsSmallIn, Pushes, block_after};

use block_pool::Block;
use layout::Place;
use std::alloc::Allocator;
use std::marker::Model;
use thiserror::Error;

/// No block of the nursery has room for the object.
#[derive(Clone, Copy, Debug, PartialEq, Eq, Error)]
#[error("the nursery is full")]
pub struct NurseryFull;

/// Blocks of a table with numbers in a row, of which one is filled now: those after it are empty.
#[derive(Clone, Copy, Debug, PartialEq, Eq)]
pub struct Nursery {
    first: usize,
    blocks: usize,
    // Counted from the first block of the nursery.
    current: usize,
}

impl Model for Nursery {
    ghost use Rattle.std.specs.Prelude.{◌+◌, ◌≤◌};
    ghost use Rattle.nursery.specs.NurseryValue.{NurseryValue as Shown, nursery_code};

    ghost Value = { Shown };

    ghost coded = { nursery_code };

    ghost use Rattle.nursery.specs.NurseryView.{view_of, fields_of};

    ghost view = { view_of };

    ghost invariant = { λ n. n.first + n.blocks ≤ 65535 };

    ghost inverse = { fields_of };
}

/// Puts a new object at the end of a block, and returns its offset in words.
fn push_new<A: Allocator>(table: &mut [Option<Block<A>>], number: usize, p: u32, q: u32) -> usize
    requires in_range { number < length table.old }
    requires fits { (block : BlockValue) → slot_at table.old number ≡ Some block
        → used_of block + size_of p q ≤ block.words }
    ensures in_block { result < 512 }
    ensures offset { result ≡ slot_words (slot_at table.old number) }
    ensures pushed { (block : BlockValue) → slot_at table.old number ≡ Some block
        → table.new ≡ slice_set table.old number (Some (with_more block (new_object p q))) }
{
    let slot = &mut table[number];
    match slot {
        Some(block) => block.push_new(p, q),
        None => 0,
    }
}

/// Whether an object of `size` words fits at the end of a block.
fn fits<A: Allocator>(table: &[Option<Block<A>>], number: usize, size: usize) -> bool
    requires in_range { number < length table.now }
    ensures { (block : BlockValue) → slot_at table.now number ≡ Some block
        → (IsTrue result ↔ (used_of block + size ≤ block.words)) }
{
    match &table[number] {
        Some(block) => block.fits(size),
        None => false,
    }
}

impl Nursery {
    /// So many blocks, from the first on, which is filled first.
    pub fn new(first: usize, blocks: usize) -> Nursery
        requires some { 1 ≤ blocks }
        requires in_range { first + blocks ≤ 65535 }
        ensures { result ≡ record { first = first; blocks = blocks; current = 0 } }
    {
        Nursery {
            first,
            blocks,
            current: 0,
        }
    }

    /// Which of the blocks an object of `size` words goes to: the current one where it fits there, else the next.
    fn block_for<A: Allocator>(&self, table: &[Option<Block<A>>], size: usize) -> Option<usize>
        requires in_range { self.now.first + self.now.current < length table.now }
        requires in_nursery { self.now.current < self.now.blocks }
        ensures { (block : BlockValue) → slot_at table.now (self.now.first + self.now.current) ≡ Some block
            → result ≡ block_after block.words self.now.blocks self.now.current (used_of block) size }
    {
        if fits(table, self.first + self.current, size) {
            Some(self.current)
        } else if self.current + 1 < self.blocks {
            Some(self.current + 1)
        } else {
            None
        }
    }

    /// Whether there is room for an object of `size` words, at most a quarter of a block.
    pub fn has_room<A: Allocator>(&self, table: &[Option<Block<A>>], size: usize) -> bool
        requires { IsSmallIn self.now table.now size }
        ensures { (words : ℕ) → IsNursery words self.now table.now
            → (IsTrue result ↔ IsSome (room_after words (nursery_room self.now table.now) size)) }
    {
        self.block_for(table, size).is_some()
    }

    /// Puts a new object of so many nil pointers and zero words at the end of one of the blocks. Where there is no room
    /// nothing changes.
    pub fn alloc<A: Allocator>(
        &mut self,
        table: &mut [Option<Block<A>>],
        pointers: u32,
        plain_words: u32,
    ) -> Result<Place, NurseryFull>
        requires { IsSmallIn self.old table.old (1 + pointers + plain_words) }
        ensures ok { (words : ℕ) → IsNursery words self.old table.old
            → IfOk result (λ place. Pushes words self.old table.old pointers plain_words
            (place_word place) self.new table.new) }
        ensures full { (words : ℕ) → IsNursery words self.old table.old
            → (IsErr result ↔ (room_after words (nursery_room self.old table.old) (1 + pointers + plain_words) ≡
            None)) }
        ensures err { OnErr result ((self.new ≡ self.old) × (table.new ≡ table.old)) }
    {
        let size = 1 + pointers as usize + plain_words as usize;
        let Some(current) = self.block_for(table, size) else {
            return Err(NurseryFull);
        };
        let number = self.first + current;
        let offset = push_new(table, number, pointers, plain_words);
        self.current = current;
        Ok(Place::small(number as u16, offset as u16))
    }

    /// Back to the first block.
    pub fn reset(&mut self)
        ensures { self.new ≡ record self.old { current = 0 } }
    {
        self.current = 0;
    }
}
