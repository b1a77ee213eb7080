//! The blocks that a worker copies into.
ghost use Rattle.std.specs.Prelude.{◌≡◌, ◌+◌, ◌≤◌, ◌<◌, ◌++◌, ◌∷◌, [], true, Some, None, length, slice_get, slice_set, nat_lt, replicate, is_some, IfOk, IfSome, IsSome, IsSomeAnd, IsTrue, ◌↔◌, ◌⊎◌};
ghost use Rattle.std.specs.Option.{option_map};
ghost use Rattle.layout.specs.Object.{Raw, raw_size};
ghost use Rattle.layout.specs.ObjectRef.{raw_of};
ghost use Rattle.layout.specs.Place.{place_word, small_word, IsPointer};
ghost use Rattle.block_pool.specs.BlockValue.{BlockValue, BeginsAt, offset_of, used_of, with_pointer_word, without_last};
ghost use Rattle.workers.specs.Joined.{OnSome};
ghost use Rattle.scavenge.specs.Fronts.{slot_at, is_unscanned, raw_field, front_raw, front_field, fits_at};

use crate::to_space::fronts::{front_pointer, pass_front, place_behind, write_front};
use block_pool::Block;
use layout::{ObjectRef, Place};
use std::alloc::{AllocError, Allocator, Global};
use std::marker::Model;

/// The block that is copied into for each destination, where there is one.
#[derive(Drop)]
pub struct AllocationBlocks<A: Allocator = Global> {
    blocks: Vec<Option<Block<A>>, A>,
    /// The destination for which an object was pushed last.
    last: usize,
}

impl<A: Allocator> Model for AllocationBlocks<A> {
    ghost use Rattle.std.specs.Prelude.{List, Option};
    ghost use Rattle.block_pool.specs.BlockValue.{BlockValue};

    ghost Value = { List (Option BlockValue) };

    ghost view = { λ table. table.blocks.items };
}

#[inline(always)]
fn note<A: Allocator>(block: &mut Block<A>, origin: u64)
    requires { length block.old.origins < length block.old.objects }
    ensures { block.new ≡ record block.old { origins = block.old.origins ++ origin ∷ [] } }
{
    let _len = block.len();
    let _words = block.words();
    block.note_origin(origin);
}

#[inline(always)]
fn push<A: Allocator>(block: &mut Block<A>, object: ObjectRef<'_>) -> Place
    requires { used_of block.old + raw_size (raw_of object) ≤ block.old.words }
    ensures place { place_word result ≡ small_word block.old.number (used_of block.old) }
    ensures pushed { block.new ≡ record block.old { objects = block.old.objects ++ raw_of object.entry ∷ [] } }
{
    let number = block.number();
    let offset = block.push_object(object);
    Place::small(number as u16, offset as u16)
}

impl<A: Allocator> AllocationBlocks<A> {
    /// Blocks for so many destinations, none of which has one yet. An error says that memory ran out.
    pub fn new(alloc: A, count: usize) -> Result<Self, AllocError>
        ensures { IfOk result (λ table. table ≡ replicate count None) }
    {
        let mut blocks = Vec::with_capacity(alloc, count)?;
        for _ in 0..count {
            blocks.push_reserved(None);
        }
        Ok(AllocationBlocks { blocks, last: 0 })
    }

    /// How many destinations there are.
    pub fn len(&self) -> usize
        ensures { result ≡ length self.now }
    {
        self.blocks.len()
    }

    /// Puts a block into the place for a destination, and takes out what was there.
    pub fn replace(&mut self, d: usize, block: Block<A>) -> Option<Block<A>>
        requires { d < length self.old }
        ensures old { result ≡ slot_at self.old d }
        ensures table { self.new ≡ slice_set self.old d (Some block) }
    {
        let slot = &mut self.blocks[d];
        slot.replace(block)
    }

    /// Whether there is a block for a destination.
    pub fn has_block(&self, d: usize) -> bool
        ensures { IsTrue result ↔ IsSome (slot_at self.now d) }
    {
        match self.blocks.get(d) {
            Some(slot) => slot.is_some(),
            None => false,
        }
    }

    /// The destination for which an object was pushed last, or this one where no block is there for that.
    pub fn last_or(&self, other: usize) -> usize
        ensures { (result ≡ other) ⊎ IsSome (slot_at self.now result) }
    {
        if self.has_block(self.last) {
            return self.last;
        }
        other
    }

    /// Takes out the block for a destination.
    pub fn take(&mut self, d: usize) -> Option<Block<A>>
        requires { d < length self.old }
        ensures old { result ≡ slot_at self.old d }
        ensures table { self.new ≡ slice_set self.old d None }
    {
        let slot = &mut self.blocks[d];
        slot.take()
    }

    /// Pointer `i` of the first unscanned object of the block for a destination, where there is one.
    #[inline(always)]
    pub fn front_pointer(&self, d: usize, i: usize) -> Option<Option<Place>>
        requires { OnSome IsPointer (raw_field i (front_raw (slot_at self.now d))) }
        ensures { option_map (option_map place_word) result ≡ front_field i (slot_at self.now d) }
    {
        if d >= self.blocks.len() {
            return None;
        }
        match &self.blocks[d] {
            Some(block) => front_pointer(block, i),
            None => None,
        }
    }

    /// Writes pointer `i` of the first unscanned object of the block for a destination.
    #[inline(always)]
    pub fn write_front(&mut self, d: usize, i: usize, word: u64)
        ensures { (block : BlockValue) (raw : Raw) → slot_at self.old d ≡ Some block
            → slice_get block.objects block.front ≡ Some raw → i < length raw.pointers
            → self.new ≡ slice_set self.old d
            (Some (record block { objects = slice_set block.objects block.front (with_pointer_word raw i word) })) }
    {
        if d >= self.blocks.len() {
            return;
        }
        let slot = &mut self.blocks[d];
        match slot {
            Some(block) => write_front(block, i, word),
            None => {}
        }
    }

    /// Counts the first unscanned object of the block for a destination as scanned, and tells its place and whether
    /// another is unscanned.
    #[inline(always)]
    pub fn pass_front(&mut self, d: usize) -> (Place, bool)
        requires there { d < length self.old }
        requires some { IsSomeAnd (slot_at self.old d) (λ b. b.front < length b.objects) }
        ensures place { (block : BlockValue) → slot_at self.old d ≡ Some block →
            place_word result.0 ≡ small_word block.number (offset_of block.objects block.front) }
        ensures more { (block : BlockValue) → slot_at self.old d ≡ Some block →
            result.1 ≡ nat_lt (block.front + 1) (length block.objects) }
        ensures table { (block : BlockValue) → slot_at self.old d ≡ Some block →
            self.new ≡ slice_set self.old d (Some (record block { front = block.front + 1 })) }
    {
        let slot = &mut self.blocks[d];
        match slot {
            Some(block) => pass_front(block),
            None => unreachable!(),
        }
    }

    /// Whether the block for a destination has something unscanned.
    pub fn has_unscanned(&self, d: usize) -> bool
        ensures { result ≡ is_unscanned (slot_at self.now d) }
    {
        if d >= self.blocks.len() {
            return false;
        }
        match &self.blocks[d] {
            Some(block) => block.front() < block.len(),
            None => false,
        }
    }

    /// Whether an object of `size` words fits at the end of the block for a destination.
    #[inline(always)]
    pub fn fits(&self, d: usize, size: usize) -> bool
        ensures { IsTrue result ↔ (fits_at size (slot_at self.now d) ≡ true) }
    {
        if d >= self.blocks.len() {
            return false;
        }
        match &self.blocks[d] {
            Some(block) => block.fits(size),
            None => false,
        }
    }

    /// Puts a copy of an object at the end of the block for a destination, and tells its place.
    #[inline(always)]
    pub fn push(&mut self, d: usize, object: ObjectRef<'_>) -> Place
        requires { fits_at (raw_size (raw_of object)) (slot_at self.old d) ≡ true }
        ensures place { (block : BlockValue) → slot_at self.old d ≡ Some block →
            place_word result ≡ small_word block.number (used_of block) }
        ensures table { (block : BlockValue) → slot_at self.old d ≡ Some block
            → self.new ≡ slice_set self.old d
            (Some (record block { objects = block.objects ++ raw_of object.entry ∷ [] })) }
    {
        if d >= self.blocks.len() {
            unreachable!();
        }
        self.last = d;
        let slot = &mut self.blocks[d];
        match slot {
            Some(block) => push(block, object),
            None => unreachable!(),
        }
    }

    /// The place behind the last object of the block for a destination, where an object of `size` words fits there.
    #[inline(always)]
    pub fn place_for(&self, d: usize, size: usize) -> Option<Place>
        requires { 0 < size }
        ensures fits { is_some result ≡ fits_at size (slot_at self.now d) }
        ensures place { IfSome result (λ place. (block : BlockValue) → slot_at self.now d ≡ Some block →
            place_word place ≡ small_word block.number (used_of block)) }
    {
        if d >= self.blocks.len() {
            return None;
        }
        match &self.blocks[d] {
            Some(block) => {
                if !block.fits(size) {
                    return None;
                }
                Some(place_behind(block))
            }
            None => None,
        }
    }

    /// Puts a copy of an object of another block, which begins there at an offset in words and takes so many, at the end of the
    /// block for a destination, and notes, for contracts alone, what it is a copy of.
    #[inline(always)]
    pub fn push_from(&mut self, d: usize, from: &Block<A>, offset: usize, size: usize, origin: u64)
        requires fits { fits_at size (slot_at self.old d) ≡ true }
        requires object { (raw : Raw) × BeginsAt from.now offset raw × (size ≡ raw_size raw) }
        ensures { (block : BlockValue) (raw : Raw) → slot_at self.old d ≡ Some block → BeginsAt from.now offset raw →
            self.new ≡ slice_set self.old d (Some (record block
            { objects = block.objects ++ raw ∷ []; origins = block.origins ++ origin ∷ [] })) }
    {
        if d >= self.blocks.len() {
            unreachable!();
        }
        self.last = d;
        let slot = &mut self.blocks[d];
        match slot {
            Some(block) => {
                let _ = block.push_copy(from, offset, size);
                block.note_origin(origin);
            }
            None => unreachable!(),
        }
    }

    /// Takes back the last object of the block for a destination, which isn't scanned.
    pub fn take_back(&mut self, d: usize)
        requires there { d < length self.old }
        requires some { IsSomeAnd (slot_at self.old d) (λ b. b.front < length b.objects) }
        ensures { (block : BlockValue) → slot_at self.old d ≡ Some block →
            self.new ≡ slice_set self.old d (Some (record block { objects = without_last block.objects })) }
    {
        let slot = &mut self.blocks[d];
        match slot {
            Some(block) => block.take_back_last(),
            None => unreachable!(),
        }
    }

    /// Notes, for contracts alone, what the last object of the block for a destination is a copy of.
    #[inline(always)]
    pub fn note(&mut self, d: usize, origin: u64)
        requires { (block : BlockValue) → slot_at self.old d ≡ Some block →
            length block.origins < length block.objects }
        ensures { (block : BlockValue) → slot_at self.old d ≡ Some block
            → self.new ≡ slice_set self.old d (Some (record block { origins = block.origins ++ origin ∷ [] })) }
    {
        if d >= self.blocks.len() {
            return;
        }
        let slot = &mut self.blocks[d];
        match slot {
            Some(block) => note(block, origin),
            None => {}
        }
    }

    /// The blocks, by destination.
    pub fn into_blocks(self) -> Vec<Option<Block<A>>, A>
        ensures { result.items ≡ self }
    {
        let AllocationBlocks { blocks, last: _ } = self;
        blocks
    }
}
