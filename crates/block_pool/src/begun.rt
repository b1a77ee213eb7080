//! The objects of a block by the offset at which they begin: read and copied by their words, with no look at any other.
ghost use Rattle.std.specs.Prelude.{◌≡◌, ℕ, ◌+◌, ◌<◌, ◌≤◌, [], ◌∷◌, ◌++◌, length, slice_index};
ghost use Rattle.layout.specs.Object.{Raw, raw_size};
ghost use Rattle.block_pool.specs.BlockValue.{used_of, offset_of, BeginsAt};

use crate::block::Block;
use crate::words::{ORDINAL_UNIT, POINTER_UNIT, copy_object, size_at};
use std::alloc::Allocator;

impl<A: Allocator> Block<A> {
    /// How many pointers the object has that begins at an offset in words where one does. It reads the header alone.
    #[inline(always)]
    pub fn pointer_count_from(&self, offset: usize) -> usize
        requires { (raw : Raw) × BeginsAt self.now offset raw }
        ensures { (raw : Raw) → BeginsAt self.now offset raw → result ≡ length raw.pointers }
    {
        (self.words[offset] % POINTER_UNIT) as usize
    }

    /// How many words the object takes, its header among them, that begins at an offset in words where one does. It reads the
    /// header alone.
    #[inline(always)]
    pub fn size_from(&self, offset: usize) -> usize
        requires { (raw : Raw) × BeginsAt self.now offset raw }
        ensures { (raw : Raw) → BeginsAt self.now offset raw → result ≡ raw_size raw }
    {
        size_at(&self.words, offset)
    }

    /// The ordinal of the object that begins at an offset in words where one does. It reads the header alone.
    #[inline(always)]
    pub fn ordinal_from(&self, offset: usize) -> usize
        requires { (raw : Raw) × BeginsAt self.now offset raw }
        ensures { (k : ℕ) → k < length self.now.objects → offset_of self.now.objects k ≡ offset → result ≡ k }
    {
        (self.words[offset] / ORDINAL_UNIT) as usize
    }

    /// Pointer `i` of the object that begins at an offset in words where one does. It reads no other word.
    #[inline(always)]
    pub fn pointer_from(&self, offset: usize, i: usize) -> u64
        requires { (raw : Raw) × BeginsAt self.now offset raw × (i < length raw.pointers) }
        ensures { (raw : Raw) → BeginsAt self.now offset raw → result ≡ slice_index raw.pointers i }
    {
        self.words[offset + 1 + i]
    }

    /// Puts a copy of an object of another block at the end, which begins there at an offset in words and takes so many words,
    /// and returns its own offset.
    #[inline(always)]
    pub fn push_copy(&mut self, from: &Block<A>, offset: usize, size: usize) -> usize
        requires { (raw : Raw) × BeginsAt from.now offset raw × (size ≡ raw_size raw) ×
            (used_of self.old + raw_size raw ≤ self.old.words) }
        ensures offset { result ≡ used_of self.old }
        ensures in_block { result < 512 }
        ensures pushed { (raw : Raw) → BeginsAt from.now offset raw →
            self.new ≡ record self.old { objects = self.old.objects ++ raw ∷ [] } }
    {
        let at = self.used;
        let ordinal = self.len as u16;
        copy_object(&mut self.words, at, ordinal, &from.words, offset, size);
        self.offsets[self.len] = at as u16;
        self.len += 1;
        self.used += size;
        at
    }
}
