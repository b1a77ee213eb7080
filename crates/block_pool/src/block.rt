//! A block of words that holds objects one after the other.
ghost use Rattle.std.specs.Prelude.{◌≡◌, ◌≢◌, ℕ, ◌+◌, ◌<◌, ◌≤◌, ◌↔◌, [], ◌∷◌, ◌++◌, length, Some, None, IsTrue, IsSomeAnd, IfOk, IfSome, slice_get, slice_index, slice_set};
ghost use Rattle.layout.specs.Object.{Raw, raw_size};
ghost use Rattle.layout.specs.Header.{size_of};
ghost use Rattle.layout.specs.ObjectRef.{raw_of};
ghost use Rattle.block_pool.specs.BlockValue.{BlockValue, used_of, offset_of, without_last, new_object, empty_block, with_pointer_word, with_plain_word};

use crate::words::{ORDINAL_UNIT, POINTER_UNIT, read_object, write_new, write_object};
use boxcar::tag::{Names, Tag};
use layout::ObjectRef;
use std::alloc::{AllocError, Allocator, Global};
use std::marker::Model;

/// A block of words that holds objects one after the other, from its first word on.
#[derive(Drop)]
pub struct Block<A: Allocator = Global> {
    pub(crate) words: Vec<u64, A>,
    pub(crate) offsets: Vec<u16, A>,
    pub(crate) len: usize,
    // Between the two that a copy changes, so that these stay in registers of their own.
    front: usize,
    pub(crate) used: usize,
    pub(crate) label: Label,
    sent: Option<(u32, u64)>,
    origins: Tag,
}

/// What a block is called, where it belongs, and its rank in memory.
#[derive(Clone, Copy)]
pub(crate) struct Label {
    number: u32,
    generation: u8,
    step: u8,
    // One more than the number that the block had first, and 0 until it has one.
    pub(crate) rank: u16,
}

/// The origins that a block has, and the next one.
struct Noted;

impl Names<(&Tag, u64)> for Noted {
    ghost numbers = { λ p. p.0.now.numbers ++ p.1 ∷ [] };
}

impl<A: Allocator> Model for Block<A> {
    ghost use Rattle.std.specs.Prelude.{length, map, take};
    ghost use Rattle.block_pool.specs.BlockValue.{BlockValue, block_code};

    ghost Value = { BlockValue };

    ghost coded = { block_code };

    ghost use Rattle.block_pool.specs.Words.{raw_at, IsSoundBlock};

    ghost view = { λ b. record {
      number = b.label.number;
      generation = b.label.generation;
      step = b.label.step;
      words = length b.words.items;
      objects = map (raw_at b.words.items) (take b.len b.offsets.items);
      front = b.front;
      sent = b.sent;
      origins = b.origins.numbers;
    } };

    ghost invariant = { λ b. IsSoundBlock b.words.items b.offsets.items b.len b.used b.front b.label.number };
}

/// The rank of a block that gets a number: that of its first number.
fn rank_after(rank: u16, number: u32) -> u16
    requires { number < 65535 }
    ensures first { rank ≡ 0 → result ≡ number + 1 }
    ensures kept { rank ≢ 0 → result ≡ rank }
{
    if rank == 0 {
        return number as u16 + 1;
    }
    rank
}

impl<A: Allocator + Clone> Block<A> {
    /// An empty block of so many words, with room for all its objects.
    /// An error says that memory ran out.
    pub fn new(alloc: A, words: usize) -> Result<Self, AllocError>
        requires words_from { 16 ≤ words }
        requires words_to { words ≤ 512 }
        ensures { IfOk result (λ block. block ≡ empty_block words) }
    {
        let offsets = vec![in alloc.clone()?; 0; words]?;
        let words = vec![in alloc; 0; words]?;
        Ok(Block {
            words,
            offsets,
            len: 0,
            front: 0,
            used: 0,
            label: Label {
                number: 0,
                generation: 0,
                step: 0,
                rank: 0,
            },
            sent: None,
            origins: Tag::empty(),
        })
    }
}

impl<A: Allocator> Block<A> {
    /// Gives the block a number, and the generation and the step that it belongs to.
    pub fn label(&mut self, number: u32, generation: u8, step: u8)
        requires { number < 65535 }
        ensures { self.new ≡ record self.old { number = number; generation = generation; step = step } }
    {
        let rank = rank_after(self.label.rank, number);
        self.label = Label {
            number,
            generation,
            step,
            rank,
        };
    }

    /// Takes out all objects.
    pub fn clear(&mut self)
        ensures { self.new ≡ record self.old { objects = []; front = 0; sent = None; origins = [] } }
    {
        self.len = 0;
        self.used = 0;
        self.front = 0;
        self.sent = None;
        self.origins = Tag::empty();
    }

    /// Whether an object of `size` words fits at the end.
    pub fn fits(&self, size: usize) -> bool
        ensures { IsTrue result ↔ (used_of self.now + size ≤ self.now.words) }
    {
        size <= self.words.len() - self.used
    }

    /// Puts a copy of an object at the end, and returns its offset in words.
    pub fn push_object(&mut self, object: ObjectRef<'_>) -> usize
        requires { used_of self.old + raw_size (raw_of object) ≤ self.old.words }
        ensures offset { result ≡ used_of self.old }
        ensures in_block { result < 512 }
        ensures pushed { self.new ≡ record self.old { objects = self.old.objects ++ raw_of object.entry ∷ [] } }
    {
        let offset = self.used;
        let size = object.size() as usize;
        write_object(&mut self.words, offset, self.len as u16, object);
        self.offsets[self.len] = offset as u16;
        self.len += 1;
        self.used += size;
        offset
    }

    /// Puts an object with so many nil pointers and zero words at the end, and returns its offset in words.
    pub fn push_new(&mut self, pointers: u32, plain_words: u32) -> usize
        requires { used_of self.old + size_of pointers plain_words ≤ self.old.words }
        ensures offset { result ≡ used_of self.old }
        ensures in_block { result < 512 }
        ensures pushed { self.new ≡
            record self.old { objects = self.old.objects ++ new_object pointers plain_words ∷ [] } }
    {
        let offset = self.used;
        write_new(
            &mut self.words,
            offset,
            self.len as u16,
            pointers,
            plain_words,
        );
        self.offsets[self.len] = offset as u16;
        self.len += 1;
        self.used += 1 + pointers as usize + plain_words as usize;
        offset
    }

    /// Takes out the last object, which is not scanned.
    pub fn take_back_last(&mut self)
        requires { self.old.front < length self.old.objects }
        ensures { self.new ≡ record self.old { objects = without_last self.old.objects } }
    {
        self.len -= 1;
        self.used = self.offsets[self.len] as usize;
    }

    /// The object with the ordinal `k`.
    pub fn object(&self, k: usize) -> ObjectRef<'_>
        requires { k < length self.now.objects }
        ensures object { slice_get self.now.objects k ≡ Some (raw_of result) }
        ensures ordinal { result.header.ordinal ≡ k }
    {
        read_object(&self.words, self.offsets[k] as usize)
    }

    /// The object that begins at an offset in words. `None` says that none begins there.
    pub fn object_at(&self, offset: usize) -> Option<ObjectRef<'_>>
        ensures some { (k : ℕ) → k < length self.now.objects → offset_of self.now.objects k ≡ offset →
            IsSomeAnd result (λ object.
            (object.header.ordinal ≡ k) ×
            (slice_get self.now.objects k ≡ Some (raw_of object))) }
        ensures begins { IfSome result (λ object.
            (object.header.ordinal < length self.now.objects) ×
            (offset_of self.now.objects object.header.ordinal ≡ offset)) }
    {
        if offset >= self.words.len() {
            return None;
        }
        let ordinal = (self.words[offset] / ORDINAL_UNIT) as usize;
        if ordinal < self.len && self.offsets[ordinal] as usize == offset {
            Some(self.object(ordinal))
        } else {
            None
        }
    }

    /// The object that begins at an offset in words where one does. It reads the header, and looks for no other word.
    #[inline]
    pub fn object_from(&self, offset: usize) -> ObjectRef<'_>
        requires { (k : ℕ) × (k < length self.now.objects) × (offset_of self.now.objects k ≡ offset) }
        ensures { (k : ℕ) → k < length self.now.objects → offset_of self.now.objects k ≡ offset →
            (result.header.ordinal ≡ k) × (slice_get self.now.objects k ≡ Some (raw_of result)) }
    {
        read_object(&self.words, offset)
    }

    /// How many pointers the object with the ordinal `k` has.
    pub fn pointer_count(&self, k: usize) -> usize
        requires { k < length self.now.objects }
        ensures { (raw : Raw) → slice_get self.now.objects k ≡ Some raw → result ≡ length raw.pointers }
    {
        let offset = self.offsets[k] as usize;
        (self.words[offset] % POINTER_UNIT) as usize
    }

    /// Pointer `i` of the object with the ordinal `k`.
    pub fn pointer(&self, k: usize, i: usize) -> u64
        requires object { k < length self.now.objects }
        requires field { (raw : Raw) → slice_get self.now.objects k ≡ Some raw → i < length raw.pointers }
        ensures { (raw : Raw) → slice_get self.now.objects k ≡ Some raw → result ≡ slice_index raw.pointers i }
    {
        let offset = self.offsets[k] as usize;
        self.words[offset + 1 + i]
    }

    /// Changes pointer `i` of the object with the ordinal `k`.
    pub fn set_pointer(&mut self, k: usize, i: usize, word: u64)
        requires object { k < length self.old.objects }
        requires field { (raw : Raw) → slice_get self.old.objects k ≡ Some raw → i < length raw.pointers }
        ensures { (raw : Raw) → slice_get self.old.objects k ≡ Some raw
            → self.new ≡ record self.old { objects = slice_set self.old.objects k (with_pointer_word raw i word) } }
    {
        let offset = self.offsets[k] as usize;
        self.words[offset + 1 + i] = word;
    }

    /// Changes plain word `i` of the object with the ordinal `k`.
    pub fn set_plain(&mut self, k: usize, i: usize, word: u64)
        requires object { k < length self.old.objects }
        requires field { (raw : Raw) → slice_get self.old.objects k ≡ Some raw → i < length raw.plain }
        ensures { (raw : Raw) → slice_get self.old.objects k ≡ Some raw
            → self.new ≡ record self.old { objects = slice_set self.old.objects k (with_plain_word raw i word) } }
    {
        let offset = self.offsets[k] as usize;
        let pointers = (self.words[offset] % POINTER_UNIT) as usize;
        self.words[offset + 1 + pointers + i] = word;
    }

    /// Changes pointer `i` of the object that begins at an offset in words where one does. It looks for no other word.
    #[inline]
    pub fn set_pointer_from(&mut self, offset: usize, i: usize, word: u64)
        requires object { (k : ℕ) × (k < length self.old.objects) × (offset_of self.old.objects k ≡ offset) }
        requires field { (k : ℕ) (raw : Raw) → k < length self.old.objects → offset_of self.old.objects k ≡ offset
            → slice_get self.old.objects k ≡ Some raw → i < length raw.pointers }
        ensures { (k : ℕ) (raw : Raw) → k < length self.old.objects → offset_of self.old.objects k ≡ offset →
            slice_get self.old.objects k ≡ Some raw
            → self.new ≡ record self.old { objects = slice_set self.old.objects k (with_pointer_word raw i word) } }
    {
        let words = &mut self.words;
        words[offset + 1 + i] = word;
    }

    /// Changes plain word `i` of the object that begins at an offset in words where one does. It reads the header, and
    /// looks for no other word.
    #[inline]
    pub fn set_plain_from(&mut self, offset: usize, i: usize, word: u64)
        requires object { (k : ℕ) × (k < length self.old.objects) × (offset_of self.old.objects k ≡ offset) }
        requires field { (k : ℕ) (raw : Raw) → k < length self.old.objects → offset_of self.old.objects k ≡ offset
            → slice_get self.old.objects k ≡ Some raw → i < length raw.plain }
        ensures { (k : ℕ) (raw : Raw) → k < length self.old.objects → offset_of self.old.objects k ≡ offset →
            slice_get self.old.objects k ≡ Some raw
            → self.new ≡ record self.old { objects = slice_set self.old.objects k (with_plain_word raw i word) } }
    {
        let words = &mut self.words;
        let pointers = (words[offset] % POINTER_UNIT) as usize;
        words[offset + 1 + pointers + i] = word;
    }

    /// The offset in words of the object with the ordinal `k`.
    pub fn offset(&self, k: usize) -> usize
        requires { k < length self.now.objects }
        ensures value { result ≡ offset_of self.now.objects k }
        ensures in_block { result < 512 }
    {
        self.offsets[k] as usize
    }

    /// The block's number in its heap, by which places name it.
    pub fn number(&self) -> u32
        ensures value { result ≡ self.now.number }
        ensures in_range { result < 65535 }
    {
        self.label.number
    }

    /// The generation of the block's objects, 0 for the youngest.
    pub fn generation(&self) -> u8
        ensures { result ≡ self.now.generation }
    {
        self.label.generation
    }

    /// The step of the block's objects in their generation, 0 for the youngest.
    pub fn step(&self) -> u8
        ensures { result ≡ self.now.step }
    {
        self.label.step
    }

    /// How many words the block has.
    pub fn words(&self) -> usize
        ensures value { result ≡ self.now.words }
        ensures from { 16 ≤ result }
        ensures to { result ≤ 512 }
    {
        self.words.len()
    }

    /// How many objects the block holds.
    pub fn len(&self) -> usize
        ensures value { result ≡ length self.now.objects }
        ensures in_words { result ≤ self.now.words }
    {
        self.len
    }

    /// Whether the block holds no object.
    pub fn is_empty(&self) -> bool
        ensures { IsTrue result ↔ (self.now.objects ≡ []) }
    {
        self.len == 0
    }

    /// How many words the objects take.
    pub fn used(&self) -> usize
        ensures value { result ≡ used_of self.now }
        ensures in_words { result ≤ self.now.words }
    {
        self.used
    }

    /// How many objects, from the first on, are scanned.
    pub fn front(&self) -> usize
        ensures value { result ≡ self.now.front }
        ensures in_objects { result ≤ length self.now.objects }
    {
        self.front
    }

    /// Who exported the block, and the position among its exports.
    pub fn sent(&self) -> Option<(u32, u64)>
        ensures { result ≡ self.now.sent }
    {
        self.sent
    }

    /// Counts the first object that is not scanned as scanned.
    pub fn advance_front(&mut self)
        requires { self.old.front < length self.old.objects }
        ensures { self.new ≡ record self.old { front = self.old.front + 1 } }
    {
        self.front += 1;
    }

    /// Notes who exported the block, and the position among its exports.
    pub fn mark_exported(&mut self, exporter: u32, position: u64)
        ensures { self.new ≡ record self.old { sent = Some (exporter, position) } }
    {
        self.sent = Some((exporter, position));
    }

    /// Notes what the next of the objects is a copy of, from the first on: the word of the place of its original. This is
    /// remembered for contracts alone, and takes no bytes.
    pub fn note_origin(&mut self, origin: u64)
        ensures { self.new ≡ record self.old { origins = self.old.origins ++ origin ∷ [] } }
    {
        self.origins = Tag::of::<(&Tag, u64), Noted>(&(&self.origins, origin));
    }

    /// Puts back what `sent` answered before.
    pub fn restore_sent(&mut self, sent: Option<(u32, u64)>)
        ensures { self.new ≡ record self.old { sent = sent } }
    {
        self.sent = sent;
    }
}
