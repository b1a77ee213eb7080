//! Large objects by number.
ghost use Rattle.std.specs.Prelude.{◌≡◌, ◌+◌, ◌<◌, ◌≤◌, ◌↔◌, ◌||◌, ℕ, [], length, take, drop, Some, None, Err, MatchOption, IfOk, IfSome, OnOk, OnErr, is_some, count_by};
ghost use Rattle.std.specs.Option.{option_map};
ghost use Rattle.model.specs.Reached.{has};
ghost use Rattle.layout.specs.Header.{size_of};
ghost use Rattle.layout.specs.ObjectRef.{raw_of};
ghost use Rattle.block_pool.specs.BlockValue.{with_pointer_word, with_plain_word};
ghost use Rattle.block_pool.specs.PoolValue.{PoolValue};
ghost use Rattle.large_objects.specs.LargeValue.{LargeObject, InUse, IsAdded, NoneFrom, IsFirstFrom, large_at, block_count, made, with_object, without_object};
ghost use Rattle.large_objects.specs.PoolBlocks.{ArePoolBlocks, blocks_at};

use crate::granting::{give_back_all, make_room, zeros};
use crate::stored::StoredObject;
use block_pool::{Flags, GrantError, Pool};
use layout::{LargeNumber, MOST_FIELDS, ObjectRef};
use slab::Slab;
use std::alloc::{AllocError, Allocator, Global};
use std::marker::Model;

/// Large objects by number. Each has blocks of its own, and never moves. The numbers in use are walked by their flags.
#[derive(Drop)]
pub struct LargeTable<A: Allocator = Global> {
    slab: Slab<StoredObject<A>, A>,
    used: Flags<A>,
}

impl<A: Allocator> Model for LargeTable<A> {
    ghost use Rattle.large_objects.specs.LargeValue.{LargeValue};
    ghost use Rattle.large_objects.specs.Stored.{AreNumbered};

    ghost Value = { LargeValue };

    ghost view = { λ t. record { slots = t.slab.slots; next = t.slab.vacant_key } };

    ghost invariant = { λ t. AreNumbered t.slab.slots t.used };
}

impl<A: Allocator + Clone> LargeTable<A> {
    /// No object. An error says that memory ran out.
    pub fn new(alloc: A) -> Result<Self, AllocError>
        ensures empty { IfOk result (λ table. table.slots ≡ []) }
        ensures pool_blocks { IfOk result (λ table. (pool : PoolValue) → ArePoolBlocks table pool) }
    {
        Ok(LargeTable {
            slab: Slab::new(alloc.clone()?),
            used: Flags::new(alloc),
        })
    }

    /// Makes an object of so many nil pointers and zero words, at generation 0 and step 0, and gives its number, which was not in
    /// use. The number that was given up last is the first to be used again. The object takes the free blocks with the lowest
    /// numbers: as many blocks of `block_words` words, from 16 to 512, as hold it with its header.
    /// `HeapFull` says that fewer blocks are free. `NoMemory` says that memory ran out, or that the number would not be below
    /// 65,535. At an error nothing changes.
    pub fn add<B: Allocator>(
        &mut self,
        alloc: A,
        pool: &mut Pool<B>,
        block_words: usize,
        pointers: u32,
        plain_words: u32,
    ) -> Result<LargeNumber, GrantError>
        requires pointers { pointers ≤ MOST_FIELDS }
        requires plain { plain_words ≤ MOST_FIELDS }
        requires words_from { 16 ≤ block_words }
        requires words_to { block_words ≤ 512 }
        requires blocks { ArePoolBlocks self.old pool.old }
        ensures number { IfOk result (λ of. of.number ≡ self.old.next) }
        ensures added { IfOk result
            (λ of. IsAdded self.old self.new of.number
            (made pointers plain_words
            (take (block_count (size_of pointers plain_words) block_words) pool.old.free))) }
        ensures granted { OnOk result
            (pool.new ≡ record pool.old {
              free = drop
                  (block_count (size_of pointers plain_words) block_words) pool.old.free;
            }) }
        ensures full { (result ≡ Err GrantError.HeapFull) ↔
            (length pool.old.free < block_count (size_of pointers plain_words) block_words) }
        ensures table_kept { OnErr result (self.new ≡ self.old) }
        ensures pool_kept { OnErr result (pool.new ≡ pool.old) }
        ensures pool_blocks { ArePoolBlocks self.new pool.new }
    {
        let fields = pointers as usize + plain_words as usize;
        let count = (fields + block_words) / block_words;
        if pool.free_count() < count {
            return Err(GrantError::HeapFull);
        }
        let Ok(number) = make_room(&mut self.slab, &mut self.used) else {
            return Err(GrantError::NoMemory);
        };
        let Ok(words) = zeros(&alloc, fields) else {
            return Err(GrantError::NoMemory);
        };
        let blocks = pool.grant(alloc, count)?;
        let key = self
            .slab
            .insert_reserved(StoredObject::new(pointers, words, blocks));
        self.used.set(key);
        Ok(number)
    }
}

impl<A: Allocator> LargeTable<A> {
    /// How many objects there are.
    pub fn len(&self) -> usize
        ensures count { result ≡ count_by is_some self.now.slots }
        ensures numbers { (n : ℕ) → InUse self.now n → n < 65535 }
    {
        self.slab.len()
    }

    /// The object with that number, where it lies. None says that the number is not in use.
    pub fn get(&self, number: LargeNumber) -> Option<ObjectRef<'_>>
        ensures raw { option_map raw_of result ≡ option_map (λ o. o.raw) (large_at self.now number.number) }
        ensures ordinal { IfSome result (λ object. object.header.ordinal ≡ 0) }
    {
        match self.slab.get(number.number as usize) {
            Some(object) => Some(object.show()),
            None => None,
        }
    }

    /// The generation and the step of the object with that number. None says that the number is not in use.
    pub fn step_of(&self, number: LargeNumber) -> Option<(u8, u8)>
        ensures { result ≡ option_map (λ o. (o.generation, o.step)) (large_at self.now number.number) }
    {
        match self.slab.get(number.number as usize) {
            Some(object) => Some(object.label()),
            None => None,
        }
    }

    /// The lowest number in use, from this one on. None says that there is none from there on.
    pub fn next_from(&self, from: usize) -> Option<LargeNumber>
        ensures { MatchOption result (NoneFrom self.now from) (λ of. IsFirstFrom self.now from of.number) }
    {
        match self.used.next(from) {
            Some(number) => Some(LargeNumber {
                number: number as u16,
            }),
            None => None,
        }
    }

    /// Changes pointer `i` of an object. It takes no memory.
    pub fn set_pointer(&mut self, number: LargeNumber, i: usize, word: u64)
        requires in_use { InUse self.old number.number }
        requires field { (object : LargeObject) → large_at self.old number.number ≡ Some object →
            i < length object.raw.pointers }
        ensures changed { (object : LargeObject) → large_at self.old number.number ≡ Some object
            → self.new ≡ with_object self.old number.number
            (record object { raw = with_pointer_word object.raw i word }) }
        ensures pool_blocks { (pool : PoolValue) → ArePoolBlocks self.old pool → ArePoolBlocks self.new pool }
    {
        let object = &mut self.slab[number.number as usize];
        object.set_pointer(i, word);
    }

    /// Changes plain word `i` of an object. It takes no memory.
    pub fn set_plain(&mut self, number: LargeNumber, i: usize, word: u64)
        requires in_use { InUse self.old number.number }
        requires field { (object : LargeObject) → large_at self.old number.number ≡ Some object →
            i < length object.raw.plain }
        ensures changed { (object : LargeObject) → large_at self.old number.number ≡ Some object
            → self.new ≡ with_object self.old number.number
            (record object { raw = with_plain_word object.raw i word }) }
        ensures pool_blocks { (pool : PoolValue) → ArePoolBlocks self.old pool → ArePoolBlocks self.new pool }
    {
        let object = &mut self.slab[number.number as usize];
        object.set_plain(i, word);
    }

    /// Changes all pointers of an object, in their order. It takes no memory.
    pub fn set_pointers(&mut self, number: LargeNumber, words: &[u64])
        requires in_use { InUse self.old number.number }
        requires as_many { (object : LargeObject) → large_at self.old number.number ≡ Some object →
            length words.now ≡ length object.raw.pointers }
        ensures changed { (object : LargeObject) → large_at self.old number.number ≡ Some object
            → self.new ≡ with_object self.old number.number
            (record object { raw = record object.raw { pointers = words.now } }) }
        ensures pool_blocks { (pool : PoolValue) → ArePoolBlocks self.old pool → ArePoolBlocks self.new pool }
    {
        let object = &mut self.slab[number.number as usize];
        object.set_pointers(words);
    }

    /// Gives an object another generation and step. Its words and blocks stay. It takes no memory.
    pub fn relabel(&mut self, number: LargeNumber, generation: u8, step: u8)
        requires { InUse self.old number.number }
        ensures changed { (object : LargeObject) → large_at self.old number.number ≡ Some object
            → self.new ≡ with_object self.old number.number (record object { generation = generation; step = step }) }
        ensures pool_blocks { (pool : PoolValue) → ArePoolBlocks self.old pool → ArePoolBlocks self.new pool }
    {
        let object = &mut self.slab[number.number as usize];
        object.relabel(generation, step);
    }

    /// Gives up an object: its number is the next to be used again, and its blocks are free. It takes no memory.
    pub fn remove<B: Allocator>(&mut self, pool: &mut Pool<B>, number: LargeNumber)
        requires in_use { InUse self.old number.number }
        requires blocks { ArePoolBlocks self.old pool.old }
        ensures removed { self.new ≡ without_object self.old number.number }
        ensures free { (n : ℕ) →
            has pool.new.free n ≡ (has (blocks_at self.old number.number) n || has pool.old.free n) }
        ensures limit { pool.new.limit ≡ pool.old.limit }
        ensures pool_blocks { ArePoolBlocks self.new pool.new }
    {
        let key = number.number as usize;
        let object = self.slab.remove(key);
        self.used.unset(key);
        give_back_all(pool, object.blocks());
    }
}
