//! The table of a heap's blocks, by number.
ghost use Rattle.std.specs.Prelude.{◌≡◌, ◌≢◌, ℕ, ◌+◌, ◌<◌, ◌≤◌, Some, None, length, IfSome, IfNone, slice_get, slice_set, slice_index_or};
ghost use Rattle.layout.specs.Object.{Raw};
ghost use Rattle.layout.specs.ObjectRef.{raw_of};
ghost use Rattle.block_pool.specs.BlockValue.{BlockValue, offset_of, with_pointer_word, with_plain_word};
ghost use Rattle.nursery.specs.Begins.{HasObjectAt};
ghost use Rattle.steps.specs.StepPairs.{step_pair};

use block_pool::Block;
use layout::ObjectRef;
use std::alloc::Allocator;
use steps::StepId;

/// Blocks by number, where there is one.
pub type Table<A> = Vec<Option<Block<A>>, A>;

/// The object that begins at an offset of a block.
pub fn block_object<A: Allocator>(
    table: &[Option<Block<A>>],
    number: usize,
    offset: usize,
) -> Option<ObjectRef<'_>>
    ensures some { IfSome result (λ object. (block : BlockValue) × (slice_index_or table.now number None ≡ Some block)
        × (object.header.ordinal < length block.objects)
        × (offset_of block.objects object.header.ordinal ≡ offset)
        × (slice_get block.objects object.header.ordinal ≡ Some (raw_of object))) }
    ensures none { IfNone result ((block : BlockValue) → slice_index_or table.now number None ≡ Some block
        → (k : ℕ) → k < length block.objects → offset_of block.objects k ≢ offset) }
{
    if number >= table.len() {
        return None;
    }
    match &table[number] {
        Some(block) => block.object_at(offset),
        None => None,
    }
}

/// The block with a number, where there is one.
#[inline(always)]
pub fn block_of<A: Allocator>(table: &[Option<Block<A>>], number: usize) -> &Block<A>
    requires { (block : BlockValue) × (slice_index_or table.now number None ≡ Some block) }
    ensures { slice_index_or table.now number None ≡ Some result.now }
{
    match &table[number] {
        Some(block) => block,
        None => unreachable!(),
    }
}

/// The object that begins at an offset of a block where one does.
#[inline]
pub fn object_from<A: Allocator>(
    table: &[Option<Block<A>>],
    number: usize,
    offset: usize,
) -> ObjectRef<'_>
    requires { HasObjectAt table.now number offset }
    ensures { (block : BlockValue) (k : ℕ) → slice_index_or table.now number None ≡ Some block
        → k < length block.objects → offset_of block.objects k ≡ offset
        → (result.header.ordinal ≡ k) × (slice_get block.objects k ≡ Some (raw_of result)) }
{
    match &table[number] {
        Some(block) => block.object_from(offset),
        None => unreachable!(),
    }
}

/// Changes pointer `i` of the object that begins at an offset of a block where one does.
#[inline]
pub fn set_pointer<A: Allocator>(
    table: &mut [Option<Block<A>>],
    number: usize,
    offset: usize,
    i: usize,
    word: u64,
)
    requires there { HasObjectAt table.old number offset }
    requires field { (block : BlockValue) (k : ℕ) (raw : Raw) → slice_index_or table.old number None ≡ Some block
        → k < length block.objects → offset_of block.objects k ≡ offset → slice_get block.objects k ≡ Some raw →
        i < length raw.pointers }
    ensures { (block : BlockValue) (k : ℕ) (raw : Raw) → slice_index_or table.old number None ≡ Some block
        → k < length block.objects → offset_of block.objects k ≡ offset → slice_get block.objects k ≡ Some raw
        → table.new ≡ slice_set table.old number
        (Some (record block { objects = slice_set block.objects k (with_pointer_word raw i word) })) }
{
    let slot = &mut table[number];
    match slot {
        Some(block) => block.set_pointer_from(offset, i, word),
        None => unreachable!(),
    }
}

/// Changes plain word `i` of the object that begins at an offset of a block where one does.
#[inline]
pub fn set_plain<A: Allocator>(
    table: &mut [Option<Block<A>>],
    number: usize,
    offset: usize,
    i: usize,
    word: u64,
)
    requires there { HasObjectAt table.old number offset }
    requires field { (block : BlockValue) (k : ℕ) (raw : Raw) → slice_index_or table.old number None ≡ Some block
        → k < length block.objects → offset_of block.objects k ≡ offset → slice_get block.objects k ≡ Some raw →
        i < length raw.plain }
    ensures { (block : BlockValue) (k : ℕ) (raw : Raw) → slice_index_or table.old number None ≡ Some block
        → k < length block.objects → offset_of block.objects k ≡ offset → slice_get block.objects k ≡ Some raw
        → table.new ≡ slice_set table.old number
        (Some (record block { objects = slice_set block.objects k (with_plain_word raw i word) })) }
{
    let slot = &mut table[number];
    match slot {
        Some(block) => block.set_plain_from(offset, i, word),
        None => unreachable!(),
    }
}

/// The generation and step of a block.
pub fn step_at<A: Allocator>(table: &[Option<Block<A>>], number: usize) -> StepId
    requires in_range { number < length table.now }
    ensures { (block : BlockValue) → slice_index_or table.now number None ≡ Some block →
        step_pair result ≡ (block.generation, block.step) }
{
    match &table[number] {
        Some(block) => StepId {
            generation: block.generation(),
            step: block.step(),
        },
        None => StepId {
            generation: 0,
            step: 0,
        },
    }
}
