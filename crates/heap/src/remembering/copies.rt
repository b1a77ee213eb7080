//! The copies that a collection brings: those that may have a pointer to a younger object.
ghost use Rattle.std.specs.Prelude.{◌≡◌, ℕ, ◌<◌, ◌≤◌, false, length, slice_index_or, IsTrue, OnOk, All};
ghost use Rattle.block_pool.specs.BlockValue.{BlockValue};
ghost use Rattle.steps.specs.BlockObjects.{block_objects, copies_of};
ghost use Rattle.heap.specs.Growth.{AreGrown};
ghost use Rattle.heap.specs.Lowest.{AreLowest, lowest_in};
ghost use Rattle.heap.specs.Noted.{AreFrom, AreNoted, IsNotedAt};

use crate::remembering::lowest::{lowest_by_block, may_lead_younger};
use block_pool::Block;
use layout::Place;
use remembered_set::Remembered;
use std::alloc::{AllocError, Allocator};

/// The lowest generation of the blocks, and `most` where that is lower: none of the copies is younger.
pub(crate) fn youngest_of_copies<A: Allocator>(blocks: &[Block<A>], most: usize) -> usize
    ensures most { result ≤ most }
    ensures copies { AreFrom result (copies_of blocks.now) }
    ensures greatest { (bound : ℕ) → bound ≤ most → All (λ b. bound ≤ b.generation) blocks.now → bound ≤ result }
{
    let mut youngest = most;
    for block in blocks {
        youngest = youngest.min(block.generation() as usize);
    }
    youngest
}

/// Notes the `k`-th object of a block, where it has a pointer that may lead to a younger object.
fn note_object<A: Allocator + Clone>(
    sets: &mut Remembered<A>,
    lowest: &[u8],
    block: &Block<A>,
    k: usize,
) -> Result<(), AllocError>
    requires in_block { k < length block.now.objects }
    requires generation { block.now.generation < length sets.old }
    ensures grown { AreGrown sets.old sets.new }
    ensures noted { (youngest : ℕ) → OnOk result (IsNotedAt (lowest_in lowest.now) youngest sets.new block.now k) }
{
    let generation = block.generation();
    let object = block.object(k);
    if may_lead_younger(object.pointers, lowest, generation) {
        let place = Place::small(block.number() as u16, block.offset(k) as u16);
        return sets.note(generation as usize, place);
    }
    Ok(())
}

/// Notes the objects of a block that have a pointer which may lead to a younger object, where they are older than the
/// youngest generation.
fn note_block<A: Allocator + Clone>(
    sets: &mut Remembered<A>,
    lowest: &[u8],
    youngest: usize,
    block: &Block<A>,
) -> Result<(), AllocError>
    ensures grown { AreGrown sets.old sets.new }
    ensures noted { OnOk result
        (AreNoted (lowest_in lowest.now) youngest sets.new (block_objects block.now.number block.now)) }
{
    let generation = block.generation() as usize;
    if generation <= youngest {
        return Ok(());
    }
    if generation >= sets.generations() {
        return Ok(());
    }
    for k in 0..block.len() {
        note_object(sets, lowest, block, k)?;
    }
    Ok(())
}

/// Whether some block is older than the youngest generation.
fn has_older<A: Allocator>(blocks: &[Block<A>], youngest: usize) -> bool
    ensures none { result ≡ false → All (λ b. b.generation ≤ youngest) blocks.now }
    ensures some { IsTrue result → (k : ℕ) × (k < length blocks.now)
        × ((block : BlockValue) → youngest < (slice_index_or blocks.now k block).generation) }
{
    for block in blocks {
        if block.generation() as usize > youngest {
            return true;
        }
    }
    false
}

/// Notes the copies in the blocks that have a pointer which may lead to a younger object, where they are older than the
/// youngest generation. At an error some may be noted.
pub(crate) fn note_copies<A: Allocator + Clone>(
    alloc: A,
    sets: &mut Remembered<A>,
    youngest: usize,
    blocks: &[Block<A>],
) -> Result<(), AllocError>
    ensures grown { AreGrown sets.old sets.new }
    ensures noted { OnOk result ((lowest : ℕ → ℕ) × AreLowest lowest (copies_of blocks.now)
        × AreNoted lowest youngest sets.new (copies_of blocks.now)) }
{
    if !has_older(blocks, youngest) {
        return Ok(());
    }
    let lowest = lowest_by_block(alloc, blocks)?;
    for i in 0..blocks.len() {
        note_block(sets, &lowest, youngest, &blocks[i])?;
    }
    Ok(())
}
