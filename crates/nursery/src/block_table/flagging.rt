//! How the numbers of blocks by generation follow the table of blocks.
ghost use Rattle.std.specs.Prelude.{◌≡◌, ℕ, ◌+◌, ◌<◌, ◌≤◌, ◌⊎◌, [], ◌∷◌, Some, false, length, map, nat_eq, ◌||◌, if◌then◌else◌, IfOk, All};
ghost use Rattle.std.specs.List.{IsDistinct};
ghost use Rattle.block_pool.specs.BlockValue.{BlockValue};
ghost use Rattle.model.specs.Reached.{has};
ghost use Rattle.nursery.specs.Areas.{holds_young, is_flagged, AreAreas, HasRoom};
ghost use Rattle.nursery.specs.Installed.{installed};
ghost use Rattle.nursery.specs.Table.{slot_at};

use crate::block_table::area_flags::AreaFlags;
use block_pool::Block;
use std::alloc::{AllocError, Allocator};

/// Puts in the number of the slot's block, where there is one that holds an object.
fn add_slot<A: Allocator>(areas: &mut AreaFlags<A>, slot: &Option<Block<A>>, number: usize)
    requires generation { (block : BlockValue) → slot.now ≡ Some block → block.generation < length areas.old }
    requires room { (len : ℕ) × HasRoom areas.old len × (number < len) }
    ensures flags { (g n : ℕ) → is_flagged areas.new g n
        ≡ (if nat_eq n number then holds_young g slot.now || is_flagged areas.old g n else is_flagged areas.old g n) }
    ensures room { (len : ℕ) → HasRoom areas.old len → HasRoom areas.new len }
    ensures generations { length areas.new ≡ length areas.old }
{
    if let Some(block) = slot {
        if !block.is_empty() {
            areas.add(block.generation() as usize, number);
        }
    }
}

/// The numbers of a table's blocks that hold objects, with room for those of all its blocks. An error says that memory ran out.
pub fn areas_of<A: Allocator + Clone>(
    alloc: A,
    table: &[Option<Block<A>>],
    generations: usize,
) -> Result<AreaFlags<A>, AllocError>
    requires some { 0 < generations }
    requires within { (n : ℕ) (block : BlockValue) → slot_at table.now n ≡ Some block → block.generation < generations }
    ensures areas { IfOk result (λ areas. AreAreas table.now areas) }
    ensures room { IfOk result (λ areas. HasRoom areas (length table.now)) }
    ensures generations { IfOk result (λ areas. length areas ≡ generations) }
{
    let mut areas = AreaFlags::new(alloc, generations)?;
    areas.reserve(table.len())?;
    for number in 0..table.len() {
        add_slot(&mut areas, &table[number], number);
    }
    Ok(areas)
}

/// Puts in the number of the block, where it holds an object.
fn add_block<A: Allocator>(areas: &mut AreaFlags<A>, block: &Block<A>)
    requires generation { (block.now.objects ≡ []) ⊎ (block.now.generation < length areas.old) }
    requires room { HasRoom areas.old (block.now.number + 1) }
    ensures flags { (g n : ℕ) → is_flagged areas.new g n
        ≡ (holds_young g (installed (block.now ∷ []) n) || is_flagged areas.old g n) }
    ensures room { (len : ℕ) → HasRoom areas.old len → HasRoom areas.new len }
    ensures generations { length areas.new ≡ length areas.old }
{
    if !block.is_empty() {
        areas.add(block.generation() as usize, block.number() as usize);
    }
}

/// Puts in the numbers of the blocks that hold some object.
pub fn add_blocks<A: Allocator>(areas: &mut AreaFlags<A>, blocks: &[Block<A>])
    requires generations { All (λ block. (block.objects ≡ []) ⊎ (block.generation < length areas.old)) blocks.now }
    requires room { All (λ block. HasRoom areas.old (block.number + 1)) blocks.now }
    requires once { IsDistinct nat_eq (map (λ block. block.number) blocks.now) }
    ensures flags { (g n : ℕ) → is_flagged areas.new g n
        ≡ (holds_young g (installed blocks.now n) || is_flagged areas.old g n) }
    ensures room { (len : ℕ) → HasRoom areas.old len → HasRoom areas.new len }
    ensures generations { length areas.new ≡ length areas.old }
{
    for block in blocks {
        add_block(areas, block);
    }
}

/// Takes out the numbers.
pub fn remove_blocks<A: Allocator>(areas: &mut AreaFlags<A>, numbers: &[u32])
    ensures flags { (g n : ℕ) → is_flagged areas.new g n
        ≡ (if has numbers.now n then false else is_flagged areas.old g n) }
    ensures room { (len : ℕ) → HasRoom areas.old len → HasRoom areas.new len }
    ensures generations { length areas.new ≡ length areas.old }
{
    for number in numbers {
        areas.remove(*number as usize);
    }
}
