//! How a collection changes the table of blocks.
ghost use Rattle.std.specs.Prelude.{◌≡◌, ℕ, ◌+◌, ◌<◌, ◌≤◌, None, Some, slice_set, true, false, length, nat_eq, nat_le, nat_lt, map, slice_index_or, OnOk, max, All, ◌||◌, ◌&&◌, not, is_some, if◌then◌else◌};
ghost use Rattle.std.specs.List.{IsDistinct};
ghost use Rattle.model.specs.Reached.{has};
ghost use Rattle.nursery.specs.Table.{cleared, slot_at};
ghost use Rattle.nursery.specs.Installed.{installed};

use crate::block_table::table::Table;
use block_pool::{Block, Pool};
use std::alloc::{AllocError, Allocator};
use steps::Spare;

fn clear_slot<A: Allocator>(slot: &mut Option<Block<A>>)
    ensures { slot.new ≡ cleared slot.old }
{
    if let Some(block) = slot {
        block.clear();
    }
}

fn drop_block<A: Allocator>(table: &mut [Option<Block<A>>], number: usize, spare: &mut Spare<A>)
    requires { number < length table.old }
    ensures { table.new ≡ slice_set table.old number None }
{
    if let Some(block) = table[number].take() {
        spare.keep(block);
    }
}

fn put_block<A: Allocator>(table: &mut [Option<Block<A>>], block: Block<A>)
    requires { block.number < length table.old }
    ensures { table.new ≡ slice_set table.old block.number (Some block) }
{
    let number = block.number() as usize;
    table[number] = Some(block);
}

/// Empties a block of the area that is one of the first, and drops any other, which goes back to the pool.
fn give_up<A: Allocator>(
    table: &mut [Option<Block<A>>],
    pool: &mut Pool<A>,
    count: usize,
    number: u32,
    spare: &mut Spare<A>,
)
    requires in_table { number < length table.old }
    requires in_pool { count ≤ number → number < pool.old.limit }
    requires not_free { count ≤ number → has pool.old.free number ≡ false }
    ensures table { table.new ≡
        slice_set table.old number (if nat_lt number count then cleared (slot_at table.old number) else None) }
    ensures free { (n : ℕ) → has pool.new.free n ≡ ((nat_le count number && nat_eq n number) || has pool.old.free n) }
    ensures limit { pool.new.limit ≡ pool.old.limit }
{
    if (number as usize) < count {
        clear_slot(&mut table[number as usize]);
        return;
    }
    drop_block(table, number as usize, spare);
    pool.give_back(number);
}

/// Empties those of the area that are among the first blocks, and drops the others, which go back to the pool.
fn give_up_area<A: Allocator>(
    table: &mut [Option<Block<A>>],
    pool: &mut Pool<A>,
    count: usize,
    area: &[u32],
    spare: &mut Spare<A>,
)
    requires in_table { (n : ℕ) → has area.now n ≡ true → n < length table.old }
    requires in_pool { (n : ℕ) → has area.now n ≡ true → count ≤ n → n < pool.old.limit }
    requires not_free { (n : ℕ) → has area.now n ≡ true → count ≤ n → has pool.old.free n ≡ false }
    requires once { IsDistinct nat_eq area.now }
    ensures table { (n : ℕ) → slot_at table.new n
        ≡ (if has area.now n then
        (if nat_lt n count then cleared (slot_at table.old n) else None) else slot_at table.old n) }
    ensures free { (n : ℕ) → has pool.new.free n ≡ ((nat_le count n && has area.now n) || has pool.old.free n) }
    ensures limit { pool.new.limit ≡ pool.old.limit }
{
    for number in area {
        give_up(table, pool, count, *number, spare);
    }
}

/// One more than the highest number of the blocks.
pub fn end_of<A: Allocator>(blocks: &[Block<A>]) -> usize
    ensures above { All (λ block. block.number < result) blocks.now }
    ensures least { (limit : ℕ) → All (λ block. block.number < limit) blocks.now → result ≤ limit }
{
    let mut end = 0;
    for block in blocks {
        end = end.max(block.number() as usize + 1);
    }
    end
}

/// Makes the table at least so long. The blocks stay as they are.
pub fn grow<A: Allocator>(table: &mut Table<A>, len: usize) -> Result<(), AllocError>
    ensures same { (n : ℕ) → slice_index_or table.new.items n None ≡ slice_index_or table.old.items n None }
    ensures ok { OnOk result (len ≤ length table.new.items) }
    ensures no_shorter { length table.old.items ≤ length table.new.items }
    ensures no_longer { length table.new.items ≤ max len (length table.old.items) }
{
    while table.len() < len {
        table.push(None)?;
    }
    Ok(())
}

/// Puts the blocks that hold some object into the table, and drops the others.
fn install<A: Allocator>(
    table: &mut [Option<Block<A>>],
    pool: &mut Pool<A>,
    blocks: Vec<Block<A>, A>,
)
    requires in_table { All (λ block. block.number < length table.old) blocks.items }
    requires free { All (λ block. has pool.old.free block.number ≡ true) blocks.items }
    requires once { IsDistinct nat_eq (map (λ block. block.number) blocks.items) }
    ensures table { (n : ℕ) → slice_index_or table.new n None
        ≡ (if is_some (installed blocks.items n) then installed blocks.items n else slice_index_or table.old n None) }
    ensures free { (n : ℕ) → has pool.new.free n ≡ (has pool.old.free n && not (is_some (installed blocks.items n))) }
    ensures limit { pool.new.limit ≡ pool.old.limit }
{
    let mut blocks = blocks;
    while let Some(block) = blocks.pop() {
        if block.is_empty() {
            continue;
        }
        pool.take(block.number());
        put_block(table, block);
    }
}

/// Empties the blocks of the old area that are among the first, drops its others, and puts in the new ones. The memory of
/// the blocks that it drops is spare, as far as there is room.
pub fn exchange<A: Allocator>(
    table: &mut [Option<Block<A>>],
    pool: &mut Pool<A>,
    count: usize,
    old_area: &[u32],
    blocks: Vec<Block<A>, A>,
    spare: &mut Spare<A>,
)
    requires in_table { (n : ℕ) → has old_area.now n ≡ true → n < length table.old }
    requires in_pool { (n : ℕ) → has old_area.now n ≡ true → count ≤ n → n < pool.old.limit }
    requires not_free { (n : ℕ) → has old_area.now n ≡ true → count ≤ n → has pool.old.free n ≡ false }
    requires old_once { IsDistinct nat_eq old_area.now }
    requires blocks_in_table { All (λ block. block.number < length table.old) blocks.items }
    requires free { All (λ block. has pool.old.free block.number ≡ true) blocks.items }
    requires once { IsDistinct nat_eq (map (λ block. block.number) blocks.items) }
    ensures table { (n : ℕ) → slot_at table.new n
        ≡ (if is_some (installed blocks.items n) then installed blocks.items n
        else (if has old_area.now n then (if nat_lt n count then cleared (slot_at table.old n) else None)
        else slot_at table.old n)) }
    ensures free { (n : ℕ) → has pool.new.free n
        ≡ (((nat_le count n && has old_area.now n) || has pool.old.free n) && not
        (is_some (installed blocks.items n))) }
    ensures limit { pool.new.limit ≡ pool.old.limit }
{
    give_up_area(table, pool, count, old_area, spare);
    install(table, pool, blocks);
}
