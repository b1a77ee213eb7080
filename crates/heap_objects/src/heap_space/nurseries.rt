//! The nurseries of the mutators, whose blocks are the first of a table.
ghost use Rattle.std.specs.Prelude.{◌≡◌, ℕ, ◌*◌, ◌<◌, ◌≤◌, Some, None, length, map, IfOk, slice_index_or, slice_get};
ghost use Rattle.heap_objects.specs.Nursery.{empty_block, from_first};

use block_pool::Block;
use nursery::{Nursery, Table};
use std::alloc::{AllocError, Allocator};

/// So many empty blocks, numbered from 0.
pub(crate) fn nursery_table<A: Allocator + Clone>(
    alloc: A,
    count: usize,
    words: usize,
) -> Result<Table<A>, AllocError>
    requires few { count ≤ 1024 }
    requires words_from { 16 ≤ words }
    requires words_to { words ≤ 512 }
    ensures len { IfOk result (λ table. length table.items ≡ count) }
    ensures blocks { IfOk result (λ table. (n : ℕ) → n < count
        → slice_index_or table.items n None ≡ Some (empty_block n words)) }
{
    let mut table = Vec::with_capacity(alloc.clone()?, count)?;
    for number in 0..count {
        let mut block = Block::new(alloc.clone()?, words)?;
        block.label(number as u32, 0, 0);
        table.push(Some(block))?;
    }
    Ok(table)
}

/// A nursery of so many blocks for each mutator, one after the other.
pub(crate) fn nurseries_of<A: Allocator>(
    alloc: A,
    mutators: usize,
    blocks: usize,
) -> Result<Vec<Nursery, A>, AllocError>
    requires few { mutators ≤ 16 }
    requires some { 1 ≤ blocks }
    requires short { blocks ≤ 64 }
    ensures len { IfOk result (λ nurseries. length nurseries.items ≡ mutators) }
    ensures each { IfOk result (λ nurseries. (m : ℕ) → m < mutators
        → slice_get nurseries.items m ≡ Some (record { first = m * blocks; blocks = blocks; current = 0 })) }
{
    let mut nurseries = Vec::with_capacity(alloc, mutators)?;
    for mutator in 0..mutators {
        nurseries.push(Nursery::new(mutator * blocks, blocks))?;
    }
    Ok(nurseries)
}

/// Each nursery is filled from its first block on again.
pub(crate) fn reset_all(nurseries: &mut [Nursery])
    ensures { nurseries.new ≡ map from_first nurseries.old }
{
    for number in 0..nurseries.len() {
        nurseries[number].reset();
    }
}
