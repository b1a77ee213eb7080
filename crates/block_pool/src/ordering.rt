//! Blocks in the order in which they were first given numbers.
ghost use Rattle.std.specs.Prelude.{◌≡◌, ◌≤◌, length, IsOk, IsPermutation, OnErr};

use crate::block::Block;
use std::alloc::{AllocError, Allocator};

/// Orders blocks by the number that each was given first, those without one before all others. Memory is mostly asked for
/// in that order, so neighbours are mostly neighbours in memory too, however often they got new numbers since. An error says
/// that memory ran out; they are in their order of before then. None comes where there is one block or none.
pub fn order_by_memory<A: Allocator, B: Allocator>(
    alloc: A,
    blocks: &mut [Block<B>],
) -> Result<(), AllocError>
    ensures permutation { IsPermutation blocks.old blocks.new }
    ensures err { OnErr result (blocks.new ≡ blocks.old) }
    ensures succeeds { length blocks.old ≤ 1 → IsOk result }
{
    blocks.sort_by_cached_key(alloc, |block| block.label.rank)
}
