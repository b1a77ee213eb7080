//! The heap that is collected: a tree of 200 objects in two generations, whose nodes lead to others across it too.
use crate::heaps::{add_tree, heap_of};
use crate::refused::trials::MANY;
use collector::collect_one;
use heap::{Heap, RootId, Sizes};
use refusing::Refusing;
use std::alloc::{Allocator, Global};
use std::test::Fail;

/// Blocks for the heap and for its collections.
pub(crate) const BLOCKS: u64 = 120;

/// How many objects of a generation are small. One is large beside these.
const SMALL: u32 = 99;

/// How many live objects a collection of the younger generation finds, or of both, and how many words the small ones have, five
/// each.
pub(crate) fn live_of(generation: u64) -> (u64, u64) {
    match generation {
        0 => (100, 495),
        _ => (200, 990),
    }
}

/// Sizes with so many blocks of 64 words, 12 of which are the nursery's.
fn sizes_of(blocks: u64) -> Sizes {
    Sizes {
        block_words: 64,
        blocks,
        mutators: 1,
        nursery_blocks: 12,
        generations: 2,
        steps: 1,
    }
}

/// A large object, which takes a block, and the top of a tree of 99 small ones, to which it leads. The large one has a root.
fn add_half<A: Allocator + Clone>(alloc: A, heap: &mut Heap<A>) -> Result<RootId, Fail> {
    let small = add_tree(alloc, heap, SMALL)?;
    let large = heap.allocate(0, 2, 40)?;
    heap.store(large, 0, Some(small))?;
    heap.release(small)?;
    Ok(large)
}

/// An old half, of which the large object alone has a root and is remembered, since it leads to a young half; and three dead ones.
fn add_both<A: Allocator + Clone>(alloc: A, heap: &mut Heap<A>) -> Result<RootId, Fail> {
    let old = add_half(alloc.clone()?, heap)?;
    let _report = collect_one(alloc.clone()?, heap, 0)?;
    let young = add_half(alloc, heap)?;
    heap.store(old, 1, Some(young))?;
    heap.store(young, 1, Some(old))?;
    heap.release(young)?;
    for _dead in 0..3 {
        let dead = heap.allocate(0, 1, 1)?;
        heap.release(dead)?;
    }
    Ok(old)
}

/// A heap of so many blocks with such a tree, and its root.
pub(crate) fn shared_tree<A: Allocator + Clone>(
    alloc: A,
    blocks: u64,
) -> Result<(Heap<A>, RootId), Fail> {
    let mut heap = heap_of(alloc.clone()?, sizes_of(blocks))?;
    let top = add_both(alloc, &mut heap)?;
    Ok((heap, top))
}

/// Makes the heap, and drops it.
fn make(refusing: &Refusing<Global>) -> Result<(), Fail> {
    let _heap = shared_tree(refusing, BLOCKS)?;
    Ok(())
}

/// How many requests the making of the heap takes.
pub(crate) fn requests_of_making(alloc: Global) -> Result<u64, Fail> {
    let refusing = Refusing::new(alloc, MANY);
    make(&refusing)?;
    Ok(refusing.asked())
}
