//! Heaps at a size at which real programs work: more objects, roots and blocks than a small table, or a number of 12 or 15 bits, tells.
use crate::heaps::{
    allocated, assert_collected, assert_marks, heap_of, marked_roots, release_others,
};
use heap::{AllocateError, Heap, RootId};
use std::alloc::Global;
use std::process::Abort;
use std::test::Fail;

/// Makes an even number of objects of so many words, collects them, gives up half of them, and collects again.
fn assert_kept(
    rt: &impl Abort,
    alloc: Global,
    heap: &mut Heap<Global>,
    count: u64,
    plain: u64,
) -> Result<(), Fail> {
    let roots = marked_roots(alloc, heap, count, plain)?;
    assert_collected(rt, alloc, heap, (count, 0));
    assert_marks(rt, heap, &roots, 1);
    release_others(heap, &roots, 2)?;
    assert_collected(rt, alloc, heap, (count / 2, count / 2));
    assert_marks(rt, heap, &roots, 2);
    Ok(())
}

/// There are more roots than a number of 16 bits tells.
#[test]
fn seventy_thousand_small_objects_with_roots(rt: HostRuntime) -> Result<(), Fail> {
    let mut heap = heap_of(rt.alloc(), 512, 64, 65_535)?;
    assert_kept(&rt, rt.alloc(), &mut heap, 70_000, 2)
}

/// Each takes a block of 16 words.
#[test]
fn sixty_thousand_large_objects(rt: HostRuntime) -> Result<(), Fail> {
    let mut heap = heap_of(rt.alloc(), 16, 1, 65_535)?;
    assert_kept(&rt, rt.alloc(), &mut heap, 60_000, 9)
}

/// A list of so many objects, whose first one has a root.
fn list_of(alloc: Global, heap: &mut Heap<Global>, count: u64) -> Result<RootId, Fail> {
    let mut first = allocated(alloc, heap, 1, 1)?;
    for mark in 1..count {
        let next = allocated(alloc, heap, 1, 1)?;
        heap.put(next, 0, mark)?;
        heap.store(next, 0, Some(first))?;
        heap.release(first)?;
        first = next;
    }
    Ok(first)
}

/// Asserts that the list has so many objects, each with its mark.
fn assert_list(
    rt: &impl Abort,
    heap: &mut Heap<Global>,
    first: RootId,
    count: u64,
) -> Result<(), Fail> {
    let mut at = first;
    for passed in 1..count {
        assert_eq!(rt; heap.get(at, 0), Ok(count - passed));
        let Some(next) = heap.load(at, 0)? else {
            return Err(Fail::from("the list is too short"));
        };
        heap.release(at)?;
        at = next;
    }
    assert_eq!(rt; heap.get(at, 0), Ok(0));
    assert!(rt; heap.load(at, 0)?.is_none());
    Ok(())
}

/// Makes a list, collects it twice, gives up all but its last object, and collects again.
fn assert_list_is_kept(
    rt: &impl Abort,
    alloc: Global,
    heap: &mut Heap<Global>,
) -> Result<(), Fail> {
    let first = list_of(alloc, heap, 100_000)?;
    assert_collected(rt, alloc, heap, (100_000, 0));
    assert_collected(rt, alloc, heap, (100_000, 0));
    assert_list(rt, heap, first, 100_000)?;
    assert_collected(rt, alloc, heap, (1, 99_999));
    Ok(())
}

#[test]
fn a_list_of_a_hundred_thousand(rt: HostRuntime) -> Result<(), Fail> {
    let mut heap = heap_of(rt.alloc(), 512, 64, 2000)?;
    assert_list_is_kept(&rt, rt.alloc(), &mut heap)
}

/// Makes large objects of a block each until no block is free, and tells how many there are.
fn fill(heap: &mut Heap<Global>) -> Result<u64, Fail> {
    for made in 0..65_536 {
        match heap.allocate(0, 0, 9) {
            Ok(_root) => {}
            Err(AllocateError::HeapFull) => return Ok(made),
            Err(error) => return Err(Fail::from(error)),
        }
    }
    Err(Fail::from("the heap has more blocks than it was given"))
}

/// Asserts that 65,534 blocks can be filled, and no more after a collection.
fn assert_filled(rt: &impl Abort, alloc: Global, heap: &mut Heap<Global>) -> Result<(), Fail> {
    assert_eq!(rt; fill(heap)?, 65_534);
    assert_collected(rt, alloc, heap, (65_534, 0));
    assert_eq!(rt; heap.allocate(0, 0, 9).err(), Some(AllocateError::HeapFull));
    Ok(())
}

/// One of the 65,535 blocks is the nursery's.
#[test]
fn every_block_can_be_used(rt: HostRuntime) -> Result<(), Fail> {
    let mut heap = heap_of(rt.alloc(), 16, 1, 65_535)?;
    assert_filled(&rt, rt.alloc(), &mut heap)
}
