//! Heaps with blocks of 16 words, and of each number that is a multiple of four from there to 512.
use crate::heaps::{add_objects, assert_collected, heap_of};
use heap::Heap;
use std::alloc::Global;
use std::process::Abort;
use std::test::Fail;

/// Asserts that an object of a quarter of a block's words, with its header, is small, that one of a word more is large, and that
/// both are kept.
fn assert_small_and_large(
    rt: &impl Abort,
    alloc: Global,
    heap: &mut Heap<Global>,
    quarter: u64,
) -> Result<(), Fail> {
    add_objects(heap, 1, 0, quarter.saturating_sub(1))?;
    assert_eq!(rt; heap.census().large_objects(), 0, "{quarter}");
    add_objects(heap, 1, 0, quarter)?;
    assert_eq!(rt; heap.census().large_objects(), 1, "{quarter}");
    assert_collected(rt, alloc, heap, (2, 0));
    Ok(())
}

/// The same of a new heap, whose blocks have four times as many words.
fn assert_in_new(rt: &impl Abort, alloc: Global, quarter: u64) -> Result<(), Fail> {
    let mut heap = heap_of(alloc, quarter.saturating_mul(4), 1, 6)?;
    assert_small_and_large(rt, alloc, &mut heap, quarter)
}

/// From 16 words to 512.
#[test]
fn each_fourth_number_of_words(rt: HostRuntime) -> Result<(), Fail> {
    for quarter in 4..129 {
        assert_in_new(&rt, rt.alloc(), quarter)?;
    }
    Ok(())
}
