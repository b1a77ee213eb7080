//! Which numbers and blocks large objects get.
use crate::heaps::{assert_collected, census_of, free_count, heap_of};
use heap::{AllocateError, Heap, RootId};
use layout::Place;
use std::alloc::Global;
use std::process::Abort;
use std::test::Fail;

/// Makes large objects of ten words, one block each.
fn add_large(heap: &mut Heap<Global>, count: u32) -> Result<(), AllocateError> {
    for _object in 0..count {
        let _root = heap.allocate(0, 0, 9)?;
    }
    Ok(())
}

/// The place of a new one.
fn new_place(heap: &mut Heap<Global>) -> Result<Option<Place>, AllocateError> {
    let root = heap.allocate(0, 0, 9)?;
    Ok(heap.target(root))
}

/// Makes four large objects, of which the second and the third are gone after a collection.
fn leave_two_of_four(rt: &impl Abort, alloc: Global, heap: &mut Heap<Global>) -> Result<(), Fail> {
    add_large(heap, 4)?;
    heap.release(RootId { number: 1 })?;
    heap.release(RootId { number: 2 })?;
    assert_collected(rt, alloc, heap, (2, 2));
    Ok(())
}

/// Asserts that dead numbers were given up by rising number: the highest is the first to be used again.
fn assert_numbers(rt: &impl Abort, alloc: Global, heap: &mut Heap<Global>) -> Result<(), Fail> {
    leave_two_of_four(rt, alloc, heap)?;
    assert_eq!(rt; new_place(heap)?, Some(Place::large(2)));
    assert_eq!(rt; new_place(heap)?, Some(Place::large(1)));
    assert_eq!(rt; new_place(heap)?, Some(Place::large(4)));
    Ok(())
}

#[test]
fn the_highest_dead_number_is_the_first_again(rt: HostRuntime) -> Result<(), Fail> {
    let mut heap = heap_of(rt.alloc(), 16, 1, 20)?;
    assert_numbers(&rt, rt.alloc(), &mut heap)
}

const AFTER: &[u8] =
    b"gen 0 step 0: 0 objects 0 words\nlarge: 2 objects 20 words\nroots: 2\nremembered: 0\n";

/// Asserts that the blocks of two dead ones are free.
fn assert_blocks(rt: &impl Abort, alloc: Global, heap: &mut Heap<Global>) -> Result<(), Fail> {
    leave_two_of_four(rt, alloc, heap)?;
    assert_eq!(rt; census_of(alloc, heap)?.as_slice(), AFTER);
    assert_eq!(rt; free_count(alloc, heap)?, 17);
    Ok(())
}

#[test]
fn the_blocks_of_dead_large_objects_are_free(rt: HostRuntime) -> Result<(), Fail> {
    let mut heap = heap_of(rt.alloc(), 16, 1, 20)?;
    assert_blocks(&rt, rt.alloc(), &mut heap)
}

/// Makes so many, and gives up the root of each but the last.
fn add_last_of(heap: &mut Heap<Global>, count: u32) -> Result<(), Fail> {
    let mut last = heap.allocate(0, 0, 9)?;
    for _object in 1..count {
        let next = heap.allocate(0, 0, 9)?;
        heap.release(last)?;
        last = next;
    }
    Ok(())
}

/// Many collections of a heap in which one large number of 60,000 is in use.
#[test]
fn the_last_of_many_numbers_stays_in_use(rt: HostRuntime) -> Result<(), Fail> {
    let mut heap = heap_of(rt.alloc(), 16, 1, 65_535)?;
    add_last_of(&mut heap, 60_000)?;
    assert_collected(&rt, rt.alloc(), &mut heap, (1, 59_999));
    for _collection in 0..1_000 {
        assert_collected(&rt, rt.alloc(), &mut heap, (1, 0));
    }
    Ok(())
}
