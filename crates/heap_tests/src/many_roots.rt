//! A heap in which many roots were made, and most of them given up; and the numbers of new roots.
use crate::heaps::{assert_collected, assert_marks, heap_of, marked_roots, release_others};
use heap::{Heap, RootId, Slot};
use std::alloc::{AllocError, Global};
use std::process::Abort;
use std::test::Fail;

/// How many roots are made.
const MADE: u64 = 3000;

/// The first root stays, and every 97th after it.
const APART: usize = 97;

/// The numbers of the roots from which a collection starts.
fn numbers_at_start(alloc: Global, heap: &Heap<Global>) -> Result<Vec<usize>, Fail> {
    let collection = heap.open_collection(alloc, 0)?;
    let mut numbers = Vec::new(alloc);
    for slot in collection.slots() {
        if let Slot::Root { root, target: _ } = slot {
            numbers.push(root.number)?;
        }
    }
    Ok(numbers)
}

/// The numbers of the roots that stay.
fn numbers_that_stay(alloc: Global, roots: &[RootId]) -> Result<Vec<usize>, AllocError> {
    let mut numbers = Vec::new(alloc);
    for at in 0..roots.len() {
        if at % APART == 0 {
            numbers.push(roots[at].number)?;
        }
    }
    Ok(numbers)
}

/// Asserts that a collection starts from the roots that stay, by rising number.
fn assert_start(
    rt: &impl Abort,
    alloc: Global,
    heap: &Heap<Global>,
    roots: &[RootId],
) -> Result<(), Fail> {
    let start = numbers_at_start(alloc, heap)?;
    let stay = numbers_that_stay(alloc, roots)?;
    assert_eq!(rt; start.as_slice(), stay.as_slice());
    Ok(())
}

/// Gives most roots up, collects, and asserts which there are before and after.
fn assert_roots(
    rt: &impl Abort,
    alloc: Global,
    heap: &mut Heap<Global>,
    roots: &[RootId],
) -> Result<(), Fail> {
    release_others(heap, roots, APART)?;
    assert_start(rt, alloc, heap, roots)?;
    assert_collected(rt, alloc, heap, (31, 2969));
    assert_marks(rt, heap, roots, APART);
    assert_start(rt, alloc, heap, roots)
}

/// The same of new roots.
fn assert_new_roots(rt: &impl Abort, alloc: Global, heap: &mut Heap<Global>) -> Result<(), Fail> {
    let roots = marked_roots(alloc, heap, MADE, 1)?;
    assert_roots(rt, alloc, heap, &roots)
}

#[test]
fn roots_that_stay_lead_where_they_led(rt: HostRuntime) -> Result<(), Fail> {
    let mut heap = heap_of(rt.alloc(), 512, 16, 40)?;
    assert_new_roots(&rt, rt.alloc(), &mut heap)
}

/// Makes roots numbered 0 to 5, of which the first one's object leads to itself.
fn six_roots(heap: &mut Heap<Global>) -> Result<RootId, Fail> {
    let first = heap.allocate(0, 1, 0)?;
    heap.store(first, 0, Some(first))?;
    for _root in 0..5 {
        let _loaded = heap.load(first, 0)?;
    }
    Ok(first)
}

/// Asserts that the root that is loaded from the first one's object has this number.
fn assert_loaded(
    rt: &impl Abort,
    heap: &mut Heap<Global>,
    first: RootId,
    number: usize,
) -> Result<(), Fail> {
    assert_eq!(rt; heap.load(first, 0)?, Some(RootId { number }));
    Ok(())
}

/// Asserts that the root of a new object has this number.
fn assert_allocated(rt: &impl Abort, heap: &mut Heap<Global>, number: usize) -> Result<(), Fail> {
    assert_eq!(rt; heap.allocate(0, 0, 0)?, RootId { number });
    Ok(())
}

/// Gives up four of six roots, and asserts that their numbers are given out again, the last one first, and then new ones.
fn assert_reused(rt: &impl Abort, heap: &mut Heap<Global>) -> Result<(), Fail> {
    let first = six_roots(heap)?;
    for number in [4, 1, 3, 2] {
        heap.release(RootId { number })?;
    }
    assert_loaded(rt, heap, first, 2)?;
    assert_allocated(rt, heap, 3)?;
    assert_loaded(rt, heap, first, 1)?;
    assert_allocated(rt, heap, 4)?;
    assert_loaded(rt, heap, first, 6)?;
    assert_allocated(rt, heap, 7)
}

#[test]
fn the_number_given_up_last_is_the_first_again(rt: HostRuntime) -> Result<(), Fail> {
    let mut heap = heap_of(rt.alloc(), 16, 1, 2)?;
    assert_reused(&rt, &mut heap)
}
