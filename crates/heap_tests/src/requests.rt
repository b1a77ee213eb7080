//! How many requests for memory a heap makes, and for how many bytes.
use crate::counting::{Counting, NONE, asked_with_lists, bare_objects, large_heap};
use crate::heaps::heap_of;
use heap::RootId;
use refusing::Refusing;
use std::alloc::Global;
use std::process::Abort;
use std::test::Fail;

/// Makes so many roots to what the first pointer of a root's object leads to.
fn load_often<'a>(heap: &mut Counting<'a>, root: RootId, count: u32) -> Result<(), Fail> {
    for _root in 0..count {
        let _loaded = heap.load(root, 0)?;
    }
    Ok(())
}

/// Asserts that 1,000 roots are made by no more than 40 requests: a list that doubles grows some ten times to 1,000 entries, and
/// their flags are 16 words.
fn assert_roots_double<'a>(
    rt: &impl Abort,
    refusing: &'a Refusing<Global>,
    heap: &mut Counting<'a>,
) -> Result<(), Fail> {
    let root = heap.allocate(0, 1, 0)?;
    heap.store(root, 0, Some(root))?;
    let before = refusing.asked();
    load_often(heap, root, 1_000)?;
    let asked = refusing.asked().saturating_sub(before);
    assert!(rt; asked <= 40, "{asked}");
    Ok(())
}

/// The same of a new heap.
fn assert_roots_of_new_double(rt: &impl Abort, refusing: &Refusing<Global>) -> Result<(), Fail> {
    let mut heap = heap_of(refusing, 16, 1, 2)?;
    assert_roots_double(rt, refusing, &mut heap)
}

#[test]
fn many_roots_take_few_requests(rt: HostRuntime) -> Result<(), Fail> {
    let refusing = Refusing::new(rt.alloc(), NONE);
    assert_roots_of_new_double(&rt, &refusing)?;
    assert_eq!(rt; refusing.asked(), refusing.returned());
    Ok(())
}

/// Makes so many large objects of a block each.
fn add_large<'a>(heap: &mut Counting<'a>, count: u32) -> Result<(), Fail> {
    for _object in 0..count {
        let _root = heap.allocate(0, 0, 300)?;
    }
    Ok(())
}

/// Asserts how many requests 200 large objects take. Each asks for two pieces of memory: its words, and the list of its blocks.
/// The table of large objects and the roots, which double, grow some eight times each, and of their flags there are four words
/// each: that is no more than 40 beside.
fn assert_two_for_each<'a>(
    rt: &impl Abort,
    refusing: &'a Refusing<Global>,
    heap: &mut Counting<'a>,
) -> Result<(), Fail> {
    let before = refusing.asked();
    add_large(heap, 200)?;
    let asked = refusing.asked().saturating_sub(before);
    assert!(rt; asked >= 400 && asked <= 440, "{asked}");
    Ok(())
}

/// The same of a new heap.
fn assert_two_for_each_of_new(rt: &impl Abort, refusing: &Refusing<Global>) -> Result<(), Fail> {
    let mut heap = large_heap(refusing, 1)?;
    assert_two_for_each(rt, refusing, &mut heap)
}

#[test]
fn a_large_object_takes_two_requests(rt: HostRuntime) -> Result<(), Fail> {
    let refusing = Refusing::new(rt.alloc(), NONE);
    assert_two_for_each_of_new(&rt, &refusing)?;
    assert_eq!(rt; refusing.asked(), refusing.returned());
    Ok(())
}

/// Asserts that a large object of 600 words, which take 4,800 bytes, holds no more than these and 4,096 for the list of its two
/// blocks, its entry in the table, its root and their flags. A list with room for all free blocks, of which there are 59,936,
/// would hold 239,744 more.
fn assert_bytes_of_large<'a>(
    rt: &impl Abort,
    refusing: &'a Refusing<Global>,
    heap: &mut Counting<'a>,
) -> Result<(), Fail> {
    let before = refusing.bytes_held();
    let _root = heap.allocate(0, 0, 600)?;
    let held = refusing.bytes_held().saturating_sub(before);
    assert!(rt; held >= 4_800 && held <= 4_800 + 4_096, "{held}");
    Ok(())
}

/// The same of a new heap.
fn assert_bytes_of_large_in_new(rt: &impl Abort, refusing: &Refusing<Global>) -> Result<(), Fail> {
    let mut heap = large_heap(refusing, 1)?;
    assert_bytes_of_large(rt, refusing, &mut heap)
}

#[test]
fn a_large_object_holds_its_words(rt: HostRuntime) -> Result<(), Fail> {
    let refusing = Refusing::new(rt.alloc(), NONE);
    assert_bytes_of_large_in_new(&rt, &refusing)?;
    assert_eq!(rt; refusing.asked(), refusing.returned());
    Ok(())
}

/// Asserts how many requests a collection of 3,200 objects takes that finds nothing spare. They fill 200 blocks of 16 words, each
/// of which is made by two requests. What is won, what is scanned, the roots and some other lists double, so each grows no more
/// than twelve times to 3,200 entries, and all of them less than 150 times. One that grew by no more than each block brings would
/// ask 200 times for itself alone.
fn assert_lists_double<'a>(
    rt: &impl Abort,
    alloc: Global,
    refusing: &'a Refusing<Global>,
    heap: &mut Counting<'a>,
) -> Result<(), Fail> {
    let _roots = bare_objects(alloc, refusing, heap, 3_200)?;
    drop(heap.take_spare());
    let asked = asked_with_lists(refusing, heap, 0)?;
    assert!(rt; asked >= 400 && asked <= 400 + 150, "{asked}");
    Ok(())
}

/// The same of a new heap.
fn assert_lists_of_new_double(
    rt: &impl Abort,
    alloc: Global,
    refusing: &Refusing<Global>,
) -> Result<(), Fail> {
    let mut heap = heap_of(refusing, 16, 64, 500)?;
    assert_lists_double(rt, alloc, refusing, &mut heap)
}

#[test]
fn many_objects_take_few_requests_beside_their_blocks(rt: HostRuntime) -> Result<(), Fail> {
    let refusing = Refusing::new(rt.alloc(), NONE);
    assert_lists_of_new_double(&rt, rt.alloc(), &refusing)?;
    assert_eq!(rt; refusing.asked(), refusing.returned());
    Ok(())
}

/// Asserts how many requests a collection of 2,000 large objects takes that finds nothing spare. What is won, what is scanned and
/// some other lists double, so each grows no more than eleven times to 2,000 entries, and all of them less than 100 times. One
/// that grew by no more than an object brings would ask 2,000 times for itself alone.
fn assert_large_lists_double<'a>(
    rt: &impl Abort,
    refusing: &'a Refusing<Global>,
    heap: &mut Counting<'a>,
) -> Result<(), Fail> {
    add_large(heap, 2_000)?;
    drop(heap.take_spare());
    let asked = asked_with_lists(refusing, heap, 0)?;
    assert!(rt; asked <= 100, "{asked}");
    Ok(())
}

/// The same of a new heap.
fn assert_large_lists_of_new_double(
    rt: &impl Abort,
    refusing: &Refusing<Global>,
) -> Result<(), Fail> {
    let mut heap = heap_of(refusing, 512, 1, 3_000)?;
    assert_large_lists_double(rt, refusing, &mut heap)
}

#[test]
fn many_large_objects_are_collected_by_few_requests(rt: HostRuntime) -> Result<(), Fail> {
    let refusing = Refusing::new(rt.alloc(), NONE);
    assert_large_lists_of_new_double(&rt, &refusing)?;
    assert_eq!(rt; refusing.asked(), refusing.returned());
    Ok(())
}
