//! Fields far into a large object: each way to collect finds what they lead to.
use crate::heaps::heap_of;
use crate::refused::trials::WAYS;
use crate::ways::{Answer, Way, collected};
use heap::{Heap, RootId, Sizes};
use std::alloc::AllocGlobal;
use std::process::Abort;
use std::sync::Wait;
use std::test::Fail;
use std::thread::Threads;

/// Two generations, and room for a large object of 70,000 fields.
const SIZES: Sizes = Sizes {
    block_words: 512,
    blocks: 200,
    mutators: 1,
    nursery_blocks: 1,
    generations: 2,
    steps: 1,
};

/// A field of the array leads to a new object with this mark, to which nothing else leads.
fn add_marked(heap: &mut Heap, array: RootId, field: u64, mark: u64) -> Result<(), Fail> {
    let object = heap.allocate(0, 0, 1)?;
    heap.put(object, 0, mark)?;
    heap.store(array, field, Some(object))?;
    heap.release(object)?;
    Ok(())
}

/// Asserts that a field of the array leads to an object with this mark.
fn assert_mark(
    rt: &impl Abort,
    heap: &mut Heap,
    array: RootId,
    field: u64,
    mark: u64,
) -> Result<(), Fail> {
    let Some(object) = heap.load(array, field)? else {
        return Err(Fail::from("a field is nil"));
    };
    assert_eq!(rt; heap.get(object, 0), Ok(mark));
    heap.release(object)?;
    Ok(())
}

/// Asserts that a collection keeps so many objects and frees none.
fn assert_keeps<R: Threads + Wait + Sync + AllocGlobal + Abort>(
    rt: &R,
    heap: &mut Heap,
    generation: u64,
    way: Way,
    kept: u64,
) -> Result<(), Fail> {
    let answer = collected(rt, rt.alloc(), heap, generation, way)?;
    assert_eq!(rt; answer, Answer::Counts(kept, 0), "{way:?}");
    Ok(())
}

/// Collects an array of 70,000 fields, whose last leads to an object, then one more that the old array leads to, and then all.
fn assert_far_fields<R: Threads + Wait + Sync + AllocGlobal + Abort>(
    rt: &R,
    heap: &mut Heap,
    way: Way,
) -> Result<(), Fail> {
    let array = heap.allocate(0, 70_000, 0)?;
    add_marked(heap, array, 69_999, 7)?;
    assert_keeps(rt, heap, 0, way, 2)?;
    add_marked(heap, array, 69_998, 8)?;
    assert_keeps(rt, heap, 0, way, 1)?;
    assert_mark(rt, heap, array, 69_998, 8)?;
    assert_mark(rt, heap, array, 69_999, 7)?;
    assert_keeps(rt, heap, 1, way, 3)?;
    assert_mark(rt, heap, array, 69_998, 8)?;
    assert_mark(rt, heap, array, 69_999, 7)
}

/// The same of a new heap.
fn assert_far_fields_by<R: Threads + Wait + Sync + AllocGlobal + Abort>(
    rt: &R,
    way: Way,
) -> Result<(), Fail> {
    let mut heap = heap_of(rt.alloc(), SIZES)?;
    assert_far_fields(rt, &mut heap, way)
}

#[test]
fn far_fields_lead_on(rt: HostRuntime) -> Result<(), Fail> {
    for way in WAYS {
        assert_far_fields_by(&rt, way)?;
    }
    Ok(())
}

/// Lets each field of the array lead to a new object with this mark, to which nothing else leads.
fn mark_all(heap: &mut Heap, array: RootId, mark: u64) -> Result<(), Fail> {
    let object = heap.allocate(0, 0, 1)?;
    heap.put(object, 0, mark)?;
    for field in 0..70_000 {
        heap.store(array, field, Some(object))?;
    }
    heap.release(object)?;
    Ok(())
}

/// Asserts that fields about 65,536, the first and the last lead to an object with this mark.
fn assert_marks(rt: &impl Abort, heap: &mut Heap, array: RootId, mark: u64) -> Result<(), Fail> {
    for field in [0, 65_535, 65_536, 69_999] {
        assert_mark(rt, heap, array, field, mark)?;
    }
    Ok(())
}

/// Collects an array all of whose fields lead to one object, and then the one that all of the old array's lead to.
fn assert_full_fields<R: Threads + Wait + Sync + AllocGlobal + Abort>(
    rt: &R,
    heap: &mut Heap,
    way: Way,
) -> Result<(), Fail> {
    let array = heap.allocate(0, 70_000, 0)?;
    mark_all(heap, array, 7)?;
    assert_keeps(rt, heap, 0, way, 2)?;
    assert_marks(rt, heap, array, 7)?;
    mark_all(heap, array, 8)?;
    assert_keeps(rt, heap, 0, way, 1)?;
    assert_marks(rt, heap, array, 8)?;
    let all = collected(rt, rt.alloc(), heap, 1, way)?;
    assert_eq!(rt; all, Answer::Counts(2, 1), "{way:?}");
    assert_marks(rt, heap, array, 8)
}

/// The same of a new heap.
fn assert_full_fields_by<R: Threads + Wait + Sync + AllocGlobal + Abort>(
    rt: &R,
    way: Way,
) -> Result<(), Fail> {
    let mut heap = heap_of(rt.alloc(), SIZES)?;
    assert_full_fields(rt, &mut heap, way)
}

#[test]
fn full_fields_lead_on(rt: HostRuntime) -> Result<(), Fail> {
    for way in WAYS {
        assert_full_fields_by(&rt, way)?;
    }
    Ok(())
}
