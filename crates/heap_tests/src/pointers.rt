//! The fields of objects, and the order in which a collection copies what they lead to.
use crate::heaps::{assert_collected, heap_of};
use heap::{FieldError, Heap, LoadError, Report, RootId, StoreError, WorkerReport};
use layout::Place;
use one_worker::collect_one;
use std::alloc::Global;
use std::process::Abort;
use std::test::Fail;

/// A heap of blocks of 16 words.
fn small_heap(alloc: Global) -> Result<Heap<Global>, Fail> {
    heap_of(alloc, 16, 8, 40)
}

/// A new object of two pointers, marked by its plain word.
fn marked(heap: &mut Heap<Global>, mark: u64) -> Result<RootId, Fail> {
    let root = heap.allocate(0, 2, 1)?;
    heap.put(root, 0, mark)?;
    Ok(root)
}

/// Lets a field of `parent` lead to a new marked object, which leads to `top` and has no root.
fn add_child(
    heap: &mut Heap<Global>,
    top: RootId,
    parent: RootId,
    field: u64,
    mark: u64,
) -> Result<(), Fail> {
    let child = marked(heap, mark)?;
    heap.store(parent, field, Some(child))?;
    heap.store(child, 1, Some(top))?;
    Ok(heap.release(child)?)
}

/// A tree of seven objects, marked breadth first, of which `top` alone has a root, and a dead object.
fn add_tree(heap: &mut Heap<Global>) -> Result<RootId, Fail> {
    let top = marked(heap, 0)?;
    let left = marked(heap, 1)?;
    let right = marked(heap, 2)?;
    heap.store(top, 0, Some(left))?;
    heap.store(top, 1, Some(right))?;
    for (parent, field, mark) in [(left, 0, 3), (left, 1, 4), (right, 0, 5), (right, 1, 6)] {
        add_child(heap, top, parent, field, mark)?;
    }
    let dead = marked(heap, 100)?;
    for root in [dead, left, right] {
        heap.release(root)?;
    }
    Ok(top)
}

fn first_word(object: layout::ObjectRef<'_>) -> Option<u64> {
    object.words.first().copied()
}

/// The mark of the object at that place.
fn mark_at(heap: &Heap<Global>, place: Place) -> Option<u64> {
    first_word(heap.object(place)?)
}

/// Asserts that the worker scanned what it won, in that order, and that the marks there rise from 0.
fn assert_in_order(rt: &impl Abort, heap: &Heap<Global>, worker: &WorkerReport<Global>) {
    for (mark, scanned) in worker.scanned().iter().enumerate() {
        assert_eq!(rt; mark_at(heap, scanned.place()), Some(mark as u64));
        assert!(rt;
            worker
                .won()
                .get(mark)
                .is_some_and(|won| won.place == *scanned)
        );
    }
}

/// Asserts that the tree was copied breadth first, and that one object was freed.
fn assert_breadth_first(
    rt: &impl Abort,
    heap: &Heap<Global>,
    report: &Report<Global>,
) -> Result<(), Fail> {
    assert_eq!(rt; (report.kept, report.freed), (7, 1));
    let worker = report.workers.first().ok_or("no worker")?;
    assert_eq!(rt; (worker.won().len(), worker.scanned().len()), (7, 7));
    assert_in_order(rt, heap, worker);
    Ok(())
}

/// Collects a tree, and asserts what is told and left of it.
fn assert_tree_is_copied(
    rt: &impl Abort,
    alloc: Global,
    heap: &mut Heap<Global>,
) -> Result<(), Fail> {
    let top = add_tree(heap)?;
    let report = collect_one(alloc, heap, 0)?;
    assert_breadth_first(rt, heap, &report)?;
    assert_eq!(rt; heap.get(top, 0), Ok(0));
    Ok(())
}

#[test]
fn breadth_first(rt: HostRuntime) -> Result<(), Fail> {
    let mut heap = small_heap(rt.alloc())?;
    assert_tree_is_copied(&rt, rt.alloc(), &mut heap)
}

/// Adds the next object of a chain, which leads to it alone.
fn add_link(
    heap: &mut Heap<Global>,
    first: RootId,
    last: RootId,
    mark: u64,
) -> Result<RootId, Fail> {
    let next = marked(heap, mark)?;
    heap.store(last, 1, Some(next))?;
    if last != first {
        heap.release(last)?;
    }
    Ok(next)
}

/// A chain of 32 objects, of which the first alone has a root. The last leads back to it.
fn add_chain(heap: &mut Heap<Global>) -> Result<RootId, Fail> {
    let first = marked(heap, 0)?;
    let mut last = first;
    for mark in 1..32 {
        last = add_link(heap, first, last, mark)?;
    }
    heap.store(last, 0, Some(first))?;
    heap.release(last)?;
    Ok(first)
}

/// Collects a chain three times, cuts it behind its first object, and collects what is left.
fn assert_chain_is_kept(
    rt: &impl Abort,
    alloc: Global,
    heap: &mut Heap<Global>,
) -> Result<(), Fail> {
    let first = add_chain(heap)?;
    for _turn in 0..3 {
        assert_collected(rt, alloc, heap, (32, 0));
    }
    heap.store(first, 1, None)?;
    assert_collected(rt, alloc, heap, (1, 31));
    Ok(())
}

#[test]
fn a_chain_over_many_blocks(rt: HostRuntime) -> Result<(), Fail> {
    let mut heap = small_heap(rt.alloc())?;
    assert_chain_is_kept(&rt, rt.alloc(), &mut heap)
}

/// Asserts the faults of pointers, by a root and by one that was released.
fn assert_no_pointers(rt: &impl Abort, heap: &mut Heap<Global>, root: RootId, gone: RootId) {
    assert_eq!(rt; heap.store(root, 2, Some(gone)), Err(StoreError::BadField));
    assert_eq!(rt; heap.store(root, 1, Some(gone)), Err(StoreError::NoRoot));
    assert_eq!(rt; heap.store(gone, 2, Some(root)), Err(StoreError::NoRoot));
    assert_eq!(rt; heap.load(root, 2).err(), Some(LoadError::BadField));
    assert_eq!(rt; heap.load(gone, 0).err(), Some(LoadError::NoRoot));
}

/// Asserts the faults of plain words, by a root whose mark is 6 and by one that was released.
fn assert_no_words(rt: &impl Abort, heap: &mut Heap<Global>, root: RootId, gone: RootId) {
    assert_eq!(rt; heap.put(root, 1, 0), Err(FieldError::BadField));
    assert_eq!(rt; heap.put(gone, 0, 0), Err(FieldError::NoRoot));
    assert_eq!(rt; heap.get(root, 1), Err(FieldError::BadField));
    assert_eq!(rt; heap.get(gone, 0), Err(FieldError::NoRoot));
    assert_eq!(rt; heap.get(root, 0), Ok(6));
}

/// Two new objects, marked 6 and 7. The second one's root is released.
fn root_and_gone(heap: &mut Heap<Global>) -> Result<(RootId, RootId), Fail> {
    let root = marked(heap, 6)?;
    let gone = marked(heap, 7)?;
    heap.release(gone)?;
    Ok((root, gone))
}

/// Asserts the faults of both.
fn assert_no_fields(rt: &impl Abort, heap: &mut Heap<Global>) -> Result<(), Fail> {
    let (root, gone) = root_and_gone(heap)?;
    assert_no_pointers(rt, heap, root, gone);
    assert_no_words(rt, heap, root, gone);
    Ok(())
}

#[test]
fn refused_fields(rt: HostRuntime) -> Result<(), Fail> {
    let mut heap = small_heap(rt.alloc())?;
    assert_no_fields(&rt, &mut heap)
}

/// Two new objects, marked 8 and 9. Pointer 1 of the first leads to the second, whose root is released.
fn holder_of_nine(heap: &mut Heap<Global>) -> Result<RootId, Fail> {
    let holder = marked(heap, 8)?;
    let held = marked(heap, 9)?;
    heap.store(holder, 1, Some(held))?;
    heap.release(held)?;
    Ok(holder)
}

/// Loads the pointers of an object, of which the first is nil.
fn loaded(rt: &impl Abort, heap: &mut Heap<Global>, holder: RootId) -> Result<RootId, Fail> {
    assert_eq!(rt; heap.load(holder, 0)?, None);
    Ok(heap.load(holder, 1)?.ok_or("nil")?)
}

/// Asserts that what was loaded leads to the object of mark 9, after a collection too.
fn assert_nine(rt: &impl Abort, alloc: Global, heap: &mut Heap<Global>) -> Result<(), Fail> {
    let holder = holder_of_nine(heap)?;
    let root = loaded(rt, heap, holder)?;
    assert_eq!(rt; heap.get(root, 0), Ok(9));
    heap.release(holder)?;
    assert_collected(rt, alloc, heap, (1, 1));
    assert_eq!(rt; heap.get(root, 0), Ok(9));
    Ok(())
}

#[test]
fn a_pointer_is_loaded(rt: HostRuntime) -> Result<(), Fail> {
    let mut heap = small_heap(rt.alloc())?;
    assert_nine(&rt, rt.alloc(), &mut heap)
}
