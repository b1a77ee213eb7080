//! An object of 100,000 pointers, the most that one may have.
use crate::counting::{Counting, NONE, large_heap};
use crate::heaps::assert_collected;
use heap::RootId;
use one_worker::collect_one;
use refusing::Refusing;
use std::alloc::Global;
use std::process::Abort;
use std::test::Fail;

/// Lets a field of the array lead to a new object, which is marked by its plain word and has no root.
fn add_marked<'a>(
    heap: &mut Counting<'a>,
    array: RootId,
    field: u64,
    mark: u64,
) -> Result<(), Fail> {
    let root = heap.allocate(0, 0, 1)?;
    heap.put(root, 0, mark)?;
    heap.store(array, field, Some(root))?;
    Ok(heap.release(root)?)
}

/// Asserts that a field of the array leads to the object of that mark, which has a root then.
fn assert_leads<'a>(
    rt: &impl Abort,
    heap: &mut Counting<'a>,
    array: RootId,
    field: u64,
    mark: u64,
) -> Result<(), Fail> {
    let Some(root) = heap.load(array, field)? else {
        return Err(Fail::from("the field leads nowhere"));
    };
    assert_eq!(rt; heap.get(root, 0), Ok(mark));
    Ok(())
}

/// Collects both generations, and asserts that so many objects were kept, and none freed.
fn assert_all_kept<'a>(
    rt: &impl Abort,
    refusing: &'a Refusing<Global>,
    heap: &mut Counting<'a>,
    kept: u64,
) -> Result<(), Fail> {
    let report = collect_one(refusing, heap, 1)?;
    assert_eq!(rt; (report.kept, report.freed), (kept, 0));
    Ok(())
}

/// Asserts that the last field leads to an object that is collected with the array, and the one before it, once the array is old,
/// to a younger one, for which the array is remembered.
fn assert_last_fields<'a>(
    rt: &impl Abort,
    refusing: &'a Refusing<Global>,
    heap: &mut Counting<'a>,
) -> Result<(), Fail> {
    let array = heap.allocate(0, 100_000, 0)?;
    add_marked(heap, array, 99_999, 7)?;
    assert_collected(rt, refusing, heap, (2, 0));
    assert_eq!(rt; heap.census().remembered(), 0);
    add_marked(heap, array, 99_998, 8)?;
    assert_eq!(rt; heap.census().remembered(), 1);
    assert_collected(rt, refusing, heap, (1, 0));
    assert_leads(rt, heap, array, 99_999, 7)?;
    assert_leads(rt, heap, array, 99_998, 8)?;
    assert_all_kept(rt, refusing, heap, 3)
}

/// The same of a new heap.
fn assert_last_fields_in_new(rt: &impl Abort, refusing: &Refusing<Global>) -> Result<(), Fail> {
    let mut heap = large_heap(refusing, 1)?;
    assert_last_fields(rt, refusing, &mut heap)
}

#[test]
fn the_last_fields_of_many(rt: HostRuntime) -> Result<(), Fail> {
    let refusing = Refusing::new(rt.alloc(), NONE);
    assert_last_fields_in_new(&rt, &refusing)?;
    assert_eq!(rt; refusing.asked(), refusing.returned());
    Ok(())
}
