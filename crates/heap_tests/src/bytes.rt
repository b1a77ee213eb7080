//! The bytes of a small heap that may have many blocks.
use crate::counting::{Counting, NONE};
use crate::heaps::{add_objects, collected, heap_of};
use refusing::Refusing;
use std::alloc::Global;
use std::process::Abort;
use std::test::Fail;

/// Collects twice, gives back what is spare, and asserts that ten objects of four words have no more bytes than before but for their
/// blocks and what tells which these are: a place for each number of a block would take megabytes.
fn assert_few_bytes<'a>(
    rt: &impl Abort,
    refusing: &'a Refusing<Global>,
    heap: &mut Counting<'a>,
) -> Result<(), Fail> {
    add_objects(heap, 10, 0, 3)?;
    let before = refusing.bytes_held();
    for _collection in 0..2 {
        assert_eq!(rt; collected(refusing, heap), Ok((10, 0)));
    }
    drop(heap.take_spare());
    let after = refusing.bytes_held();
    assert!(rt; after <= before.saturating_add(20_000), "{after} {before}");
    Ok(())
}

/// The same of a new heap.
fn assert_few_bytes_of_new(rt: &impl Abort, refusing: &Refusing<Global>) -> Result<(), Fail> {
    let mut heap = heap_of(refusing, 16, 4, 65_535)?;
    assert_few_bytes(rt, refusing, &mut heap)
}

#[test]
fn blocks_out_of_use_take_few_bytes(rt: HostRuntime) -> Result<(), Fail> {
    let refusing = Refusing::new(rt.alloc(), NONE);
    assert_few_bytes_of_new(&rt, &refusing)?;
    assert_eq!(rt; refusing.asked(), refusing.returned());
    Ok(())
}
