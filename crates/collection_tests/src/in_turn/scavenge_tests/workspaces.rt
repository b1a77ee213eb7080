//! One worker of a collection.
ghost use Rattle.std.specs.Prelude.{◌<◌};

use heap::{Config, Heap, Sizes};
use scavenge::Workspace;
use std::alloc::Global;
use std::process::Abort;
use std::test::Fail;

/// A heap of 12 blocks of 16 words, with one generation.
fn small_heap(alloc: Global) -> Result<Heap, Fail> {
    let sizes = Sizes {
        block_words: 16,
        blocks: 12,
        mutators: 1,
        nursery_blocks: 2,
        generations: 1,
        steps: 1,
    };
    let Ok(config) = Config::new(sizes) else {
        return Err(Fail::from("bad sizes"));
    };
    Ok(Heap::new(alloc, config)?)
}

/// Opens a collection, and asserts that worker `t` of two begins with a slot or with none.
fn assert_slot(
    rt: &impl Abort,
    alloc: Global,
    heap: &Heap<Global>,
    t: u32,
    has_slot: bool,
) -> Result<(), Fail>
    requires { t < 2 }
{
    let Ok(collection) = heap.open_collection(alloc, 0) else {
        return Err(Fail::from("not opened"));
    };
    let workspace = Workspace::new(alloc, heap, &collection, t, 2)?;
    assert_eq!(rt; scavenge::has_slot(&workspace, heap), has_slot);
    assert_eq!(rt; workspace.is_started(), !has_slot);
    Ok(())
}

/// Opens a collection, and asserts that a worker begins with nothing but its slots.
fn assert_empty(rt: &impl Abort, alloc: Global, heap: &Heap<Global>) -> Result<(), Fail> {
    let Ok(collection) = heap.open_collection(alloc, 0) else {
        return Err(Fail::from("not opened"));
    };
    let workspace = Workspace::new(alloc, heap, &collection, 0, 2)?;
    assert!(rt; !workspace.has_proposal() && !workspace.has_hand());
    assert!(rt; !workspace.has_aside() && !workspace.has_large());
    let parts = workspace.into_parts();
    assert!(rt; parts.won.is_empty() && parts.scanned.is_empty());
    assert!(rt; parts.done.is_empty() && parts.large.is_empty());
    Ok(())
}

#[test]
fn slots_are_dealt_in_turn(rt: HostRuntime) -> Result<(), Fail> {
    let mut heap = small_heap(rt.alloc())?;
    let _root = heap.allocate(0, 1, 2)?;
    assert_slot(&rt, rt.alloc(), &heap, 0, true)?;
    assert_slot(&rt, rt.alloc(), &heap, 1, false)?;
    assert_empty(&rt, rt.alloc(), &heap)
}
