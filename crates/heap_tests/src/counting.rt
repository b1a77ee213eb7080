//! Heaps that count their requests for memory.
use crate::heaps::allocated;
use heap::{Config, Heap, RootId, Sizes};
use one_worker::collect_one;
use refusing::Refusing;
use std::alloc::Global;
use std::test::Fail;

/// No request is refused.
pub(crate) const NONE: u64 = u64::MAX;

/// A heap that counts its requests.
pub(crate) type Counting<'a> = Heap<&'a Refusing<Global>>;

/// Two generations, of which the younger has so many steps, in large blocks.
pub(crate) fn large_heap(refusing: &Refusing<Global>, steps: u64) -> Result<Counting<'_>, Fail> {
    let sizes = Sizes {
        block_words: 512,
        blocks: 60_000,
        mutators: 1,
        nursery_blocks: 64,
        generations: 2,
        steps,
    };
    let Ok(config) = Config::new(sizes) else {
        return Err(Fail::from("bad sizes"));
    };
    Ok(Heap::new(refusing, config)?)
}

/// Objects of no more than a header, as many as asked for, with a root each.
pub(crate) fn bare_objects<'a>(
    alloc: Global,
    refusing: &'a Refusing<Global>,
    heap: &mut Counting<'a>,
    count: u32,
) -> Result<Vec<RootId>, Fail> {
    let mut roots = Vec::new(alloc);
    for _object in 0..count {
        roots.push(allocated(refusing, heap, 0, 0)?)?;
    }
    Ok(roots)
}

/// Gives up all roots.
pub(crate) fn release_all<'a>(heap: &mut Counting<'a>, roots: &[RootId]) -> Result<(), Fail> {
    for root in roots {
        heap.release(*root)?;
    }
    Ok(())
}

/// Collects the generations up to that one, hands in the report, and tells how many requests for memory that took.
pub(crate) fn asked_with_lists<'a>(
    refusing: &'a Refusing<Global>,
    heap: &mut Counting<'a>,
    generation: u64,
) -> Result<u64, Fail> {
    let before = refusing.asked();
    let report = collect_one(refusing, heap, generation)?;
    heap.reuse(report);
    Ok(refusing.asked().saturating_sub(before))
}
