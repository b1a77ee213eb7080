//! Heaps of any size, what is seen of them, and collections of them.
use heap::{AllocateError, Config, Heap, NoRoot, OpenError, RootId, Sizes};
use heap_text::{Counted, write_census};
use one_worker::{CollectError, collect_one};
use std::alloc::{Allocator, Global};
use std::process::Abort;
use std::test::Fail;

/// Sizes with one generation.
pub(crate) fn config_of(
    block_words: u64,
    nursery_blocks: u64,
    blocks: u64,
) -> Result<Config, Fail> {
    let sizes = Sizes {
        block_words,
        blocks,
        mutators: 1,
        nursery_blocks,
        generations: 1,
        steps: 1,
    };
    match Config::new(sizes) {
        Ok(config) => Ok(config),
        Err(_) => Err(Fail::from("bad sizes")),
    }
}

/// A heap of that many blocks of so many words, with one generation.
pub(crate) fn heap_of<A: Allocator + Clone>(
    alloc: A,
    block_words: u64,
    nursery_blocks: u64,
    blocks: u64,
) -> Result<Heap<A>, Fail> {
    let config = config_of(block_words, nursery_blocks, blocks)?;
    Ok(Heap::new(alloc, config)?)
}

/// Allocates so many objects of these sizes.
pub(crate) fn add_objects<A: Allocator + Clone>(
    heap: &mut Heap<A>,
    count: u32,
    pointers: u64,
    words: u64,
) -> Result<(), AllocateError> {
    for _object in 0..count {
        let _root = heap.allocate(0, pointers, words)?;
    }
    Ok(())
}

/// Collects, and tells how many objects were kept and freed.
pub(crate) fn collected<A: Allocator + Clone>(
    alloc: A,
    heap: &mut Heap<A>,
) -> Result<(u64, u64), CollectError> {
    let report = collect_one(alloc, heap, 0)?;
    Ok((report.kept, report.freed))
}

/// Collects, and asserts how many objects were kept and freed.
pub(crate) fn assert_collected<A: Allocator + Clone>(
    rt: &impl Abort,
    alloc: A,
    heap: &mut Heap<A>,
    counts: (u64, u64),
) {
    assert_eq!(rt; collected(alloc, heap), Ok(counts));
}

/// The two ends of a collection for which blocks may run out: so many objects are kept and freed, or this error.
#[derive(Clone, Copy)]
pub(crate) struct Ends {
    pub(crate) counts: (u64, u64),
    pub(crate) refusal: CollectError,
}

/// Collects, and asserts that it ends in one of two ways, and that a refused one leaves the root where it leads. Says whether
/// it was carried out.
pub(crate) fn is_carried_out(
    rt: &impl Abort,
    alloc: Global,
    heap: &mut Heap<Global>,
    root: RootId,
    ends: Ends,
) -> bool {
    let place = heap.target(root);
    match collected(alloc, heap) {
        Ok(counts) => {
            assert_eq!(rt; counts, ends.counts);
            true
        }
        Err(error) => {
            assert_eq!(rt; error, ends.refusal);
            assert!(rt; heap.target(root) == place);
            false
        }
    }
}

/// The lines of a heap's census.
pub(crate) fn census_of(alloc: Global, heap: &Heap<Global>) -> Result<Vec<u8>, Fail> {
    let mut writer = Counted::new(Vec::new(alloc));
    write_census(alloc, &heap.census(), &mut writer)?;
    Ok(writer.inner)
}

/// How many blocks are free where a collection opens.
pub(crate) fn free_count(alloc: Global, heap: &Heap<Global>) -> Result<usize, OpenError> {
    let collection = heap.open_collection(alloc, 0)?;
    Ok(collection.free().len())
}

/// A new object, with a collection of the young before it where the nursery is full.
pub(crate) fn allocated<A: Allocator + Clone>(
    alloc: A,
    heap: &mut Heap<A>,
    pointers: u64,
    plain: u64,
) -> Result<RootId, Fail> {
    match heap.allocate(0, pointers, plain) {
        Ok(root) => Ok(root),
        Err(AllocateError::NurseryFull) => {
            let _counts = collected(alloc, heap)?;
            Ok(heap.allocate(0, pointers, plain)?)
        }
        Err(error) => Err(Fail::from(error)),
    }
}

/// Makes so many objects with so many plain words, of which the first tells how many were made before.
pub(crate) fn marked_roots(
    alloc: Global,
    heap: &mut Heap<Global>,
    count: u64,
    plain: u64,
) -> Result<Vec<RootId>, Fail> {
    let mut roots = Vec::new(alloc);
    for mark in 0..count {
        let root = allocated(alloc, heap, 0, plain)?;
        heap.put(root, 0, mark)?;
        roots.push(root)?;
    }
    Ok(roots)
}

/// Gives up the roots, but for the first one and each that stands a multiple of `apart` behind it.
pub(crate) fn release_others(
    heap: &mut Heap<Global>,
    roots: &[RootId],
    apart: usize,
) -> Result<(), NoRoot> {
    for at in 0..roots.len() {
        if at.checked_rem(apart) != Some(0) {
            heap.release(roots[at])?;
        }
    }
    Ok(())
}

/// Asserts that each root that was not given up so leads to the object of its mark, and that the others are no roots.
pub(crate) fn assert_marks(rt: &impl Abort, heap: &Heap<Global>, roots: &[RootId], apart: usize) {
    for at in 0..roots.len() {
        let mark = if at.checked_rem(apart) == Some(0) {
            Some(at as u64)
        } else {
            None
        };
        assert_eq!(rt; heap.get(roots[at], 0).ok(), mark);
    }
}
