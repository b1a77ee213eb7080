//! Collections by threads at a size at which real programs work.
use crate::heaps::heap_of;
use crate::ways::{Answer, Way, collected};
use collector::{CellKind, collect_one};
use heap::{AllocateError, Heap, RootId, Sizes};
use std::alloc::{AllocGlobal, Global};
use std::process::Abort;
use std::sync::Wait;
use std::test::Fail;
use std::thread::Threads;

/// Blocks of 16 words, of which one is the nursery.
const SIZES: Sizes = Sizes {
    block_words: 16,
    blocks: 65_535,
    mutators: 1,
    nursery_blocks: 1,
    generations: 1,
    steps: 1,
};

/// Makes so many large objects of a block each, of which each has its mark.
fn large_objects(alloc: Global, heap: &mut Heap, count: u64) -> Result<Vec<RootId>, Fail> {
    let mut roots = Vec::new(alloc);
    for mark in 0..count {
        let root = heap.allocate(0, 0, 9)?;
        heap.put(root, 0, mark)?;
        roots.push(root)?;
    }
    Ok(roots)
}

/// Asserts that these objects still have their marks.
fn assert_marks(rt: &impl Abort, heap: &Heap, roots: &[RootId]) {
    for (mark, root) in roots.iter().enumerate() {
        assert_eq!(rt; heap.get(*root, 0), Ok(mark as u64));
    }
}

/// Gives up the latter half of 60,000 roots.
fn give_up_half(heap: &mut Heap, roots: &mut Vec<RootId>) -> Result<(), Fail> {
    for _root in 0..30_000 {
        if let Some(root) = roots.pop() {
            heap.release(root)?;
        }
    }
    Ok(())
}

/// Collects large objects by two threads, gives up half of them, and collects again.
fn assert_kept<R: Threads + Wait + Sync + AllocGlobal + Abort>(
    rt: &R,
    heap: &mut Heap,
    kind: CellKind,
) -> Result<(), Fail> {
    let mut roots = large_objects(rt.alloc(), heap, 60_000)?;
    let way = Way::OnThreads(2, kind);
    let all = collected(rt, rt.alloc(), heap, 0, way)?;
    assert_eq!(rt; all, Answer::Counts(60_000, 0));
    give_up_half(heap, &mut roots)?;
    let half = collected(rt, rt.alloc(), heap, 0, way)?;
    assert_eq!(rt; half, Answer::Counts(30_000, 30_000));
    assert_marks(rt, heap, &roots);
    Ok(())
}

/// The same of a new heap.
fn assert_kept_by<R: Threads + Wait + Sync + AllocGlobal + Abort>(
    rt: &R,
    kind: CellKind,
) -> Result<(), Fail> {
    let mut heap = heap_of(rt.alloc(), SIZES)?;
    assert_kept(rt, &mut heap, kind)
}

#[test]
fn sixty_thousand_large_objects(rt: HostRuntime) -> Result<(), Fail> {
    assert_kept_by(&rt, CellKind::Word)?;
    assert_kept_by(&rt, CellKind::Box)
}

/// Blocks of 64 words, of which 1,024 are the nurseries'.
const MANY_BLOCKS: Sizes = Sizes {
    block_words: 64,
    blocks: 65_535,
    mutators: 16,
    nursery_blocks: 64,
    generations: 1,
    steps: 1,
};

/// A new object of four words, by the mutator whose turn it is. Where its nursery is full the heap is collected first.
fn small_object(alloc: Global, heap: &mut Heap, mark: u64) -> Result<RootId, Fail> {
    let mutator = mark % 16;
    let root = match heap.allocate(mutator, 1, 2) {
        Ok(root) => root,
        Err(AllocateError::NurseryFull) => {
            let _report = collect_one(alloc, heap, 0)?;
            heap.allocate(mutator, 1, 2)?
        }
        Err(error) => return Err(Fail::from(error)),
    };
    heap.put(root, 0, mark)?;
    Ok(root)
}

/// Makes so many of these, of which each has its mark.
fn small_objects(alloc: Global, heap: &mut Heap, count: u64) -> Result<Vec<RootId>, Fail> {
    let mut roots = Vec::new(alloc);
    for mark in 0..count {
        roots.push(small_object(alloc, heap, mark)?)?;
    }
    Ok(roots)
}

/// Collects 200,000 small objects, which take 12,500 blocks, by two threads over each kind of cells, and again.
fn assert_small_kept<R: Threads + Wait + Sync + AllocGlobal + Abort>(
    rt: &R,
    heap: &mut Heap,
) -> Result<(), Fail> {
    let roots = small_objects(rt.alloc(), heap, 200_000)?;
    for kind in [CellKind::Word, CellKind::Box, CellKind::Word, CellKind::Box] {
        let all = collected(rt, rt.alloc(), heap, 0, Way::OnThreads(2, kind))?;
        assert_eq!(rt; all, Answer::Counts(200_000, 0), "{kind:?}");
    }
    assert_marks(rt, heap, &roots);
    Ok(())
}

#[test]
fn two_hundred_thousand_small_objects(rt: HostRuntime) -> Result<(), Fail> {
    let mut heap = heap_of(rt.alloc(), MANY_BLOCKS)?;
    assert_small_kept(&rt, &mut heap)
}
