//! Collections by threads leave what a collection by one worker leaves, and are refused as it is.
use crate::heaps::{add_tree, seen, wide_heap};
use crate::refused::shared_tree::shared_tree;
use crate::ways::{Ended, Way, end_of};
use collector::{CellKind, ThreadsError, collect};
use forwarding::OpenGate;
use heap::{Heap, RootId};
use std::alloc::AllocGlobal;
use std::process::Abort;
use std::sync::Wait;
use std::test::Fail;
use std::thread::Threads;

/// What comes of a collection of a new tree.
fn end_of_tree<R: Threads + Wait + Sync + AllocGlobal>(
    rt: &R,
    heap: &mut Heap,
    objects: u32,
    way: Way,
) -> Result<Ended, Fail> {
    let top = add_tree(rt.alloc(), heap, objects)?;
    end_of(rt, heap, top, 0, way)
}

/// The same in a heap of its own.
fn end_of_wide<R: Threads + Wait + Sync + AllocGlobal>(
    rt: &R,
    objects: u32,
    way: Way,
) -> Result<Ended, Fail> {
    let mut heap = wide_heap(rt.alloc(), objects, 200)?;
    end_of_tree(rt, &mut heap, objects, way)
}

/// Asserts that so many threads leave what one worker leaves, with both kinds of cells.
fn assert_same<R: Threads + Wait + Sync + AllocGlobal + Abort>(
    rt: &R,
    n: u32,
    objects: u32,
) -> Result<(), Fail> {
    let one = end_of_wide(rt, objects, Way::Alone)?;
    for kind in [CellKind::Word, CellKind::Box] {
        let many = end_of_wide(rt, objects, Way::OnThreads(n, kind))?;
        assert!(rt;
            many.answer == one.answer && many.after == one.after,
            "{n} workers, {objects} objects"
        );
    }
    Ok(())
}

#[test]
fn threads_leave_what_one_leaves(rt: HostRuntime) -> Result<(), Fail> {
    assert_same(&rt, 1, 40)?;
    assert_same(&rt, 2, 1)?;
    assert_same(&rt, 2, 300)?;
    assert_same(&rt, 3, 150)?;
    assert_same(&rt, 4, 700)?;
    assert_same(&rt, 16, 300)
}

/// What a collection answers, whose report is dropped.
fn answer_in<R: Threads + Wait + Sync + AllocGlobal>(
    rt: &R,
    heap: &mut Heap,
    generation: u64,
    n: u32,
) -> Option<ThreadsError> {
    collect(
        rt,
        rt.alloc(),
        heap,
        generation,
        n,
        CellKind::Word,
        &OpenGate,
    )
    .err()
}

/// What a collection answers, and whether the heap is as before.
fn answer_and_rest<R: Threads + Wait + Sync + AllocGlobal>(
    rt: &R,
    heap: &mut Heap,
    top: RootId,
    generation: u64,
    n: u32,
) -> Result<(Option<ThreadsError>, bool), Fail> {
    let before = seen(rt.alloc(), rt.alloc(), heap, &[top])?;
    let answer = answer_in(rt, heap, generation, n);
    let after = seen(rt.alloc(), rt.alloc(), heap, &[top])?;
    Ok((answer, after == before))
}

/// The same, of a heap of two generations.
fn answer<R: Threads + Wait + Sync + AllocGlobal>(
    rt: &R,
    generation: u64,
    n: u32,
) -> Result<(Option<ThreadsError>, bool), Fail> {
    let (mut heap, top) = shared_tree(rt.alloc(), 120)?;
    answer_and_rest(rt, &mut heap, top, generation, n)
}

#[test]
fn bad_worker_counts(rt: HostRuntime) -> Result<(), Fail> {
    for (generation, n, wanted) in [
        (0, 0, Some(ThreadsError::BadConfig)),
        (1, 0, Some(ThreadsError::BadConfig)),
        (2, 0, Some(ThreadsError::BadConfig)),
        (0, 17, Some(ThreadsError::BadConfig)),
        (1, 17, Some(ThreadsError::BadConfig)),
        (2, 17, Some(ThreadsError::BadConfig)),
        (2, 1, Some(ThreadsError::NoGeneration)),
        (2, 16, Some(ThreadsError::NoGeneration)),
        (1, 1, None),
        (0, 16, None),
    ] {
        let is_refused = wanted.is_some();
        assert!(&rt;
            answer(&rt, generation, n)? == (wanted, is_refused),
            "generation {generation}, {n} workers"
        );
    }
    Ok(())
}
