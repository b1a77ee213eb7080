//! Collections with each number of free blocks, from none to as many as suffice in any order.
ghost use Rattle.std.specs.Prelude.{◌≤◌};

use crate::refused::shared_tree::{live_of, shared_tree};
use crate::refused::trials::WAYS;
use crate::ways::{Answer, Ended, Way, end_of};
use collector::CellKind;
use heap::{Heap, RootId};
use scavenge::space_bound;
use std::alloc::{AllocGlobal, Global};
use std::process::Abort;
use std::sync::Wait;
use std::test::Fail;
use std::thread::Threads;

/// Blocks for the heap and for its collections.
const BLOCKS: u64 = 120;

/// How many workers each way has that is tried.
fn workers_of(way: Way) -> u32
    ensures { result ≤ 3 }
{
    match way {
        Way::Alone => 1,
        Way::InTurn => 2,
        Way::OnThreads(n, _) => n.min(3),
    }
}

/// How many blocks are free beside the heap.
fn free_beside(alloc: Global) -> Result<u64, Fail> {
    let (heap, _top) = shared_tree(alloc, BLOCKS)?;
    let collection = heap.open_collection(alloc, 0)?;
    Ok(collection.free().len() as u64)
}

/// The heap, and so many young large objects with a root and a block each.
fn tree_beside(alloc: Global, blocks: u64, taken: u64) -> Result<(Heap, RootId), Fail> {
    let (mut heap, top) = shared_tree(alloc, blocks)?;
    for _block in 0..taken {
        let _root = heap.allocate(0, 0, 40)?;
    }
    Ok((heap, top))
}

/// What comes of a collection of a heap of so many blocks, so many of which are taken.
fn end_beside<R: Threads + Wait + Sync + AllocGlobal>(
    rt: &R,
    blocks: u64,
    taken: u64,
    generation: u64,
    way: Way,
) -> Result<Ended, Fail> {
    let (mut heap, top) = tree_beside(rt.alloc(), blocks, taken)?;
    end_of(rt, &mut heap, top, generation, way)
}

/// Whether a collection is carried out, or the heap is full and as before. It is full at most below the bound.
fn is_as_wanted(ended: &Ended, wanted: &Ended, suffices: bool) -> bool {
    match ended.answer {
        Answer::HeapFull => !suffices && ended.after == ended.before,
        answer => answer == wanted.answer && ended.after == wanted.after,
    }
}

/// Tries one number of free blocks, beside what one worker makes of the heap where blocks are ample. Says whether they were enough.
fn assert_with_taken<R: Threads + Wait + Sync + AllocGlobal + Abort>(
    rt: &R,
    taken: u64,
    generation: u64,
    way: Way,
    suffices: bool,
) -> Result<bool, Fail> {
    let ended = end_beside(rt, BLOCKS, taken, generation, way)?;
    let wanted = end_beside(rt, BLOCKS * 2, taken, generation, Way::Alone)?;
    assert!(rt;
        is_as_wanted(&ended, &wanted, suffices),
        "{way:?}, {taken} blocks taken"
    );
    Ok(ended.answer != Answer::HeapFull)
}

/// Tries each number of free blocks up to the bound for what is live.
fn assert_with_each<R: Threads + Wait + Sync + AllocGlobal + Abort>(
    rt: &R,
    generation: u64,
    way: Way,
) -> Result<(), Fail> {
    let (live, words) = live_of(generation);
    let bound = space_bound(words, 64, workers_of(way), 1);
    let all = free_beside(rt.alloc())?;
    for free in 0..=bound {
        let taken = all.saturating_sub(free);
        let is_enough = assert_with_taken(rt, taken, generation, way, free == bound)?;
        // 12 of the small objects fill a block.
        assert!(rt; !is_enough || free >= live / 12);
    }
    Ok(())
}

#[test]
fn each_number_of_blocks_of_each_way_to_collect(rt: HostRuntime) -> Result<(), Fail> {
    for way in WAYS {
        for generation in 0..2 {
            assert_with_each(&rt, generation, way)?;
        }
    }
    Ok(())
}

#[test]
fn each_number_of_blocks_of_three_threads(rt: HostRuntime) -> Result<(), Fail> {
    for generation in 0..2 {
        assert_with_each(&rt, generation, Way::OnThreads(3, CellKind::Word))?;
    }
    Ok(())
}
