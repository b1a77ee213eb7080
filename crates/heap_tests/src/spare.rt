//! The memory that a heap keeps from one collection for the next.
use crate::counting::{Counting, NONE, asked_with_lists, bare_objects, large_heap, release_all};
use crate::heaps::{allocated, collected, heap_of};
use heap::{PackedPlace, RootId, Spare, Won, WorkerReport};
use layout::Place;
use one_worker::collect_one;
use refusing::Refusing;
use std::alloc::Global;
use std::process::Abort;
use std::test::Fail;

/// Allocates 60 objects of four words, which are 15 blocks of 16 words. Their roots.
fn add_sixty<'a>(alloc: Global, heap: &mut Counting<'a>) -> Result<Vec<RootId>, Fail> {
    let mut roots = Vec::new(alloc);
    for _object in 0..60 {
        let root = heap.allocate(0, 0, 3)?;
        roots.push(root)?;
    }
    Ok(roots)
}

/// Collects, and tells how many requests for memory that took, and how many blocks are spare then.
fn spare_after<'a>(
    refusing: &'a Refusing<Global>,
    heap: &mut Counting<'a>,
) -> Result<(u64, usize), Fail> {
    let before = refusing.asked();
    let _counts = collected(refusing, heap)?;
    Ok((refusing.asked().saturating_sub(before), heap.spare_blocks()))
}

/// Asserts what is spare after each collection. Two requests make a block.
fn assert_spare<'a>(
    rt: &impl Abort,
    alloc: Global,
    refusing: &'a Refusing<Global>,
    heap: &mut Counting<'a>,
) -> Result<(), Fail> {
    let roots = add_sixty(alloc, heap)?;
    // The nursery's blocks are emptied and kept: none is spare.
    assert_eq!(rt; spare_after(refusing, heap)?.1, 0);
    // All 15 copies were given up.
    let (anew, spare) = spare_after(refusing, heap)?;
    assert_eq!(rt; spare, 15);
    // The spare ones were taken, and as many were given up.
    let (again, spare) = spare_after(refusing, heap)?;
    assert_eq!(rt; spare, 15);
    assert!(rt; again.saturating_add(30) <= anew);
    // Now 30 would be spare, but only the 16 of the nursery are in use, and a quarter more are kept: the 38 of a large object are
    // free by then too.
    let large = heap.allocate(0, 0, 600)?;
    release_all(heap, roots.as_slice())?;
    heap.release(large)?;
    assert_eq!(rt; spare_after(refusing, heap)?.1, 20);
    drop(heap.take_spare());
    assert_eq!(rt; heap.spare_blocks(), 0);
    Ok(())
}

/// The same of a new heap.
fn assert_spare_of_new(
    rt: &impl Abort,
    alloc: Global,
    refusing: &Refusing<Global>,
) -> Result<(), Fail> {
    let mut heap = heap_of(refusing, 16, 16, 100)?;
    assert_spare(rt, alloc, refusing, &mut heap)
}

/// Asserts that lists that were handed in are used again: what is won and what is scanned grows twice or more from nothing to
/// 60 entries.
fn assert_lists_used(
    rt: &impl Abort,
    alloc: Global,
    refusing: &Refusing<Global>,
) -> Result<(), Fail> {
    let mut heap = heap_of(refusing, 16, 16, 100)?;
    let _roots = add_sixty(alloc, &mut heap)?;
    let _first = spare_after(refusing, &mut heap)?;
    let _second = spare_after(refusing, &mut heap)?;
    let (anew, _) = spare_after(refusing, &mut heap)?;
    let _handed_in = asked_with_lists(refusing, &mut heap, 0)?;
    let again = asked_with_lists(refusing, &mut heap, 0)?;
    assert!(rt; again.saturating_add(4) <= anew, "{again} {anew}");
    Ok(())
}

#[test]
fn lists_of_a_report_are_used_again(rt: HostRuntime) -> Result<(), Fail> {
    let refusing = Refusing::new(rt.alloc(), NONE);
    assert_lists_used(&rt, rt.alloc(), &refusing)?;
    assert_eq!(rt; refusing.asked(), refusing.returned());
    Ok(())
}

#[test]
fn blocks_given_up_are_the_next_ones(rt: HostRuntime) -> Result<(), Fail> {
    let refusing = Refusing::new(rt.alloc(), NONE);
    assert_spare_of_new(&rt, rt.alloc(), &refusing)?;
    assert_eq!(rt; refusing.asked(), refusing.returned());
    Ok(())
}

/// A list of so many objects more in front of one.
fn longer<'a>(
    refusing: &'a Refusing<Global>,
    heap: &mut Counting<'a>,
    from: RootId,
    more: u32,
) -> Result<RootId, Fail> {
    let mut first = from;
    for _object in 0..more {
        let root = allocated(refusing, heap, 1, 2)?;
        heap.store(root, 0, Some(first))?;
        heap.release(first)?;
        first = root;
    }
    Ok(first)
}

/// A list of 2,000,000 objects, of which the last 1,000 have a root of their own too.
fn long_list<'a>(
    refusing: &'a Refusing<Global>,
    heap: &mut Counting<'a>,
) -> Result<(RootId, RootId), Fail> {
    let last = allocated(refusing, heap, 1, 2)?;
    let tail = longer(refusing, heap, last, 999)?;
    let next = allocated(refusing, heap, 1, 2)?;
    heap.store(next, 0, Some(tail))?;
    let first = longer(refusing, heap, next, 1_998_999)?;
    Ok((first, tail))
}

/// What a heap has after a collection: how many blocks are spare, and how many requests and bytes are not returned.
#[derive(Clone, Copy)]
struct Kept {
    spare: usize,
    requests: u64,
    bytes: u64,
}

/// Collects all, and tells what the heap has then.
fn kept_after<'a>(refusing: &'a Refusing<Global>, heap: &mut Counting<'a>) -> Result<Kept, Fail> {
    let report = collect_one(refusing, heap, 1)?;
    heap.reuse(report);
    Ok(Kept {
        spare: heap.spare_blocks(),
        requests: refusing.asked().saturating_sub(refusing.returned()),
        bytes: refusing.bytes_held(),
    })
}

/// Asserts that so many bytes at most are kept for the next collection, and that they are given back with what is spare.
fn assert_spare_bytes<'a>(
    rt: &impl Abort,
    refusing: &'a Refusing<Global>,
    heap: &mut Counting<'a>,
    most: u64,
) {
    let held = refusing.bytes_held();
    drop(heap.take_spare());
    let spare = held.saturating_sub(refusing.bytes_held());
    assert!(rt; spare > 0 && spare <= most, "{spare}");
}

/// Asserts what a heap of 2,000,000 objects keeps, and what it keeps when it shrank to 1,000. A block has 4,096 bytes for its
/// words, and 1,024 for the offsets of its objects.
fn assert_shrinks<'a>(
    rt: &impl Abort,
    refusing: &'a Refusing<Global>,
    heap: &mut Counting<'a>,
) -> Result<(), Fail> {
    let (first, _tail) = long_list(refusing, heap)?;
    let _moved = kept_after(refusing, heap)?;
    // 128 objects fill a block: the copies take 15,625, and as many were given up. Two requests make each.
    let full = kept_after(refusing, heap)?;
    assert!(rt; full.spare >= 15_625 && full.spare <= 15_625 + 64);
    assert!(rt; full.requests >= 62_500);
    assert!(rt; full.bytes >= 31_250 * 5_120);
    // The nursery's 64 are in use then, and eight of copies; a quarter more are kept.
    heap.release(first)?;
    let shrunk = kept_after(refusing, heap)?;
    assert_eq!(rt; shrunk.spare, 90);
    assert!(rt; shrunk.requests < 1_000);
    assert!(rt; shrunk.bytes <= full.bytes / 20);
    // The lists had room for 2,000,000, so they were given back, and each grows twice or more. Those of 1,000 are kept.
    let anew = asked_with_lists(refusing, heap, 1)?;
    let again = asked_with_lists(refusing, heap, 1)?;
    assert!(rt; again.saturating_add(4) <= anew);
    // Beside the blocks, the cells of 1,000 objects are kept, and the lists, with room for no more than three times 2,000 entries
    // and 1,024.
    assert_spare_bytes(rt, refusing, heap, 90 * 5_120 + 64_000);
    Ok(())
}

/// The same of a new heap.
fn assert_new_shrinks(rt: &impl Abort, refusing: &Refusing<Global>) -> Result<(), Fail> {
    let mut heap = large_heap(refusing, 1)?;
    assert_shrinks(rt, refusing, &mut heap)
}

#[test]
fn a_heap_that_shrank_gives_memory_back(rt: HostRuntime) -> Result<(), Fail> {
    let refusing = Refusing::new(rt.alloc(), NONE);
    assert_new_shrinks(&rt, &refusing)?;
    assert_eq!(rt; refusing.asked(), refusing.returned());
    Ok(())
}

/// Asserts that memory of cells that takes more than the blocks in use is given back, and asked for anew by one request, and that
/// other is used again. 1,440 objects of a word fill 90 blocks of 16 words, and with the nursery's four that is 94 blocks of
/// 1,504 words. A cell has four bytes: those of 3,200 objects take 1,600 words, and those of 1,440 take 720. Of a worker's lists
/// a third or more is used: they are kept.
fn assert_cells_given_back<'a>(
    rt: &impl Abort,
    refusing: &'a Refusing<Global>,
    heap: &mut Counting<'a>,
    given_up: &[RootId],
) -> Result<(), Fail> {
    let _all = asked_with_lists(refusing, heap, 0)?;
    release_all(heap, given_up)?;
    let _shrank = asked_with_lists(refusing, heap, 0)?;
    // Every second collection asks for one more, so these two are not next to each other: what tells the first number of each block
    // (`bases` of `nursery`) grows from the number of the first one that is collected, and copies take low and high ones in turn.
    let anew = asked_with_lists(refusing, heap, 0)?;
    let _between = asked_with_lists(refusing, heap, 0)?;
    let again = asked_with_lists(refusing, heap, 0)?;
    assert_eq!(rt; anew, again.saturating_add(1));
    Ok(())
}

/// Asserts that lists of which little is used are given back. Both grew to 3,200 entries by doubling, so together they have room
/// for 8,192, and 1,100 objects make 2,200 entries: three times that and 1,024 are 7,624. Each grows twice or more from nothing
/// to 1,100.
fn assert_lists_given_back<'a>(
    rt: &impl Abort,
    refusing: &'a Refusing<Global>,
    heap: &mut Counting<'a>,
    given_up: &[RootId],
) -> Result<(), Fail> {
    release_all(heap, given_up)?;
    let _shrank = asked_with_lists(refusing, heap, 0)?;
    let anew = asked_with_lists(refusing, heap, 0)?;
    let again = asked_with_lists(refusing, heap, 0)?;
    assert!(rt; again.saturating_add(4) <= anew, "{again} {anew}");
    Ok(())
}

/// Asserts what a heap of 3,200 objects gives back where it shrinks to 1,440, and where it shrinks to 1,100.
fn assert_shrinks_twice<'a>(
    rt: &impl Abort,
    alloc: Global,
    refusing: &'a Refusing<Global>,
    heap: &mut Counting<'a>,
) -> Result<(), Fail> {
    let _kept = bare_objects(alloc, refusing, heap, 1_100)?;
    let later = bare_objects(alloc, refusing, heap, 340)?;
    let first = bare_objects(alloc, refusing, heap, 1_760)?;
    assert_cells_given_back(rt, refusing, heap, first.as_slice())?;
    assert_lists_given_back(rt, refusing, heap, later.as_slice())
}

/// The same of a new heap.
fn assert_new_shrinks_twice(
    rt: &impl Abort,
    alloc: Global,
    refusing: &Refusing<Global>,
) -> Result<(), Fail> {
    let mut heap = heap_of(refusing, 16, 4, 500)?;
    assert_shrinks_twice(rt, alloc, refusing, &mut heap)
}

#[test]
fn cells_and_lists_of_a_heap_that_shrank_are_given_back(rt: HostRuntime) -> Result<(), Fail> {
    let refusing = Refusing::new(rt.alloc(), NONE);
    assert_new_shrinks_twice(&rt, rt.alloc(), &refusing)?;
    assert_eq!(rt; refusing.asked(), refusing.returned());
    Ok(())
}

/// Asserts that lists with little room are kept, however little of it is used. Both grew from 16 entries, a block's, to 300 by
/// doubling, so they have room for 1,024 together, and 100 objects make 200 entries: three times that are 600. Lists that grow
/// anew to 100 entries have room for 256, and would be kept for the collection after it.
fn assert_few_kept<'a>(
    rt: &impl Abort,
    alloc: Global,
    refusing: &'a Refusing<Global>,
    heap: &mut Counting<'a>,
) -> Result<(), Fail> {
    let _kept = bare_objects(alloc, refusing, heap, 100)?;
    let given_up = bare_objects(alloc, refusing, heap, 200)?;
    let _all = asked_with_lists(refusing, heap, 0)?;
    release_all(heap, given_up.as_slice())?;
    let _shrank = asked_with_lists(refusing, heap, 0)?;
    let next = asked_with_lists(refusing, heap, 0)?;
    let after = asked_with_lists(refusing, heap, 0)?;
    // Every second collection asks for one more.
    assert!(rt; next <= after.saturating_add(1), "{next} {after}");
    Ok(())
}

/// The same of a new heap.
fn assert_few_kept_by_new(
    rt: &impl Abort,
    alloc: Global,
    refusing: &Refusing<Global>,
) -> Result<(), Fail> {
    let mut heap = heap_of(refusing, 16, 32, 500)?;
    assert_few_kept(rt, alloc, refusing, &mut heap)
}

#[test]
fn lists_with_little_room_are_kept(rt: HostRuntime) -> Result<(), Fail> {
    let refusing = Refusing::new(rt.alloc(), NONE);
    assert_few_kept_by_new(&rt, rt.alloc(), &refusing)?;
    assert_eq!(rt; refusing.asked(), refusing.returned());
    Ok(())
}

/// Asserts how many pieces of memory are kept for the next collection beside the blocks, which are two each.
fn assert_spare_pieces<'a>(
    rt: &impl Abort,
    refusing: &'a Refusing<Global>,
    heap: &mut Counting<'a>,
    pieces: u64,
) {
    let of_blocks = (heap.spare_blocks() as u64).saturating_mul(2);
    let before = refusing.returned();
    drop(heap.take_spare());
    let returned = refusing.returned().saturating_sub(before);
    assert_eq!(rt; returned, of_blocks.saturating_add(pieces));
}

/// Asserts how many pieces of memory are kept where so many objects were collected, and then all given up.
fn assert_pieces_of_none<'a>(
    rt: &impl Abort,
    alloc: Global,
    refusing: &'a Refusing<Global>,
    heap: &mut Counting<'a>,
    count: u32,
    pieces: u64,
) -> Result<(), Fail> {
    let given_up = bare_objects(alloc, refusing, heap, count)?;
    let _all = asked_with_lists(refusing, heap, 0)?;
    release_all(heap, given_up.as_slice())?;
    let _none = asked_with_lists(refusing, heap, 0)?;
    assert_spare_pieces(rt, refusing, heap, pieces);
    Ok(())
}

/// The same of a new heap.
fn assert_pieces_of_none_in_new(
    rt: &impl Abort,
    alloc: Global,
    refusing: &Refusing<Global>,
    count: u32,
    pieces: u64,
) -> Result<(), Fail> {
    let mut heap = heap_of(refusing, 16, 48, 500)?;
    assert_pieces_of_none(rt, alloc, refusing, &mut heap, count, pieces)
}

/// Where all objects are given up no entry is held, so lists are kept that have room for no more than 1,024 together. Both grow
/// from 16 entries, a block's, by doubling: for 300 objects they have room for 1,024 together, and for 600 for 2,048. Beside the
/// blocks the cells are kept, and what the blocks stand in; and with two lists what these stand in.
#[test]
fn lists_with_room_for_few_entries_are_kept_for_none(rt: HostRuntime) -> Result<(), Fail> {
    for (count, pieces) in [(300, 5), (600, 2)] {
        let refusing = Refusing::new(rt.alloc(), NONE);
        assert_pieces_of_none_in_new(&rt, rt.alloc(), &refusing, count, pieces)?;
        assert_eq!(rt; refusing.asked(), refusing.returned());
    }
    Ok(())
}

/// A worker's list of what it won and its list of what it scanned, with room for so many entries, of which each holds so many.
fn lists_of(
    alloc: Global,
    of_won: (usize, usize),
    of_scanned: (usize, usize),
) -> Result<WorkerReport, Fail> {
    let mut won = Vec::with_capacity(alloc, of_won.0)?;
    let mut scanned = Vec::with_capacity(alloc, of_scanned.0)?;
    let place = PackedPlace::new(Place::small(0, 0));
    for _entry in 0..of_won.1 {
        won.push(Won { number: 0, place })?;
    }
    for _entry in 0..of_scanned.1 {
        scanned.push(place)?;
    }
    Ok(WorkerReport::new(won, scanned))
}

/// Whether the lists of one worker are kept.
fn are_kept_of_one(
    alloc: Global,
    of_won: (usize, usize),
    of_scanned: (usize, usize),
) -> Result<bool, Fail> {
    let mut lists = Vec::new(alloc);
    lists.push(lists_of(alloc, of_won, of_scanned)?)?;
    let mut spare = Spare::none();
    spare.keep_lists(lists);
    Ok(spare.lists().is_some())
}

/// Both may have room for 1,024 entries more than three times what both hold.
#[test]
fn what_is_won_and_what_is_scanned_count_together(rt: HostRuntime) -> Result<(), Fail> {
    for (of_won, of_scanned, kept) in [
        ((1_024, 0), (0, 0), true),
        ((0, 0), (1_024, 0), true),
        ((1_025, 0), (0, 0), false),
        ((0, 0), (1_025, 0), false),
        ((2_000, 0), (1_000, 659), true),
        ((1_000, 659), (2_000, 0), true),
        ((2_000, 0), (1_000, 658), false),
        ((1_000, 658), (2_000, 0), false),
    ] {
        assert_eq!(&rt;
            are_kept_of_one(rt.alloc(), of_won, of_scanned)?,
            kept,
            "{of_won:?}, {of_scanned:?}"
        );
    }
    Ok(())
}

/// Whether the lists of two workers are kept, which have so much room and hold so many entries.
fn are_kept(alloc: Global, first: (usize, usize), second: (usize, usize)) -> Result<bool, Fail> {
    let mut lists = Vec::new(alloc);
    lists.push(lists_of(alloc, first, first)?)?;
    lists.push(lists_of(alloc, second, second)?)?;
    let mut spare = Spare::none();
    spare.keep_lists(lists);
    Ok(spare.lists().is_some())
}

/// Both lists of each have the same room. All of them may have 1,024 entries more than three times what all hold.
#[test]
fn lists_of_two_workers_count_together(rt: HostRuntime) -> Result<(), Fail> {
    for (first, second, kept) in [
        ((512, 0), (0, 0), true),
        ((0, 0), (512, 0), true),
        ((512, 0), (1, 0), false),
        ((1, 0), (512, 0), false),
        ((2_000, 0), (1_000, 830), true),
        ((1_000, 830), (2_000, 0), true),
        ((2_000, 0), (1_000, 829), false),
        ((1_000, 829), (2_000, 0), false),
    ] {
        assert_eq!(&rt;
            are_kept(rt.alloc(), first, second)?,
            kept,
            "{first:?}, {second:?}"
        );
    }
    Ok(())
}
