//! Collections with each number of free blocks, from none to as many as suffice in any order.
use crate::heaps::{
    Ends, assert_collected, census_of, collected, free_count, heap_of, is_carried_out,
};
use heap::{Heap, RootId};
use heap_text::{Counted, Name, write_heap};
use one_worker::CollectError;
use std::alloc::Global;
use std::process::Abort;
use std::test::Fail;

/// Objects to be collected, of which the top one has a root and 16 words, and leads to the others and to itself. They are
/// copied in the order in which they are made.
#[derive(Clone, Copy)]
struct Group {
    /// The pointers and words of the others.
    others: &'static [(u64, u64)],
    kept: u64,
    /// How many blocks of 64 words they fill in that order. A nursery of so many holds them.
    blocks: u64,
    /// How many free blocks suffice in any order: a block is left only with 49 words in it at least.
    bound: u64,
}

/// One object of 16 words.
const SINGLE: Group = Group {
    others: &[],
    kept: 1,
    blocks: 1,
    bound: 1,
};

/// Eight objects of 16 words, which leave no word of two blocks.
const EIGHT: Group = Group {
    others: &[
        (15, 0),
        (1, 14),
        (1, 14),
        (1, 14),
        (1, 14),
        (1, 14),
        (1, 14),
    ],
    kept: 8,
    blocks: 2,
    bound: 3,
};

/// 16, 16, 16 and 1 word, three times, and 16, 16, 16: 195 words, of which each block but the last has 49.
const LOOSE: Group = Group {
    others: &[
        (1, 14),
        (15, 0),
        (0, 0),
        (1, 14),
        (1, 14),
        (1, 14),
        (0, 0),
        (1, 14),
        (1, 14),
        (1, 14),
        (0, 0),
        (1, 14),
        (1, 14),
        (1, 14),
    ],
    kept: 15,
    blocks: 4,
    bound: 4,
};

/// Lets a field of `top` lead to a new object of these sizes, which leads back where it has a pointer, and has no root.
fn add_other(
    heap: &mut Heap<Global>,
    top: RootId,
    field: u64,
    pointers: u64,
    words: u64,
) -> Result<(), Fail> {
    let other = heap.allocate(0, pointers, words)?;
    heap.store(top, field, Some(other))?;
    if pointers > 0 {
        heap.store(other, 0, Some(top))?;
    }
    Ok(heap.release(other)?)
}

/// Adds a group, and tells its root.
fn add_group(heap: &mut Heap<Global>, group: Group) -> Result<RootId, Fail> {
    let top = heap.allocate(0, 15, 0)?;
    for (field, (pointers, words)) in group.others.iter().enumerate() {
        add_other(heap, top, field as u64, *pointers, *words)?;
    }
    heap.store(top, 14, Some(top))?;
    Ok(top)
}

/// The text of all that a root leads to.
fn text_of(alloc: Global, heap: &Heap<Global>, root: RootId) -> Result<Vec<u8>, Fail> {
    if heap.target(root).is_none() {
        return Err(Fail::from("no such root"));
    }
    let mut writer = Counted::new(Vec::new(alloc));
    write_heap(alloc, heap, &[Name { text: b"top", root }], &mut writer)?;
    Ok(writer.inner)
}

/// The census, and the text of all that a root leads to.
fn seen(alloc: Global, heap: &Heap<Global>, root: RootId) -> Result<(Vec<u8>, Vec<u8>), Fail> {
    let census = census_of(alloc, heap)?;
    let text = text_of(alloc, heap, root)?;
    Ok((census, text))
}

/// A group is kept, or blocks run out.
fn ends_of(group: Group) -> Ends {
    Ends {
        counts: (group.kept, 0),
        refusal: CollectError::HeapFull,
    }
}

/// Collects a group, and asserts that it is kept where it has blocks enough, and that what is seen of it stays.
fn assert_collection(
    rt: &impl Abort,
    alloc: Global,
    heap: &mut Heap<Global>,
    top: RootId,
    group: Group,
    free: u64,
) -> Result<(), Fail> {
    assert_eq!(rt; free_count(alloc, heap), Ok(free as usize));
    let before = seen(alloc, heap, top)?;
    let is_kept = is_carried_out(rt, alloc, heap, top, ends_of(group));
    assert_eq!(rt; is_kept, free >= group.blocks);
    assert!(rt; seen(alloc, heap, top)? == before);
    Ok(())
}

/// Asserts what a collection does with so many free blocks. Then the group is given up, and goes, however few blocks are free.
fn assert_kept_and_gone(
    rt: &impl Abort,
    alloc: Global,
    heap: &mut Heap<Global>,
    stands: Stands,
    group: Group,
    free: u64,
) -> Result<(), Fail> {
    let top = add_there(alloc, heap, stands, group)?;
    assert_collection(rt, alloc, heap, top, group, free)?;
    heap.release(top)?;
    assert_collected(rt, alloc, heap, (0, group.kept));
    Ok(())
}

/// From where a group is collected.
#[derive(Clone, Copy)]
enum Stands {
    InNursery,
    /// Where a collection has moved it.
    Moved,
}

/// A heap in which so many blocks are free once a group stands there.
fn heap_for(alloc: Global, stands: Stands, group: Group, free: u64) -> Result<Heap<Global>, Fail> {
    let taken = match stands {
        Stands::InNursery => group.blocks,
        Stands::Moved => group.blocks.saturating_add(group.blocks),
    };
    heap_of(alloc, 64, group.blocks, taken.saturating_add(free))
}

/// Adds a group where it stands, and tells its root.
fn add_there(
    alloc: Global,
    heap: &mut Heap<Global>,
    stands: Stands,
    group: Group,
) -> Result<RootId, Fail> {
    let top = add_group(heap, group)?;
    if let Stands::Moved = stands {
        let _counts = collected(alloc, heap)?;
    }
    Ok(top)
}

fn assert_with_free(
    rt: &impl Abort,
    alloc: Global,
    stands: Stands,
    group: Group,
    free: u64,
) -> Result<(), Fail> {
    let mut heap = heap_for(alloc, stands, group, free)?;
    assert_kept_and_gone(rt, alloc, &mut heap, stands, group, free)
}

/// Tries each number of free blocks, up to as many as suffice.
fn assert_with_each(
    rt: &impl Abort,
    alloc: Global,
    stands: Stands,
    group: Group,
) -> Result<(), Fail> {
    for free in 0..=group.bound {
        assert_with_free(rt, alloc, stands, group, free)?;
    }
    Ok(())
}

#[test]
fn each_number_of_free_blocks(rt: HostRuntime) -> Result<(), Fail> {
    for group in [SINGLE, EIGHT, LOOSE] {
        assert_with_each(&rt, rt.alloc(), Stands::InNursery, group)?;
        assert_with_each(&rt, rt.alloc(), Stands::Moved, group)?;
    }
    Ok(())
}

/// Fills four blocks of the nursery with 16 dead objects.
fn add_dead(heap: &mut Heap<Global>) -> Result<(), Fail> {
    for _object in 0..16 {
        let dead = heap.allocate(0, 0, 15)?;
        heap.release(dead)?;
    }
    Ok(())
}

/// Collects a group and dead objects, and asserts that as many blocks are free as before.
fn assert_turn(rt: &impl Abort, alloc: Global, heap: &mut Heap<Global>) -> Result<(), Fail> {
    add_dead(heap)?;
    assert_eq!(rt; free_count(alloc, heap), Ok(4));
    assert_collected(rt, alloc, heap, (15, 16));
    Ok(())
}

/// The same, twenty times.
fn assert_turns(rt: &impl Abort, alloc: Global, heap: &mut Heap<Global>) -> Result<(), Fail> {
    let _top = add_there(alloc, heap, Stands::Moved, LOOSE)?;
    for _turn in 0..20 {
        assert_turn(rt, alloc, heap)?;
    }
    Ok(())
}

#[test]
fn blocks_come_back(rt: HostRuntime) -> Result<(), Fail> {
    let mut heap = heap_for(rt.alloc(), Stands::Moved, LOOSE, 4)?;
    assert_turns(&rt, rt.alloc(), &mut heap)
}

/// Makes four fields of the top object nil, which lead to the last four of eight.
fn cut_half(heap: &mut Heap<Global>, top: RootId) -> Result<(), Fail> {
    for field in 3..7 {
        heap.store(top, field, None)?;
    }
    Ok(())
}

/// Asserts that the one free block is free again after a refusal, and takes four objects.
fn assert_half_fits(rt: &impl Abort, alloc: Global, heap: &mut Heap<Global>) -> Result<(), Fail> {
    let top = add_group(heap, EIGHT)?;
    assert_eq!(rt; collected(alloc, heap), Err(CollectError::HeapFull));
    assert_eq!(rt; free_count(alloc, heap), Ok(1));
    cut_half(heap, top)?;
    assert_collected(rt, alloc, heap, (4, 4));
    Ok(())
}

#[test]
fn refused_collection_gives_its_block_back(rt: HostRuntime) -> Result<(), Fail> {
    let mut heap = heap_for(rt.alloc(), Stands::InNursery, EIGHT, 1)?;
    assert_half_fits(&rt, rt.alloc(), &mut heap)
}
