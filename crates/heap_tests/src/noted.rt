//! Old objects that lead to old ones, which no set remembers.
use crate::counting::{Counting, NONE, asked_with_lists, large_heap};
use heap::RootId;
use refusing::Refusing;
use std::alloc::Global;
use std::process::Abort;
use std::test::Fail;

/// How many objects there are, their sizes, and whether each but the first leads to the one before it.
#[derive(Clone, Copy)]
struct Objects {
    count: u32,
    pointers: u64,
    plain: u64,
    linked: bool,
}

/// Makes the objects, with a root each.
fn added<'a>(
    alloc: Global,
    heap: &mut Counting<'a>,
    objects: Objects,
) -> Result<Vec<RootId>, Fail> {
    let mut roots = Vec::new(alloc);
    for _object in 0..objects.count {
        roots.push(heap.allocate(0, objects.pointers, objects.plain)?)?;
    }
    Ok(roots)
}

/// Has each object but the first lead to the one before it.
fn link<'a>(heap: &mut Counting<'a>, roots: &[RootId]) -> Result<(), Fail> {
    for at in 1..roots.len() {
        heap.store(roots[at], 0, Some(roots[at - 1]))?;
    }
    Ok(())
}

/// Collects all four times, each time beside an object that was just made, and tells how many requests for memory that took.
fn asked_beside_young<'a>(
    refusing: &'a Refusing<Global>,
    heap: &mut Counting<'a>,
) -> Result<u64, Fail> {
    let mut asked = 0_u64;
    for _collection in 0..4 {
        let _young = heap.allocate(0, 0, 1)?;
        asked = asked.saturating_add(asked_with_lists(refusing, heap, 1)?);
    }
    Ok(asked)
}

/// Makes the objects in a heap, and tells how many requests for memory its next four collections take.
fn asked_by<'a>(
    alloc: Global,
    refusing: &'a Refusing<Global>,
    heap: &mut Counting<'a>,
    objects: Objects,
) -> Result<u64, Fail> {
    let roots = added(alloc, heap, objects)?;
    if objects.linked {
        link(heap, roots.as_slice())?;
    }
    asked_beside_young(refusing, heap)
}

/// The same of a new heap.
fn asked_by_new(
    alloc: Global,
    refusing: &Refusing<Global>,
    steps: u64,
    objects: Objects,
) -> Result<u64, Fail> {
    let mut heap = large_heap(refusing, steps)?;
    asked_by(alloc, refusing, &mut heap, objects)
}

/// How many requests for memory the first four collections of a heap take, all of whose memory comes back.
fn asked_for(rt: &impl Abort, alloc: Global, steps: u64, objects: Objects) -> Result<u64, Fail> {
    let refusing = Refusing::new(alloc, NONE);
    let asked = asked_by_new(alloc, &refusing, steps, objects)?;
    assert_eq!(rt; refusing.asked(), refusing.returned());
    Ok(asked)
}

/// Objects without a pointer, with so many plain words.
fn bare(count: u32, plain: u64) -> Objects {
    Objects {
        count,
        pointers: 0,
        plain,
        linked: false,
    }
}

/// Objects of the same size, whose first field is a pointer.
fn with_pointers(bare: Objects, linked: bool) -> Objects {
    Objects {
        count: bare.count,
        pointers: 1,
        plain: bare.plain.saturating_sub(1),
        linked,
    }
}

/// Asserts that the first four collections ask for no more memory, but for so many requests, where each of these objects has a
/// pointer, be it nil or lead to another of them, than where they have none.
fn assert_none_noted(
    rt: &impl Abort,
    alloc: Global,
    steps: u64,
    bare: Objects,
    linked: bool,
    beside: u64,
) -> Result<(), Fail> {
    let without = asked_for(rt, alloc, steps, bare)?;
    let with = asked_for(rt, alloc, steps, with_pointers(bare, linked))?;
    assert!(rt; with <= without.saturating_add(beside), "{with} {without}");
    Ok(())
}

/// With one step the young object becomes old too, with two it stays young.
#[test]
fn old_objects_that_lead_to_old_ones_are_not_noted(rt: HostRuntime) -> Result<(), Fail> {
    let bare = bare(1_000, 3);
    for steps in 1..3 {
        assert_none_noted(&rt, rt.alloc(), steps, bare, false, 0)?;
        assert_none_noted(&rt, rt.alloc(), steps, bare, true, 0)?;
    }
    Ok(())
}

/// An object of more than 128 words is large in blocks of 512. Of linked ones 39 lead to one. A collection puts these pointers in
/// a list, and what is to be written there in another: each grows five times, from 4 entries to 64, and in four collections that
/// is 40 requests. Beside an object that stays young, as it does with two steps, a large one that leads anywhere is noted first,
/// and only then found to lead to old ones: so linked ones are tried with one step alone.
#[test]
fn large_objects_that_lead_to_old_ones_are_not_noted(rt: HostRuntime) -> Result<(), Fail> {
    let bare = bare(40, 300);
    assert_none_noted(&rt, rt.alloc(), 1, bare, true, 40)?;
    for steps in 1..3 {
        assert_none_noted(&rt, rt.alloc(), steps, bare, false, 0)?;
    }
    Ok(())
}

/// Makes an old large object, beside as many old small ones as there are young ones then, which lead to it or have a pointer that
/// is nil. How many requests for memory the collection takes that leaves the young ones young.
fn asked_by_young<'a>(
    alloc: Global,
    refusing: &'a Refusing<Global>,
    heap: &mut Counting<'a>,
    leads: bool,
) -> Result<u64, Fail> {
    let large = heap.allocate(0, 0, 300)?;
    let _old = added(alloc, heap, bare(1_000, 3))?;
    for _collection in 0..3 {
        let _asked = asked_with_lists(refusing, heap, 1)?;
    }
    let young = added(alloc, heap, with_pointers(bare(1_000, 3), false))?;
    if leads {
        for root in young {
            heap.store(root, 0, Some(large))?;
        }
    }
    asked_with_lists(refusing, heap, 1)
}

/// The same of a new heap.
fn asked_by_new_young(alloc: Global, leads: bool) -> Result<u64, Fail> {
    let refusing = Refusing::new(alloc, NONE);
    let mut heap = large_heap(&refusing, 2)?;
    asked_by_young(alloc, &refusing, &mut heap, leads)
}

/// How many requests for memory a collection of the young takes that leaves none of them young: each is a large object, and each but
/// the first may lead to the one before it.
fn asked_by_promoted<'a>(
    alloc: Global,
    refusing: &'a Refusing<Global>,
    heap: &mut Counting<'a>,
    linked: bool,
) -> Result<u64, Fail> {
    let roots = added(alloc, heap, with_pointers(bare(40, 300), linked))?;
    if linked {
        link(heap, roots.as_slice())?;
    }
    asked_with_lists(refusing, heap, 0)
}

/// The same of a new heap of two generations of one step.
fn asked_by_new_promoted(alloc: Global, linked: bool) -> Result<u64, Fail> {
    let refusing = Refusing::new(alloc, NONE);
    let mut heap = large_heap(&refusing, 1)?;
    asked_by_promoted(alloc, &refusing, &mut heap, linked)
}

/// Where all that survives is promoted, nothing younger is left, and no set grows. The pointers of 39 large objects are put in a list,
/// and what is to be written there in another: each grows five times, from 4 entries to 64.
#[test]
fn objects_that_are_promoted_together_are_not_noted(rt: HostRuntime) -> Result<(), Fail> {
    let unlinked = asked_by_new_promoted(rt.alloc(), false)?;
    let linked = asked_by_new_promoted(rt.alloc(), true)?;
    assert!(&rt;
        linked <= unlinked.saturating_add(10),
        "{linked} {unlinked}"
    );
    Ok(())
}

/// How many bytes a heap of such old objects has, beside one that stays young, and what is spare is given back.
fn bytes_beside_young<'a>(
    alloc: Global,
    refusing: &'a Refusing<Global>,
    heap: &mut Counting<'a>,
    objects: Objects,
) -> Result<u64, Fail> {
    let _old = added(alloc, heap, objects)?;
    for _collection in 0..3 {
        let _young = heap.allocate(0, 0, 1)?;
        let _asked = asked_with_lists(refusing, heap, 1)?;
    }
    drop(heap.take_spare());
    Ok(refusing.bytes_held())
}

/// The same of a new heap, whose younger generation has so many steps. With one of them no object stays young.
fn bytes_of_new(alloc: Global, steps: u64, objects: Objects) -> Result<u64, Fail> {
    let refusing = Refusing::new(alloc, NONE);
    let mut heap = large_heap(&refusing, steps)?;
    bytes_beside_young(alloc, &refusing, &mut heap, objects)
}

/// Sets keep the room that they once had, so what was noted can be told by the bytes that a heap has: beside a young object old ones
/// without a pointer take no entry, and no flag. Two blocks and the lists of few objects are 20,000 bytes at most.
#[test]
fn old_objects_without_pointers_are_not_noted(rt: HostRuntime) -> Result<(), Fail> {
    for objects in [bare(7_000, 3), bare(4_000, 300)] {
        let old = bytes_of_new(rt.alloc(), 1, objects)?;
        let beside = bytes_of_new(rt.alloc(), 2, objects)?;
        assert!(&rt; beside <= old.saturating_add(20_000), "{beside} {old}");
    }
    Ok(())
}

/// No set remembers an object of the youngest generation, wherever it leads.
#[test]
fn young_objects_that_lead_to_a_large_one_are_not_noted(rt: HostRuntime) -> Result<(), Fail> {
    let leading = asked_by_new_young(rt.alloc(), true)?;
    assert_eq!(&rt; leading, asked_by_new_young(rt.alloc(), false)?);
    Ok(())
}
