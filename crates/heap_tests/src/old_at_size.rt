//! 100,000 old objects, some of them in blocks whose numbers need 16 bits, which all lead to a younger one.
use crate::heaps::collected;
use heap::{AllocateError, Config, Heap, RootId, Sizes};
use layout::Place;
use one_worker::collect_one;
use std::alloc::Global;
use std::process::Abort;
use std::test::Fail;

/// Two generations, as many mutators and nursery blocks as there may be, and small blocks.
fn wide_heap(alloc: Global) -> Result<Heap<Global>, Fail> {
    let sizes = Sizes {
        block_words: 16,
        blocks: 65_535,
        mutators: 16,
        nursery_blocks: 64,
        generations: 2,
        steps: 2,
    };
    let Ok(config) = Config::new(sizes) else {
        return Err(Fail::from("bad sizes"));
    };
    Ok(Heap::new(alloc, config)?)
}

/// A new object of that mutator, with a collection of the young before it where the nursery is full.
fn allocated_by(alloc: Global, heap: &mut Heap<Global>, mutator: u64) -> Result<RootId, Fail> {
    match heap.allocate(mutator, 1, 2) {
        Ok(root) => Ok(root),
        Err(AllocateError::NurseryFull) => {
            let _counts = collected(alloc, heap)?;
            Ok(heap.allocate(mutator, 1, 2)?)
        }
        Err(error) => Err(Fail::from(error)),
    }
}

/// Makes 100,000 objects by all mutators in turn. The first word of each tells how many were made before.
fn numbered_roots(alloc: Global, heap: &mut Heap<Global>) -> Result<Vec<RootId>, Fail> {
    let mut roots = Vec::new(alloc);
    for number in 0..100_000 {
        let root = allocated_by(alloc, heap, number % 16)?;
        heap.put(root, 0, number)?;
        roots.push(root)?;
    }
    Ok(roots)
}

/// Collects the generations up to that one, and asserts that so many objects were kept, and none freed.
fn assert_kept(
    rt: &impl Abort,
    alloc: Global,
    heap: &mut Heap<Global>,
    generation: u64,
    kept: u64,
) -> Result<(), Fail> {
    let report = collect_one(alloc, heap, generation)?;
    assert_eq!(rt; (report.kept, report.freed), (kept, 0));
    Ok(())
}

/// Whether the object of a root stands in a block whose number needs 16 bits.
fn stands_high(heap: &Heap<Global>, root: RootId) -> bool {
    match heap.target(root) {
        Some(Place::Small(at)) => at.block > 32_767,
        _ => false,
    }
}

/// Collects both generations until some object stands in such a block, which takes no more than four collections.
fn move_high(
    rt: &impl Abort,
    alloc: Global,
    heap: &mut Heap<Global>,
    roots: &[RootId],
) -> Result<(), Fail> {
    for _collection in 0..4 {
        assert_kept(rt, alloc, heap, 1, 100_000)?;
        if roots.iter().any(|root| stands_high(heap, *root)) {
            return Ok(());
        }
    }
    Err(Fail::from("no object stands in a high block"))
}

/// Makes 100,000 objects that are old then, some of them in high blocks.
fn old_roots(rt: &impl Abort, alloc: Global, heap: &mut Heap<Global>) -> Result<Vec<RootId>, Fail> {
    let roots = numbered_roots(alloc, heap)?;
    let _first = collect_one(alloc, heap, 0)?;
    let _second = collect_one(alloc, heap, 0)?;
    move_high(rt, alloc, heap, &roots)?;
    Ok(roots)
}

/// Has the pointer of each object lead to that one.
fn store_in_all(heap: &mut Heap<Global>, roots: &[RootId], target: RootId) -> Result<(), Fail> {
    for root in roots {
        heap.store(*root, 0, Some(target))?;
    }
    Ok(())
}

/// Has all lead to a young object, which is marked by its plain word and has no root.
fn lead_to_young(rt: &impl Abort, heap: &mut Heap<Global>, roots: &[RootId]) -> Result<(), Fail> {
    let young = heap.allocate(0, 0, 1)?;
    heap.put(young, 0, 7)?;
    store_in_all(heap, roots, young)?;
    assert_eq!(rt; heap.census().remembered(), 100_000);
    Ok(heap.release(young)?)
}

/// Asserts that an object has its number, and leads to the marked one.
fn assert_leads(
    rt: &impl Abort,
    heap: &mut Heap<Global>,
    root: RootId,
    number: u64,
) -> Result<(), Fail> {
    assert_eq!(rt; heap.get(root, 0), Ok(number));
    let Some(marked) = heap.load(root, 0)? else {
        return Err(Fail::from("the pointer leads nowhere"));
    };
    assert_eq!(rt; heap.get(marked, 0), Ok(7));
    Ok(())
}

/// Asserts it of every thousandth, and of the last one.
fn assert_some_lead(
    rt: &impl Abort,
    heap: &mut Heap<Global>,
    roots: &[RootId],
) -> Result<(), Fail> {
    for at in 0..roots.len() {
        if at % 1_000 == 0 || at == 99_999 {
            assert_leads(rt, heap, roots[at], at as u64)?;
        }
    }
    Ok(())
}

/// Asserts that collections keep the old objects, the one to which they lead, and a younger one.
fn assert_old_are_kept(
    rt: &impl Abort,
    alloc: Global,
    heap: &mut Heap<Global>,
) -> Result<(), Fail> {
    let roots = old_roots(rt, alloc, heap)?;
    lead_to_young(rt, heap, &roots)?;
    assert_kept(rt, alloc, heap, 0, 1)?;
    let _younger = heap.allocate(0, 0, 1)?;
    assert_kept(rt, alloc, heap, 1, 100_002)?;
    assert_kept(rt, alloc, heap, 1, 100_002)?;
    assert_some_lead(rt, heap, &roots)
}

#[test]
fn a_hundred_thousand_old_that_lead_to_a_young(rt: HostRuntime) -> Result<(), Fail> {
    let mut heap = wide_heap(rt.alloc())?;
    assert_old_are_kept(&rt, rt.alloc(), &mut heap)
}
