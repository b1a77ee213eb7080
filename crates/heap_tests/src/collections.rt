//! Collections of a heap through its own calls, where blocks run out too.
use crate::heaps::{add_objects, census_of, collected, config_of, heap_of};
use heap::{
    AllocateError, Heap, MakeError, NoRoot, OpenError, PackedPlace, Report, RootId, StepId,
};
use layout::Place;
use one_worker::{CollectError, collect_one};
use std::alloc::Global;
use std::process::Abort;
use std::test::Fail;

/// Allocates six objects, one of which is dead. The others take two blocks. The last has a pointer and two plain words.
fn add_six(heap: &mut Heap<Global>) -> Result<RootId, Fail> {
    let dead = heap.allocate(0, 0, 3)?;
    add_objects(heap, 1, 3, 0)?;
    add_objects(heap, 2, 0, 3)?;
    add_objects(heap, 1, 0, 0)?;
    let last = heap.allocate(0, 1, 2)?;
    heap.release(dead)?;
    Ok(last)
}

/// A heap for them.
fn heap_for_six(alloc: Global) -> Result<Heap<Global>, Fail> {
    heap_of(alloc, 16, 2, 12)
}

/// Asserts that a heap has this census.
fn assert_census(
    rt: &impl Abort,
    alloc: Global,
    heap: &Heap<Global>,
    census: &[u8],
) -> Result<(), Fail> {
    assert_eq!(rt; census_of(alloc, heap)?.as_slice(), census);
    Ok(())
}

const FIVE: &[u8] =
    b"gen 0 step 0: 5 objects 80 words\nlarge: 0 objects 0 words\nroots: 5\nremembered: 0\n";

/// Asserts that a collection of five new objects finds no blocks, and leaves them as they are.
fn assert_five_stay(rt: &impl Abort, alloc: Global, heap: &mut Heap<Global>) -> Result<(), Fail> {
    add_objects(heap, 5, 0, 15)?;
    assert_census(rt, alloc, heap, FIVE)?;
    assert_eq!(rt; collected(alloc, heap), Err(CollectError::HeapFull));
    assert_census(rt, alloc, heap, FIVE)
}

#[test]
fn census_where_blocks_run_out(rt: HostRuntime) -> Result<(), Fail> {
    let mut heap = heap_of(rt.alloc(), 64, 2, 3)?;
    assert_five_stay(&rt, rt.alloc(), &mut heap)
}

/// How many pieces a collection tells of: its generation, objects, slots and free blocks.
fn opened(
    alloc: Global,
    heap: &Heap<Global>,
    generation: u64,
) -> Result<(u8, u32, usize, usize), OpenError> {
    let collection = heap.open_collection(alloc, generation)?;
    Ok((
        collection.generation(),
        collection.cells(),
        collection.slots().len(),
        collection.free().len(),
    ))
}

/// Asserts what a collection of six objects tells.
fn assert_opens(rt: &impl Abort, alloc: Global, heap: &mut Heap<Global>) -> Result<(), Fail> {
    let _last = add_six(heap)?;
    assert_eq!(rt; opened(alloc, heap, 0), Ok((0, 6, 5, 10)));
    Ok(())
}

#[test]
fn a_collection_opens(rt: HostRuntime) -> Result<(), Fail> {
    let mut heap = heap_for_six(rt.alloc())?;
    assert_opens(&rt, rt.alloc(), &mut heap)
}

/// Whether the one worker of a report won and scanned five objects, one of them at this place.
fn has_five_with(report: &Report<Global>, place: Place) -> bool {
    let Some(worker) = report.workers.first() else {
        return false;
    };
    let scanned = worker.scanned();
    worker.won().len() == 5 && scanned.len() == 5 && scanned.contains(&PackedPlace::new(place))
}

/// Whether the object there has one nil pointer and two zero words, and stands in the first step.
fn is_last_object(heap: &Heap<Global>, place: Place) -> bool {
    let Some(object) = heap.object(place) else {
        return false;
    };
    object.pointers == [0].as_slice() && object.words == [0, 0].as_slice()
}

fn stands_in_first_step(heap: &Heap<Global>, place: Place) -> bool {
    let first = StepId {
        generation: 0,
        step: 0,
    };
    heap.step_of(place) == Some(first)
}

fn is_empty_at(heap: &Heap<Global>, place: Place) -> bool {
    heap.object(place).is_none() && heap.step_of(place).is_none()
}

/// Asserts what a collection leaves of the last of six objects, which stood at this place.
fn assert_moved(
    rt: &impl Abort,
    heap: &Heap<Global>,
    last: RootId,
    old_place: Place,
    report: &Report<Global>,
) -> Result<(), Fail> {
    let place = heap.target(last).ok_or("no target")?;
    assert!(rt; place != old_place && has_five_with(report, place));
    assert!(rt; is_last_object(heap, place) && stands_in_first_step(heap, place));
    assert!(rt; is_empty_at(heap, old_place));
    Ok(())
}

/// Collects six objects, and asserts what is told and left of them.
fn assert_objects_move(
    rt: &impl Abort,
    alloc: Global,
    heap: &mut Heap<Global>,
) -> Result<(), Fail> {
    let last = add_six(heap)?;
    let old_place = heap.target(last).ok_or("no target")?;
    let report = collect_one(alloc, heap, 0)?;
    assert_eq!(rt; (report.kept, report.freed), (5, 1));
    assert_eq!(rt; report.workers.len(), 1);
    // The one worker took back what it exported.
    for delivery in &report.deliveries {
        assert_eq!(rt; (delivery.exporter, delivery.taker), (0, 0));
    }
    assert_moved(rt, heap, last, old_place, &report)
}

#[test]
fn objects_move(rt: HostRuntime) -> Result<(), Fail> {
    let mut heap = heap_for_six(rt.alloc())?;
    assert_objects_move(&rt, rt.alloc(), &mut heap)
}

#[test]
fn too_few_blocks_make_no_heap(rt: HostRuntime) -> Result<(), Fail> {
    let refusal = Heap::new(rt.alloc(), config_of(64, 4, 3)?).err();
    assert_eq!(rt; refusal, Some(MakeError::HeapFull));
    Ok(())
}

/// Asserts that objects of these sizes are refused.
fn assert_too_big(rt: &impl Abort, heap: &mut Heap<Global>) {
    for (mutator, p, q, refusal) in [
        (1, 100_001, 0, AllocateError::NoMutator),
        (0, 100_001, 0, AllocateError::TooBig),
        (0, 0, u64::MAX, AllocateError::TooBig),
        (0, 20, 20, AllocateError::HeapFull),
    ] {
        assert_eq!(rt; heap.allocate(mutator, p, q).err(), Some(refusal));
    }
}

/// Asserts that a heap has no such root, and no second generation.
fn assert_no_more(rt: &impl Abort, alloc: Global, heap: &mut Heap<Global>) {
    assert_eq!(rt; heap.release(RootId { number: 9 }), Err(NoRoot));
    assert_eq!(rt; heap.target(RootId { number: 9 }), None);
    assert_eq!(rt; opened(alloc, heap, 1), Err(OpenError::NoGeneration));
    let refusal = collect_one(alloc, heap, 1).err();
    assert_eq!(rt; refusal, Some(CollectError::NoGeneration));
}

/// Asserts what a heap of two blocks, one of which is the nursery, refuses before it is full and after.
fn assert_refusals(rt: &impl Abort, alloc: Global, heap: &mut Heap<Global>) -> Result<(), Fail> {
    assert_too_big(rt, heap);
    add_objects(heap, 4, 1, 2)?;
    let refusal = heap.allocate(0, 0, 0).err();
    assert_eq!(rt; refusal, Some(AllocateError::NurseryFull));
    assert_no_more(rt, alloc, heap);
    Ok(())
}

#[test]
fn refusals_of_the_heap(rt: HostRuntime) -> Result<(), Fail> {
    let mut heap = heap_of(rt.alloc(), 16, 1, 2)?;
    assert_refusals(&rt, rt.alloc(), &mut heap)
}
