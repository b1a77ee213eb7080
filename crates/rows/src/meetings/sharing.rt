//! Workers overlap, and share blocks: gates hold some of them until others have come.
use crate::meetings::gates::{Handover, Hands, Meeting};
use collector::{CellKind, collect, collect_one};
use heap::{Config, Heap, Report, RootId, Sizes};
use heap_text::{Counted, Name, write_heap};
use std::alloc::{AllocGlobal, Global};
use std::process::Abort;
use std::sync::Wait;
use std::test::Fail;
use std::thread::Threads;

/// How many objects worker `t` won.
pub(crate) fn won_by(report: &Report, t: usize) -> u64 {
    match report.workers.get(t) {
        Some(worker) => worker.won().len() as u64,
        None => 0,
    }
}

/// A heap of these sizes with two objects, each with a root.
pub(crate) fn two_objects(alloc: Global, sizes: Sizes) -> Result<Heap, Fail> {
    let mut heap = Heap::new(alloc, Config::new(sizes)?)?;
    let _first = heap.allocate(0, 0, 0)?;
    let _second = heap.allocate(0, 0, 0)?;
    Ok(heap)
}

/// How many objects each of two workers won, who meet before their first races.
fn won_at_meeting<R: Threads + Wait + Sync + AllocGlobal>(
    rt: &R,
    kind: CellKind,
    gate: &Meeting,
) -> Result<(u64, u64), Fail> {
    let mut heap = two_objects(rt.alloc(), Sizes::default())?;
    let report = collect(rt, rt.alloc(), &mut heap, 0, 2, kind, gate)?;
    Ok((won_by(&report, 0), won_by(&report, 1)))
}

/// Whether two workers with an object each met before their first races, and each won one.
fn meet<R: Threads + Wait + Sync + AllocGlobal>(rt: &R, kind: CellKind) -> Result<bool, Fail> {
    let gate = Meeting::new();
    let won = won_at_meeting(rt, kind, &gate)?;
    Ok(gate.met() && gate.races() == 2 && won == (1, 1))
}

#[test]
fn two_workers_meet(rt: HostRuntime) -> Result<(), Fail> {
    assert!(&rt; meet(&rt, CellKind::Word)?, "words");
    assert!(&rt; meet(&rt, CellKind::Box)?, "boxes");
    Ok(())
}

/// One field more of the large object leads to an object that leads back.
fn add_spoke(heap: &mut Heap, large: RootId, field: u64) -> Result<(), Fail> {
    let object = heap.allocate(0, 1, 2)?;
    heap.put(object, 0, field)?;
    heap.store(object, 0, Some(large))?;
    heap.store(large, field, Some(object))?;
    heap.release(object)?;
    Ok(())
}

/// A large object with 13 fields, each of which leads to an object that leads back.
fn add_ring(heap: &mut Heap) -> Result<RootId, Fail> {
    let large = heap.allocate(0, 13, 0)?;
    for field in 0..13 {
        add_spoke(heap, large, field)?;
    }
    Ok(large)
}

/// A heap with so many objects without pointers, a root for each, and then such a ring, with the root of its large object. Roots are
/// dealt to workers in turn, so the ring's goes to the worker of that number.
fn ring_behind(alloc: Global, others: u32) -> Result<(Heap, RootId), Fail> {
    let sizes = Sizes {
        block_words: 16,
        generations: 1,
        ..Sizes::default()
    };
    let mut heap = Heap::new(alloc, Config::new(sizes)?)?;
    for _other in 0..others {
        let _root = heap.allocate(0, 0, 0)?;
    }
    let large = add_ring(&mut heap)?;
    Ok((heap, large))
}

/// The text of all that a root leads to.
fn text_of(alloc: Global, heap: &Heap, root: RootId) -> Result<Vec<u8>, Fail> {
    if heap.target(root).is_none() {
        return Err(Fail::from("no such root"));
    }
    let name = Name {
        text: b"ring",
        root,
    };
    let mut writer = Counted::new(Vec::new(alloc));
    write_heap(alloc, heap, &[name], &mut writer)?;
    Ok(writer.inner)
}

/// Whether a block went from the one worker to the other.
fn handed_on(report: &Report, hands: Hands) -> bool {
    for delivery in report.deliveries.iter() {
        if delivery.exporter == hands.from && delivery.taker == hands.to {
            return true;
        }
    }
    false
}

/// How many objects the workers won, if each won as many as it ran races. A small object of the ring has one slot that leads to it,
/// and a worker that looks at the large one took a block of small ones, which comes after the race for the large one.
fn won_by_races(report: &Report, gate: &Handover) -> Option<u64> {
    let mut won = 0_u64;
    for t in 0..report.workers.len() {
        let own = won_by(report, t);
        if own != gate.races_of(t) {
            return None;
        }
        won = won.saturating_add(own);
    }
    Some(won)
}

/// Collects at the gate. How many objects the workers won, and whether a block was handed on.
fn handed<R: Threads + Wait + Sync + AllocGlobal>(
    rt: &R,
    heap: &mut Heap,
    kind: CellKind,
    hands: Hands,
    gate: &Handover,
) -> Result<(Option<u64>, bool), Fail> {
    let report = collect(rt, rt.alloc(), heap, 0, hands.workers, kind, gate)?;
    Ok((won_by_races(&report, gate), handed_on(&report, hands)))
}

/// What one worker leaves of the ring.
fn left_by_one(alloc: Global, others: u32) -> Result<Vec<u8>, Fail> {
    let (mut heap, large) = ring_behind(alloc, others)?;
    let _report = collect_one(alloc, &mut heap, 0)?;
    text_of(alloc, &heap, large)
}

/// What several workers leave of a ring, of whom one has its slot; how many objects they won, and whether it handed a block on.
fn left_in_several<R: Threads + Wait + Sync + AllocGlobal>(
    rt: &R,
    heap: &mut Heap,
    large: RootId,
    kind: CellKind,
    hands: Hands,
    gate: &Handover,
) -> Result<(Vec<u8>, (Option<u64>, bool)), Fail> {
    let found = handed(rt, heap, kind, hands, gate)?;
    Ok((text_of(rt.alloc(), heap, large)?, found))
}

/// The same, of a heap of its own.
fn left_by_several<R: Threads + Wait + Sync + AllocGlobal>(
    rt: &R,
    kind: CellKind,
    hands: Hands,
    gate: &Handover,
) -> Result<(Vec<u8>, (Option<u64>, bool)), Fail> {
    let (mut heap, large) = ring_behind(rt.alloc(), hands.from)?;
    left_in_several(rt, &mut heap, large, kind, hands, gate)
}

/// Whether a block went from the one worker to the other, and all is as one worker leaves it. The ring has 14 objects.
fn share<R: Threads + Wait + Sync + AllocGlobal>(
    rt: &R,
    kind: CellKind,
    hands: Hands,
) -> Result<bool, Fail> {
    let gate = Handover::new(hands);
    let (text, found) = left_by_several(rt, kind, hands, &gate)?;
    let same = text == left_by_one(rt.alloc(), hands.from)?;
    let won = hands.from as u64 + 14;
    Ok(same && found == (Some(won), true) && gate.handed_over() && gate.is_told())
}

/// From the caller's thread to another, from another to the caller's, and from one other to another.
const HANDS: [Hands; 3] = [
    Hands {
        workers: 2,
        from: 0,
        to: 1,
    },
    Hands {
        workers: 2,
        from: 1,
        to: 0,
    },
    Hands {
        workers: 3,
        from: 2,
        to: 1,
    },
];

#[test]
fn blocks_change_hands(rt: HostRuntime) -> Result<(), Fail> {
    for hands in HANDS {
        assert!(&rt; share(&rt, CellKind::Word, hands)?, "words, {hands:?}");
        assert!(&rt; share(&rt, CellKind::Box, hands)?, "boxes, {hands:?}");
    }
    Ok(())
}
