//! What the last of sixteen workers exports after another has come to rest is taken by that one: a gate holds them to that.
use crate::heaps::{heap_of, seen};
use collector::{CellKind, collect, collect_one};
use crossbeam_utils::Backoff;
use forwarding::{Gate, StepKind};
use heap::{Heap, Report, RootId, Sizes};
use std::alloc::{AllocGlobal, Global};
use std::process::Abort;
use std::sync::Wait;
use std::sync::atomic::{AtomicBool, Ordering};
use std::test::Fail;
use std::thread::Threads;

/// How many yields a worker waits at most.
const YIELDS: u32 = 10_000_000;

/// The worker that exports, the last one.
const FROM: u32 = 15;

/// The worker that takes.
const TO: u32 = 1;

/// Waits until the flag is up, or for so many yields. Then it lets go, and raises `late`, and nobody waits any more.
pub(crate) fn wait_for(flag: &AtomicBool, late: &AtomicBool) {
    let backoff = Backoff::new();
    for _yield in 0..YIELDS {
        if flag.load(Ordering::SeqCst) || late.load(Ordering::SeqCst) {
            return;
        }
        backoff.snooze();
    }
    late.store(true, Ordering::SeqCst);
}

/// Holds the last worker before its first export until worker 1 rests, and then until that one comes to a look at what it took. The
/// others take nothing before.
#[derive(Drop)]
struct Late {
    rested: AtomicBool,
    exported: AtomicBool,
    looked: AtomicBool,
    late: AtomicBool,
}

impl Late {
    fn new() -> Late {
        Late {
            rested: AtomicBool::new(false),
            exported: AtomicBool::new(false),
            looked: AtomicBool::new(false),
            late: AtomicBool::new(false),
        }
    }

    /// Whether worker 1 rested, and looked at something after that, not too late.
    fn came(&self) -> bool {
        self.rested.load(Ordering::SeqCst)
            && self.looked.load(Ordering::SeqCst)
            && !self.late.load(Ordering::SeqCst)
    }

    /// It has no slot any more when it rests, so a look after that is one at what it took.
    fn before_taker(&self, step: StepKind) {
        if step == StepKind::Poll {
            self.rested.store(true, Ordering::SeqCst);
        }
        if step == StepKind::Look && self.rested.load(Ordering::SeqCst) {
            self.looked.store(true, Ordering::SeqCst);
        }
    }

    fn before_exporter(&self, step: StepKind) {
        if self.exported.load(Ordering::SeqCst) {
            wait_for(&self.looked, &self.late);
        }
        if step == StepKind::Export {
            wait_for(&self.rested, &self.late);
            self.exported.store(true, Ordering::SeqCst);
        }
    }
}

impl Gate for Late {
    fn before(&self, worker: u32, step: StepKind) {
        if worker == TO {
            self.before_taker(step);
        } else if worker == FROM {
            self.before_exporter(step);
        } else if step == StepKind::Take {
            wait_for(&self.looked, &self.late);
        }
    }
}

/// Blocks of 16 words.
const SIZES: Sizes = Sizes {
    block_words: 16,
    blocks: 200,
    mutators: 1,
    nursery_blocks: 20,
    generations: 1,
    steps: 1,
};

/// One field more of the large object leads to an object that leads back.
fn add_spoke(heap: &mut Heap, large: RootId, field: u64) -> Result<(), Fail> {
    let object = heap.allocate(0, 1, 2)?;
    heap.put(object, 0, field)?;
    heap.store(object, 0, Some(large))?;
    heap.store(large, field, Some(object))?;
    heap.release(object)?;
    Ok(())
}

/// An object without pointers for each other worker, with a root, and a large one with 13 fields, each of which leads to an object
/// that leads back. Roots are dealt to workers in turn, so the large one's goes to the last.
fn add_ring(heap: &mut Heap) -> Result<RootId, Fail> {
    for _other in 0..FROM {
        let _root = heap.allocate(0, 0, 0)?;
    }
    let large = heap.allocate(0, 13, 0)?;
    for field in 0..13 {
        add_spoke(heap, large, field)?;
    }
    Ok(large)
}

/// Whether a block went from the last worker to worker 1.
fn is_handed_on(report: &Report) -> bool {
    for delivery in report.deliveries.iter() {
        if delivery.exporter == FROM && delivery.taker == TO {
            return true;
        }
    }
    false
}

/// What one worker leaves of the ring.
fn left_in_one(alloc: Global, heap: &mut Heap) -> Result<Vec<u8>, Fail> {
    let large = add_ring(heap)?;
    let _report = collect_one(alloc, heap, 0)?;
    seen(alloc, alloc, heap, &[large])
}

/// The same, of a heap of its own.
fn left_by_one(alloc: Global) -> Result<Vec<u8>, Fail> {
    let mut heap = heap_of(alloc, SIZES)?;
    left_in_one(alloc, &mut heap)
}

/// What all workers leave of the ring, and whether a block went from the last to worker 1.
fn left_in_all<R: Threads + Wait + Sync + AllocGlobal>(
    rt: &R,
    heap: &mut Heap,
    kind: CellKind,
    gate: &Late,
) -> Result<(Vec<u8>, bool), Fail> {
    let large = add_ring(heap)?;
    let report = collect(rt, rt.alloc(), heap, 0, FROM + 1, kind, gate)?;
    Ok((
        seen(rt.alloc(), rt.alloc(), heap, &[large])?,
        is_handed_on(&report),
    ))
}

/// The same, of a heap of its own.
fn left_by_all<R: Threads + Wait + Sync + AllocGlobal>(
    rt: &R,
    kind: CellKind,
    gate: &Late,
) -> Result<(Vec<u8>, bool), Fail> {
    let mut heap = heap_of(rt.alloc(), SIZES)?;
    left_in_all(rt, &mut heap, kind, gate)
}

/// Asserts that worker 1 takes what the last one exports, and that all is as one worker leaves it.
fn assert_taken<R: Threads + Wait + Sync + AllocGlobal + Abort>(
    rt: &R,
    kind: CellKind,
) -> Result<(), Fail> {
    let gate = Late::new();
    let (left, is_taken) = left_by_all(rt, kind, &gate)?;
    assert!(rt; is_taken && gate.came(), "{kind:?}");
    assert!(rt; left == left_by_one(rt.alloc())?, "{kind:?}");
    Ok(())
}

#[test]
fn late_work_is_taken(rt: HostRuntime) -> Result<(), Fail> {
    assert_taken(&rt, CellKind::Word)?;
    assert_taken(&rt, CellKind::Box)
}
