//! Memory that a collection by threads gave up is the next one's.
use crate::heaps::{add_tree, heap_of, sizes_for};
use crate::on_threads::late_work::wait_for;
use crate::refused::trials::{MANY, outstanding};
use crate::ways::{Way, collected};
use collector::{CellKind, Crew, collect};
use forwarding::{Gate, OpenGate, StepKind};
use heap::{Heap, RootId, Sizes};
use refusing::Refusing;
use std::alloc::{AllocGlobal, Global};
use std::process::Abort;
use std::sync::Wait;
use std::sync::atomic::{AtomicBool, Ordering};
use std::test::Fail;
use std::thread::Threads;

/// A heap that counts its requests.
type Counting<'a> = Heap<&'a Refusing<Global>>;

/// How many requests for memory a collection by so many workers takes.
fn asked<'a, R: Threads + Wait + Sync + AllocGlobal>(
    rt: &R,
    refusing: &'a Refusing<Global>,
    heap: &mut Counting<'a>,
    workers: u32,
    kind: CellKind,
) -> Result<u64, Fail> {
    let before = refusing.asked();
    let way = Way::OnThreads(workers, kind);
    let _answer = collected(rt, refusing, heap, 0, way)?;
    Ok(refusing.asked().saturating_sub(before))
}

/// Asserts what is spare once nothing lives: two threads take no block then, so those that they were dealt come back, and with the 50
/// of the dead ones are more than are kept. In use are the nursery's 51, and a quarter more are kept.
fn assert_unused_kept<'a, R: Threads + Wait + Sync + AllocGlobal + Abort>(
    rt: &R,
    refusing: &'a Refusing<Global>,
    heap: &mut Counting<'a>,
    top: RootId,
    kind: CellKind,
) -> Result<(), Fail> {
    heap.release(top)?;
    let _of_none = asked(rt, refusing, heap, 2, kind)?;
    assert_eq!(rt; heap.spare_blocks(), 63);
    Ok(())
}

/// Asserts that two threads make use of the 50 blocks that the copies of 600 objects took before, each of its half. Two requests
/// make a block; one worker alone may have copied all.
fn assert_used_again<'a, R: Threads + Wait + Sync + AllocGlobal + Abort>(
    rt: &R,
    refusing: &'a Refusing<Global>,
    heap: &mut Counting<'a>,
    kind: CellKind,
) -> Result<(), Fail> {
    let top = add_tree(refusing, heap, 600)?;
    let _of_nursery = asked(rt, refusing, heap, 2, kind)?;
    let anew = asked(rt, refusing, heap, 2, kind)?;
    let again = asked(rt, refusing, heap, 2, kind)?;
    assert!(rt; anew >= 100, "{anew}");
    assert!(rt; again.saturating_add(32) <= anew, "{again} {anew}");
    assert_unused_kept(rt, refusing, heap, top, kind)
}

/// The same of a new heap.
fn assert_used_by_new<R: Threads + Wait + Sync + AllocGlobal + Abort>(
    rt: &R,
    refusing: &Refusing<Global>,
    kind: CellKind,
) -> Result<(), Fail> {
    let mut heap = heap_of(refusing, sizes_for(600, 200))?;
    assert_used_again(rt, refusing, &mut heap, kind)
}

#[test]
fn blocks_given_up_are_dealt_to_threads(rt: HostRuntime) -> Result<(), Fail> {
    for kind in [CellKind::Word, CellKind::Box] {
        let refusing = Refusing::new(rt.alloc(), MANY);
        assert_used_by_new(&rt, &refusing, kind)?;
        assert_eq!(&rt; outstanding(&refusing), 0);
    }
    Ok(())
}

/// Holds the first of two workers before each of its steps until the other one rests.
#[derive(Drop)]
struct FirstHeld {
    rested: AtomicBool,
    late: AtomicBool,
}

impl Gate for FirstHeld {
    fn before(&self, worker: u32, step: StepKind) {
        if worker == 0 {
            wait_for(&self.rested, &self.late);
        } else if step == StepKind::Poll {
            self.rested.store(true, Ordering::SeqCst);
        }
    }
}

/// How many requests for memory a collection by two threads takes, of which the first does nothing until the other one rests.
fn asked_by_second<'a, R: Threads + Wait + Sync + AllocGlobal + Abort>(
    rt: &R,
    refusing: &'a Refusing<Global>,
    heap: &mut Counting<'a>,
) -> Result<u64, Fail> {
    let gate = FirstHeld {
        rested: AtomicBool::new(false),
        late: AtomicBool::new(false),
    };
    let before = refusing.asked();
    let _report = collect(rt, refusing, heap, 0, 2, CellKind::Word, &gate)?;
    assert!(rt; !gate.late.load(Ordering::SeqCst));
    Ok(refusing.asked().saturating_sub(before))
}

/// Asserts that the second of two threads, whose root leads to all objects but one, makes use of its half of the 50 blocks that were
/// given up: two requests make a block.
fn assert_half_used<'a, R: Threads + Wait + Sync + AllocGlobal + Abort>(
    rt: &R,
    refusing: &'a Refusing<Global>,
    heap: &mut Counting<'a>,
) -> Result<(), Fail> {
    let _of_first = heap.allocate(0, 0, 0)?;
    let _of_second = add_tree(refusing, heap, 600)?;
    let _of_nursery = asked_by_second(rt, refusing, heap)?;
    let anew = asked_by_second(rt, refusing, heap)?;
    let again = asked_by_second(rt, refusing, heap)?;
    assert!(rt; anew >= 100, "{anew}");
    assert!(rt; again.saturating_add(48) <= anew, "{again} {anew}");
    Ok(())
}

/// The same of a new heap.
fn assert_half_used_by_new<R: Threads + Wait + Sync + AllocGlobal + Abort>(
    rt: &R,
    refusing: &Refusing<Global>,
) -> Result<(), Fail> {
    let mut heap = heap_of(refusing, sizes_for(601, 200))?;
    assert_half_used(rt, refusing, &mut heap)
}

#[test]
fn each_thread_has_its_part_of_the_blocks_given_up(rt: HostRuntime) -> Result<(), Fail> {
    let refusing = Refusing::new(rt.alloc(), MANY);
    assert_half_used_by_new(&rt, &refusing)?;
    assert_eq!(&rt; outstanding(&refusing), 0);
    Ok(())
}

/// Asserts that one worker, whom `collect` starts no thread for, makes use of all 50 blocks.
fn assert_all_used<'a, R: Threads + Wait + Sync + AllocGlobal + Abort>(
    rt: &R,
    refusing: &'a Refusing<Global>,
    heap: &mut Counting<'a>,
) -> Result<(), Fail> {
    let _top = add_tree(refusing, heap, 600)?;
    let _of_nursery = asked(rt, refusing, heap, 1, CellKind::Word)?;
    let anew = asked(rt, refusing, heap, 1, CellKind::Word)?;
    let again = asked(rt, refusing, heap, 1, CellKind::Word)?;
    assert!(rt; again.saturating_add(100) <= anew, "{again} {anew}");
    Ok(())
}

/// The same of a new heap.
fn assert_all_used_by_new<R: Threads + Wait + Sync + AllocGlobal + Abort>(
    rt: &R,
    refusing: &Refusing<Global>,
) -> Result<(), Fail> {
    let mut heap = heap_of(refusing, sizes_for(600, 200))?;
    assert_all_used(rt, refusing, &mut heap)
}

#[test]
fn blocks_given_up_are_those_of_a_worker_alone(rt: HostRuntime) -> Result<(), Fail> {
    let refusing = Refusing::new(rt.alloc(), MANY);
    assert_all_used_by_new(&rt, &refusing)?;
    assert_eq!(&rt; outstanding(&refusing), 0);
    Ok(())
}

/// Asserts that so many threads, who take no block where nothing lives, are dealt all 50 that are spare: none of them is given back,
/// and the 50 of the dead ones are spare too. In use are the 102 of two nurseries, and a quarter more are kept.
fn assert_dealt_whole<'a, R: Threads + Wait + Sync + AllocGlobal + Abort>(
    rt: &R,
    refusing: &'a Refusing<Global>,
    heap: &mut Counting<'a>,
    workers: u32,
    kind: CellKind,
) -> Result<(), Fail> {
    let top = add_tree(refusing, heap, 600)?;
    let _of_nursery = asked(rt, refusing, heap, 1, kind)?;
    let _anew = asked(rt, refusing, heap, 1, kind)?;
    assert_eq!(rt; heap.spare_blocks(), 50);
    heap.release(top)?;
    let _of_none = asked(rt, refusing, heap, workers, kind)?;
    assert_eq!(rt; heap.spare_blocks(), 100, "{workers} workers, {kind:?}");
    // Where nothing is collected they are put in no order, and none of them is given back either.
    let _of_nothing = asked(rt, refusing, heap, workers, kind)?;
    assert_eq!(rt; heap.spare_blocks(), 100, "{workers} workers, {kind:?}");
    Ok(())
}

/// The same of a new heap.
fn assert_dealt_whole_by_new<R: Threads + Wait + Sync + AllocGlobal + Abort>(
    rt: &R,
    refusing: &Refusing<Global>,
    workers: u32,
    kind: CellKind,
) -> Result<(), Fail> {
    let sizes = Sizes {
        mutators: 2,
        ..sizes_for(600, 251)
    };
    let mut heap = heap_of(refusing, sizes)?;
    assert_dealt_whole(rt, refusing, &mut heap, workers, kind)
}

#[test]
fn all_spare_blocks_are_dealt(rt: HostRuntime) -> Result<(), Fail> {
    let refusing = Refusing::new(rt.alloc(), MANY);
    for workers in [2, 3, 16] {
        assert_dealt_whole_by_new(&rt, &refusing, workers, CellKind::Word)?;
        assert_dealt_whole_by_new(&rt, &refusing, workers, CellKind::Box)?;
    }
    assert_eq!(&rt; outstanding(&refusing), 0);
    Ok(())
}

/// Makes 600 objects and gives them up.
fn add_dead<'a>(heap: &mut Counting<'a>) -> Result<(), Fail> {
    for _object in 0..600 {
        let root = heap.allocate(0, 3, 1)?;
        heap.release(root)?;
    }
    Ok(())
}

/// How many requests for memory a collection of 600 dead objects by two threads takes. No worker has anything to do in it, so it
/// doesn't matter which of them begins first.
fn asked_of_dead<'a, R: Threads + Wait + Sync + AllocGlobal>(
    rt: &R,
    refusing: &'a Refusing<Global>,
    heap: &mut Counting<'a>,
    kind: CellKind,
) -> Result<u64, Fail> {
    add_dead(heap)?;
    let before = refusing.asked();
    let _report = Crew::new(rt, 2, kind, &OpenGate).collect(refusing, heap, 0)?;
    Ok(refusing.asked().saturating_sub(before))
}

/// Asserts that words are laid out from what the words of the collection before left, and so ask for one list less; and that
/// boxes, which take their memory from the runtime's allocator, ask this one for less.
fn assert_cells_used<'a, R: Threads + Wait + Sync + AllocGlobal + Abort>(
    rt: &R,
    refusing: &'a Refusing<Global>,
    heap: &mut Counting<'a>,
) -> Result<(), Fail> {
    let anew = asked_of_dead(rt, refusing, heap, CellKind::Word)?;
    let again = asked_of_dead(rt, refusing, heap, CellKind::Word)?;
    let of_boxes = asked_of_dead(rt, refusing, heap, CellKind::Box)?;
    assert_eq!(rt; anew, again.saturating_add(1));
    assert!(rt; of_boxes < again, "{of_boxes} {again}");
    Ok(())
}

/// The same of a new heap.
fn assert_cells_used_by_new<R: Threads + Wait + Sync + AllocGlobal + Abort>(
    rt: &R,
    refusing: &Refusing<Global>,
) -> Result<(), Fail> {
    let mut heap = heap_of(refusing, sizes_for(600, 200))?;
    assert_cells_used(rt, refusing, &mut heap)
}

#[test]
fn cells_that_threads_shared_are_used_again(rt: HostRuntime) -> Result<(), Fail> {
    let refusing = Refusing::new(rt.alloc(), MANY);
    assert_cells_used_by_new(&rt, &refusing)?;
    assert_eq!(&rt; outstanding(&refusing), 0);
    Ok(())
}
