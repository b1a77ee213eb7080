//! The gate is called before a race and a look, and not after them, and is told that a refused worker tells the others.
use crate::meetings::order::Order;
use crate::meetings::sharing::{two_objects, won_by};
use crate::meetings::turns::{Hold, Turns};
use collector::{CellKind, ThreadsError, collect};
use forwarding::StepKind;
use heap::{Heap, Sizes};
use std::alloc::{AllocGlobal, Global};
use std::process::Abort;
use std::sync::Wait;
use std::test::Fail;
use std::thread::Threads;

/// A heap with an object for each of two workers, and then one that has a root for each of them. The first ones open blocks
/// for copies, so that the look at the last one is the one that decides whether it is raced for.
fn shared_object(alloc: Global) -> Result<Heap, Fail> {
    let mut heap = two_objects(alloc, Sizes::default())?;
    let root = heap.allocate(0, 1, 0)?;
    heap.store(root, 0, Some(root))?;
    let _other = heap.load(root, 0)?;
    heap.store(root, 0, None)?;
    Ok(heap)
}

/// Whether two workers, each with an object of its own and then the same one, run so many races and win so many at this gate.
fn go<R: Threads + Wait + Sync + AllocGlobal>(
    rt: &R,
    kind: CellKind,
    gate: &Turns,
    races: (u64, u64),
    won: (u64, u64),
) -> Result<bool, Fail> {
    let mut heap = shared_object(rt.alloc())?;
    let report = collect(rt, rt.alloc(), &mut heap, 0, 2, kind, gate)?;
    Ok(gate.races() == Some(races) && (won_by(&report, 0), won_by(&report, 1)) == won)
}

/// Whether a worker that is held before its race loses it to one that looks and races meanwhile.
fn loses<R: Threads + Wait + Sync + AllocGlobal>(rt: &R, kind: CellKind) -> Result<bool, Fail> {
    let first = Hold {
        before: StepKind::Look,
        until: StepKind::Race,
    };
    let second = Hold {
        before: StepKind::Race,
        until: StepKind::Idle,
    };
    go(rt, kind, &Turns::new(first, second), (2, 2), (2, 1))
}

#[test]
fn gate_comes_before_a_race(rt: HostRuntime) -> Result<(), Fail> {
    assert!(&rt; loses(&rt, CellKind::Word)?, "words");
    assert!(&rt; loses(&rt, CellKind::Box)?, "boxes");
    Ok(())
}

/// Whether a worker that is held before its look sees what one forwards that looks and races meanwhile, and doesn't race.
fn sees<R: Threads + Wait + Sync + AllocGlobal>(rt: &R, kind: CellKind) -> Result<bool, Fail> {
    let first = Hold {
        before: StepKind::Look,
        until: StepKind::Idle,
    };
    let second = Hold {
        before: StepKind::Look,
        until: StepKind::Look,
    };
    go(rt, kind, &Turns::new(first, second), (1, 2), (1, 2))
}

#[test]
fn gate_comes_before_a_look(rt: HostRuntime) -> Result<(), Fail> {
    assert!(&rt; sees(&rt, CellKind::Word)?, "words");
    assert!(&rt; sees(&rt, CellKind::Box)?, "boxes");
    Ok(())
}

/// Two workers with an object each, where no block is free.
fn full<R: Threads + Wait + Sync + AllocGlobal>(
    rt: &R,
    kind: CellKind,
    gate: &Order,
) -> Result<bool, Fail> {
    let sizes = Sizes {
        blocks: 1,
        nursery_blocks: 1,
        ..Sizes::default()
    };
    let mut heap = two_objects(rt.alloc(), sizes)?;
    let result = collect(rt, rt.alloc(), &mut heap, 0, 2, kind, gate);
    Ok(matches!(result, Err(ThreadsError::HeapFull)))
}

/// Whether both workers tell of a verdict last, where both want a block that isn't there.
fn tell_of_a_verdict<R: Threads + Wait + Sync + AllocGlobal>(
    rt: &R,
    kind: CellKind,
) -> Result<bool, Fail> {
    let gate = Order::new();
    Ok(full(rt, kind, &gate)? && gate.is_ended_by(2, StepKind::Verdict))
}

#[test]
fn gate_comes_before_a_refusal(rt: HostRuntime) -> Result<(), Fail> {
    assert!(&rt; tell_of_a_verdict(&rt, CellKind::Word)?, "words");
    assert!(&rt; tell_of_a_verdict(&rt, CellKind::Box)?, "boxes");
    Ok(())
}
