//! The ways to collect, and what each answers.
use crate::heaps::seen;
use collector::{CellKind, CollectError, ThreadsError, collect, collect_one};
use forwarding::OpenGate;
use heap::{Heap, Report, RootId};
use machine::{LookError, Machine, MachineError, SettleError};
use std::alloc::{AllocGlobal, Allocator};
use std::sync::Wait;
use std::test::Fail;
use std::thread::Threads;

/// What collects: one worker alone, two that take turns, or so many on threads of their own.
#[derive(Clone, Copy, Debug)]
pub(crate) enum Way {
    Alone,
    InTurn,
    OnThreads(u32, CellKind),
}

/// What a collection answers: how many objects it kept and freed, or what was wanting.
#[derive(Clone, Copy, Debug, PartialEq)]
pub(crate) enum Answer {
    Counts(u64, u64),
    NoMemory,
    HeapFull,
}

fn collected_alone<A: Allocator + Clone>(
    alloc: A,
    heap: &mut Heap<A>,
    generation: u64,
) -> Result<Answer, Fail> {
    match collect_one(alloc, heap, generation) {
        Ok(report) => Ok(Answer::Counts(report.kept, report.freed)),
        Err(CollectError::NoMemory) => Ok(Answer::NoMemory),
        Err(CollectError::HeapFull) => Ok(Answer::HeapFull),
        Err(error) => Err(Fail::from(error)),
    }
}

fn collected_in_turn<A: Allocator + Clone>(
    alloc: A,
    heap: &mut Heap<A>,
    generation: u64,
) -> Result<Answer, Fail> {
    let mut machine = match Machine::open(alloc.clone()?, heap, generation, 2) {
        Ok(machine) => machine,
        Err(MachineError::NoMemory) => return Ok(Answer::NoMemory),
        Err(error) => return Err(Fail::from(error)),
    };
    match machine.finish() {
        Ok(()) => {}
        Err(LookError::NoMemory) => return Ok(Answer::NoMemory),
        Err(LookError::HeapFull) => return Ok(Answer::HeapFull),
    }
    let settled = match machine.settle() {
        Ok(settled) => settled,
        Err(SettleError::NoMemory) => return Ok(Answer::NoMemory),
        Err(error) => return Err(Fail::from(error)),
    };
    match heap.commit(alloc, settled) {
        Ok(report) => Ok(Answer::Counts(report.kept, report.freed)),
        Err(_) => Ok(Answer::NoMemory),
    }
}

/// What a report tells. As many workers report as were asked for: where others do, the collection of those was thrown away, and one
/// worker carried it out.
fn counted<A: Allocator>(report: &Report<A>, n: u32) -> Result<Answer, Fail> {
    if report.workers.len() != n as usize {
        return Err(Fail::from("not as many workers as were asked for"));
    }
    Ok(Answer::Counts(report.kept, report.freed))
}

fn collected_on_threads<R: Threads + Wait + Sync + AllocGlobal, A: Allocator + Clone + Send + Sync>(
    rt: &R,
    alloc: A,
    heap: &mut Heap<A>,
    generation: u64,
    n: u32,
    kind: CellKind,
) -> Result<Answer, Fail> {
    match collect(rt, alloc, heap, generation, n, kind, &OpenGate) {
        Ok(report) => counted(&report, n),
        Err(ThreadsError::NoMemory) => Ok(Answer::NoMemory),
        Err(ThreadsError::HeapFull) => Ok(Answer::HeapFull),
        Err(error) => Err(Fail::from(error)),
    }
}

/// Collects this generation and all younger ones.
pub(crate) fn collected<R: Threads + Wait + Sync + AllocGlobal, A: Allocator + Clone + Send + Sync>(
    rt: &R,
    alloc: A,
    heap: &mut Heap<A>,
    generation: u64,
    way: Way,
) -> Result<Answer, Fail> {
    match way {
        Way::Alone => collected_alone(alloc, heap, generation),
        Way::InTurn => collected_in_turn(alloc, heap, generation),
        Way::OnThreads(n, kind) => collected_on_threads(rt, alloc, heap, generation, n, kind),
    }
}

/// What a heap is before a collection and after it, and what that answers.
#[derive(Drop)]
pub(crate) struct Ended {
    pub(crate) before: Vec<u8>,
    pub(crate) answer: Answer,
    pub(crate) after: Vec<u8>,
}

/// Collects, and tells what is seen of all that a root leads to.
pub(crate) fn end_of<R: Threads + Wait + Sync + AllocGlobal>(
    rt: &R,
    heap: &mut Heap,
    top: RootId,
    generation: u64,
    way: Way,
) -> Result<Ended, Fail> {
    let before = seen(rt.alloc(), rt.alloc(), heap, &[top])?;
    let answer = collected(rt, rt.alloc(), heap, generation, way)?;
    let after = seen(rt.alloc(), rt.alloc(), heap, &[top])?;
    Ok(Ended {
        before,
        answer,
        after,
    })
}
