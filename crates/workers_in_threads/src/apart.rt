//! A collection by workers on threads of their own, from the passes of its cells to what all bring back.
ghost use Rattle.std.specs.Prelude.{◌≡◌, ◌<◌, ◌≤◌, All, IfOk, [], length};
ghost use Rattle.forwarding.specs.Passes.{AtEach};
ghost use Rattle.scavenge.specs.ReadyToCollect.{IsReadyToCollect};
ghost use Rattle.workers_in_threads.specs.CameBack.{CameBack};

use crate::dealing::dealt;
use crate::separating::{Apart, separated};
use crate::threads::work_in_threads;
use block_pool::Claims;
use forwarding::{Gate, SharedCells};
use heap::{Collection, Heap, Spare};
use idle_count::{Idle, Verdict};
use pending_queues::RuledPending;
use scavenge::CopiesKey;
use std::alloc::{AllocError, AllocGlobal, Allocator};
use std::sync::Wait;
use std::thread::Threads;

/// The most workers that share a collection.
pub const MOST_WORKERS: u32 = 16;

/// A worker for each pass of the cells, the first on the caller's thread and each other on one of its own, among whom the spare
/// memory is divided; all are joined. An error says that a thread could not be started, or that memory ran out before they
/// were or once all had come back.
pub fn scavenged_apart<
    R: Threads + Wait + Sync + AllocGlobal,
    S: SharedCells + Sync,
    G: Gate + Sync,
    A: Allocator + Clone + Send + Sync,
>(
    rt: &R,
    alloc: A,
    heap: &Heap<A>,
    collection: &Collection<A>,
    cells: &S,
    passes: Vec<S::Pass, A>,
    gate: &G,
    spare: Spare<A>,
) -> Result<Apart<S::Pass, A>, AllocError>
    requires ready { IsReadyToCollect heap.now collection.now }
    requires some { 0 < length passes.items }
    requires few { length passes.items ≤ 16 }
    requires cells { collection.now.cells ≤ S.limit cells.now }
    requires passes { AtEach (S.is_pass cells.now) passes.items }
    requires won_none { All (λ p. S.won p ≡ []) passes.items }
    ensures { IfOk result
        (λ a. CameBack (S.is_pass cells.now) S.known S.won heap.now collection.now
        (length passes.items) a.ending a.passes.items a.seats.claims a.seats.queues a.seats.draws.items
        a.seats.seats.items a.seats.workspaces.items) }
{
    let workers = passes.len() as u32;
    let (claims, draws) = Claims::new(alloc.clone()?, collection.free().share()?, workers)?;
    let key = CopiesKey::new(heap, collection.generation());
    let (queues, seats) = RuledPending::new(alloc.clone()?, workers, &key)?;
    let (idle, rests) = Idle::new(alloc.clone()?, workers)?;
    let (verdict, mut voices) = Verdict::new(rt.alloc(), workers + 1)?;
    let Some(own) = voices.pop() else {
        unreachable!();
    };
    let kits = dealt(
        alloc.clone()?,
        heap,
        collection,
        cells,
        &claims,
        &queues,
        &idle,
        &verdict,
        workers,
        passes,
        draws,
        seats,
        rests,
        voices,
        spare,
    )?;
    let brought = work_in_threads(
        rt,
        alloc.clone()?,
        heap,
        collection,
        cells,
        &claims,
        &queues,
        &idle,
        &verdict,
        gate,
        kits,
        own,
    )?;
    let apart = separated(alloc, claims, queues, brought)?;
    Ok(apart)
}
