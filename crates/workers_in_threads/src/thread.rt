//! What one thread does.
ghost use Rattle.workers_in_threads.specs.Kits.{IsKit, IsBroughtBack};

use crate::kit::{Brought, Kit};
use crate::sharing_worker::{SharingParts, SharingWorker};
use crate::supplying::supply;
use block_pool::Claims;
use forwarding::{Gate, Lent, SharedCells};
use heap::{Collection, Heap};
use idle_count::{Idle, Verdict};
use pending_queues::RuledPending;
use scavenge::Copies;
use std::alloc::Allocator;
use std::sync::Wait;

/// One worker's work, from its kit to what it brings back.
pub fn work_apart<R: Wait, S: SharedCells, G: Gate, A: Allocator + Clone>(
    rt: &R,
    heap: &Heap<A>,
    collection: &Collection<A>,
    cells: &S,
    claims: &Claims<A>,
    queues: &RuledPending<Copies<A>, A>,
    idle: &Idle<A>,
    verdict: &Verdict,
    gate: &G,
    workers: u32,
    kit: Kit<S::Pass, A>,
) -> Brought<S::Pass, A>
    requires { IsKit (S.limit cells.now)
        (S.is_pass cells.now) S.won heap.now collection.now claims.now queues.now idle.now verdict.now workers
        kit.seat.index kit }
    ensures { IsBroughtBack
        (S.is_pass cells.now) S.known S.won heap.now collection.now claims.now queues.now workers kit.seat.index
        result }
{
    let Kit {
        alloc,
        pass,
        draws,
        seat,
        mut workspace,
        spare,
        mut rest,
        mut voice,
    } = kit;
    supply(&alloc, collection, workers, &mut workspace, spare);
    let lent = Lent {
        cells,
        gate,
        worker: seat.index(),
    };
    let worker = SharingWorker::new(
        heap, collection, claims, queues, workers, lent, pass, draws, seat, workspace,
    );
    let (worker, outcome) = worker.run(rt, alloc, gate, idle, &mut rest, verdict, &mut voice);
    let SharingParts {
        cells: _,
        pass,
        draws,
        seat,
        workspace,
    } = worker.into_parts();
    Brought {
        outcome,
        pass,
        draws,
        seat,
        workspace,
        voice,
    }
}
