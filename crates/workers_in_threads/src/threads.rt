//! The first worker on the thread of the caller, each other in a thread of its own.
ghost use Rattle.std.specs.Prelude.{◌≡◌, ◌+◌, ◌<◌, ◌≤◌, [], IfOk, IfErr, IsSome, length, vec_capacity};
ghost use denote.Param.Send.{IsSend, IsSync, Frees};
ghost use Rattle.forwarding.specs.Passes.{AtEach};
ghost use Rattle.workers_in_threads.specs.Kits.{AreKits, AreBroughtBack, IsBroughtBack, IsKit};

use crate::kit::{Brought, Kit};
use crate::thread::work_apart;
use block_pool::Claims;
use forwarding::{Gate, SharedCells};
use heap::{Collection, Heap};
use idle_count::{Cause, Idle, Verdict, VerdictSeat};
use pending_queues::RuledPending;
use scavenge::Copies;
use std::alloc::{AllocError, Allocator};
use std::sync::Wait;
use std::thread;
use std::thread::{Promise, PromisedHandle, Threads};

/// What a thread promises: it brings back what this worker of so many brings, of what all share.
#[derive(Drop)]
pub struct OfShared<'a, S: SharedCells, A: Allocator> {
    heap: &'a Heap<A>,
    collection: &'a Collection<A>,
    cells: &'a S,
    claims: &'a Claims<A>,
    queues: &'a RuledPending<Copies<A>, A>,
    workers: u32,
    worker: u32,
}

impl<'a, S: SharedCells, A: Allocator> Promise<Brought<S::Pass, A>> for OfShared<'a, S, A> {
    ghost kept_by = { λ p r. IsBroughtBack (S.is_pass p.cells.now) S.known S.won
        p.heap.now p.collection.now p.claims.now p.queues.now p.workers p.worker r };
}

/// Waits for threads whose results are not wanted. They may wait for one that was not started, so they have to be told to leave
/// before. A scope waits until each of its threads has returned, but not until what it returned is dropped: so that memory
/// is given back before the scope ends.
fn dismissed<R: Threads, T: Drop, P: Promise<T>, A: Allocator>(
    rt: &R,
    handles: Vec<PromisedHandle<T, P>, A>,
    _voice: &VerdictSeat,
)
    requires told { IsSome _voice.now.known }
{
    for handle in handles {
        let _ = handle.join(rt);
    }
}

/// Tells threads to leave, and waits for them. The seat knows the verdict then.
fn given_up<R: Threads, T: Drop, P: Promise<T>, A: Allocator>(
    rt: &R,
    verdict: &Verdict,
    mut voice: VerdictSeat,
    handles: Vec<PromisedHandle<T, P>, A>,
) -> VerdictSeat
    requires voice { voice.name ≡ verdict.now.name }
    ensures told { IsSome result.known }
{
    verdict.raise(&mut voice, Cause::Refused);
    dismissed(rt, handles, &voice);
    voice
}

/// The work of the first kit on the caller's thread, and that of each other in a thread of its own. An error says that a
/// thread could not be started, or that memory ran out.
pub fn work_in_threads<
    R: Threads + Wait + Sync,
    S: SharedCells + Sync,
    G: Gate + Sync,
    A: Allocator + Clone + Send + Sync,
>(
    rt: &R,
    alloc: A,
    heap: &Heap<A>,
    collection: &Collection<A>,
    cells: &S,
    claims: &Claims<A>,
    queues: &RuledPending<Copies<A>, A>,
    idle: &Idle<A>,
    verdict: &Verdict,
    gate: &G,
    mut kits: Vec<Kit<S::Pass, A>, A>,
    voice: VerdictSeat,
) -> Result<Vec<Brought<S::Pass, A>, A>, AllocError>
    requires kits { AreKits (S.limit cells.now)
        (S.is_pass cells.now) S.won heap.now collection.now claims.now queues.now idle.now verdict.now
        (length kits.items) kits.items }
    requires few { length kits.items < 65536 }
    requires voice { voice.name ≡ verdict.now.name }
    ensures { IfOk result (λ v. (length v.items ≡ length kits.items) ×
        AreBroughtBack (S.is_pass cells.now) S.known S.won heap.now collection.now claims.now queues.now
        (length kits.items) v.items) }
{
    if kits.is_empty() {
        return Ok(Vec::new(alloc));
    }
    let workers = kits.len() as u32;
    let own = kits.remove(0);
    let mut handles = Vec::with_capacity(alloc, kits.len())?;
    let joined = thread::scope(
        thread::scope_env(),
        rt,
        |scope| -> Result<(Brought<S::Pass, A>, Vec<Brought<S::Pass, A>, A>), VerdictSeat>
            requires kits { AtEach (λ i. IsKit (S.limit cells.now)
                (S.is_pass cells.now) S.won heap.now collection.now claims.now queues.now idle.now verdict.now
                workers (1 + i)) kits.items }
            requires many { workers ≡ 1 + length kits.items }
            requires none { handles.items ≡ [] }
            requires room { length kits.items ≤ vec_capacity handles }
            requires own { IsKit (S.limit cells.now)
                (S.is_pass cells.now) S.won heap.now collection.now claims.now queues.now idle.now verdict.now
                workers own.seat.index own }
            requires first { own.seat.index ≡ 0 }
            requires voice { voice.name ≡ verdict.now.name }
            requires bounds { IsSync R.row × IsSync S.row × IsSync G.row × IsSync A.row × IsSend A.row ×
                IsSend S.Pass.row × Frees A.Allocator A.dealloc_token }
            ensures first { IfOk result (λ brought. IsBroughtBack
                (S.is_pass cells.entry.now) S.known S.won heap.entry.now collection.entry.now
                claims.entry.now queues.entry.now workers 0 brought.0) }
            ensures others { IfOk result (λ brought. (1 + length brought.1.items ≡ workers) × AtEach (λ i. IsBroughtBack
                (S.is_pass cells.entry.now) S.known S.won heap.entry.now collection.entry.now
                claims.entry.now queues.entry.now workers (1 + i)) brought.1.items) }
            ensures told { IfErr result (λ seat. IsSome seat.known) }
        {
            let others = kits.len();
            for kit in kits {
                let worker = kit.seat.index();
                let started = scope.spawn_with(
                    OfShared {
                        heap,
                        collection,
                        cells,
                        claims,
                        queues,
                        workers,
                        worker,
                    },
                    move || -> Brought<S::Pass, A>
                        requires { IsKit (S.limit cells.now)
                            (S.is_pass cells.now) S.won heap.now collection.now claims.now queues.now idle.now
                            verdict.now workers kit.seat.index kit }
                        ensures { IsBroughtBack
                            (S.is_pass cells.entry.now) S.known S.won heap.entry.now collection.entry.now
                            claims.entry.now queues.entry.now workers kit.seat.index result }
                    {
                        work_apart(
                            rt, heap, collection, cells, claims, queues, idle, verdict, gate,
                            workers, kit,
                        )
                    },
                );
                let Ok(handle) = started else {
                    break;
                };
                handles.push_reserved(handle);
            }
            if handles.len() < others {
                return Err(given_up(rt, verdict, voice, handles));
            }
            let first = work_apart(
                rt, heap, collection, cells, claims, queues, idle, verdict, gate, workers, own,
            );
            match thread::join_promised(rt, handles) {
                Ok(brought) => Ok((first, brought)),
                Err(failed) => Err(given_up(rt, verdict, voice, failed.value)),
            }
        },
    );
    let Ok((first, mut brought)) = joined else {
        return Err(AllocError);
    };
    brought.insert(0, first)?;
    Ok(brought)
}
