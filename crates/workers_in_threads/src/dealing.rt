//! What each worker takes to its thread, of the seats and passes that all share.
ghost use Rattle.std.specs.Prelude.{◌≡◌, ◌<◌, ◌≤◌, All, IfOk, [], length};
ghost use Rattle.forwarding.specs.Passes.{AtEach};
ghost use Rattle.block_pool.specs.ClaimsValue.{unused};
ghost use Rattle.idle_count.specs.IdleValue.{busy};
ghost use Rattle.idle_count.specs.VerdictValue.{untold};
ghost use Rattle.pending_queues.specs.PendingValue.{new_seats};
ghost use Rattle.workers_in_threads.specs.Kits.{IsShared, AreKits};

use crate::kit::Kit;
use crate::packing::pack;
use block_pool::{ClaimSeat, Claims};
use forwarding::SharedCells;
use heap::{Collection, Heap, Spare};
use idle_count::{Idle, IdleSeat, Verdict, VerdictSeat};
use pending_queues::{PendingSeat, RuledPending};
use scavenge::Copies;
use std::alloc::{AllocError, Allocator, Global};

/// A kit for each worker: its pass, one of each kind of seats, and its share of the spare memory. An error says that memory
/// ran out.
pub fn dealt<S: SharedCells, A: Allocator + Clone>(
    alloc: A,
    heap: &Heap<A>,
    collection: &Collection<A>,
    cells: &S,
    claims: &Claims<A>,
    queues: &RuledPending<Copies<A>, A>,
    idle: &Idle<A>,
    verdict: &Verdict,
    workers: u32,
    passes: Vec<S::Pass, A>,
    mut draws: Vec<ClaimSeat, A>,
    seats: Vec<PendingSeat<Copies<A>, A>, A>,
    mut rests: Vec<IdleSeat, A>,
    mut voices: Vec<VerdictSeat, Global>,
    mut spare: Spare<A>,
) -> Result<Vec<Kit<S::Pass, A>, A>, AllocError>
    requires shared { IsShared heap.now collection.now claims.now queues.now workers }
    requires few { workers < 65536 }
    requires cells { collection.now.cells ≤ S.limit cells.now }
    requires many { length passes.items ≡ workers }
    requires passes { AtEach (S.is_pass cells.now) passes.items × All (λ p. S.won p ≡ []) passes.items }
    requires draws { All (λ s. s ≡ unused claims.now.source) draws.items × (workers ≤ length draws.items) }
    requires seats { seats.items ≡ new_seats queues.now workers }
    requires rests { All (λ s. s ≡ busy idle.now) rests.items × (workers ≤ length rests.items) }
    requires voices { All (λ s. s ≡ untold verdict.now) voices.items × (workers ≤ length voices.items) }
    ensures many { IfOk result (λ ks. length ks.items ≡ workers) }
    ensures kits { IfOk result
        (λ ks. AreKits (S.limit cells.now)
        (S.is_pass cells.now) S.won heap.now collection.now claims.now queues.now idle.now verdict.now workers
        ks.items) }
{
    let share = (spare.block_count() / (workers as usize).max(1)).saturating_add(1);
    let mut kits = Vec::with_capacity(alloc.clone()?, workers as usize)?;
    let mut places = seats.into_iter();
    for pass in passes {
        let number = kits.len() as u32;
        let Some(seat) = places.next() else {
            unreachable!();
        };
        let Some(own_draws) = draws.pop() else {
            unreachable!();
        };
        let Some(rest) = rests.pop() else {
            unreachable!();
        };
        let Some(voice) = voices.pop() else {
            unreachable!();
        };
        let part = spare.split(alloc.clone()?, share)?;
        kits.push_reserved(pack(
            &alloc, heap, collection, cells, claims, queues, idle, verdict, workers, number, pass,
            own_draws, seat, rest, voice, part,
        )?);
    }
    Ok(kits)
}
