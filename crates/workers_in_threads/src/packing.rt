//! What each worker takes to its thread.
ghost use Rattle.std.specs.Prelude.{◌≡◌, ◌<◌, ◌≤◌, IfOk, [], false};
ghost use Rattle.block_pool.specs.ClaimsValue.{unused};
ghost use Rattle.idle_count.specs.IdleValue.{IsSeatOf};
ghost use Rattle.pending_queues.specs.PendingValue.{new_seat};
ghost use Rattle.workers_in_threads.specs.Kits.{IsShared, IsKit};

use crate::kit::Kit;
use block_pool::{ClaimSeat, Claims};
use forwarding::SharedCells;
use heap::{Collection, Heap, Spare};
use idle_count::{Idle, IdleSeat, Verdict, VerdictSeat};
use pending_queues::{PendingSeat, RuledPending};
use scavenge::{Copies, Workspace};
use std::alloc::{AllocError, Allocator};

/// What worker `number` of `workers` takes to its thread. An error says that memory ran out.
pub fn pack<S: SharedCells, A: Allocator + Clone>(
    alloc: &A,
    heap: &Heap<A>,
    collection: &Collection<A>,
    cells: &S,
    claims: &Claims<A>,
    queues: &RuledPending<Copies<A>, A>,
    idle: &Idle<A>,
    verdict: &Verdict,
    workers: u32,
    number: u32,
    pass: S::Pass,
    draws: ClaimSeat,
    seat: PendingSeat<Copies<A>, A>,
    rest: IdleSeat,
    voice: VerdictSeat,
    spare: Spare<A>,
) -> Result<Kit<S::Pass, A>, AllocError>
    requires shared { IsShared heap.now collection.now claims.now queues.now workers }
    requires member { number < workers }
    requires few { workers < 65536 }
    requires cells { collection.now.cells ≤ S.limit cells.now }
    requires pass { S.is_pass cells.now number pass × (S.won pass ≡ []) }
    requires draws { draws ≡ unused claims.now.source }
    requires seat { seat ≡ new_seat queues.now number }
    requires rest { IsSeatOf idle.now rest × (rest.idle ≡ false) }
    requires voice { voice.name ≡ verdict.now.name }
    requires silent { voice.won ≡ false }
    ensures { IfOk result
        (λ k. IsKit (S.limit cells.now)
        (S.is_pass cells.now) S.won heap.now collection.now claims.now queues.now idle.now verdict.now workers
        number k) }
{
    let workspace = Workspace::new(alloc.clone()?, heap, collection, number, workers)?;
    let alloc = alloc.clone()?;
    Ok(Kit {
        alloc,
        pass,
        draws,
        seat,
        workspace,
        spare,
        rest,
        voice,
    })
}
