//! What the workers, who all ended, bring to the commit of their collection.
ghost use Rattle.std.specs.Prelude.{◌≡◌, ◌<◌, ◌≤◌, IfOk, length};
ghost use Rattle.steps.specs.ReportValue.{all_won};
ghost use Rattle.steps.specs.SettledValue.{IsSettled};
ghost use Rattle.settling.specs.Collects.{ScansOnce};
ghost use Rattle.workers_in_threads.specs.declared.sharing_worker.resting.Outcome.TheVariants.{Ended};
ghost use Rattle.workers_in_threads.specs.CameBack.{ArePlaced};
ghost use Rattle.workers_in_threads.specs.Reports.{ReportsApart};

use crate::separating::Seats;
use forwarding::{Forwards, SharedCells};
use heap::{Collection, Heap, Settled};
use settling::{JoinedParts, all_delivered, brought, show_large};
use std::alloc::{AllocError, Allocator};
use std::sync::Wait;

/// What the workers bring to the commit of their collection, where all ended and the cells gave these places. An error says
/// that memory ran out.
pub fn gathered<R: Wait, S: SharedCells, A: Allocator + Clone>(
    rt: &R,
    alloc: A,
    heap: &Heap<A>,
    collection: Collection<A>,
    seats: Seats<A>,
    mut places: Forwards<A>,
) -> Result<Settled<A>, AllocError>
    requires some { 0 < length seats.workspaces.items }
    requires few { length seats.workspaces.items ≤ 16 }
    requires placed { ArePlaced S.is_pass S.known S.won heap.now collection
        (length seats.workspaces.items) Ended seats.claims seats.queues seats.draws.items seats.seats.items
        seats.workspaces.items places }
    ensures settled { IfOk result
        (λ s. IsSettled heap.now s.collection s.places s.blocks.items (all_won s.workers.items)) }
    ensures collection { IfOk result (λ s. s.collection ≡ collection) }
    ensures once { IfOk result (λ s. ScansOnce heap.now collection.generation s.workers.items) }
    ensures apart { IfOk result
        (λ s. ReportsApart heap.now collection.generation
        (length seats.workspaces.items) s.workers.items s.deliveries.items) }
{
    let Seats {
        claims,
        draws,
        queues,
        seats,
        workspaces,
    } = seats;
    let workers = workspaces.len() as u32;
    let _drawn = claims.close(draws);
    let JoinedParts {
        reports,
        blocks,
        large,
        spare,
    } = brought(alloc.clone()?, heap, &collection, workspaces)?;
    let told = queues.close(rt, alloc.clone()?, seats)?;
    show_large(heap, &collection, &mut places, &large);
    let deliveries = all_delivered(alloc, &told, workers)?;
    Ok(Settled {
        collection,
        places,
        blocks,
        workers: reports,
        deliveries,
        spare,
    })
}
