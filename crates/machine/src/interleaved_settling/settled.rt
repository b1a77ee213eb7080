//! What the workers bring to the commit of their collection.
ghost use Rattle.std.specs.Prelude.{◌≡◌, ◌↔◌, Err, IfOk, OnOk, map};
ghost use Rattle.steps.specs.ReportValue.{all_won};
ghost use Rattle.steps.specs.SettledValue.{IsSettled};
ghost use Rattle.workers.specs.Lawful.{AllEnded};
ghost use Rattle.machine.specs.InterleavedValue.{system_of};
ghost use Rattle.machine.specs.IsInterleaved.{HasReached};
ghost use Rattle.settling.specs.Collects.{ScansOnce};
ghost use Rattle.settling.specs.Together.{Reports};

use crate::interleaved_settling::settle_error::SettleError;
use crate::workers_in_turn::{InterleavedCollection, InterleavedParts, Member};
use heap::{Collection, Heap, Settled};
use scavenge::Workspace;
use settling::{JoinedParts, all_delivered, brought, show_large};
use std::alloc::{AllocError, Allocator};

/// The members' own parts, in order.
fn workspaces_of<A: Allocator>(
    alloc: A,
    members: Vec<Member<A>, A>,
) -> Result<Vec<Workspace<A>, A>, AllocError>
    ensures { IfOk result (λ v. v.items ≡ map (λ m. m.workspace) members.items) }
{
    let mut workspaces = Vec::new(alloc);
    for member in members {
        let (_, workspace) = member.into_parts();
        workspaces.push(workspace)?;
    }
    Ok(workspaces)
}

/// What the workers, who all ended, bring to the commit of their collection. An error says that memory ran out.
fn gathered<A: Allocator + Clone>(
    alloc: A,
    heap: &Heap<A>,
    collection: Collection<A>,
    workers: InterleavedCollection<A>,
) -> Result<Settled<A>, AllocError>
    requires heap { heap.now ≡ workers.heap }
    requires collection { collection ≡ workers.collection }
    requires ended { AllEnded (system_of workers) }
    ensures settled { IfOk result
        (λ s. IsSettled workers.heap s.collection s.places s.blocks.items (all_won s.workers.items)) }
    ensures collection { IfOk result (λ s. s.collection ≡ workers.collection) }
    ensures once { IfOk result (λ s. ScansOnce workers.heap workers.collection.generation s.workers.items) }
    ensures reports { IfOk result
        (λ s. Reports workers.heap workers.collection.generation
        (system_of workers) s.workers.items s.deliveries.items) }
    ensures reached { OnOk result (HasReached workers) }
{
    let InterleavedParts {
        cells,
        pass,
        queues,
        members,
    } = workers.into_parts();
    let n = members.len() as u32;
    let workspaces = workspaces_of(alloc.clone()?, members)?;
    let JoinedParts {
        reports,
        blocks,
        large,
        spare,
    } = brought(alloc.clone()?, heap, &collection, workspaces)?;
    let mut places = cells.settle_alone(pass);
    show_large(heap, &collection, &mut places, &large);
    let told = queues.close(alloc.clone()?, Vec::new(alloc.clone()?))?;
    let deliveries = all_delivered(alloc, &told, n)?;
    Ok(Settled {
        collection,
        places,
        blocks,
        workers: reports,
        deliveries,
        spare,
    })
}

/// What the workers bring to the commit of their collection. An error says that some worker hasn't ended, or that memory ran
/// out.
pub fn settle<A: Allocator + Clone>(
    alloc: A,
    heap: &Heap<A>,
    collection: Collection<A>,
    workers: InterleavedCollection<A>,
) -> Result<Settled<A>, SettleError>
    requires heap { heap.now ≡ workers.heap }
    requires collection { collection ≡ workers.collection }
    ensures ended { (result ≡ Err SettleError.NotEnded) ↔ ¬ AllEnded (system_of workers) }
    ensures settled { IfOk result
        (λ s. IsSettled workers.heap s.collection s.places s.blocks.items (all_won s.workers.items)) }
    ensures collection { IfOk result (λ s. s.collection ≡ workers.collection) }
    ensures once { IfOk result (λ s. ScansOnce workers.heap workers.collection.generation s.workers.items) }
    ensures reports { IfOk result
        (λ s. Reports workers.heap workers.collection.generation
        (system_of workers) s.workers.items s.deliveries.items) }
    ensures reached { OnOk result (HasReached workers) }
{
    if !workers.all_ended() {
        return Err(SettleError::NotEnded);
    }
    Ok(gathered(alloc, heap, collection, workers)?)
}
