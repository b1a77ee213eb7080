//! What the worker brings to the commit of its collection.
ghost use Rattle.std.specs.Prelude.{◌≡◌, ◌<◌, ◌∷◌, [], IfOk, OnOk, length, map};
ghost use Rattle.steps.specs.Packed.{packed_word};
ghost use Rattle.steps.specs.ReportValue.{all_won};
ghost use Rattle.steps.specs.ReportView.{won_value};
ghost use Rattle.steps.specs.SettledValue.{IsSettled};
ghost use Rattle.pending_queues.specs.PlainValue.{lane_at};
ghost use Rattle.workers.specs.Finish.{IsReached};
ghost use Rattle.workers.specs.WorkerSteps.{IsOutOfWork};
ghost use Rattle.one_worker.specs.SerialValue.{lane_of, system_of, setting_in, targets_in, destinations_in};
ghost use Rattle.scavenge.specs.Waiting.{waiting_in};
ghost use Rattle.one_worker.specs.Settling.{IsReportOf, ScansWhatItWon, exports_of};
ghost use Rattle.settling.specs.OwnDeliveries.{deliveries_of_sizes, own_deliveries};

use crate::parts::SerialParts;
use crate::serial::SerialCollection;
use heap::{Collection, Delivery, Heap, PackedPlace, Settled, Won, WorkerReport};
use pending_queues::{Delivery as Outcome, PlainPending, PlainSeat};
use scavenge::{Copies, Parts};
use settling::{in_one_list, show_large};
use std::alloc::{AllocError, Allocator};

/// What became of the worker's exports: it took each itself.
fn delivered<A: Allocator>(alloc: A, exports: &[Outcome]) -> Result<Vec<Delivery, A>, AllocError>
    ensures { IfOk result (λ v. v.items ≡ deliveries_of_sizes (map (λ e. e.objects) exports.now)) }
{
    let mut deliveries = Vec::with_capacity(alloc, exports.len())?;
    for export in exports {
        deliveries.push_reserved(Delivery {
            exporter: 0,
            position: deliveries.len() as u64,
            objects: u32::try_from(export.objects).unwrap_or(u32::MAX),
            taker: 0,
        });
    }
    Ok(deliveries)
}

/// What became of all that the worker exported.
fn exported<A: Allocator + Clone>(
    alloc: A,
    queues: PlainPending<Copies<A>, A>,
    seat: PlainSeat,
) -> Result<Vec<Delivery, A>, AllocError>
    requires { length queues.lanes ≡ 1 }
    ensures { IfOk result (λ v. v.items ≡ deliveries_of_sizes (map (λ b. length b.objects) (lane_at queues 0).sent)) }
{
    let told = queues.close_alone(alloc.clone()?, seat)?;
    delivered(alloc, &told)
}

/// The reports of all workers: that of the one.
fn reported<A: Allocator>(
    alloc: A,
    won: Vec<Won, A>,
    scanned: Vec<PackedPlace, A>,
) -> Result<Vec<WorkerReport<A>, A>, AllocError>
    ensures { IfOk result
        (λ v. v.items ≡ record { won = map won_value won.items; scanned = map packed_word scanned.items } ∷ []) }
{
    let mut workers = Vec::with_capacity(alloc, 1)?;
    workers.push_reserved(WorkerReport::new(won, scanned));
    Ok(workers)
}

/// What the worker brings to the commit of its collection, once nothing is left to it. An error says that memory ran out.
pub fn settle<A: Allocator + Clone>(
    alloc: A,
    heap: &Heap<A>,
    collection: Collection<A>,
    serial: SerialCollection<A>,
) -> Result<Settled<A>, AllocError>
    requires heap { heap.now ≡ serial.heap }
    requires collection { collection ≡ serial.collection }
    requires out { IsOutOfWork serial.workspace.worker }
    requires queue { waiting_in (lane_of serial) ≡ [] }
    requires reached { IsReached (setting_in serial) (destinations_in serial) 1 (targets_in serial) serial.heap.free
        (system_of serial) }
    ensures settled { IfOk result
        (λ s. IsSettled serial.heap s.collection s.places s.blocks.items (all_won s.workers.items)) }
    ensures collection { IfOk result (λ s. s.collection ≡ serial.collection) }
    ensures lists { IfOk result (λ s. IsReportOf serial s.workers.items) }
    ensures once { OnOk result (ScansWhatItWon serial.workspace.worker) }
    ensures deliveries { IfOk result (λ s. s.deliveries.items ≡ own_deliveries (exports_of serial)) }
{
    let SerialParts {
        cells,
        pass,
        queues,
        seat,
        workspace,
    } = serial.into_parts();
    let Parts {
        allocation,
        done,
        large,
        won,
        scanned,
        spare,
    } = workspace.into_parts();
    let blocks = in_one_list(alloc.clone()?, allocation, done)?;
    let mut places = cells.settle_alone(pass);
    show_large(heap, &collection, &mut places, &large);
    let deliveries = exported(alloc.clone()?, queues, seat)?;
    let workers = reported(alloc, won, scanned)?;
    Ok(Settled {
        collection,
        places,
        blocks,
        workers,
        deliveries,
        spare,
    })
}
