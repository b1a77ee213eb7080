//! How one worker carries out a whole collection: the heap is opened, its live objects are evacuated, and what the worker
//! brings is committed.
ghost use Rattle.std.specs.Prelude.{◌≡◌, ◌≢◌, ◌↔◌, ◌≤◌, IfOk, OnErr, Err};
ghost use Rattle.steps.specs.ReportValue.{all_won};
ghost use Rattle.steps.specs.SettledValue.{IsSettled};
ghost use Rattle.scavenge.specs.ReadyToCollect.{IsReadyToCollect};
ghost use Rattle.settling.specs.Collects.{Collects, ScansAlone, ScansOnce, IsShortOfBlocks, IsStuckAlone};

use crate::serial::SerialCollection;
use crate::serial_settling::settle;
use crate::serial_steps::run_to_end;
use heap::{Collection, Heap, OpenError, Report, Settled, Spare};
use scavenge::LookError;
use std::alloc::{AllocError, Allocator};
use thiserror::Error;

/// Why a collection was not carried out. The heap is as before.
#[derive(Clone, Copy, Debug, PartialEq, Eq, Error)]
pub enum CollectError {
    /// The generation's number is not below the number of generations.
    #[error("no such generation")]
    NoGeneration,
    /// A live object needs a new block, and none is free.
    #[error("heap full")]
    HeapFull,
    /// Memory was refused.
    #[error("no memory")]
    NoMemory,
}

impl From<OpenError> for CollectError {
    ghost use Rattle.one_worker.specs.Errors.{error_of_open};
    ghost use Rattle.std.specs.Prelude.{◌≡◌};

    ghost from_gives = { λ e r. r ≡ error_of_open e };

    fn from(error: OpenError) -> CollectError {
        match error {
            OpenError::NoGeneration => CollectError::NoGeneration,
            OpenError::NoMemory => CollectError::NoMemory,
        }
    }
}

impl From<AllocError> for CollectError {
    ghost use Rattle.one_worker.specs.declared.collecting.CollectError.TheVariants.{NoMemory};
    ghost use Rattle.std.specs.Prelude.{◌≡◌};

    ghost from_gives = { λ _ r. r ≡ NoMemory };

    fn from(_error: AllocError) -> CollectError {
        CollectError::NoMemory
    }
}

/// Carries out the collection that was opened, to its commit.
fn scavenged<A: Allocator + Clone>(
    alloc: A,
    heap: &Heap<A>,
    collection: Collection<A>,
    spare: Spare<A>,
) -> Result<Settled<A>, CollectError>
    requires { IsReadyToCollect heap.now collection }
    ensures collection { IfOk result (λ s. s.collection ≡ collection) }
    ensures settled { IfOk result
        (λ s. IsSettled heap.now s.collection s.places s.blocks.items (all_won s.workers.items)) }
    ensures scanned { IfOk result
        (λ s. ScansAlone heap.now collection.generation s.workers.items s.deliveries.items) }
    ensures once { IfOk result (λ s. ScansOnce heap.now collection.generation s.workers.items) }
    ensures full { result ≡ Err CollectError.HeapFull → IsShortOfBlocks heap.now collection.generation }
    ensures stuck { result ≡ Err CollectError.HeapFull → IsStuckAlone heap.now collection.generation }
    ensures opened { result ≢ Err CollectError.NoGeneration }
{
    let serial = SerialCollection::new(alloc.clone()?, heap, &collection, spare)?;
    let (serial, ended) = run_to_end(alloc.clone()?, heap, &collection, serial);
    match ended {
        Ok(()) => Ok(settle(alloc, heap, collection, serial)?),
        Err(LookError::NoMemory) => Err(CollectError::NoMemory),
        Err(LookError::HeapFull) => {
            serial.count_drawn(alloc)?;
            Err(CollectError::HeapFull)
        }
    }
}

/// Collects the generations 0 to `generation` with one worker, and starts no thread.
pub fn collect_one<A: Allocator + Clone>(
    alloc: A,
    heap: &mut Heap<A>,
    generation: u64,
) -> Result<Report<A>, CollectError>
    ensures ok { IfOk result
        (λ report. Collects heap.old generation report.kept report.freed report.workers.items heap.new) }
    ensures alone { IfOk result
        (λ report. ScansAlone heap.old generation report.workers.items report.deliveries.items) }
    ensures no_generation { (result ≡ Err CollectError.NoGeneration) ↔
        (heap.old.config.shape.generations ≤ generation) }
    ensures full { result ≡ Err CollectError.HeapFull → IsShortOfBlocks heap.old generation }
    ensures stuck { result ≡ Err CollectError.HeapFull → IsStuckAlone heap.old generation }
    ensures err { OnErr result (heap.new ≡ heap.old) }
{
    if generation >= heap.config().generations() as u64 {
        return Err(CollectError::NoGeneration);
    }
    let spare = heap.take_spare();
    let collection = heap.open_collection(alloc.clone()?, generation)?;
    let settled = scavenged(alloc.clone()?, heap, collection, spare)?;
    Ok(heap.commit(alloc, settled)?)
}
