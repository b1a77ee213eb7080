//! Collections by several workers, the first on the caller's thread and each other on one of its own.
ghost use Rattle.std.specs.Prelude.{◌≡◌, ◌≢◌, ◌↔◌, ◌<◌, ◌≤◌, ◌⊎◌, true, IfOk, IfSome, OnErr, Err, length};
ghost use Rattle.forwarding.specs.declared.cells.forwards.SettleError.TheVariants as settle_error;
ghost use Rattle.steps.specs.ReportValue.{all_won};
ghost use Rattle.steps.specs.SettledValue.{IsSettled};
ghost use Rattle.scavenge.specs.ReadyToCollect.{IsReadyToCollect};
ghost use Rattle.settling.specs.Collects.{Collects, ScansAlone, ScansOnce, IsShortOfBlocks, IsStuckAlone};
ghost use Rattle.workers_in_threads.specs.declared.sharing_worker.resting.Outcome.TheVariants as Outcome;
ghost use Rattle.workers_in_threads.specs.CameBack.{WereSettled};
ghost use Rattle.workers_in_threads.specs.Reports.{CollectsApart, ReportsApart, IsShortOfBlocksFor, IsStuckApart, IsStuckFor};

use crate::{CollectError, collect_one};
use forwarding::{BoxCells, Forwards, Gate, SettleError, SharedCells, WordCells};
use heap::{Collection, Heap, OpenError, Report, Settled, Spare};
use scavenge::LookError;
use std::alloc::{AllocError, AllocGlobal, Allocator};
use std::sync::Wait;
use std::thread::Threads;
use thiserror::Error;
use workers_in_threads::{Apart, MOST_WORKERS, Outcome, Seats, gathered, scavenged_apart};

/// Which cells tell the workers where an object's one copy is.
#[derive(Clone, Copy, Debug, PartialEq, Eq)]
pub enum CellKind {
    /// A box for each object that is copied.
    Box,
    /// A word for each object of the generations that are collected.
    Word,
}

/// Why a collection by threads was not carried out. The heap is as before.
#[derive(Clone, Copy, Debug, PartialEq, Eq, Error)]
pub enum ThreadsError {
    /// The number of workers is not 1 to 16.
    #[error("bad configuration")]
    BadConfig,
    /// The number of workers is 1 to 16, but the generation's is not below the number of generations.
    #[error("no such generation")]
    NoGeneration,
    /// A live object needs a new block, and none is free.
    #[error("heap full")]
    HeapFull,
    /// Memory ran out, or a thread could not be started.
    #[error("no memory")]
    NoMemory,
    /// A boxed cell showed a place that no worker won.
    #[error("cells unsettled")]
    Unsettled,
}

impl From<AllocError> for ThreadsError {
    ghost use Rattle.collector.specs.declared.apart.ThreadsError.TheVariants.{NoMemory};
    ghost use Rattle.std.specs.Prelude.{◌≡◌};

    ghost from_gives = { λ _ r. r ≡ NoMemory };

    fn from(_error: AllocError) -> ThreadsError {
        ThreadsError::NoMemory
    }
}

/// What the workers, who all ended, bring to the commit, unless their cells were not settled or memory ran out.
fn ended<R: Wait, S: SharedCells, A: Allocator + Clone>(
    rt: &R,
    alloc: A,
    heap: &Heap<A>,
    collection: Collection<A>,
    settled: Result<Forwards<A>, SettleError>,
    seats: Seats<A>,
) -> Result<Settled<A>, ThreadsError>
    requires some { 0 < length seats.workspaces.items }
    requires few { length seats.workspaces.items ≤ 16 }
    requires settled { WereSettled S.is_pass S.known S.won heap.now collection
        (length seats.workspaces.items) Outcome.Ended seats.claims seats.queues seats.draws.items seats.seats.items
        seats.workspaces.items settled }
    ensures settled { IfOk result
        (λ s. IsSettled heap.now s.collection s.places s.blocks.items (all_won s.workers.items)) }
    ensures collection { IfOk result (λ s. s.collection ≡ collection) }
    ensures once { IfOk result (λ s. ScansOnce heap.now collection.generation s.workers.items) }
    ensures apart { IfOk result
        (λ s. ReportsApart heap.now collection.generation
        (length seats.workspaces.items) s.workers.items s.deliveries.items) }
    ensures unsettled { result ≡ Err ThreadsError.Unsettled → settled ≡ Err settle_error.Unsettled }
    ensures others { (result ≢ Err ThreadsError.NoGeneration) × (result ≢ Err ThreadsError.BadConfig) ×
        (result ≢ Err ThreadsError.HeapFull) }
{
    match settled {
        Ok(forwards) => {
            let brought = gathered::<R, S, A>(rt, alloc, heap, collection, seats, forwards)?;
            Ok(brought)
        }
        Err(SettleError::Unsettled) => Err(ThreadsError::Unsettled),
        Err(SettleError::NoMemory) => Err(ThreadsError::NoMemory),
    }
}

/// Whether memory sufficed to settle the cells, or at least to see that they can't be.
fn is_counted<A: Allocator>(settled: &Result<Forwards<A>, SettleError>) -> bool
    ensures { result ≡ true → settled.now ≢ Err settle_error.NoMemory }
{
    match settled {
        Ok(_) => true,
        Err(SettleError::Unsettled) => true,
        Err(SettleError::NoMemory) => false,
    }
}

/// Why a worker was refused, once the draws are counted, or that there was no memory to settle the cells.
fn refusal<S: SharedCells, A: Allocator>(
    heap: &Heap<A>,
    collection: &Collection<A>,
    error: LookError,
    settled: Result<Forwards<A>, SettleError>,
    seats: Seats<A>,
) -> ThreadsError
    requires settled { WereSettled S.is_pass S.known S.won heap.now collection.now (length seats.workspaces.items)
        (Outcome.Refused error) seats.claims seats.queues seats.draws.items seats.seats.items seats.workspaces.items
        settled }
    ensures full { result ≡ ThreadsError.HeapFull →
        IsShortOfBlocksFor heap.now collection.now.generation (length seats.workspaces.items) }
    ensures stuck { result ≡ ThreadsError.HeapFull →
        IsStuckApart heap.now collection.now.generation (length seats.workspaces.items) }
    ensures others { (result ≢ ThreadsError.NoGeneration) × (result ≢ ThreadsError.BadConfig) ×
        (result ≢ ThreadsError.Unsettled) }
{
    if !is_counted(&settled) {
        return ThreadsError::NoMemory;
    }
    // What `close` ensures: all free blocks were drawn where a seat found none.
    let _drawn = seats.claims.close(seats.draws);
    match error {
        LookError::HeapFull => ThreadsError::HeapFull,
        LookError::NoMemory => ThreadsError::NoMemory,
    }
}

/// What `n` workers bring to the commit, or why they were refused. None says that some worker left early, though none was
/// refused anything.
fn concluded<R: Wait, S: SharedCells, A: Allocator + Clone>(
    rt: &R,
    alloc: A,
    heap: &Heap<A>,
    collection: Collection<A>,
    ending: Outcome,
    settled: Result<Forwards<A>, SettleError>,
    seats: Seats<A>,
) -> Result<Option<Settled<A>>, ThreadsError>
    requires some { 0 < length seats.workspaces.items }
    requires few { length seats.workspaces.items ≤ 16 }
    requires settled { WereSettled S.is_pass S.known S.won heap.now collection
        (length seats.workspaces.items) ending seats.claims seats.queues seats.draws.items seats.seats.items
        seats.workspaces.items settled }
    ensures settled { IfOk result
        (λ o. IfSome o (λ s. IsSettled heap.now s.collection s.places s.blocks.items (all_won s.workers.items))) }
    ensures collection { IfOk result (λ o. IfSome o (λ s. s.collection ≡ collection)) }
    ensures once { IfOk result (λ o. IfSome o (λ s. ScansOnce heap.now collection.generation s.workers.items)) }
    ensures apart { IfOk result
        (λ o. IfSome o (λ s. ReportsApart heap.now collection.generation
        (length seats.workspaces.items) s.workers.items s.deliveries.items)) }
    ensures full { result ≡ Err ThreadsError.HeapFull →
        IsShortOfBlocksFor heap.now collection.generation (length seats.workspaces.items) }
    ensures stuck { result ≡ Err ThreadsError.HeapFull →
        IsStuckApart heap.now collection.generation (length seats.workspaces.items) }
    ensures unsettled { result ≡ Err ThreadsError.Unsettled → settled ≡ Err settle_error.Unsettled }
    ensures others { (result ≢ Err ThreadsError.NoGeneration) × (result ≢ Err ThreadsError.BadConfig) }
{
    match ending {
        Outcome::Left => Ok(None),
        Outcome::Ended => {
            let brought = ended::<R, S, A>(rt, alloc, heap, collection, settled, seats)?;
            Ok(Some(brought))
        }
        Outcome::Refused(error) => {
            let error = refusal::<S, A>(heap, &collection, error, settled, seats);
            Err(error)
        }
    }
}

/// Carries out the collection that was opened by `n` workers over word cells.
fn with_words<
    R: Threads + Wait + Sync + AllocGlobal,
    G: Gate + Sync,
    A: Allocator + Clone + Send + Sync,
>(
    rt: &R,
    alloc: A,
    heap: &Heap<A>,
    collection: Collection<A>,
    n: u32,
    gate: &G,
    mut spare: Spare<A>,
) -> Result<Option<Settled<A>>, ThreadsError>
    requires ready { IsReadyToCollect heap.now collection }
    requires some { 0 < n }
    requires few { n ≤ 16 }
    ensures settled { IfOk result
        (λ o. IfSome o (λ s. IsSettled heap.now s.collection s.places s.blocks.items (all_won s.workers.items))) }
    ensures collection { IfOk result (λ o. IfSome o (λ s. s.collection ≡ collection)) }
    ensures once { IfOk result (λ o. IfSome o (λ s. ScansOnce heap.now collection.generation s.workers.items)) }
    ensures apart { IfOk result
        (λ o. IfSome o (λ s. ReportsApart heap.now collection.generation n s.workers.items s.deliveries.items)) }
    ensures full { result ≡ Err ThreadsError.HeapFull → IsShortOfBlocksFor heap.now collection.generation n }
    ensures stuck { result ≡ Err ThreadsError.HeapFull → IsStuckApart heap.now collection.generation n }
    ensures never_unsettled { result ≢ Err ThreadsError.Unsettled }
    ensures others { (result ≢ Err ThreadsError.NoGeneration) × (result ≢ Err ThreadsError.BadConfig) }
{
    let memory = spare.cells(alloc.clone()?);
    let (cells, passes) = WordCells::within(
        alloc.clone()?,
        memory,
        collection.cells(),
        n as usize,
    )?;
    let Apart {
        ending,
        passes,
        seats,
    } = scavenged_apart(
        rt,
        alloc.clone()?,
        heap,
        &collection,
        &cells,
        passes,
        gate,
        spare,
    )?;
    let settled = cells.settle(passes);
    concluded::<R, WordCells<A>, A>(rt, alloc, heap, collection, ending, settled, seats)
}

/// Carries out the collection that was opened by `n` workers over boxed cells.
fn with_boxes<
    R: Threads + Wait + Sync + AllocGlobal,
    G: Gate + Sync,
    A: Allocator + Clone + Send + Sync,
>(
    rt: &R,
    alloc: A,
    heap: &Heap<A>,
    collection: Collection<A>,
    n: u32,
    gate: &G,
    spare: Spare<A>,
) -> Result<Option<Settled<A>>, ThreadsError>
    requires ready { IsReadyToCollect heap.now collection }
    requires some { 0 < n }
    requires few { n ≤ 16 }
    ensures settled { IfOk result
        (λ o. IfSome o (λ s. IsSettled heap.now s.collection s.places s.blocks.items (all_won s.workers.items))) }
    ensures collection { IfOk result (λ o. IfSome o (λ s. s.collection ≡ collection)) }
    ensures once { IfOk result (λ o. IfSome o (λ s. ScansOnce heap.now collection.generation s.workers.items)) }
    ensures apart { IfOk result
        (λ o. IfSome o (λ s. ReportsApart heap.now collection.generation n s.workers.items s.deliveries.items)) }
    ensures full { result ≡ Err ThreadsError.HeapFull → IsShortOfBlocksFor heap.now collection.generation n }
    ensures stuck { result ≡ Err ThreadsError.HeapFull → IsStuckApart heap.now collection.generation n }
    ensures others { (result ≢ Err ThreadsError.NoGeneration) × (result ≢ Err ThreadsError.BadConfig) }
{
    let count = collection.cells();
    let (cells, passes) = BoxCells::new(rt.alloc(), alloc.clone()?, count, n as usize)?;
    let Apart {
        ending,
        passes,
        seats,
    } = scavenged_apart(
        rt,
        alloc.clone()?,
        heap,
        &collection,
        &cells,
        passes,
        gate,
        spare,
    )?;
    let settled = cells.settle(alloc.clone()?, passes);
    concluded::<R, BoxCells, A>(rt, alloc, heap, collection, ending, settled, seats)
}

/// Carries out the collection that was opened by `n` workers over cells of the kind.
fn scavenged_by<
    R: Threads + Wait + Sync + AllocGlobal,
    G: Gate + Sync,
    A: Allocator + Clone + Send + Sync,
>(
    rt: &R,
    alloc: A,
    heap: &Heap<A>,
    collection: Collection<A>,
    n: u32,
    kind: CellKind,
    gate: &G,
    spare: Spare<A>,
) -> Result<Option<Settled<A>>, ThreadsError>
    requires ready { IsReadyToCollect heap.now collection }
    requires some { 0 < n }
    requires few { n ≤ 16 }
    ensures settled { IfOk result
        (λ o. IfSome o (λ s. IsSettled heap.now s.collection s.places s.blocks.items (all_won s.workers.items))) }
    ensures collection { IfOk result (λ o. IfSome o (λ s. s.collection ≡ collection)) }
    ensures once { IfOk result (λ o. IfSome o (λ s. ScansOnce heap.now collection.generation s.workers.items)) }
    ensures apart { IfOk result
        (λ o. IfSome o (λ s. ReportsApart heap.now collection.generation n s.workers.items s.deliveries.items)) }
    ensures full { result ≡ Err ThreadsError.HeapFull → IsShortOfBlocksFor heap.now collection.generation n }
    ensures stuck { result ≡ Err ThreadsError.HeapFull → IsStuckApart heap.now collection.generation n }
    ensures words { kind ≡ CellKind.Word → result ≢ Err ThreadsError.Unsettled }
    ensures others { (result ≢ Err ThreadsError.NoGeneration) × (result ≢ Err ThreadsError.BadConfig) }
{
    match kind {
        CellKind::Box => with_boxes(rt, alloc, heap, collection, n, gate, spare),
        CellKind::Word => with_words(rt, alloc, heap, collection, n, gate, spare),
    }
}

/// Collects the generations 0 to `generation`, where the heap has it, with one worker alone.
fn alone<A: Allocator + Clone>(
    alloc: A,
    heap: &mut Heap<A>,
    generation: u64,
) -> Result<Report<A>, ThreadsError>
    requires { generation < heap.old.config.shape.generations }
    ensures ok { IfOk result
        (λ report. Collects heap.old generation report.kept report.freed report.workers.items heap.new) }
    ensures alone { IfOk result
        (λ report. ScansAlone heap.old generation report.workers.items report.deliveries.items) }
    ensures full { result ≡ Err ThreadsError.HeapFull → IsShortOfBlocks heap.old generation }
    ensures stuck { result ≡ Err ThreadsError.HeapFull → IsStuckAlone heap.old generation }
    ensures others { (result ≢ Err ThreadsError.NoGeneration) × (result ≢ Err ThreadsError.BadConfig) ×
        (result ≢ Err ThreadsError.Unsettled) }
    ensures err { OnErr result (heap.new ≡ heap.old) }
{
    match collect_one(alloc, heap, generation) {
        Ok(report) => Ok(report),
        Err(CollectError::HeapFull) => Err(ThreadsError::HeapFull),
        Err(CollectError::NoMemory) => Err(ThreadsError::NoMemory),
        Err(CollectError::NoGeneration) => unreachable!(),
    }
}

/// Collects the generations 0 to `generation` with `n` workers, 1 to 16, the first on the caller's thread and each other on
/// one of its own; one alone collects as `collect_one` does, and no thread is started. The gate is called before each step
/// that workers share. Where some worker leaves early, though none was refused anything, what all brought is dropped, and
/// one worker collects alone.
pub fn collect<
    R: Threads + Wait + Sync + AllocGlobal,
    A: Allocator + Clone + Send + Sync,
    G: Gate + Sync,
>(
    rt: &R,
    alloc: A,
    heap: &mut Heap<A>,
    generation: u64,
    n: u32,
    kind: CellKind,
    gate: &G,
) -> Result<Report<A>, ThreadsError>
    ensures ok { IfOk result
        (λ report. CollectsApart heap.old generation n report.kept report.freed report.workers.items
        report.deliveries.items heap.new) }
    ensures alone { n ≡ 1 → IfOk result
        (λ report. ScansAlone heap.old generation report.workers.items report.deliveries.items) }
    ensures config { (result ≡ Err ThreadsError.BadConfig) ↔ ((n ≡ 0) ⊎ (16 < n)) }
    ensures generation { (result ≡ Err ThreadsError.NoGeneration) ↔
        ((0 < n) × (n ≤ 16) × (heap.old.config.shape.generations ≤ generation)) }
    ensures full { result ≡ Err ThreadsError.HeapFull → IsShortOfBlocksFor heap.old generation n }
    ensures stuck { result ≡ Err ThreadsError.HeapFull → IsStuckFor heap.old generation n }
    ensures stuck_alone { n ≡ 1 → result ≡ Err ThreadsError.HeapFull → IsStuckAlone heap.old generation }
    ensures words { kind ≡ CellKind.Word → result ≢ Err ThreadsError.Unsettled }
    ensures one_settles { n ≡ 1 → result ≢ Err ThreadsError.Unsettled }
    ensures err { OnErr result (heap.new ≡ heap.old) }
{
    if n == 0 || n > MOST_WORKERS {
        return Err(ThreadsError::BadConfig);
    }
    if generation >= heap.config().generations() as u64 {
        return Err(ThreadsError::NoGeneration);
    }
    if n == 1 {
        return alone(alloc, heap, generation);
    }
    let spare = heap.take_spare();
    let collection = match heap.open_collection(alloc.clone()?, generation) {
        Ok(collection) => collection,
        Err(OpenError::NoMemory) => return Err(ThreadsError::NoMemory),
        Err(OpenError::NoGeneration) => unreachable!(),
    };
    let brought = scavenged_by(rt, alloc.clone()?, heap, collection, n, kind, gate, spare)?;
    let Some(settled) = brought else {
        return alone(alloc, heap, generation);
    };
    let Ok(report) = heap.commit(alloc, settled) else {
        return Err(ThreadsError::NoMemory);
    };
    Ok(report)
}
