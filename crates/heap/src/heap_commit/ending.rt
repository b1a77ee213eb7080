//! How a collection ends.
ghost use Rattle.std.specs.Prelude.{◌≡◌, ◌+◌, length, sum_by, IfOk, OnErr};
ghost use Rattle.model.specs.Graph.{IsClosed};
ghost use Rattle.model.specs.LiveCount.{LiveCount};
ghost use Rattle.steps.specs.CollectionValue.{young_names};
ghost use Rattle.steps.specs.ReportValue.{all_won, renaming_of};
ghost use Rattle.steps.specs.SettledValue.{IsSettled};
ghost use Rattle.heap.specs.Ended.{IsEnded};
ghost use Rattle.heap.specs.HeapView.{heap_of};
ghost use Rattle.heap.specs.IsHeap.{AreHeapObjects};

use crate::heap_commit::counts::{all_fit, report_of};
use crate::heap_commit::installing::install;
use crate::heap_commit::moved_fields::moved_fields;
use crate::heap_commit::moves::renamed_roots;
use crate::roots::Roots;
use heap_objects::HeapObjects;
use std::alloc::{AllocError, Allocator};
use steps::{Report, Settled};

/// Ends a collection: objects and roots make the heap that the workers brought back. Where memory runs out they are as
/// before.
pub fn commit<A: Allocator + Clone>(
    alloc: A,
    objects: &mut HeapObjects<A>,
    roots: &mut Roots<A>,
    settled: Settled<A>,
) -> Result<Report<A>, AllocError>
    requires closed { IsClosed (heap_of objects.old roots.old.slots).graph }
    requires settled { IsSettled (heap_of objects.old roots.old.slots)
        settled.collection settled.places settled.blocks.items (all_won settled.workers.items) }
    ensures ok { IfOk result (λ _. IsEnded (heap_of objects.old roots.old.slots) settled.collection.generation
        (renaming_of (young_names (heap_of objects.old roots.old.slots).graph settled.collection.generation)
        (all_won settled.workers.items))
        (heap_of objects.new roots.new.slots)) }
    ensures kept { IfOk result
        (λ report. LiveCount (heap_of objects.old roots.old.slots).graph settled.collection.generation report.kept) }
    ensures won { IfOk result (λ report. report.kept ≡ sum_by (λ w. length w.won) settled.workers.items) }
    ensures freed { IfOk result (λ report. report.kept + report.freed
        ≡ length (young_names (heap_of objects.old roots.old.slots).graph settled.collection.generation)) }
    ensures workers { IfOk result (λ report. report.workers ≡ settled.workers) }
    ensures deliveries { IfOk result (λ report. report.deliveries ≡ settled.deliveries) }
    ensures sound { IfOk result (λ _. AreHeapObjects (heap_of objects.new roots.new.slots)) }
    ensures objects_as_before { OnErr result (objects.new ≡ objects.old) }
    ensures roots_as_before { OnErr result (roots.new ≡ roots.old) }
{
    let _before = objects.free_count();
    let Settled {
        collection,
        places,
        blocks,
        workers,
        deliveries,
        spare,
    } = settled;
    let g = collection.generation();
    let numbering = collection.numbering();
    let slots = collection.slots();
    let renamed = renamed_roots(alloc.clone()?, objects, slots, numbering, g, &places)?;
    let fields = moved_fields(alloc.clone()?, objects, slots, numbering, g, &places)?;
    let _fit = all_fit(&blocks);
    install(
        alloc, objects, roots, g, blocks, numbering, places, spare, &renamed, &fields,
    )?;
    let _after = objects.free_count();
    Ok(report_of(workers, deliveries, collection.cells() as u64))
}
