//! How a collection ends: objects, roots and remembered sets.
ghost use Rattle.std.specs.Prelude.{◌≡◌, ℕ, ◌+◌, length, sum_by, IfOk, OnOk, OnErr};
ghost use Rattle.model.specs.Graph.{IsClosed};
ghost use Rattle.model.specs.LiveCount.{LiveCount};
ghost use Rattle.steps.specs.BlockObjects.{copies_of};
ghost use Rattle.steps.specs.CollectionValue.{IsNumbering, young_names};
ghost use Rattle.steps.specs.ReportValue.{all_won, renaming_of};
ghost use Rattle.steps.specs.SettledValue.{IsSettled};
ghost use Rattle.steps.specs.CollectedHeap.{CollectedHeap};
ghost use Rattle.steps.specs.Remembered.{CoversYounger};
ghost use Rattle.heap_objects.specs.Objects.{graph_in};
ghost use Rattle.heap.specs.HeapView.{heap_with};
ghost use Rattle.heap.specs.IsHeap.{IsHeap};
ghost use Rattle.heap.specs.Growth.{AreGrown};
ghost use Rattle.heap.specs.Noted.{AreAllNoted};

use crate::remembering::copies::{note_copies, youngest_of_copies};
use crate::remembering::holders::keep_holders;
use crate::remembering::large_copies::{note_large, youngest_of_large};
use crate::remembering::lens::{cut_back, lens};
use crate::roots::Roots;
use heap_objects::HeapObjects;
use remembered_set::Remembered;
use std::alloc::{AllocError, Allocator};
use steps::{Report, Settled};

/// Notes what the collection brings back, where it may have a pointer to a younger object: the copies, and the large objects
/// that it keeps. Where it leaves nothing younger, as a collection that promotes all, it goes over blocks and large objects,
/// and not over copies. At an error some may be noted.
fn note_all<A: Allocator + Clone>(
    alloc: A,
    objects: &HeapObjects<A>,
    sets: &mut Remembered<A>,
    settled: &Settled<A>,
) -> Result<(), AllocError>
    requires numbering { IsNumbering
        (graph_in objects.now) settled.now.collection.generation settled.now.collection.numbering }
    requires count { length settled.now.places ≡
        length (young_names (graph_in objects.now) settled.now.collection.generation) }
    ensures grown { AreGrown sets.old sets.new }
    ensures noted { OnOk result ((lowest : ℕ → ℕ) × (youngest : ℕ) × AreAllNoted lowest youngest sets.new objects.now
        settled.now.collection.generation settled.now.places (copies_of settled.now.blocks.items)) }
{
    let collection = &settled.collection;
    let older = collection.generation() as usize + 1;
    let youngest = youngest_of_copies(&settled.blocks, older);
    let youngest = youngest_of_large(objects, collection, &settled.places, youngest);
    note_copies(alloc, sets, youngest, &settled.blocks)?;
    note_large(sets, youngest, objects, collection, &settled.places)
}

/// Ends a collection: objects, roots and remembered sets make the heap that the workers brought back. Where memory runs out
/// they are as before.
pub fn commit<A: Allocator + Clone>(
    alloc: A,
    objects: &mut HeapObjects<A>,
    roots: &mut Roots<A>,
    sets: &mut Remembered<A>,
    settled: Settled<A>,
) -> Result<Report<A>, AllocError>
    requires closed { IsClosed (heap_with objects.old roots.old.slots sets.old).graph }
    requires settled { IsSettled (heap_with objects.old roots.old.slots sets.old)
        settled.collection settled.places settled.blocks.items (all_won settled.workers.items) }
    requires covers { CoversYounger (heap_with objects.old roots.old.slots sets.old).graph sets.old }
    requires generations { length sets.old ≡ objects.old.config.shape.generations }
    ensures ok { IfOk result
        (λ _. CollectedHeap (heap_with objects.old roots.old.slots sets.old) settled.collection.generation
        (renaming_of (young_names (heap_with objects.old roots.old.slots sets.old).graph settled.collection.generation)
        (all_won settled.workers.items))
        (heap_with objects.new roots.new.slots sets.new)) }
    ensures kept { IfOk result
        (λ report. LiveCount
        (heap_with objects.old roots.old.slots sets.old).graph settled.collection.generation report.kept) }
    ensures won { IfOk result (λ report. report.kept ≡ sum_by (λ w. length w.won) settled.workers.items) }
    ensures freed { IfOk result (λ report. report.kept + report.freed
        ≡ length (young_names (heap_with objects.old roots.old.slots sets.old).graph settled.collection.generation)) }
    ensures workers { IfOk result (λ report. report.workers ≡ settled.workers) }
    ensures deliveries { IfOk result (λ report. report.deliveries ≡ settled.deliveries) }
    ensures sound { IfOk result (λ _. IsHeap (heap_with objects.new roots.new.slots sets.new)) }
    ensures err { OnErr result
        ((objects.new ≡ objects.old) × (roots.new ≡ roots.old) × (sets.new ≡ sets.old)) }
{
    let _before = objects.free_count();
    let own = alloc.clone()?;
    let lens = lens(sets);
    let Ok(()) = note_all(own, objects, sets, &settled) else {
        cut_back(sets, lens.as_slice());
        return Err(AllocError);
    };
    match crate::heap_commit::commit(alloc, objects, roots, settled) {
        Ok(report) => {
            keep_holders(objects, sets);
            Ok(report)
        }
        Err(error) => {
            cut_back(sets, lens.as_slice());
            Err(error)
        }
    }
}
