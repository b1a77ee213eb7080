//! The pointers that a commit writes.
ghost use Rattle.std.specs.Prelude.{◌≡◌, ℕ, ◌++◌, List, All, map, length, None, IsSome, slice_index_or, IfOk};
ghost use Rattle.model.specs.Graph.{IsClosed};
ghost use Rattle.model.specs.OldSlots.{Slot as OldSlot};
ghost use Rattle.steps.specs.CollectionValue.{IsNumbering, young_names, target_of_slot, field_slot_of};
ghost use Rattle.steps.specs.SlotView.{slot_value};
ghost use Rattle.heap_objects.specs.Objects.{graph_in, heap_in};
ghost use Rattle.heap_objects.specs.Collecting.{IsNumbered};
ghost use Rattle.heap_objects.specs.Sound.{AreObjects};
ghost use Rattle.heap.specs.HeapView.{SlotsLeadToObjects};
ghost use Rattle.heap.specs.LargeSlots.{IsLargeSlot, AreLargeSlots};
ghost use Rattle.heap.specs.Moves.{Moves, field_write, writes_by};

use crate::heap_commit::large_slots::large_slots;
use crate::heap_commit::moves::{RenamedField, push_renamed};
use forwarding::Forwards;
use heap_objects::HeapObjects;
use std::alloc::{AllocError, Allocator};
use steps::{Numbering, Slot};

/// The fields among the slots, and then the pointers of the large objects that have a new place, each with the new place of
/// what it leads to.
pub(crate) fn moved_fields<A: Allocator + Clone>(
    alloc: A,
    objects: &HeapObjects<A>,
    slots: &[Slot],
    numbering: &Numbering<A>,
    g: u8,
    places: &Forwards<A>,
) -> Result<Vec<RenamedField, A>, AllocError>
    requires sound { AreObjects (heap_in objects.now) }
    requires closed { IsClosed (graph_in objects.now) }
    requires numbering { IsNumbering (graph_in objects.now) g numbering.now }
    requires leads { SlotsLeadToObjects objects.now (map slot_value slots.now) }
    requires count { length places.now ≡ length (young_names (graph_in objects.now) g) }
    requires named { All (λ slot. (number : ℕ) → IsNumbered objects.now g (target_of_slot slot) number →
        IsSome (slice_index_or places.now number None)) (map slot_value slots.now) }
    requires large_named { (slot : OldSlot) → IsLargeSlot objects.now g places.now slot → (number : ℕ) →
        IsNumbered objects.now g slot.target number → IsSome (slice_index_or places.now number None) }
    ensures { IfOk result (λ fields. (found : List OldSlot) × AreLargeSlots objects.now g places.now found
        × ((f : ℕ → ℕ) → Moves objects.now g places.now f
        → map field_write fields.items ≡
        writes_by f (map slot_value slots.now) ++ writes_by f (map field_slot_of found))) }
{
    let mut fields = Vec::new(alloc.clone()?);
    push_renamed(&mut fields, objects, slots, numbering, g, places)?;
    let large = large_slots(alloc, objects, numbering, g, places)?;
    push_renamed(&mut fields, objects, &large, numbering, g, places)?;
    Ok(fields)
}
