//! The pointers of older objects to younger ones.
ghost use Rattle.std.specs.Prelude.{◌≡◌, ◌<◌, ◌≤◌, ◌^◌, ◌++◌, ◌∷◌, [], length, map, OnOk, All};
ghost use Rattle.model.specs.Graph.{Graph};
ghost use Rattle.model.specs.OldSlots.{slots_of_fields};
ghost use Rattle.layout.specs.Place.{place_word};
ghost use Rattle.steps.specs.CollectionValue.{field_slot_of};
ghost use Rattle.steps.specs.SlotView.{slot_value};
ghost use Rattle.steps.specs.Words.{target_of_word};
ghost use Rattle.heap_objects.specs.HeapGraph.{IsHeapGraph, IsClosedWord, slots_at};

use crate::heap_graph::holders::object_of_generation;
use crate::heap_graph::targets::{is_at_most, target};
use block_pool::Block;
use large_objects::LargeTable;
use layout::Place;
use std::alloc::{AllocError, Allocator};
use steps::Slot;

/// Puts a field at the end of the slots where its pointer leads to an object of generation at most `g`.
fn push_field<A: Allocator, B: Allocator>(
    slots: &mut Vec<Slot, B>,
    table: &[Option<Block<A>>],
    large: &LargeTable<A>,
    g: u8,
    holder: Place,
    field: u32,
    word: u64,
) -> Result<(), AllocError>
    requires short { length table.now ≤ 65535 }
    ensures { OnOk result ((graph : Graph) → IsHeapGraph graph table.now large.now → IsClosedWord graph word
        → map slot_value slots.new.items ≡ map slot_value slots.old.items
        ++ map field_slot_of (slots_of_fields graph g (place_word holder) field (target_of_word word ∷ []))) }
{
    match target(word) {
        Some(target) => {
            if is_at_most(table, large, target, g) {
                slots.push(Slot::Field {
                    holder,
                    field,
                    target,
                })?;
            }
            Ok(())
        }
        None => Ok(()),
    }
}

/// Puts the fields of an object that lead to objects of generation at most `g` at the end of the slots.
fn push_fields<A: Allocator, B: Allocator>(
    slots: &mut Vec<Slot, B>,
    table: &[Option<Block<A>>],
    large: &LargeTable<A>,
    g: u8,
    holder: Place,
    pointers: &[u64],
) -> Result<(), AllocError>
    requires short { length table.now ≤ 65535 }
    requires few { length pointers.now < 2 ^ 32 }
    ensures { OnOk result ((graph : Graph) → IsHeapGraph graph table.now large.now →
        All (IsClosedWord graph) pointers.now
        → map slot_value slots.new.items ≡ map slot_value slots.old.items
        ++ map field_slot_of (slots_of_fields graph g (place_word holder) 0 (map target_of_word pointers.now))) }
{
    for field in 0..pointers.len() {
        push_field(
            slots,
            table,
            large,
            g,
            holder,
            field as u32,
            pointers[field],
        )?;
    }
    Ok(())
}

/// Puts the fields of the object of generation `holder_generation` at a place, where there is one, at the end of the slots, those that
/// lead to objects of generation at most `generation`.
pub fn push_slots_of<A: Allocator, B: Allocator>(
    slots: &mut Vec<Slot, B>,
    table: &[Option<Block<A>>],
    large: &LargeTable<A>,
    generation: u8,
    holder_generation: u8,
    place: Place,
) -> Result<(), AllocError>
    requires short { length table.now ≤ 65535 }
    ensures { OnOk result ((graph : Graph) → IsHeapGraph graph table.now large.now
        → map slot_value slots.new.items ≡
        map slot_value slots.old.items ++ map field_slot_of
        (slots_at graph generation holder_generation (place_word place))) }
{
    match object_of_generation(table, large, holder_generation, place) {
        Some(object) => push_fields(slots, table, large, generation, place, object.pointers),
        None => Ok(()),
    }
}
