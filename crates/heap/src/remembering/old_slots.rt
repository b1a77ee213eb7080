//! The pointers of older objects to younger ones, read from the remembered sets.
ghost use Rattle.std.specs.Prelude.{◌≡◌, ◌<◌, ◌++◌, length, map, flat_map, OnOk};
ghost use Rattle.model.specs.Graph.{IsClosed};
ghost use Rattle.model.specs.OldSlots.{old_slots, slots_of_generation};
ghost use Rattle.layout.specs.Place.{place_word};
ghost use Rattle.steps.specs.CollectionValue.{field_slot_of};
ghost use Rattle.steps.specs.Remembered.{CoversYounger};
ghost use Rattle.steps.specs.SlotView.{slot_value};
ghost use Rattle.heap_objects.specs.HeapGraph.{slots_at};
ghost use Rattle.heap_objects.specs.Objects.{graph_in};

use heap_objects::HeapObjects;
use layout::Place;
use remembered_set::Remembered;
use std::alloc::{AllocError, Allocator};
use steps::Slot;

/// Puts the pointers of the objects of generation `h` at these places that lead to objects of generation at most `g` at
/// the end of the slots.
fn push_members<A: Allocator + Clone>(
    slots: &mut Vec<Slot, A>,
    objects: &HeapObjects<A>,
    g: u8,
    h: u8,
    members: &[Place],
) -> Result<(), AllocError>
    requires { IsClosed (graph_in objects.now) }
    ensures { OnOk result (map slot_value slots.new.items ≡ map slot_value slots.old.items
        ++ map field_slot_of (flat_map (slots_at (graph_in objects.now) g h) (map place_word members.now))) }
{
    for k in 0..members.len() {
        objects.push_slots_of(slots, g, h, members[k])?;
    }
    Ok(())
}

/// Puts the pointers of all objects of generation `h` that lead to objects of generation at most `g` at the end of the
/// slots. Only the members of the generation's set are looked at.
fn push_generation<A: Allocator + Clone>(
    alloc: A,
    slots: &mut Vec<Slot, A>,
    objects: &HeapObjects<A>,
    sets: &Remembered<A>,
    g: u8,
    h: u8,
) -> Result<(), AllocError>
    requires closed { IsClosed (graph_in objects.now) }
    requires covers { CoversYounger (graph_in objects.now) sets.now }
    requires older { g < h }
    ensures { OnOk result (map slot_value slots.new.items ≡ map slot_value slots.old.items
        ++ map field_slot_of (slots_of_generation (graph_in objects.now) g h)) }
{
    let members = sets.members(alloc, h as usize)?;
    push_members(slots, objects, g, h, &members)
}

/// Puts the pointers of objects older than `generation` that lead to objects of generation at most `generation` at the end of the slots:
/// by the generation of their object, then its place, then the field. Of the older objects only the members of the
/// remembered sets are looked at.
pub fn push_old_slots<A: Allocator + Clone>(
    alloc: A,
    slots: &mut Vec<Slot, A>,
    objects: &HeapObjects<A>,
    sets: &Remembered<A>,
    generation: u8,
) -> Result<(), AllocError>
    requires closed { IsClosed (graph_in objects.now) }
    requires covers { CoversYounger (graph_in objects.now) sets.now }
    ensures { OnOk result (map slot_value slots.new.items ≡ map slot_value slots.old.items
        ++ map field_slot_of (old_slots (graph_in objects.now) (length sets.now) generation)) }
{
    for h in generation as usize + 1..sets.generations() {
        push_generation(alloc.clone()?, slots, objects, sets, generation, h as u8)?;
    }
    Ok(())
}
