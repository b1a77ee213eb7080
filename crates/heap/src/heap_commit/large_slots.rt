//! The pointers of the large objects that a collection keeps.
ghost use Rattle.std.specs.Prelude.{◌≡◌, ◌++◌, List, map, length, IsSome, OnOk, IfOk};
ghost use Rattle.std.specs.FinMap.{get};
ghost use Rattle.model.specs.Graph.{IsClosed};
ghost use Rattle.model.specs.OldSlots.{Slot as OldSlot};
ghost use Rattle.layout.specs.Place.{large_word};
ghost use Rattle.steps.specs.CollectionValue.{IsNumbering, young_names, field_slot_of};
ghost use Rattle.steps.specs.SlotView.{slot_value};
ghost use Rattle.heap_objects.specs.Objects.{graph_in, heap_in};
ghost use Rattle.heap_objects.specs.Sound.{AreObjects};
ghost use Rattle.heap.specs.LargeSlots.{AreLargeSlots, kept_slots};

use forwarding::Forwards;
use heap_objects::HeapObjects;
use layout::{LargeNumber, Place};
use std::alloc::{AllocError, Allocator};
use steps::{Numbering, Slot};

/// Puts the pointers of a large object that lead to objects of generation at most `g` at the end of the slots, where its own
/// generation is at most `g` and it has a new place.
fn push_kept<A: Allocator + Clone>(
    slots: &mut Vec<Slot, A>,
    objects: &HeapObjects<A>,
    numbering: &Numbering<A>,
    g: u8,
    places: &Forwards<A>,
    number: LargeNumber,
) -> Result<(), AllocError>
    requires closed { IsClosed (graph_in objects.now) }
    requires numbering { IsNumbering (graph_in objects.now) g numbering.now }
    requires count { length places.now ≡ length (young_names (graph_in objects.now) g) }
    requires there { IsSome (get objects.now.objects (large_word number.number)) }
    ensures { OnOk result (map slot_value slots.new.items ≡ map slot_value slots.old.items
        ++ map field_slot_of (kept_slots objects.now g places.now (large_word number.number))) }
{
    let place = Place::Large(number);
    let (_object, at, named) = objects.find(numbering, g, place);
    match named {
        Some(n) if places.place(n).is_some() => {
            objects.push_slots_of(slots, g, at.generation, place)
        }
        _ => Ok(()),
    }
}

/// The pointers of the large objects of generation at most `g` that have a new place, those that lead to objects of generation
/// at most `g`.
pub(crate) fn large_slots<A: Allocator + Clone>(
    alloc: A,
    objects: &HeapObjects<A>,
    numbering: &Numbering<A>,
    g: u8,
    places: &Forwards<A>,
) -> Result<Vec<Slot, A>, AllocError>
    requires sound { AreObjects (heap_in objects.now) }
    requires closed { IsClosed (graph_in objects.now) }
    requires numbering { IsNumbering (graph_in objects.now) g numbering.now }
    requires count { length places.now ≡ length (young_names (graph_in objects.now) g) }
    ensures { IfOk result (λ slots. (found : List OldSlot) × (map slot_value slots.items ≡ map field_slot_of found) ×
        AreLargeSlots objects.now g places.now found) }
{
    let mut slots = Vec::new(alloc);
    let mut from = 0;
    while let Some(number) = objects.next_large(from) {
        push_kept(&mut slots, objects, numbering, g, places, number)?;
        from = number.number as usize + 1;
    }
    Ok(slots)
}
