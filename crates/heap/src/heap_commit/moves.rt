//! Where the objects that roots, older objects and large ones that stay lead to stand after a collection.
ghost use Rattle.std.specs.Prelude.{◌≡◌, ℕ, ◌<◌, ◌++◌, IfOk, OnOk, IsSome, IsSomeAnd, All, Some, None, map, length, slice_index_or};
ghost use Rattle.std.specs.Option.{option_map};
ghost use Rattle.std.specs.FinMap.{get};
ghost use Rattle.layout.specs.Place.{place_word};
ghost use Rattle.steps.specs.CollectionValue.{IsNumbering, young_names, target_of_slot};
ghost use Rattle.steps.specs.SlotView.{slot_value};
ghost use Rattle.heap_objects.specs.Objects.{graph_in};
ghost use Rattle.heap_objects.specs.Collecting.{IsNumbered};
ghost use Rattle.heap.specs.HeapView.{SlotsLeadToObjects};
ghost use Rattle.heap.specs.Moves.{Moves, field_write, roots_by, writes_by, with_writes};
ghost use Rattle.heap.specs.RootView.{root_pair};

use forwarding::Forwards;
use heap_objects::HeapObjects;
use layout::Place;
use std::alloc::{AllocError, Allocator};
use steps::{Numbering, Slot};

/// A root with its new place.
#[derive(Clone, Copy, Debug)]
pub(crate) struct RenamedRoot {
    pub(crate) number: usize,
    pub(crate) place: Place,
}

/// A pointer of an older object, or of a large one that stays, and the new place of what it leads to.
#[derive(Clone, Copy, Debug)]
pub(crate) struct RenamedField {
    pub(crate) holder: Place,
    pub(crate) field: u32,
    pub(crate) place: Place,
}

/// Where the object at a place stands after a collection of the generations 0 to `g`, of which `places` has the new
/// place of each number.
#[inline(always)]
fn place_after<A: Allocator + Clone>(
    objects: &HeapObjects<A>,
    numbering: &Numbering<A>,
    g: u8,
    places: &Forwards<A>,
    place: Place,
) -> Place
    requires numbering { IsNumbering (graph_in objects.now) g numbering.now }
    requires there { IsSome (get objects.now.objects (place_word place)) }
    requires count { length places.now ≡ length (young_names (graph_in objects.now) g) }
    requires named { (number : ℕ) → IsNumbered objects.now g (place_word place) number →
        IsSome (slice_index_or places.now number None) }
    ensures { (f : ℕ → ℕ) → Moves objects.now g places.now f → place_word result ≡ f (place_word place) }
{
    let (_step, number) = objects.step_and_number(numbering, g, place);
    match number {
        Some(number) => places.place(number).unwrap_or(place),
        None => place,
    }
}

/// The new place of each root's object.
pub(crate) fn renamed_roots<A: Allocator + Clone>(
    alloc: A,
    objects: &HeapObjects<A>,
    slots: &[Slot],
    numbering: &Numbering<A>,
    g: u8,
    places: &Forwards<A>,
) -> Result<Vec<RenamedRoot, A>, AllocError>
    requires numbering { IsNumbering (graph_in objects.now) g numbering.now }
    requires leads { SlotsLeadToObjects objects.now (map slot_value slots.now) }
    requires count { length places.now ≡ length (young_names (graph_in objects.now) g) }
    requires named { All (λ slot. (number : ℕ) → IsNumbered objects.now g (target_of_slot slot) number →
        IsSome (slice_index_or places.now number None)) (map slot_value slots.now) }
    ensures { IfOk result (λ renamed. (f : ℕ → ℕ) → Moves objects.now g places.now f
        → map root_pair renamed.items ≡ roots_by f (map slot_value slots.now)) }
{
    let mut roots = Vec::with_capacity(alloc, slots.len())?;
    for slot in slots {
        if let Slot::Root { root, target } = slot {
            roots.push(RenamedRoot {
                number: root.number,
                place: place_after(objects, numbering, g, places, *target),
            })?;
        }
    }
    Ok(roots)
}

/// Puts each field among the slots at the end of the renamed ones, with the new place of what it leads to.
pub(crate) fn push_renamed<A: Allocator + Clone>(
    renamed: &mut Vec<RenamedField, A>,
    objects: &HeapObjects<A>,
    slots: &[Slot],
    numbering: &Numbering<A>,
    g: u8,
    places: &Forwards<A>,
) -> Result<(), AllocError>
    requires numbering { IsNumbering (graph_in objects.now) g numbering.now }
    requires leads { SlotsLeadToObjects objects.now (map slot_value slots.now) }
    requires count { length places.now ≡ length (young_names (graph_in objects.now) g) }
    requires named { All (λ slot. (number : ℕ) → IsNumbered objects.now g (target_of_slot slot) number →
        IsSome (slice_index_or places.now number None)) (map slot_value slots.now) }
    ensures { OnOk result ((f : ℕ → ℕ) → Moves objects.now g places.now f
        → map field_write renamed.new.items ≡
        map field_write renamed.old.items ++ writes_by f (map slot_value slots.now)) }
{
    for slot in slots {
        if let Slot::Field {
            holder,
            field,
            target,
        } = slot
        {
            renamed.push(RenamedField {
                holder: *holder,
                field: *field,
                place: place_after(objects, numbering, g, places, *target),
            })?;
        }
    }
    Ok(())
}

/// Writes pointers of objects.
pub(crate) fn write_fields<A: Allocator + Clone>(
    objects: &mut HeapObjects<A>,
    fields: &[RenamedField],
)
    requires { All (λ w. IsSomeAnd (get objects.old.objects w.0) (λ o. w.1.0 < length o.pointers))
        (map field_write fields.now) }
    ensures config { objects.new.config ≡ objects.old.config }
    ensures rooms { objects.new.rooms ≡ objects.old.rooms }
    ensures free { objects.new.free ≡ objects.old.free }
    ensures large_blocks { objects.new.large_blocks ≡ objects.old.large_blocks }
    ensures objects { (name : ℕ) → get objects.new.objects name
        ≡ option_map (with_writes (map field_write fields.now) name) (get objects.old.objects name) }
{
    for write in fields {
        objects.set_pointer(write.holder, write.field as usize, Some(write.place));
    }
}
