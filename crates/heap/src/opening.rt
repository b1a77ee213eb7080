//! What a collection takes from a heap.
ghost use Rattle.std.specs.Prelude.{◌≡◌, ◌<◌, length, map, IfOk};
ghost use Rattle.std.specs.FinMap.{entries};
ghost use Rattle.model.specs.Graph.{IsClosed};
ghost use Rattle.steps.specs.CollectionValue.{root_slot, IsOpened};
ghost use Rattle.steps.specs.Remembered.{CoversYounger};
ghost use Rattle.steps.specs.SlotView.{slot_value};
ghost use Rattle.heap_objects.specs.Objects.{graph_in};
ghost use Rattle.heap.specs.Roots.{roots_map};
ghost use Rattle.heap.specs.HeapView.{heap_with};

use crate::remembering::push_old_slots;
use crate::roots::Roots;
use heap_objects::HeapObjects;
use remembered_set::Remembered;
use std::alloc::{AllocError, Allocator};
use steps::{Collection, RootId, Slot};

/// The roots by rising number.
fn root_slots<A: Allocator>(alloc: A, roots: &Roots<A>) -> Result<Vec<Slot, A>, AllocError>
    ensures { IfOk result
        (λ slots. map slot_value slots.items ≡ map (λ e. root_slot e.0 e.1) (entries (roots_map roots.now.slots))) }
{
    let mut slots = Vec::with_capacity(alloc, roots.len())?;
    let mut from = 0;
    while let Some(root) = roots.first_from(from) {
        slots.push(Slot::Root {
            root: RootId { number: root.0 },
            target: root.1,
        })?;
        from = root.0 + 1;
    }
    Ok(slots)
}

/// A collection of the generations 0 to `g`.
pub(crate) fn opened<A: Allocator + Clone>(
    alloc: A,
    objects: &HeapObjects<A>,
    roots: &Roots<A>,
    sets: &Remembered<A>,
    g: u8,
) -> Result<Collection<A>, AllocError>
    requires in_range { g < objects.now.config.shape.generations }
    requires closed { IsClosed (graph_in objects.now) }
    requires covers { CoversYounger (graph_in objects.now) sets.now }
    requires generations { length sets.now ≡ objects.now.config.shape.generations }
    ensures { IfOk result (λ collection. IsOpened (heap_with objects.now roots.now.slots sets.now) g collection) }
{
    let mut slots = root_slots(alloc.clone()?, roots)?;
    push_old_slots(alloc.clone()?, &mut slots, objects, sets, g)?;
    let free = objects.free_numbers(alloc.clone()?)?;
    let (numbering, cells) = objects.numbering(alloc, g)?;
    Ok(Collection::new(g, slots, free, numbering, cells))
}
