//! What the current slot holds.
ghost use Rattle.std.specs.Prelude.{◌≡◌, ◌↔◌, None, IsTrue, IsSome};
ghost use Rattle.std.specs.Option.{option_map};
ghost use Rattle.model.specs.Graph.{IsClosed, field_at};
ghost use Rattle.layout.specs.Place.{place_word};
ghost use Rattle.heap.specs.NamesArePlaces.{NamesArePlaces};
ghost use Rattle.workers.specs.WorkerSteps.{current_slot};
ghost use Rattle.workers.specs.Ready.{IsUntouched};
ghost use Rattle.scavenge.specs.Slots.{objects_of};

use crate::workspace::{Current, Workspace};
use heap::Heap;
use layout::{Place, pointer_of};
use std::alloc::Allocator;

/// Pointer `i` of an object of the heap, where it has one.
pub(crate) fn heap_pointer<A: Allocator + Clone>(
    heap: &Heap<A>,
    name: Place,
    i: usize,
) -> Option<Option<Place>>
    requires closed { IsClosed heap.now.graph }
    requires places { NamesArePlaces heap.now.graph }
    ensures { option_map (option_map place_word) result ≡ field_at heap.now.graph (place_word name) i }
{
    let object = heap.object(name)?;
    if i < object.pointers.len() {
        return Some(pointer_of(object.pointers[i]));
    }
    None
}

/// What the current slot holds, where there is one.
#[inline(always)]
pub(crate) fn slot<A: Allocator + Clone>(
    workspace: &Workspace<A>,
    heap: &Heap<A>,
) -> Option<Option<Place>>
    requires closed { IsClosed heap.now.graph }
    requires places { NamesArePlaces heap.now.graph }
    requires proposal { workspace.now.worker.proposal ≡ None }
    requires untouched { IsUntouched (objects_of heap.now) workspace.now.worker }
    ensures { option_map (option_map place_word) result ≡ current_slot (objects_of heap.now) workspace.now.worker }
{
    match workspace.current() {
        Current::Holds(slot) => slot,
        Current::OfLarge(name, i) => heap_pointer(heap, name, i),
    }
}

/// Whether there is a slot to look at.
pub fn has_slot<A: Allocator + Clone>(workspace: &Workspace<A>, heap: &Heap<A>) -> bool
    requires closed { IsClosed heap.now.graph }
    requires places { NamesArePlaces heap.now.graph }
    requires proposal { workspace.now.worker.proposal ≡ None }
    requires untouched { IsUntouched (objects_of heap.now) workspace.now.worker }
    ensures { IsTrue result ↔ IsSome (current_slot (objects_of heap.now) workspace.now.worker) }
{
    slot(workspace, heap).is_some()
}
