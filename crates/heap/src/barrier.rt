//! The write barrier.
ghost use Rattle.std.specs.Prelude.{◌≡◌, [], Some, length, IsTrue, OnOk, OnErr};
ghost use Rattle.std.specs.Option.{option_map};
ghost use Rattle.std.specs.FinMap.{get};
ghost use Rattle.model.specs.Graph.{Object};
ghost use Rattle.model.specs.Reached.{has};
ghost use Rattle.layout.specs.Place.{place_word};
ghost use Rattle.remembered_set.specs.Sets.{members_of, noted};
ghost use Rattle.heap_objects.specs.Objects.{graph_in};
ghost use Rattle.heap.specs.HeapView.{heap_with};
ghost use Rattle.heap.specs.Commands.{leads_younger, remembered_after};

use heap_objects::HeapObjects;
use layout::Place;
use remembered_set::Remembered;
use std::alloc::{AllocError, Allocator};
use steps::StepId;

/// Notes an object in the set of its generation. A member takes no memory.
fn note<A: Allocator + Clone>(
    objects: &HeapObjects<A>,
    sets: &mut Remembered<A>,
    at: StepId,
    holder: Place,
) -> Result<(), AllocError>
    requires generations { length sets.old ≡ objects.now.config.shape.generations }
    requires at { option_map (λ o. o.generation) (get objects.now.objects (place_word holder)) ≡ Some at.generation }
    ensures ok { OnOk result (sets.new ≡ noted sets.old at.generation (place_word holder)) }
    ensures err { OnErr result (sets.new ≡ sets.old) }
    ensures memory { OnErr result (¬ IsTrue (has (members_of sets.old at.generation) (place_word holder))) }
{
    let _free = objects.free_count();
    sets.note(at.generation as usize, holder)
}

/// Notes the holder in the set of its generation where the target is an object of a younger one: what a store of a pointer
/// to the target has to do before it.
pub(crate) fn remember<A: Allocator + Clone>(
    objects: &HeapObjects<A>,
    sets: &mut Remembered<A>,
    holder: Place,
    target: Option<Place>,
) -> Result<(), AllocError>
    requires generations { length sets.old ≡ objects.now.config.shape.generations }
    ensures ok { OnOk result ((o : Object) → get objects.now.objects (place_word holder) ≡ Some o
        → sets.new ≡ remembered_after (heap_with objects.now [] sets.old) (place_word holder) o
        (option_map place_word target)) }
    ensures err { OnErr result (sets.new ≡ sets.old) }
    ensures memory { OnErr result ((o : Object) → get objects.now.objects (place_word holder) ≡ Some o
        → IsTrue (leads_younger (graph_in objects.now) o (option_map place_word target))
        × ¬ IsTrue (has (members_of sets.old o.generation) (place_word holder))) }
{
    let Some(place) = target else {
        return Ok(());
    };
    let Some(at) = objects.step_of(holder) else {
        return Ok(());
    };
    let Some(to) = objects.step_of(place) else {
        return Ok(());
    };
    if to.generation < at.generation {
        return note(objects, sets, at, holder);
    }
    Ok(())
}
