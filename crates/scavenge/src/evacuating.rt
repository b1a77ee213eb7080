//! The current slot's object is evacuated: looked at, raced for, and copied by the one that wins.
ghost use Rattle.std.specs.Prelude.{◌≡◌, ◌≤◌, ◌≢◌, ◌⊎◌, Some, None, IsSome, IsSomeAnd};
ghost use Rattle.std.specs.Option.{option_map};
ghost use Rattle.model.specs.Graph.{object_at};
ghost use Rattle.layout.specs.Place.{place_word};
ghost use Rattle.layout.specs.ObjectRef.{raw_of};
ghost use Rattle.block_pool.specs.ClaimsValue.{SeatValue};
ghost use Rattle.forwarding.specs.KeepsPasses.{KeepsPasses};
ghost use Rattle.heap.specs.CollectionValue.{young_names};
ghost use Rattle.heap.specs.StepPairs.{step_pair, stands_at};
ghost use Rattle.heap.specs.Words.{IsShownAs};
ghost use Rattle.workers.specs.WorkerSteps.{current_slot};
ghost use Rattle.scavenge.specs.Slots.{seen, objects_of, Looks};
ghost use Rattle.scavenge.specs.MayStep.{IsOpenFor, MayLook, AreThere, OnlyLooks};
ghost use Rattle.scavenge.specs.Evacuates.{IsUncopied, WantsMore, ProposesThere, LooksAndRaces};
ghost use Rattle.scavenge.specs.declared.evacuating.Evacuated.TheVariants.{Left, NoSlot, Looked, Raced};

use crate::looking::forwarded_place;
use crate::proposing::propose_there;
use crate::slots::slot;
use crate::workspace::Workspace;
use forwarding::Cells;
use heap::{Collection, Found, FoundSmall, Heap};
use layout::Place;
use std::alloc::Allocator;

/// What `evacuate` came to.
#[derive(Clone, Copy, Debug, PartialEq, Eq)]
pub enum Evacuated {
    /// Nothing was done: the slot wants a look.
    Left,
    /// There is no slot.
    NoSlot,
    /// The slot was looked at. It is finished, or its object is proposed.
    Looked,
    /// The slot was looked at, its object copied, the race for it run, and the slot finished.
    Raced,
}

/// Looks at the current slot, which leads to an object: what `look` does, where no block is wanted for a copy.
fn look_there<A: Allocator + Clone, C: Cells>(
    workspace: &mut Workspace<A>,
    heap: &Heap<A>,
    collection: &Collection<A>,
    cells: &mut C,
    pass: &mut C::Pass,
    name: Place,
) -> Evacuated
    requires open { IsOpenFor heap.now collection.now workspace.old }
    requires worker { MayLook heap.now collection.now workspace.old }
    requires cells { C.fits cells.old pass.old × (collection.now.cells ≤ C.limit cells.old) }
    requires there { IsSome (object_at heap.now.graph (place_word name)) }
    requires slot { current_slot (seen heap.now collection.now) workspace.old.worker ≡ Some (Some (place_word name)) }
    ensures keeps { KeepsPasses C.limit C.fits C.at_home C.apart cells.old pass.old cells.new pass.new }
    ensures looks { OnlyLooks C.won C.known cells.old pass.old cells.new pass.new }
    ensures ends { (result ≡ Left) ⊎ (result ≡ Looked) }
    ensures left { result ≡ Left → (workspace.new ≡ workspace.old) ×
        IsUncopied heap.now collection.now (C.look_gives cells.old) workspace.old.worker }
    ensures looked { result ≡ Looked → (seat : SeatValue) →
        Looks heap.now collection.now (C.look_gives cells.old) (C.known pass.old)
        (C.known pass.new) seat seat workspace.old workspace.new }
{
    let found = heap.find_there(collection, name);
    let Some(number) = found.number else {
        workspace.finish(Some(name));
        return Evacuated::Looked;
    };
    if let Some(shown) = cells.look(pass, number) {
        let place = forwarded_place(heap, name, found.object, shown);
        workspace.finish(Some(place));
        return Evacuated::Looked;
    }
    propose_alone(workspace, heap, name, found)
}

/// Proposes a small object, whose race is then a call of its own, where no block is wanted for its copy.
fn propose_alone<A: Allocator + Clone>(
    workspace: &mut Workspace<A>,
    heap: &Heap<A>,
    name: Place,
    found: Found<'_>,
) -> Evacuated
    requires proposal { workspace.old.worker.proposal ≡ None }
    requires config { workspace.old.config ≡ heap.now.config }
    requires shown { IsSomeAnd (object_at heap.now.graph (place_word name)) (λ o. IsShownAs o (raw_of found.object)) }
    requires stands { Some (step_pair found.at) ≡ option_map stands_at (object_at heap.now.graph (place_word name)) }
    ensures ends { (result ≡ Left) ⊎ (result ≡ Looked) }
    ensures proposed { result ≡ Looked →
        ProposesThere (objects_of heap.now) (place_word name) workspace.old workspace.new }
    ensures none { result ≡ Left → workspace.new ≡ workspace.old }
    ensures wants { result ≡ Left → WantsMore (objects_of heap.now) workspace.old.worker (place_word name) }
{
    if propose_there(workspace, heap, name, found) {
        return Evacuated::Looked;
    }
    Evacuated::Left
}

/// Looks at the current slot, of the start list or of what is in hand, where no block is wanted for it: what `look` does, and
/// where a small object has no copy yet, the race for its copy at once. It leaves to `look` large objects, and copies that don't
/// fit where the last ones stand; where memory ran out for the race, the object is proposed.
#[inline(always)]
pub fn evacuate<A: Allocator + Clone, C: Cells>(
    workspace: &mut Workspace<A>,
    heap: &Heap<A>,
    collection: &Collection<A>,
    cells: &mut C,
    pass: &mut C::Pass,
) -> Evacuated
    requires open { IsOpenFor heap.now collection.now workspace.old }
    requires names { workspace.old.names ≡ young_names heap.now.graph collection.now.generation }
    requires worker { MayLook heap.now collection.now workspace.old }
    requires starts { AreThere heap.now workspace.old.worker.starts }
    requires cells { C.fits cells.old pass.old × (collection.now.cells ≤ C.limit cells.old) }
    ensures keeps { KeepsPasses C.limit C.fits C.at_home C.apart cells.old pass.old cells.new pass.new }
    ensures looks { result ≢ Raced → OnlyLooks C.won C.known cells.old pass.old cells.new pass.new }
    ensures left { result ≡ Left → (workspace.new ≡ workspace.old) ×
        IsUncopied heap.now collection.now (C.look_gives cells.old) workspace.old.worker }
    ensures none { result ≡ NoSlot → (workspace.new ≡ workspace.old) ×
        (current_slot (seen heap.now collection.now) workspace.old.worker ≡ None) }
    ensures slot { (result ≡ Looked) ⊎ (result ≡ Raced) →
        IsSome (current_slot (seen heap.now collection.now) workspace.old.worker) }
    ensures looked { result ≡ Looked → (seat : SeatValue) →
        Looks heap.now collection.now (C.look_gives cells.old) (C.known pass.old)
        (C.known pass.new) seat seat workspace.old workspace.new }
    ensures raced { result ≡ Raced →
        LooksAndRaces heap.now collection.now (C.fits cells.old) C.known C.won (C.look_gives cells.old)
        (λ number at outcome. C.race_gives cells.old number at outcome cells.new) pass.old pass.new workspace.old
        workspace.new }
{
    let Some(target) = slot(workspace, heap) else {
        return Evacuated::NoSlot;
    };
    let Some(name) = target else {
        workspace.finish(None);
        return Evacuated::Looked;
    };
    let Place::Small(at) = name else {
        return look_there(workspace, heap, collection, cells, pass, name);
    };
    let FoundSmall {
        block,
        at: from,
        number,
    } = heap.find_small(collection, at);
    let Some(number) = number else {
        workspace.finish(Some(name));
        return Evacuated::Looked;
    };
    if let Some(shown) = cells.look(pass, number) {
        workspace.finish(Some(shown));
        return Evacuated::Looked;
    }
    match workspace.race_small(heap, cells, pass, number, at, from, block) {
        Ok(true) => Evacuated::Raced,
        Ok(false) => Evacuated::Left,
        Err(_) => propose_alone(workspace, heap, name, heap.find_there(collection, name)),
    }
}
