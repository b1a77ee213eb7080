//! A look at the current slot.
ghost use Rattle.std.specs.Prelude.{◌≡◌, ◌≤◌, ◌↔◌, true, false, Some, None, Ok, Err, IsSomeAnd, MatchOption, OnErr, if◌then◌else◌};
ghost use Rattle.model.specs.Graph.{IsClosed, object_at};
ghost use Rattle.layout.specs.Place.{place_word};
ghost use Rattle.layout.specs.ObjectRef.{raw_of};
ghost use Rattle.forwarding.specs.KeepsPasses.{KeepsPasses};
ghost use Rattle.heap.specs.CollectionValue.{IsOpened};
ghost use Rattle.heap.specs.Found.{IsFound};
ghost use Rattle.heap.specs.Words.{IsShownAs};
ghost use Rattle.workers.specs.Setting.{is_large_name};
ghost use Rattle.workers.specs.WorkerSteps.{current_slot};
ghost use Rattle.workers.specs.Joined.{Roomy};
ghost use Rattle.scavenge.specs.Slots.{seen, objects_of, Looks, WantsBlock};
ghost use Rattle.scavenge.specs.MayStep.{IsOpenFor, MayLook, MayDraw, OnlyLooks, Draws, FindsNone};

use crate::proposing::propose;
use crate::slots::slot;
use crate::workspace::Workspace;
use block_pool::{ClaimSeat, Claims};
use forwarding::Cells;
use heap::{Collection, Found, Heap};
use layout::{ObjectRef, Place};
use std::alloc::{AllocError, Allocator};
use thiserror::Error;

/// Why a worker didn't look. It is as before.
#[derive(Clone, Copy, Debug, PartialEq, Eq, Error)]
pub enum LookError {
    /// The copy needs a block, and all were drawn.
    #[error("all free blocks were drawn")]
    HeapFull,
    /// Memory was refused.
    #[error("no memory")]
    NoMemory,
}

impl From<AllocError> for LookError {
    ghost use Rattle.scavenge.specs.declared.looking.LookError.TheVariants.{NoMemory};
    ghost use Rattle.std.specs.Prelude.{◌≡◌};

    ghost from_gives = { λ _ e. e ≡ NoMemory };

    fn from(_error: AllocError) -> LookError {
        LookError::NoMemory
    }
}

/// Where an object stands whose cell shows this place: a large object at its own.
#[inline(always)]
pub(crate) fn forwarded_place<A: Allocator + Clone>(
    heap: &Heap<A>,
    name: Place,
    object: ObjectRef<'_>,
    shown: Place,
) -> Place
    requires shown { IsSomeAnd (object_at heap.now.graph (place_word name)) (λ o. IsShownAs o (raw_of object)) }
    ensures { place_word result ≡
        (if is_large_name (objects_of heap.now) (place_word name) then place_word name else place_word shown) }
{
    if object.size() as usize > heap.config().block_words() / 4 {
        return name;
    }
    shown
}

/// What stands at the current slot's target, where an object does.
#[inline(always)]
pub(crate) fn target_of<'a, A: Allocator + Clone>(
    workspace: &Workspace<A>,
    heap: &'a Heap<A>,
    collection: &Collection<A>,
    name: Place,
) -> Option<Found<'a>>
    requires opened { IsOpened heap.now collection.now.generation collection.now }
    requires closed { IsClosed heap.now.graph }
    requires current { current_slot (objects_of heap.now) workspace.now.worker ≡ Some (Some (place_word name)) }
    ensures { MatchOption result (object_at heap.now.graph (place_word name) ≡ None)
        (λ found. IsFound heap.now collection.now (place_word name) found) }
{
    if !workspace.is_started() {
        return heap.find(collection, name);
    }
    Some(heap.find_there(collection, name))
}

/// Looks at the current slot, where there is one: `false` says that there is none, and then nothing changes. Where the
/// slot's object has no copy yet, the worker then has a proposal for it; else the slot is finished. An error says that a
/// block was wanted and all were drawn, or that memory ran out; the worker is as before.
pub fn look<A: Allocator + Clone, C: Cells>(
    workspace: &mut Workspace<A>,
    alloc: A,
    heap: &Heap<A>,
    collection: &Collection<A>,
    cells: &mut C,
    pass: &mut C::Pass,
    claims: &Claims<A>,
    seat: &mut ClaimSeat,
) -> Result<bool, LookError>
    requires open { IsOpenFor heap.now collection.now workspace.old }
    requires worker { MayLook heap.now collection.now workspace.old }
    requires room { Roomy (seen heap.now collection.now) workspace.old.worker }
    requires cells { C.fits cells.old pass.old × (collection.now.cells ≤ C.limit cells.old) }
    requires draws { MayDraw claims.now.source seat.old }
    ensures keeps { KeepsPasses C.limit C.fits C.at_home C.apart cells.old pass.old cells.new pass.new }
    ensures looks { OnlyLooks C.won C.known cells.old pass.old cells.new pass.new }
    ensures draws { Draws claims.now.source seat.old seat.new }
    ensures none { (result ≡ Ok false) ↔ (current_slot (seen heap.now collection.now) workspace.old.worker ≡ None) }
    ensures nothing { result ≡ Ok false →
        (workspace.new ≡ workspace.old) × (pass.new ≡ pass.old) × (seat.new ≡ seat.old) }
    ensures ok { result ≡ Ok true →
        Looks heap.now collection.now (C.look_gives cells.old) (C.known pass.old)
        (C.known pass.new) seat.old seat.new workspace.old workspace.new }
    ensures full { result ≡ Err LookError.HeapFull → FindsNone claims.now.source seat.old seat.new ×
        WantsBlock heap.now collection.now (C.look_gives cells.old) (C.known pass.old)
        (C.known pass.new) workspace.old }
    ensures memory { result ≡ Err LookError.NoMemory → seat.new ≡ seat.old }
    ensures err { OnErr result (workspace.new ≡ workspace.old) }
{
    let Some(target) = slot(workspace, heap) else {
        return Ok(false);
    };
    let Some(name) = target else {
        workspace.finish(None);
        return Ok(true);
    };
    let Some(found) = target_of(workspace, heap, collection, name) else {
        workspace.finish(target);
        return Ok(true);
    };
    let Some(number) = found.number else {
        workspace.finish(Some(name));
        return Ok(true);
    };
    match cells.look(pass, number) {
        None => {
            propose(workspace, alloc, heap, name, found, claims, seat)?;
            Ok(true)
        }
        Some(place) => {
            let place = forwarded_place(heap, name, found.object, place);
            workspace.finish(Some(place));
            Ok(true)
        }
    }
}
