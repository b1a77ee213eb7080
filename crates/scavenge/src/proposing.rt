//! What a worker proposes that looked at an empty cell.
ghost use Rattle.std.specs.Prelude.{◌≡◌, ◌<◌, true, false, Some, Err, IsSomeAnd, MatchOption, OnOk, OnErr, length};
ghost use Rattle.std.specs.Option.{option_map};
ghost use Rattle.model.specs.Graph.{object_at};
ghost use Rattle.layout.specs.Place.{place_word};
ghost use Rattle.layout.specs.ObjectRef.{raw_of};
ghost use Rattle.heap.specs.StepPairs.{step_pair, stands_at};
ghost use Rattle.heap.specs.Words.{IsShownAs};
ghost use Rattle.workers.specs.Setting.{is_large_name, destination_of, destination_number};
ghost use Rattle.workers.specs.WorkerSteps.{draws_for};
ghost use Rattle.scavenge.specs.Named.{IsDestination};
ghost use Rattle.scavenge.specs.Slots.{objects_of, Renews, Proposes, GoesTo};
ghost use Rattle.scavenge.specs.MayStep.{MayDraw, Draws, FindsNone};
ghost use Rattle.scavenge.specs.Evacuates.{WantsMore, ProposesThere};

use crate::looking::LookError;
use crate::workspace::Workspace;
use block_pool::{ClaimSeat, Claims};
use heap::{Found, Heap, StepId};
use layout::Place;
use std::alloc::Allocator;

/// Where a small object goes, and the number of that destination. A large one stays.
#[inline(always)]
pub(crate) fn goes_to<A: Allocator + Clone>(
    heap: &Heap<A>,
    name: Place,
    found: Found<'_>,
) -> Option<(StepId, usize)>
    requires shown { IsSomeAnd (object_at heap.now.graph (place_word name)) (λ o. IsShownAs o (raw_of found.object)) }
    requires stands { Some (step_pair found.at) ≡ option_map stands_at (object_at heap.now.graph (place_word name)) }
    ensures { MatchOption result (is_large_name (objects_of heap.now) (place_word name) ≡ true)
        (λ to. GoesTo heap.now (place_word name) (step_pair to.0) to.1) }
{
    let config = heap.config();
    if found.object.size() as usize > config.block_words() / 4 {
        return None;
    }
    let to = config.dest(found.at);
    Some((to, config.dest_number(to)))
}

/// Puts a copy of a small object at the end of the block for its destination, where it fits there, and proposes it. Tells
/// whether it did.
#[inline(always)]
pub(crate) fn propose_there<A: Allocator + Clone>(
    workspace: &mut Workspace<A>,
    heap: &Heap<A>,
    name: Place,
    found: Found<'_>,
) -> bool
    requires proposal { workspace.old.worker.proposal ≡ None }
    requires config { workspace.old.config ≡ heap.now.config }
    requires shown { IsSomeAnd (object_at heap.now.graph (place_word name)) (λ o. IsShownAs o (raw_of found.object)) }
    requires stands { Some (step_pair found.at) ≡ option_map stands_at (object_at heap.now.graph (place_word name)) }
    ensures proposed { result ≡ true →
        ProposesThere (objects_of heap.now) (place_word name) workspace.old workspace.new }
    ensures none { result ≡ false → workspace.new ≡ workspace.old }
    ensures wants { result ≡ false → WantsMore (objects_of heap.now) workspace.old.worker (place_word name) }
{
    let Some((_, d)) = goes_to(heap, name, found) else {
        return false;
    };
    if !workspace.fits(d, found.object.size() as usize) {
        return false;
    }
    workspace.push_copy(name, found.object, d);
    true
}

/// Draws a block for a destination, and retires the one that is there. An error changes nothing.
fn draw_block<A: Allocator + Clone>(
    workspace: &mut Workspace<A>,
    alloc: A,
    heap: &Heap<A>,
    to: StepId,
    d: usize,
    claims: &Claims<A>,
    seat: &mut ClaimSeat,
) -> Result<(), LookError>
    requires draws { MayDraw claims.now.source seat.old }
    requires config { workspace.old.config ≡ heap.now.config }
    requires proposal { workspace.old.worker.proposal ≡ None }
    requires room { d < length workspace.old.worker.allocation }
    requires to { IsDestination workspace.old.config.shape (to.generation, to.step) }
    requires number { d ≡ destination_number workspace.old.config.shape (to.generation, to.step) }
    ensures draws { Draws claims.now.source seat.old seat.new }
    ensures ok { OnOk result (Renews d seat.old seat.new workspace.old workspace.new) }
    ensures full { result ≡ Err LookError.HeapFull → FindsNone claims.now.source seat.old seat.new }
    ensures memory { result ≡ Err LookError.NoMemory → seat.new ≡ seat.old }
    ensures err { OnErr result (workspace.new ≡ workspace.old) }
{
    let mut block = workspace.new_block(alloc, heap.config().block_words())?;
    workspace.reserve_block()?;
    let Some(number) = claims.draw(seat) else {
        workspace.release_block();
        return Err(LookError::HeapFull);
    };
    block.label(number, to.generation, to.step);
    workspace.renew(d, block);
    Ok(())
}

/// Proposes an object that has no copy. An error changes nothing.
pub(crate) fn propose<A: Allocator + Clone>(
    workspace: &mut Workspace<A>,
    alloc: A,
    heap: &Heap<A>,
    name: Place,
    found: Found<'_>,
    claims: &Claims<A>,
    seat: &mut ClaimSeat,
) -> Result<(), LookError>
    requires proposal { workspace.old.worker.proposal ≡ None }
    requires config { workspace.old.config ≡ heap.now.config }
    requires shown { IsSomeAnd (object_at heap.now.graph (place_word name)) (λ o. IsShownAs o (raw_of found.object)) }
    requires stands { Some (step_pair found.at) ≡ option_map stands_at (object_at heap.now.graph (place_word name)) }
    requires room { destination_of (objects_of heap.now) (place_word name) < length workspace.old.worker.allocation }
    requires draws { MayDraw claims.now.source seat.old }
    ensures draws { Draws claims.now.source seat.old seat.new }
    ensures ok { OnOk result
        (Proposes (objects_of heap.now) (place_word name) seat.old seat.new workspace.old workspace.new) }
    ensures full { result ≡ Err LookError.HeapFull → FindsNone claims.now.source seat.old seat.new }
    ensures wanted { result ≡ Err LookError.HeapFull →
        draws_for (objects_of heap.now) workspace.old.worker (place_word name) ≡ true }
    ensures memory { result ≡ Err LookError.NoMemory → seat.new ≡ seat.old }
    ensures err { OnErr result (workspace.new ≡ workspace.old) }
{
    if propose_there(workspace, heap, name, found) {
        return Ok(());
    }
    let Some((to, d)) = goes_to(heap, name, found) else {
        workspace.propose_large(name)?;
        return Ok(());
    };
    draw_block(workspace, alloc, heap, to, d, claims, seat)?;
    workspace.push_copy(name, found.object, d);
    Ok(())
}
