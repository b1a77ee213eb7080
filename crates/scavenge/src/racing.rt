//! Races for what a worker proposes.
ghost use Rattle.std.specs.Prelude.{◌≡◌, ◌<◌, ◌≤◌, OnOk, OnErr, length, slice_index};
ghost use Rattle.model.specs.Live.{IsYoung};
ghost use Rattle.forwarding.specs.KeepsPasses.{KeepsPasses};
ghost use Rattle.heap.specs.CollectionValue.{IsOpened, young_names};
ghost use Rattle.scavenge.specs.Shown.{name_of};
ghost use Rattle.scavenge.specs.MayStep.{MayRace};
ghost use Rattle.scavenge.specs.Told.{Races, RacesAt};

use crate::workspace::Workspace;
use forwarding::{Cells, Outcome};
use heap::{Collection, Heap};
use std::alloc::{AllocError, Allocator};

/// Races for what is proposed, which has this number. An error says that memory ran out, and changes nothing.
#[inline(always)]
pub(crate) fn race_for<A: Allocator, C: Cells>(
    workspace: &mut Workspace<A>,
    cells: &mut C,
    pass: &mut C::Pass,
    number: u32,
) -> Result<(), AllocError>
    requires worker { MayRace workspace.old }
    requires pass { C.fits cells.old pass.old }
    requires number { number < C.limit cells.old }
    requires known { number < length workspace.old.names }
    requires name { slice_index workspace.old.names number ≡ name_of workspace.old.worker.proposal }
    ensures keeps { KeepsPasses C.limit C.fits C.at_home C.apart cells.old pass.old cells.new pass.new }
    ensures ok { OnOk result
        (RacesAt number (λ number at outcome. C.race_gives cells.old number at outcome cells.new) (C.known pass.old)
        (C.known pass.new) (C.won pass.old) (C.won pass.new) workspace.old workspace.new) }
    ensures err { OnErr result ((workspace.new ≡ workspace.old) × (cells.new ≡ cells.old) × (pass.new ≡ pass.old)) }
{
    let Some(bid) = workspace.bid() else {
        return Ok(());
    };
    workspace.reserve_won()?;
    let Ok(outcome) = cells.race(pass, number, bid) else {
        workspace.release_won();
        return Err(AllocError);
    };
    match outcome {
        Outcome::Lost(first) => workspace.lose(first),
        Outcome::Won => workspace.win(number),
    }
    Ok(())
}

/// Races for what is proposed. An error says that memory ran out, and changes nothing.
pub fn race<A: Allocator + Clone, C: Cells>(
    workspace: &mut Workspace<A>,
    heap: &Heap<A>,
    collection: &Collection<A>,
    cells: &mut C,
    pass: &mut C::Pass,
) -> Result<(), AllocError>
    requires opened { IsOpened heap.now collection.now.generation collection.now }
    requires names { workspace.old.names ≡ young_names heap.now.graph collection.now.generation }
    requires worker { MayRace workspace.old }
    requires young { IsYoung heap.now.graph collection.now.generation (name_of workspace.old.worker.proposal) }
    requires cells { C.fits cells.old pass.old × (collection.now.cells ≤ C.limit cells.old) }
    ensures keeps { KeepsPasses C.limit C.fits C.at_home C.apart cells.old pass.old cells.new pass.new }
    ensures ok { OnOk result
        (Races heap.now collection.now (λ number at outcome. C.race_gives cells.old number at outcome cells.new)
        (C.known pass.old) (C.known pass.new) (C.won pass.old) (C.won pass.new) workspace.old workspace.new) }
    ensures err { OnErr result ((workspace.new ≡ workspace.old) × (cells.new ≡ cells.old) × (pass.new ≡ pass.old)) }
{
    let Some(name) = workspace.proposed() else {
        return Ok(());
    };
    let number = heap.number_of(collection, name);
    race_for(workspace, cells, pass, number)
}
