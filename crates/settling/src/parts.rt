//! Workers' parts as reports and blocks.
ghost use Rattle.std.specs.Prelude.{◌≡◌, ◌++◌, IfOk, map};
ghost use Rattle.layout.specs.Place.{place_word};
ghost use Rattle.steps.specs.CollectionValue.{IsOpened};
ghost use Rattle.workers.specs.Joined.{Each, somes};
ghost use Rattle.settling.specs.Telling.{IsAtRest, IsPartOf, AreBrought};

use block_pool::Block;
use heap::{Collection, Heap, Spare, WorkerReport};
use layout::Place;
use scavenge::{Parts, Workspace};
use std::alloc::{AllocError, Allocator, Global};

/// The blocks in one list: those for the destinations, and then those that are done.
pub fn in_one_list<A: Allocator>(
    alloc: A,
    allocation: Vec<Option<Block<A>>, A>,
    mut done: Vec<Block<A>, A>,
) -> Result<Vec<Block<A>, A>, AllocError>
    ensures { IfOk result (λ v. v.items ≡ somes allocation.items ++ done.items) }
{
    let mut blocks = Vec::new(alloc);
    for slot in allocation {
        if let Some(block) = slot {
            blocks.push(block)?;
        }
    }
    blocks.append(&mut done)?;
    Ok(blocks)
}

/// One worker's report, the blocks that it leaves, the large objects that it scanned, and the memory that it did not need.
fn part_of<A: Allocator + Clone>(
    alloc: A,
    heap: &Heap<A>,
    collection: &Collection<A>,
    workspace: Workspace<A>,
) -> Result<(WorkerReport<A>, Vec<Block<A>, A>, Vec<Place, A>, Spare<A>), AllocError>
    requires opened { IsOpened heap.now collection.now.generation collection.now }
    requires rest { IsAtRest heap.now collection.now workspace }
    ensures { IfOk result
        (λ r. IsPartOf heap.now collection.now workspace.worker r.0 r.1.items (map place_word r.2.items)) }
{
    let Parts {
        allocation,
        done,
        large,
        won,
        scanned,
        spare,
    } = workspace.into_parts();
    let blocks = in_one_list(alloc, allocation, done)?;
    Ok((WorkerReport::new(won, scanned), blocks, large, spare))
}

/// The parts of all workers, one worker after another.
#[derive(Drop)]
pub struct JoinedParts<A: Allocator = Global> {
    /// What each won and scanned.
    pub reports: Vec<WorkerReport<A>, A>,
    /// The blocks that they leave.
    pub blocks: Vec<Block<A>, A>,
    /// The large objects that they scanned.
    pub large: Vec<Place, A>,
    /// Memory that they did not need.
    pub spare: Spare<A>,
}

/// What the workers bring, one worker after another. An error says that memory ran out.
pub fn brought<A: Allocator + Clone>(
    alloc: A,
    heap: &Heap<A>,
    collection: &Collection<A>,
    workspaces: Vec<Workspace<A>, A>,
) -> Result<JoinedParts<A>, AllocError>
    requires opened { IsOpened heap.now collection.now.generation collection.now }
    requires rest { Each (IsAtRest heap.now collection.now) workspaces.items }
    ensures { IfOk result (λ r. AreBrought heap.now collection.now (map (λ w. w.worker) workspaces.items)
        r.reports.items r.blocks.items (map place_word r.large.items)) }
{
    let mut reports = Vec::new(alloc.clone()?);
    let mut blocks = Vec::new(alloc.clone()?);
    let mut large = Vec::new(alloc.clone()?);
    let mut spare = Spare::none();
    for workspace in workspaces {
        let own = alloc.clone()?;
        let (report, mut left, mut claimed, more) = part_of(own, heap, collection, workspace)?;
        reports.push(report)?;
        blocks.append(&mut left)?;
        large.append(&mut claimed)?;
        spare.join(alloc.clone()?, more, 0)?;
    }
    Ok(JoinedParts {
        reports,
        blocks,
        large,
        spare,
    })
}
