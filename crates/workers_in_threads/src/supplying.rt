//! The spare memory that a worker was dealt.
ghost use Rattle.std.specs.Prelude.{◌≡◌};

use heap::{Collection, Spare};
use scavenge::Workspace;
use std::alloc::Allocator;

/// From so many numbered objects for each spare block on these are put in order, which takes as long as a few objects each.
const ORDERED_FROM: usize = 8;

/// Whether so much is collected by so many workers that it pays to put one's spare blocks in the order of memory: a few young
/// objects need few of them, however many are spare.
fn is_ordered<A: Allocator>(collection: &Collection<A>, workers: u32, spare: &Spare<A>) -> bool {
    let blocks = spare.block_count().saturating_mul(workers as usize);
    collection.cells() as usize >= blocks.saturating_mul(ORDERED_FROM)
}

/// Gives the worker its part of the spare memory, its blocks in the order of memory where that pays. Each worker does it on its
/// own thread, while others begin. Where there is no memory to order them they stay as they are, which costs time alone.
pub fn supply<A: Allocator + Clone>(
    alloc: &A,
    collection: &Collection<A>,
    workers: u32,
    workspace: &mut Workspace<A>,
    mut spare: Spare<A>,
)
    ensures { workspace.new ≡ workspace.old }
{
    if is_ordered(collection, workers, &spare) {
        if let Ok(own) = alloc.clone() {
            let _ = spare.order_by_memory(own);
        }
    }
    workspace.supply(spare);
}
