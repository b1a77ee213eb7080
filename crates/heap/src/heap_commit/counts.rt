//! What a commit counts.
ghost use Rattle.std.specs.Prelude.{◌≡◌, ◌+◌, ◌<◌, ◌≤◌, length, sum_by, All};
ghost use Rattle.block_pool.specs.BlockValue.{used_of};

use block_pool::Block;
use std::alloc::Allocator;
use steps::{Delivery, Report, WorkerReport};

/// How many objects the workers won together.
fn count_won<A: Allocator>(workers: &[WorkerReport<A>]) -> u64
    requires { sum_by (λ w. length w.won) workers.now < 18446744073709551616 }
    ensures { result ≡ sum_by (λ w. length w.won) workers.now }
{
    let mut count = 0u64;
    for worker in workers {
        count += worker.won().len() as u64;
    }
    count
}

/// Whether the objects of each block fit in it, as they always do.
pub(crate) fn all_fit<A: Allocator>(blocks: &[Block<A>]) -> bool
    ensures { All (λ b. used_of b ≤ b.words) blocks.now }
{
    let mut fit = true;
    for block in blocks {
        fit = block.used() <= block.words() && fit;
    }
    fit
}

/// The report of a collection of so many objects.
pub(crate) fn report_of<A: Allocator>(
    workers: Vec<WorkerReport<A>, A>,
    deliveries: Vec<Delivery, A>,
    objects: u64,
) -> Report<A>
    requires { sum_by (λ w. length w.won) workers.items ≤ objects }
    ensures won { result.kept ≡ sum_by (λ w. length w.won) workers.items }
    ensures freed { result.kept + result.freed ≡ objects }
    ensures workers { result.workers ≡ workers }
    ensures deliveries { result.deliveries ≡ deliveries }
{
    let kept = count_won(&workers);
    Report {
        kept,
        freed: objects - kept,
        workers,
        deliveries,
    }
}
