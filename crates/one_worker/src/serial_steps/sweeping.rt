//! The events of a worker that holds a block in hand, in a loop that owns what it goes over.
ghost use Rattle.std.specs.Prelude.{◌≡◌, ◌<◌, ◌≤◌, None, true, false};
ghost use Rattle.scavenge.specs.ReadyToCollect.{IsReadyToCollect};
ghost use Rattle.one_worker.specs.Stepping.{IsOf, HasStepped, left_to_do};

use crate::serial::SerialCollection;
use crate::sweep::SerialSweep;
use heap::{Collection, Heap};
use scavenge::Evacuated;
use std::alloc::Allocator;

/// The next events, where they want neither a block nor the queue: a look with the race for what it proposes, or a scan.
/// Tells whether there were some: else nothing came.
#[inline(always)]
fn sweep_once<A: Allocator + Clone>(
    heap: &Heap<A>,
    collection: &Collection<A>,
    sweep: &mut SerialSweep<A>,
) -> bool
    requires ready { IsReadyToCollect heap.now collection.now }
    requires same { IsOf heap.now collection.now sweep.old }
    requires stepped { HasStepped sweep.old }
    requires proposal { sweep.old.workspace.worker.proposal ≡ None }
    ensures same { IsOf heap.now collection.now sweep.new }
    ensures stepped { HasStepped sweep.new }
    ensures some { result ≡ true → left_to_do sweep.new < left_to_do sweep.old }
    ensures none { result ≡ false → left_to_do sweep.new ≡ left_to_do sweep.old }
    ensures proposal { sweep.new.workspace.worker.proposal ≡ None }
{
    match sweep.evacuate(heap, collection) {
        Evacuated::Left => false,
        Evacuated::NoSlot => sweep.scan_to_next(),
        Evacuated::Looked | Evacuated::Raced => true,
    }
}

/// The next events of a worker that holds a block in hand, as far as a sweep over that block goes. There may be none: what is left
/// is left to `scavenge`, which refuses to stop early. It owns the sweep, so that blocks and lists can stay in registers, and is no
/// part of another function, which would want registers too.
#[inline(never)]
pub fn swept<A: Allocator + Clone>(
    heap: &Heap<A>,
    collection: &Collection<A>,
    serial: SerialCollection<A>,
) -> SerialCollection<A>
    requires ready { IsReadyToCollect heap.now collection.now }
    requires same { IsOf heap.now collection.now serial }
    requires stepped { HasStepped serial }
    ensures same { IsOf heap.now collection.now result }
    ensures stepped { HasStepped result }
    ensures less { left_to_do result ≤ left_to_do serial }
{
    let mut sweep = match serial.opened() {
        Ok(sweep) => sweep,
        Err(serial) => return serial,
    };
    while sweep_once(heap, collection, &mut sweep) {}
    sweep.closed()
}
