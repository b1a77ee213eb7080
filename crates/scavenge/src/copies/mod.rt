//! What queues hand over in a collection: blocks of copies.
ghost use Rattle.std.specs.Prelude.{◌≡◌};

use heap::Heap;
use pending_queues::Cargo;
use std::alloc::{Allocator, Global};
use std::marker::{Model, PhantomData};
use std::snapshot::Snapshot;

/// What blocks are handed over for: the heap that is collected, remembered without a byte, and the oldest generation
/// collected.
#[derive(Drop)]
pub struct CopiesKey<A: Allocator = Global> {
    heap: Snapshot<Heap<A>>,
    generation: u8,
}

impl<A: Allocator> Model for CopiesKey<A> {
    ghost use Rattle.scavenge.specs.Handed.{CopiesKeyValue, key_code};

    ghost Value = { CopiesKeyValue };

    ghost coded = { key_code };

    ghost view = { λ k. record { heap = k.heap.value; generation = k.generation } };
}

impl<A: Allocator> CopiesKey<A> {
    /// The key of a collection of the generations 0 to `generation` of this heap as it is now.
    pub fn new(heap: &Heap<A>, generation: u8) -> Self
        ensures { result ≡ record { heap = heap.now; generation = generation } }
    {
        CopiesKey {
            heap: Snapshot::of(heap),
            generation,
        }
    }
}

/// Blocks of copies. Each object of a block is a copy of a live object; one at least is unscanned, and what isn't scanned
/// holds the old pointers.
pub struct Copies<A: Allocator = Global> {
    of: PhantomData<A>,
}

impl<A: Allocator> Cargo for Copies<A> {
    ghost use Rattle.scavenge.specs.Handed.{IsHandedFor};

    type Key = CopiesKey<A>;

    ghost fits = { IsHandedFor };
}
