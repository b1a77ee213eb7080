//! The place of each large object that a collection keeps.
ghost use Rattle.std.specs.Prelude.{◌≡◌, All, length, map};
ghost use Rattle.model.specs.Live.{IsYoung};
ghost use Rattle.layout.specs.Place.{place_word};
ghost use Rattle.steps.specs.CollectionValue.{IsOpened};
ghost use Rattle.settling.specs.Shown.{AreShown};

use forwarding::Forwards;
use heap::{Collection, Heap};
use layout::Place;
use std::alloc::Allocator;

/// Puts each of these large objects, which workers claimed and scanned, at its own place, where its cell shows a claim. Takes no
/// memory, and time in proportion to these objects.
pub fn show_large<A: Allocator + Clone>(
    heap: &Heap<A>,
    collection: &Collection<A>,
    places: &mut Forwards<A>,
    large: &[Place],
)
    requires opened { IsOpened heap.now collection.now.generation collection.now }
    requires young { All (IsYoung heap.now.graph collection.now.generation) (map place_word large.now) }
    requires count { length places.old ≡ collection.now.cells }
    ensures count { length places.new ≡ length places.old }
    ensures shown { AreShown heap.now collection.now (map place_word large.now) places.old places.new }
{
    for place in large {
        places.set(heap.number_of(collection, *place), *place);
    }
}
