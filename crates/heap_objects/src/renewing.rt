//! Large objects after a collection: those that stay, and those that are gone.
ghost use Rattle.std.specs.Prelude.{◌≡◌, ◌≢◌, ℕ, ◌<◌, ◌≤◌, length, Some, None, option_and_then, slice_index, slice_index_or, is_some};
ghost use Rattle.model.specs.Destination.{Shape};
ghost use Rattle.large_objects.specs.LargeValue.{LargeObject, InUse, large_at};
ghost use Rattle.heap_objects.specs.Inside.{AreApart};
ghost use Rattle.heap_objects.specs.Renewing.{renewed, CoversNumbers};

use crate::heap_space::Space;
use forwarding::Forwards;
use large_objects::LargeTable;
use layout::LargeNumber;
use std::alloc::Allocator;
use steps::StepId;

/// Renews the large object with a number: where its generation is at most `g` it goes to its destination if it has a new
/// place, and else it is gone.
fn renew_one<A: Allocator + Clone>(
    space: &mut Space<A>,
    large: &mut LargeTable<A>,
    g: u8,
    numbers: &[u32],
    places: &Forwards<A>,
    number: LargeNumber,
)
    requires apart { AreApart space.old large.old }
    requires in_use { InUse large.old number.number }
    requires numbered { (o : LargeObject) → large_at large.old number.number ≡ Some o → o.generation ≤ g
        → (number.number < length numbers.now) × (slice_index numbers.now number.number < length places.now) }
    ensures apart { AreApart space.new large.new }
    ensures space { space.new ≡ record space.old { free = space.new.free } }
    ensures this { large_at large.new number.number ≡
        option_and_then (renewed space.old.config.shape g
        (is_some (slice_index_or places.now (slice_index numbers.now number.number) None)))
        (large_at large.old number.number) }
    ensures others { (other : ℕ) → other ≢ number.number → large_at large.new other ≡ large_at large.old other }
{
    let Some((generation, step)) = large.step_of(number) else {
        return;
    };
    if generation > g {
        return;
    }
    match places.place(numbers[number.number as usize]) {
        Some(_) => {
            let at = space.config().dest(StepId { generation, step });
            large.relabel(number, at.generation, at.step);
        }
        None => {
            space.remove_large(large, number);
            let _free = space.free_count();
        }
    }
}

/// Renews all large objects, by rising number: those of generation at most `g` that have a new place go to their
/// destinations, and the others of them are gone. `numbers` has each one's number among what was collected, and `places` the
/// new place of each number.
pub(crate) fn renew<A: Allocator + Clone>(
    space: &mut Space<A>,
    large: &mut LargeTable<A>,
    g: u8,
    numbers: &[u32],
    places: &Forwards<A>,
)
    requires apart { AreApart space.old large.old }
    requires numbers { CoversNumbers g large.old.slots numbers.now (length places.now) }
    ensures apart { AreApart space.new large.new }
    ensures space { space.new ≡ record space.old { free = space.new.free } }
    ensures each { (n : ℕ) →
        large_at large.new n ≡
        option_and_then (renewed space.old.config.shape g
        (is_some (slice_index_or places.now (slice_index numbers.now n) None))) (large_at large.old n) }
{
    let mut from = 0;
    while let Some(number) = large.next_from(from) {
        renew_one(space, large, g, numbers, places, number);
        from = number.number as usize + 1;
    }
}
