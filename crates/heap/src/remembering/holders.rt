//! The members of the remembered sets that stay: the objects with a pointer to a younger generation.
ghost use Rattle.std.specs.Prelude.{◌≡◌, ◌≢◌, ℕ, ◌+◌, ◌<◌, ◌≤◌, ◌↔◌, ◌⊎◌, length, drop, nat_eq, IsTrue};
ghost use Rattle.std.specs.List.{IsDistinct};
ghost use Rattle.model.specs.Graph.{IsClosed};
ghost use Rattle.model.specs.Reached.{has};
ghost use Rattle.steps.specs.Remembered.{is_holder};
ghost use Rattle.remembered_set.specs.Sets.{members_of};
ghost use Rattle.heap_objects.specs.Objects.{graph_in};

use heap_objects::HeapObjects;
use remembered_set::Remembered;
use std::alloc::Allocator;

/// Takes the `k`-th member out of the set of generation `h` where it is no object of that generation with a pointer to a
/// younger one. The last member may take its place.
fn keep_or_remove<A: Allocator + Clone>(
    objects: &HeapObjects<A>,
    sets: &mut Remembered<A>,
    h: usize,
    k: usize,
)
    requires closed { IsClosed (graph_in objects.now) }
    requires generation { h < length sets.old }
    requires in_range { k < length (members_of sets.old h) }
    ensures generations { length sets.new ≡ length sets.old }
    ensures others { (other : ℕ) → other ≢ h → members_of sets.new other ≡ members_of sets.old other }
    ensures at_least { k ≤ length (members_of sets.new h) }
    ensures members { (n : ℕ) → IsTrue (has (members_of sets.new h) n) → IsTrue (has (members_of sets.old h) n) }
    ensures kept { (n : ℕ) → IsTrue (has (members_of sets.old h) n) → IsTrue (is_holder (graph_in objects.now) h n)
        → IsTrue (has (members_of sets.new h) n) }
    ensures from { (n : ℕ) → IsTrue (has (drop k (members_of sets.new h)) n)
        → IsTrue (is_holder (graph_in objects.now) h n) ⊎ IsTrue (has (drop (k + 1) (members_of sets.old h)) n) }
{
    let place = sets.member(h, k);
    let _generations = sets.generations();
    let _count = sets.len(h);
    if objects.is_holder(h as u8, place) {
        return;
    }
    sets.remove(h, k);
}

/// Leaves of the set of generation `h` the objects of that generation with a pointer to a younger one.
fn keep_generation<A: Allocator + Clone>(
    objects: &HeapObjects<A>,
    sets: &mut Remembered<A>,
    h: usize,
)
    requires closed { IsClosed (graph_in objects.now) }
    requires generation { h < length sets.old }
    ensures generations { length sets.new ≡ length sets.old }
    ensures others { (other : ℕ) → other ≢ h → members_of sets.new other ≡ members_of sets.old other }
    ensures members { (n : ℕ) → IsTrue (has (members_of sets.new h) n)
        ↔ (IsTrue (has (members_of sets.old h) n) × IsTrue (is_holder (graph_in objects.now) h n)) }
    ensures once { IsDistinct nat_eq (members_of sets.new h) }
{
    let mut k = sets.len(h);
    while k > 0 {
        k -= 1;
        keep_or_remove(objects, sets, h, k);
    }
    let _count = sets.len(h);
}

/// Leaves of each set the objects of its generation with a pointer to a younger one. It takes no memory.
pub(crate) fn keep_holders<A: Allocator + Clone>(objects: &HeapObjects<A>, sets: &mut Remembered<A>)
    requires { IsClosed (graph_in objects.now) }
    ensures generations { length sets.new ≡ length sets.old }
    ensures members { (h n : ℕ) → h < length sets.old → IsTrue (has (members_of sets.new h) n)
        ↔ (IsTrue (has (members_of sets.old h) n) × IsTrue (is_holder (graph_in objects.now) h n)) }
    ensures once { (h : ℕ) → h < length sets.old → IsDistinct nat_eq (members_of sets.new h) }
{
    for h in 0..sets.generations() {
        keep_generation(objects, sets, h);
    }
}
