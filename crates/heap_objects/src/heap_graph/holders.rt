//! The object at a place, where it is of a generation.
ghost use Rattle.std.specs.Prelude.{◌≡◌, ◌≤◌, List, Option, None, length, All, IfSome, IsSomeAnd, MatchOption};
ghost use Rattle.model.specs.Graph.{Graph};
ghost use Rattle.layout.specs.ObjectRef.{raw_of};
ghost use Rattle.layout.specs.Place.{place_word, small_word, large_word};
ghost use Rattle.block_pool.specs.BlockValue.{BlockValue};
ghost use Rattle.steps.specs.Remembered.{object_of_generation};
ghost use Rattle.steps.specs.Words.{IsShownAs};
ghost use Rattle.large_objects.specs.LargeValue.{LargeValue};
ghost use Rattle.heap_objects.specs.HeapGraph.{IsHeapGraph, IsClosedWord};

use block_pool::Block;
use large_objects::LargeTable;
use layout::{LargeNumber, ObjectRef, Place, SmallPlace};
use nursery::{block_object, step_at};
use std::alloc::Allocator;

/// The object at a place in a block where there is one of generation `h`.
fn small_of_generation<A: Allocator>(
    table: &[Option<Block<A>>],
    h: u8,
    at: SmallPlace,
) -> Option<ObjectRef<'_>>
    requires short { length table.now ≤ 65535 }
    ensures object { (graph : Graph) (large : LargeValue) → IsHeapGraph graph table.now large
        → MatchOption result (object_of_generation graph h (small_word at.block at.offset) ≡ None)
        (λ object. IsSomeAnd (object_of_generation graph h (small_word at.block at.offset))
        (λ o. IsShownAs o (raw_of object))) }
    ensures closed { (graph : Graph) (large : LargeValue) → IsHeapGraph graph table.now large
        → IfSome result (λ object. All (IsClosedWord graph) (raw_of object).pointers) }
{
    let number = at.block as usize;
    let Some(object) = block_object(table, number, at.offset as usize) else {
        return None;
    };
    if step_at(table, number).generation != h {
        return None;
    }
    Some(object)
}

/// The large object with a number where there is one of generation `h`.
fn large_of_generation<A: Allocator>(
    large: &LargeTable<A>,
    h: u8,
    number: LargeNumber,
) -> Option<ObjectRef<'_>>
    ensures object { (graph : Graph) (table : List (Option BlockValue)) → length table ≤ 65535 →
        IsHeapGraph graph table large.now
        → MatchOption result (object_of_generation graph h (large_word number.number) ≡ None)
        (λ object. IsSomeAnd (object_of_generation graph h (large_word number.number))
        (λ o. IsShownAs o (raw_of object))) }
    ensures closed { (graph : Graph) (table : List (Option BlockValue)) → length table ≤ 65535 →
        IsHeapGraph graph table large.now
        → IfSome result (λ object. All (IsClosedWord graph) (raw_of object).pointers) }
{
    let Some((generation, _step)) = large.step_of(number) else {
        return None;
    };
    if generation != h {
        return None;
    }
    large.get(number)
}

/// The object at a place where there is one of generation `h`.
pub(crate) fn object_of_generation<'a, A: Allocator>(
    table: &'a [Option<Block<A>>],
    large: &'a LargeTable<A>,
    h: u8,
    place: Place,
) -> Option<ObjectRef<'a>>
    requires short { length table.now ≤ 65535 }
    ensures object { (graph : Graph) → IsHeapGraph graph table.now large.now
        → MatchOption result (object_of_generation graph h (place_word place) ≡ None)
        (λ object. IsSomeAnd (object_of_generation graph h (place_word place)) (λ o. IsShownAs o (raw_of object))) }
    ensures closed { (graph : Graph) → IsHeapGraph graph table.now large.now
        → IfSome result (λ object. All (IsClosedWord graph) (raw_of object).pointers) }
{
    match place {
        Place::Small(at) => small_of_generation(table, h, at),
        Place::Large(number) => large_of_generation(large, h, number),
    }
}
