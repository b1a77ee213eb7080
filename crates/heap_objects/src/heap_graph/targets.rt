//! The objects that pointers lead to.
ghost use Rattle.std.specs.Prelude.{◌≡◌, ◌≢◌, ◌≤◌, length, IfSome, IfNone, option_and_then};
ghost use Rattle.std.specs.Option.{option_map};
ghost use Rattle.model.specs.Graph.{Graph, object_at};
ghost use Rattle.model.specs.OldSlots.{is_young_name};
ghost use Rattle.layout.specs.Place.{place_word};
ghost use Rattle.steps.specs.Words.{target_of_word};
ghost use Rattle.nursery.specs.Table.{slot_at};
ghost use Rattle.large_objects.specs.LargeValue.{large_at};
ghost use Rattle.heap_objects.specs.HeapGraph.{IsHeapGraph, IsClosedWord};

use block_pool::Block;
use large_objects::LargeTable;
use layout::{LargeNumber, Place};
use std::alloc::Allocator;

/// The generation of a block, where there is one with that number.
fn generation_at<A: Allocator>(table: &[Option<Block<A>>], number: usize) -> Option<u8>
    ensures { result ≡ option_map (λ block. block.generation) (slot_at table.now number) }
{
    if number >= table.len() {
        return None;
    }
    match &table[number] {
        Some(block) => Some(block.generation()),
        None => None,
    }
}

/// The generation of a large object, where there is one with that number.
fn large_generation<A: Allocator>(large: &LargeTable<A>, number: LargeNumber) -> Option<u8>
    ensures { result ≡ option_map (λ object. object.generation) (large_at large.now number.number) }
{
    match large.step_of(number) {
        Some((generation, _step)) => Some(generation),
        None => None,
    }
}

/// The generation of the object at a place.
fn generation_of<A: Allocator>(
    table: &[Option<Block<A>>],
    large: &LargeTable<A>,
    place: Place,
) -> Option<u8>
    requires short { length table.now ≤ 65535 }
    ensures { (graph : Graph) → IsHeapGraph graph table.now large.now → IsClosedWord graph (place_word place)
        → result ≡ option_map (λ o. o.generation) (object_at graph (place_word place)) }
{
    match place {
        Place::Small(at) => generation_at(table, at.block as usize),
        Place::Large(of) => large_generation(large, of),
    }
}

/// Where a pointer with this word leads.
pub fn target(word: u64) -> Option<Place>
    ensures some { IfSome result (λ place. place_word place ≡ word) }
    ensures none { IfNone result ((place : Place) → place_word place ≢ word) }
{
    Place::from_word(word).flatten()
}

/// Whether the object at a place is of generation at most `generation`.
pub fn is_at_most<A: Allocator>(
    table: &[Option<Block<A>>],
    large: &LargeTable<A>,
    place: Place,
    generation: u8,
) -> bool
    requires short { length table.now ≤ 65535 }
    ensures { (graph : Graph) → IsHeapGraph graph table.now large.now → IsClosedWord graph (place_word place)
        → result ≡ is_young_name graph generation (place_word place) }
{
    match generation_of(table, large, place) {
        Some(of) => of <= generation,
        None => false,
    }
}

/// The generation of the object to which a pointer with this word leads.
pub fn target_generation<A: Allocator>(
    table: &[Option<Block<A>>],
    large: &LargeTable<A>,
    word: u64,
) -> Option<u8>
    requires short { length table.now ≤ 65535 }
    ensures { (graph : Graph) → IsHeapGraph graph table.now large.now → IsClosedWord graph word
        → result ≡ option_map (λ o. o.generation) (option_and_then (object_at graph) (target_of_word word)) }
{
    match target(word) {
        Some(place) => generation_of(table, large, place),
        None => None,
    }
}
