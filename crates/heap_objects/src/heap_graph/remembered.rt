//! Which objects have a pointer to an object of a younger generation, and how many do.
ghost use Rattle.std.specs.Prelude.{◌≡◌, ℕ, ◌*◌, ◌<◌, ◌≤◌, Some, length, map, nat_lt, count_by, cond, All};
ghost use Rattle.std.specs.List.{list_any};
ghost use Rattle.std.specs.FinMap.{values};
ghost use Rattle.model.specs.Census.{points_to, points_younger};
ghost use Rattle.model.specs.Graph.{Graph, object_at};
ghost use Rattle.steps.specs.BlockObjects.{block_objects};
ghost use Rattle.layout.specs.Place.{place_word};
ghost use Rattle.steps.specs.Remembered.{is_holder};
ghost use Rattle.steps.specs.Words.{target_of_word};
ghost use Rattle.nursery.specs.Table.{slot_at, slot_objects, table_objects};
ghost use Rattle.large_objects.specs.LargeValue.{LargeObject, large_at};
ghost use Rattle.heap_objects.specs.WithLarge.{large_object, large_entries};
ghost use Rattle.heap_objects.specs.HeapGraph.{IsHeapGraph, IsClosedWord};

use crate::heap_graph::holders::object_of_generation;
use crate::heap_graph::targets::target_generation;
use block_pool::Block;
use large_objects::LargeTable;
use layout::{LargeNumber, Place};
use std::alloc::Allocator;

/// Whether a pointer with this word leads to an object of a generation below `generation`.
fn leads_below<A: Allocator>(
    table: &[Option<Block<A>>],
    large: &LargeTable<A>,
    word: u64,
    generation: u8,
) -> bool
    requires short { length table.now ≤ 65535 }
    ensures { (graph : Graph) → IsHeapGraph graph table.now large.now → IsClosedWord graph word
        → result ≡ points_to (λ target. nat_lt target.generation generation) (object_at graph) (target_of_word word) }
{
    match target_generation(table, large, word) {
        Some(found) => found < generation,
        None => false,
    }
}

/// Whether one of the pointers leads to an object of a generation below `generation`.
fn points_below<A: Allocator>(
    table: &[Option<Block<A>>],
    large: &LargeTable<A>,
    pointers: &[u64],
    generation: u8,
) -> bool
    requires short { length table.now ≤ 65535 }
    ensures { (graph : Graph) → IsHeapGraph graph table.now large.now → All (IsClosedWord graph) pointers.now
        → result ≡ list_any (points_to (λ target. nat_lt target.generation generation) (object_at graph))
        (map target_of_word pointers.now) }
{
    for word in pointers {
        if leads_below(table, large, *word, generation) {
            return true;
        }
    }
    false
}

/// Whether the object at a place is of generation `holder_generation` and has a pointer to an object of a younger one.
pub fn is_holder<A: Allocator>(
    table: &[Option<Block<A>>],
    large: &LargeTable<A>,
    holder_generation: u8,
    place: Place,
) -> bool
    requires short { length table.now ≤ 65535 }
    ensures { (graph : Graph) → IsHeapGraph graph table.now large.now →
        result ≡ is_holder graph holder_generation (place_word place) }
{
    match object_of_generation(table, large, holder_generation, place) {
        Some(object) => points_below(table, large, object.pointers, holder_generation),
        None => false,
    }
}

/// How many objects of a block have a pointer to an object of a younger generation.
fn count_block<A: Allocator>(
    table: &[Option<Block<A>>],
    large: &LargeTable<A>,
    block: &Block<A>,
) -> u64
    requires short { length table.now ≤ 65535 }
    ensures few { result ≤ 512 }
    ensures value { (graph : Graph) (number : ℕ) → IsHeapGraph graph table.now large.now →
        slot_at table.now number ≡ Some block.now
        → result ≡ count_by (points_younger (object_at graph)) (map (λ e. e.1) (block_objects number block.now)) }
{
    let _words = block.words();
    let mut count = 0;
    for k in 0..block.len() {
        if points_below(table, large, block.object(k).pointers, block.generation()) {
            count += 1;
        }
    }
    count
}

/// The same where there is a block, and where its generation isn't the youngest.
fn count_older<A: Allocator>(
    table: &[Option<Block<A>>],
    large: &LargeTable<A>,
    number: usize,
) -> u64
    requires short { length table.now ≤ 65535 }
    requires in_range { number < length table.now }
    ensures few { result ≤ 512 }
    ensures value { (graph : Graph) → IsHeapGraph graph table.now large.now
        → result ≡ count_by (points_younger (object_at graph))
        (map (λ e. e.1) (slot_objects number (slot_at table.now number))) }
{
    match &table[number] {
        Some(block) => {
            if block.generation() == 0 {
                return 0;
            }
            count_block(table, large, block)
        }
        None => 0,
    }
}

/// How many objects in blocks have a pointer to an object of a younger generation.
fn count_small<A: Allocator>(table: &[Option<Block<A>>], large: &LargeTable<A>) -> u64
    requires short { length table.now ≤ 65535 }
    ensures few { result ≤ 65535 * 512 }
    ensures value { (graph : Graph) → IsHeapGraph graph table.now large.now
        → result ≡ count_by (points_younger (object_at graph)) (map (λ e. e.1) (table_objects 0 table.now)) }
{
    let mut count = 0;
    for number in 0..table.len() {
        count += count_older(table, large, number);
    }
    count
}

/// Whether the large object with a number has a pointer to an object of a younger generation.
fn large_points_younger<A: Allocator>(
    table: &[Option<Block<A>>],
    large: &LargeTable<A>,
    number: LargeNumber,
) -> bool
    requires short { length table.now ≤ 65535 }
    ensures { (graph : Graph) (object : LargeObject) → IsHeapGraph graph table.now large.now →
        large_at large.now number.number ≡ Some object
        → result ≡ points_younger (object_at graph) (large_object object) }
{
    let Some((generation, _step)) = large.step_of(number) else {
        return false;
    };
    match large.get(number) {
        Some(object) => points_below(table, large, object.pointers, generation),
        None => false,
    }
}

/// How many large objects have a pointer to an object of a younger generation.
fn count_large<A: Allocator>(table: &[Option<Block<A>>], large: &LargeTable<A>) -> u64
    requires short { length table.now ≤ 65535 }
    ensures few { result ≤ 65535 }
    ensures value { (graph : Graph) → IsHeapGraph graph table.now large.now
        → result ≡ count_by (points_younger (object_at graph)) (map (λ e. e.1) (large_entries 0 large.now.slots)) }
{
    let mut count = 0;
    let mut from = 0;
    while let Some(number) = large.next_from(from) {
        if large_points_younger(table, large, number) {
            count += 1;
        }
        from = number.number as usize + 1;
    }
    count
}

/// How many objects have a pointer to an object of a younger generation.
pub fn count_remembered<A: Allocator>(table: &[Option<Block<A>>], large: &LargeTable<A>) -> u64
    requires short { length table.now ≤ 65535 }
    ensures { (graph : Graph) → IsHeapGraph graph table.now large.now
        → result ≡ count_by (points_younger (object_at graph)) (values graph.objects) }
{
    count_small(table, large) + count_large(table, large)
}
