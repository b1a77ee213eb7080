//! What is read of the large objects of a heap.
ghost use Rattle.std.specs.Prelude.{◌≡◌, ℕ, ◌+◌, ◌*◌, ◌<◌, ◌≤◌, Some, None, length, take, count_by, nat_le, sum_by, IfOk, slice_index, map};
ghost use Rattle.std.specs.Option.{option_map_or};
ghost use Rattle.model.specs.Graph.{size_of};
ghost use Rattle.large_objects.specs.LargeValue.{LargeObject, large_at};
ghost use Rattle.heap_objects.specs.WithLarge.{large_object, large_entries};
ghost use Rattle.heap_objects.specs.Large.{young_before, CoversYoungLarge, AreInRange};

use large_objects::LargeTable;
use layout::LargeNumber;
use std::alloc::{AllocError, Allocator};
use steps::LargeCount;

/// Whether the large object with a number is of generation at most `g`.
fn is_young<A: Allocator>(large: &LargeTable<A>, number: LargeNumber, g: u8) -> bool
    ensures { (o : LargeObject) → large_at large.now number.number ≡ Some o → result ≡ nat_le o.generation g }
{
    match large.step_of(number) {
        Some((generation, _step)) => generation <= g,
        None => false,
    }
}

/// For each number up to the highest one in use, how many objects of generation at most `g` stand before the large object
/// with that number, where `small` of them are small; and how many there are in all.
pub(crate) fn large_numbers<A: Allocator + Clone>(
    alloc: A,
    large: &LargeTable<A>,
    g: u8,
    small: u32,
) -> Result<(Vec<u32, A>, u32), AllocError>
    requires few { small ≤ 65535 * 512 }
    ensures each { IfOk result (λ r. (n : ℕ) → n < length r.0.items →
        slice_index r.0.items n ≡ small + young_before g large.now.slots n) }
    ensures covers { IfOk result (λ r. CoversYoungLarge g large.now.slots (length r.0.items)) }
    ensures all { IfOk result (λ r. r.1 ≡ small + young_before g large.now.slots (length large.now.slots)) }
{
    let mut numbers = Vec::new(alloc);
    let mut next = small;
    while let Some(number) = large.next_from(numbers.len()) {
        numbers.resize(number.number as usize + 1, next)?;
        if is_young(large, number, g) {
            next += 1;
        }
    }
    Ok((numbers, next))
}

/// How many words a large object takes.
fn size_at<A: Allocator>(large: &LargeTable<A>, number: LargeNumber) -> u64
    ensures { (o : LargeObject) → large_at large.now number.number ≡ Some o → result ≡ size_of (large_object o) }
{
    match large.get(number) {
        Some(object) => 1 + object.pointers.len() as u64 + object.words.len() as u64,
        None => 0,
    }
}

/// How many large objects there are, and how many words they take.
pub(crate) fn count_large<A: Allocator>(large: &LargeTable<A>) -> LargeCount
    requires { AreInRange large.now }
    ensures objects { result.objects ≡ length (large_entries 0 large.now.slots) }
    ensures words { result.words ≡ sum_by size_of (map (λ e. e.1) (large_entries 0 large.now.slots)) }
{
    let mut count = LargeCount {
        objects: 0,
        words: 0,
    };
    let mut from = 0;
    while let Some(number) = large.next_from(from) {
        count.objects += 1;
        count.words += size_at(large, number);
        from = number.number as usize + 1;
    }
    count
}
