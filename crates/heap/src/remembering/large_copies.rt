//! The large objects that a collection keeps: those that may have a pointer to a younger object from where they go.
ghost use Rattle.std.specs.Prelude.{◌≡◌, ℕ, ◌≤◌, length, map, Some, None, is_some, IsSome, IsSomeAnd, IfSome, OnOk};
ghost use Rattle.std.specs.List.{list_any};
ghost use Rattle.std.specs.FinMap.{get};
ghost use Rattle.model.specs.Graph.{Object};
ghost use Rattle.model.specs.Destination.{dest};
ghost use Rattle.layout.specs.ObjectRef.{raw_of};
ghost use Rattle.layout.specs.Place.{large_word};
ghost use Rattle.steps.specs.Words.{IsShownAs, target_of_word};
ghost use Rattle.steps.specs.CollectionValue.{IsNumbering, young_names};
ghost use Rattle.heap_objects.specs.Objects.{graph_in};
ghost use Rattle.heap.specs.Growth.{AreGrown};
ghost use Rattle.heap.specs.Noted.{IsKeptLarge, IsLargeNoted, AreLargeNoted, AreLargeFrom};

use forwarding::Forwards;
use heap_objects::HeapObjects;
use layout::{LargeNumber, ObjectRef, Place};
use remembered_set::Remembered;
use std::alloc::{AllocError, Allocator};
use steps::Collection;

/// Whether some pointer with these words isn't nil.
fn has_pointer(words: &[u64]) -> bool
    ensures { result ≡ list_any is_some (map target_of_word words.now) }
{
    for word in words {
        if *word != 0 {
            return true;
        }
    }
    false
}

/// A large object and the generation that it goes to, where the collection keeps it.
fn kept<'a, A: Allocator + Clone>(
    objects: &'a HeapObjects<A>,
    collection: &Collection<A>,
    places: &Forwards<A>,
    of: LargeNumber,
) -> Option<(ObjectRef<'a>, usize)>
    requires numbering { IsNumbering (graph_in objects.now) collection.now.generation collection.now.numbering }
    requires count { length places.now ≡ length (young_names (graph_in objects.now) collection.now.generation) }
    requires there { IsSome (get objects.now.objects (large_word of.number)) }
    ensures none { result ≡ None → (o : Object) →
        IsKeptLarge objects.now collection.now.generation places.now of.number o → ⊥ }
    ensures some { IfSome result (λ kept. (o : Object) × IsKeptLarge
        objects.now collection.now.generation places.now of.number o) }
    ensures object { IfSome result (λ kept. IsSomeAnd (get objects.now.objects (large_word of.number))
        (λ o. IsShownAs o (raw_of kept.0))) }
    ensures to { IfSome result (λ kept. (o : Object) → get objects.now.objects (large_word of.number) ≡ Some o →
        kept.1 ≡ (dest objects.now.config.shape (o.generation, o.step)).0) }
{
    let (object, at, number) = objects.find(
        collection.numbering(),
        collection.generation(),
        Place::Large(of),
    );
    if places.place(number?).is_none() {
        return None;
    }
    Some((object, objects.config().dest(at).generation as usize))
}

/// The lowest generation that a large object goes to which the collection keeps, and `most` where that is lower.
pub(crate) fn youngest_of_large<A: Allocator + Clone>(
    objects: &HeapObjects<A>,
    collection: &Collection<A>,
    places: &Forwards<A>,
    most: usize,
) -> usize
    requires numbering { IsNumbering (graph_in objects.now) collection.now.generation collection.now.numbering }
    requires count { length places.now ≡ length (young_names (graph_in objects.now) collection.now.generation) }
    ensures most { result ≤ most }
    ensures large { AreLargeFrom result objects.now collection.now.generation places.now }
    ensures greatest { (bound : ℕ) → bound ≤ most →
        AreLargeFrom bound objects.now collection.now.generation places.now → bound ≤ result }
{
    let mut youngest = most;
    let mut from = 0;
    while let Some(of) = objects.next_large(from) {
        if let Some((_object, to)) = kept(objects, collection, places, of) {
            youngest = youngest.min(to);
        }
        from = of.number as usize + 1;
    }
    youngest
}

/// Notes a large object that the collection keeps and that has a pointer in the set of the generation that it goes to,
/// where that is older than the youngest.
fn note_kept<A: Allocator + Clone>(
    sets: &mut Remembered<A>,
    youngest: usize,
    objects: &HeapObjects<A>,
    collection: &Collection<A>,
    places: &Forwards<A>,
    of: LargeNumber,
) -> Result<(), AllocError>
    requires numbering { IsNumbering (graph_in objects.now) collection.now.generation collection.now.numbering }
    requires count { length places.now ≡ length (young_names (graph_in objects.now) collection.now.generation) }
    requires there { IsSome (get objects.now.objects (large_word of.number)) }
    ensures grown { AreGrown sets.old sets.new }
    ensures noted { OnOk result
        (IsLargeNoted youngest sets.new objects.now collection.now.generation places.now of.number) }
{
    let Some((object, to)) = kept(objects, collection, places, of) else {
        return Ok(());
    };
    if !has_pointer(object.pointers) {
        return Ok(());
    }
    if to <= youngest || to >= sets.generations() {
        return Ok(());
    }
    sets.note(to, Place::Large(of))
}

/// Notes the large objects that the collection keeps and that have a pointer, each in the set of the generation that it
/// goes to, where that is not the youngest. At an error some may be noted.
pub(crate) fn note_large<A: Allocator + Clone>(
    sets: &mut Remembered<A>,
    youngest: usize,
    objects: &HeapObjects<A>,
    collection: &Collection<A>,
    places: &Forwards<A>,
) -> Result<(), AllocError>
    requires numbering { IsNumbering (graph_in objects.now) collection.now.generation collection.now.numbering }
    requires count { length places.now ≡ length (young_names (graph_in objects.now) collection.now.generation) }
    ensures grown { AreGrown sets.old sets.new }
    ensures noted { OnOk result
        (AreLargeNoted youngest sets.new objects.now collection.now.generation places.now) }
{
    let mut from = 0;
    while let Some(of) = objects.next_large(from) {
        note_kept(sets, youngest, objects, collection, places, of)?;
        from = of.number as usize + 1;
    }
    Ok(())
}
