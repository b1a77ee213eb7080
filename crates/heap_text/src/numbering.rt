//! The objects of a heap in the order of their numbers.
ghost use Rattle.std.specs.Prelude.{◌≡◌, ◌<◌, [], length, map, flat_map, replicate, Some, None, IsSome, IsTrue, IfOk, OnOk, All, unwrap_or};
ghost use Rattle.std.specs.Option.{option_map};
ghost use Rattle.std.specs.FinMap.{len};
ghost use Rattle.model.specs.Graph.{object_at, root_at};
ghost use Rattle.model.specs.Store.{some_of};
ghost use Rattle.model.specs.Reached.{has, spread};
ghost use Rattle.model.specs.Text.{targets_at, number_of, numbered};
ghost use Rattle.layout.specs.Place.{place_word};
ghost use Rattle.heap.specs.Words.{target_of_word};
ghost use Rattle.heap_text.specs.HeapLines.{name_value, named_objects};
ghost use Rattle.heap_text.specs.Numbering.{HasAllObjects, IsNumbering, visited, visited_all, LeadsInto, IsPointerWord, IsClosedOrder};

use crate::listing::Name;
use heap::{Collection, Heap};
use layout::Place;
use std::alloc::{AllocError, Allocator};

/// The objects that names lead to, in the order of their numbers.
#[derive(Drop)]
pub(crate) struct Numbering<A: Allocator> {
    /// The number of each object, where it has one, by its index among all objects.
    pub(crate) numbers: Vec<Option<usize>, A>,
    /// Where the objects that have numbers stand.
    pub(crate) places: Vec<Place, A>,
}

/// The place that a pointer's word leads to.
pub(crate) fn target_of(word: u64) -> Option<Place>
    requires { IsPointerWord word }
    ensures { option_map place_word result ≡ target_of_word word }
{
    Place::from_word(word).unwrap()
}

impl<A: Allocator + Clone> Numbering<A> {
    /// No object has a number.
    fn new(alloc: A, cells: usize) -> Result<Self, AllocError>
        ensures numbers { IfOk result (λ numbering. numbering.numbers.items ≡ replicate cells None) }
        ensures places { IfOk result (λ numbering. numbering.places.items ≡ []) }
    {
        Ok(Numbering {
            numbers: vec![in alloc.clone()?; None; cells]?,
            places: Vec::new(alloc),
        })
    }

    /// Gives the object at a place the next number, where it has none yet.
    fn add(&mut self, heap: &Heap<A>, all: &Collection<A>, place: Place) -> Result<(), AllocError>
        requires all { HasAllObjects heap.now all.now }
        requires there { IsSome (object_at heap.now.graph (place_word place)) }
        requires numbering { IsNumbering heap.now all.now.generation self.old.numbers.items
            (map place_word self.old.places.items) }
        ensures numbering { OnOk result
            (IsNumbering heap.now all.now.generation self.new.numbers.items (map place_word self.new.places.items)) }
        ensures order { OnOk result
            (map place_word self.new.places.items ≡ visited (map place_word self.old.places.items) (place_word place)) }
    {
        let index = heap.number_of(all, place) as usize;
        if self.numbers[index].is_some() {
            return Ok(());
        }
        self.places.push(place)?;
        self.numbers[index] = Some(self.places.len());
        Ok(())
    }

    /// Gives the objects that these pointers lead to the next numbers, where they have none yet.
    fn add_targets(
        &mut self,
        heap: &Heap<A>,
        all: &Collection<A>,
        pointers: &[u64],
    ) -> Result<(), AllocError>
        requires all { HasAllObjects heap.now all.now }
        requires lead { All (λ word. LeadsInto heap.now.graph (target_of_word word)) pointers.now }
        requires numbering { IsNumbering heap.now all.now.generation self.old.numbers.items
            (map place_word self.old.places.items) }
        ensures numbering { OnOk result
            (IsNumbering heap.now all.now.generation self.new.numbers.items (map place_word self.new.places.items)) }
        ensures order { OnOk result (map place_word self.new.places.items
            ≡ visited_all (map place_word self.old.places.items) (flat_map some_of (map target_of_word pointers.now))) }
    {
        for word in pointers {
            if let Some(place) = target_of(*word) {
                self.add(heap, all, place)?;
            }
        }
        Ok(())
    }

    /// Gives numbers to what the objects that have one lead to, breadth first.
    fn spread(&mut self, heap: &Heap<A>, all: &Collection<A>) -> Result<(), AllocError>
        requires all { HasAllObjects heap.now all.now }
        requires numbering { IsNumbering heap.now all.now.generation self.old.numbers.items
            (map place_word self.old.places.items) }
        ensures numbering { OnOk result
            (IsNumbering heap.now all.now.generation self.new.numbers.items (map place_word self.new.places.items)) }
        ensures order { OnOk result (map place_word self.new.places.items
            ≡ spread (targets_at (object_at heap.now.graph)) (len heap.now.graph.objects) []
            (map place_word self.old.places.items)) }
    {
        let mut done = 0;
        while done < self.places.len() && done < self.numbers.len() {
            let object = heap.object(self.places[done]).unwrap();
            self.add_targets(heap, all, object.pointers)?;
            done += 1;
        }
        Ok(())
    }

    /// The number of the object at a place.
    pub(crate) fn number(&self, heap: &Heap<A>, all: &Collection<A>, place: Place) -> usize
        requires all { HasAllObjects heap.now all.now }
        requires numbering { IsNumbering heap.now all.now.generation self.now.numbers.items
            (map place_word self.now.places.items) }
        requires has { IsTrue (has (map place_word self.now.places.items) (place_word place)) }
        ensures { result ≡ number_of (map place_word self.now.places.items) (place_word place) }
    {
        let index = heap.number_of(all, place) as usize;
        self.numbers[index].unwrap()
    }
}

/// Numbers the objects of the names in their order, and then what these lead to, breadth first.
pub(crate) fn number_objects<A: Allocator + Clone>(
    alloc: A,
    heap: &Heap<A>,
    all: &Collection<A>,
    names: &[Name<'_>],
) -> Result<Numbering<A>, AllocError>
    requires all { HasAllObjects heap.now all.now }
    requires rooted { All (λ name. IsSome (root_at heap.now.graph name.root.number)) names.now }
    ensures numbering { IfOk result
        (λ numbering. IsNumbering heap.now all.now.generation numbering.numbers.items
        (map place_word numbering.places.items)) }
    ensures order { IfOk result (λ numbering. map place_word numbering.places.items
        ≡ numbered (object_at heap.now.graph) (len heap.now.graph.objects)
        (named_objects heap.now.graph (map name_value names.now))) }
    ensures closed { IfOk result (λ numbering. IsClosedOrder heap.now.graph (map place_word numbering.places.items)) }
    ensures named { IfOk result (λ numbering. All (λ name. IsTrue (has (map place_word numbering.places.items)
        (unwrap_or (root_at heap.now.graph name.root.number) 0))) names.now) }
{
    let mut numbering = Numbering::new(alloc, all.cells() as usize)?;
    for name in names {
        let place = heap.target(name.root).unwrap();
        numbering.add(heap, all, place)?;
    }
    numbering.spread(heap, all)?;
    Ok(numbering)
}
