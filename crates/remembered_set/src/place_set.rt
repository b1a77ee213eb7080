//! A set of places in the order of noting.
ghost use Rattle.std.specs.Prelude.{◌≡◌, ◌≢◌, ℕ, [], ◌∷◌, ◌+◌, ◌-◌, ◌<◌, ◌≤◌, ◌↔◌, Some, length, take, drop, map, nat_eq, IsTrue, IsOk, IfOk, OnOk, OnErr, slice_get, slice_index};
ghost use Rattle.std.specs.List.{IsDistinct};
ghost use Rattle.std.specs.List.Sorted.{IsStrictlyIncreasing};
ghost use Rattle.layout.specs.Place.{place_word};
ghost use Rattle.model.specs.Reached.{has};
ghost use Rattle.remembered_set.specs.Sets.{with_member};
ghost use Rattle.remembered_set.specs.Marks.{mark_of};

use block_pool::Flags;
use layout::Place;
use std::alloc::{AllocError, Allocator, Global};
use std::marker::Model;

/// How many numbers of flags there are for each block: one for each offset, and one for a large object.
const ROW: usize = 513;

/// The number of a place's flag.
fn mark(place: Place) -> usize
    ensures { result ≡ mark_of place }
{
    match place {
        Place::Small(at) => at.block as usize * ROW + at.offset as usize,
        Place::Large(of) => of.number as usize * ROW + (ROW - 1),
    }
}

/// A set of places: they themselves in the order of noting, and a flag for each.
#[derive(Drop)]
pub(crate) struct PlaceSet<A: Allocator = Global> {
    places: Vec<Place, A>,
    marks: Flags<A>,
}

impl<A: Allocator> Model for PlaceSet<A> {
    ghost use Rattle.std.specs.Prelude.{List, ℕ, map};
    ghost use Rattle.std.specs.Coded.{coded_list, coded_ℕ};
    ghost use Rattle.layout.specs.Place.{place_word};
    ghost use Rattle.remembered_set.specs.Marks.{IsPlaceSet};

    ghost Value = { List ℕ };

    ghost coded = { coded_list coded_ℕ };

    ghost view = { λ s. map place_word s.places.items };

    ghost invariant = { λ s. IsPlaceSet s.places.items s.marks };
}

impl<A: Allocator + Clone> PlaceSet<A> {
    /// No places. An error says that memory ran out.
    pub(crate) fn new(alloc: A) -> Result<Self, AllocError>
        ensures { IfOk result (λ set. set ≡ []) }
    {
        let places = Vec::new(alloc.clone()?);
        Ok(PlaceSet {
            places,
            marks: Flags::new(alloc),
        })
    }
}

impl<A: Allocator> PlaceSet<A> {
    /// How many members there are.
    pub(crate) fn len(&self) -> usize
        ensures value { result ≡ length self.now }
        ensures once { IsDistinct nat_eq self.now }
    {
        self.places.len()
    }

    /// Whether the place is a member.
    pub(crate) fn contains(&self, place: Place) -> bool
        ensures { result ≡ has self.now (place_word place) }
    {
        self.marks.is_set(mark(place))
    }

    /// The `k`-th member.
    pub(crate) fn member(&self, k: usize) -> Place
        requires { k < length self.now }
        ensures { Some (place_word result) ≡ slice_get self.now k }
    {
        self.places[k]
    }

    /// Puts a place in where it is no member yet. An error says that memory ran out.
    pub(crate) fn note(&mut self, place: Place) -> Result<(), AllocError>
        ensures ok { OnOk result (self.new ≡ with_member self.old (place_word place)) }
        ensures err { OnErr result (self.new ≡ self.old) }
        ensures member { IsTrue (has self.old (place_word place)) → IsOk result }
    {
        let mark = mark(place);
        if self.marks.is_set(mark) {
            return Ok(());
        }
        self.marks.reserve(mark)?;
        self.places.push(place)?;
        self.marks.set(mark);
        Ok(())
    }

    /// The members by rising place. An error says that memory ran out.
    pub(crate) fn rising<B: Allocator + Clone>(&self, alloc: B) -> Result<Vec<Place, B>, AllocError>
        ensures rising { IfOk result (λ places. IsStrictlyIncreasing (map place_word places.items)) }
        ensures all { IfOk result (λ places. (n : ℕ) →
            has (map place_word places.items) n ≡ has self.now n) }
    {
        let mut places = Vec::from_slice(alloc, &self.places)?;
        places.sort_by_key(|place| place.to_word())?;
        Ok(places)
    }

    /// Takes the last member back.
    fn drop_last(&mut self)
        ensures { self.new ≡ take (length self.old - 1) self.old }
    {
        if let Some(place) = self.places.pop() {
            self.marks.unset(mark(place));
        }
    }

    /// Takes members back, the last first, until at most so many are left.
    pub(crate) fn cut(&mut self, len: usize)
        ensures { self.new ≡ take len self.old }
    {
        while self.len() > len {
            self.drop_last();
        }
    }

    /// Takes the `k`-th member out, and the last takes its place.
    pub(crate) fn remove(&mut self, k: usize)
        requires { k < length self.old }
        ensures len { length self.new + 1 ≡ length self.old }
        ensures members { (n : ℕ) → IsTrue (has self.new n) ↔
            (IsTrue (has self.old n) × (n ≢ slice_index self.old k)) }
        ensures before { take k self.new ≡ take k self.old }
        ensures rest { (n : ℕ) → IsTrue (has (drop k self.new) n) → IsTrue (has (drop (k + 1) self.old) n) }
    {
        let place = self.places.swap_remove(k);
        self.marks.unset(mark(place));
    }
}
