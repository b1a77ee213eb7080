//! A set of places for each generation.
ghost use Rattle.std.specs.Prelude.{◌≡◌, ◌≢◌, ℕ, [], ◌+◌, ◌<◌, ◌≤◌, ◌↔◌, Some, length, take, drop, map, replicate, nat_eq, IsTrue, IsOk, IfOk, OnOk, OnErr, slice_get, slice_set, slice_index};
ghost use Rattle.std.specs.List.{IsDistinct};
ghost use Rattle.std.specs.List.Sorted.{IsStrictlyIncreasing};
ghost use Rattle.layout.specs.Place.{place_word};
ghost use Rattle.model.specs.Reached.{has};
ghost use Rattle.remembered_set.specs.Sets.{members_of, noted};

use crate::place_set::PlaceSet;
use layout::Place;
use std::alloc::{AllocError, Allocator, Global};
use std::marker::Model;

/// For each generation the places of the objects that are to be looked at when younger ones are collected.
#[derive(Drop)]
pub struct Remembered<A: Allocator = Global> {
    sets: Vec<PlaceSet<A>, A>,
}

impl<A: Allocator> Model for Remembered<A> {
    ghost use Rattle.std.specs.Prelude.{List, ℕ, ◌≤◌, length};
    ghost use Rattle.std.specs.Coded.{coded_list, coded_ℕ};

    ghost Value = { List (List ℕ) };

    ghost coded = { coded_list (coded_list coded_ℕ) };

    ghost view = { λ s. s.sets.items };

    ghost invariant = { λ s. length s.sets.items ≤ 4 };
}

impl<A: Allocator + Clone> Remembered<A> {
    /// No places, in at most four generations. An error says that memory ran out.
    pub fn new(alloc: A, generations: usize) -> Result<Self, AllocError>
        requires { generations ≤ 4 }
        ensures { IfOk result (λ sets. sets ≡ replicate generations []) }
    {
        let mut sets = Vec::new(alloc.clone()?);
        for _ in 0..generations {
            sets.push(PlaceSet::new(alloc.clone()?)?)?;
        }
        Ok(Remembered { sets })
    }
}

impl<A: Allocator> Remembered<A> {
    /// How many generations there are.
    pub fn generations(&self) -> usize
        ensures value { result ≡ length self.now }
        ensures few { result ≤ 4 }
    {
        self.sets.len()
    }

    /// Whether the place is a member of that generation's set. Past the last generation none is.
    pub fn contains(&self, generation: usize, place: Place) -> bool
        ensures { result ≡ has (members_of self.now generation) (place_word place) }
    {
        generation < self.sets.len() && self.sets[generation].contains(place)
    }

    /// Puts a place into that generation's set, where it is no member yet. An error says that memory ran out.
    pub fn note(&mut self, generation: usize, place: Place) -> Result<(), AllocError>
        requires { generation < length self.old }
        ensures ok { OnOk result (self.new ≡ noted self.old generation (place_word place)) }
        ensures err { OnErr result (self.new ≡ self.old) }
        // a member takes no memory
        ensures member { IsTrue (has (members_of self.old generation) (place_word place)) → IsOk result }
    {
        self.sets[generation].note(place)
    }

    /// How many members that generation's set has. Past the last generation there is none.
    pub fn len(&self, generation: usize) -> usize
        ensures value { result ≡ length (members_of self.now generation) }
        ensures once { IsDistinct nat_eq (members_of self.now generation) }
    {
        if generation >= self.sets.len() {
            return 0;
        }
        self.sets[generation].len()
    }

    /// The `k`-th member of that generation's set, in the order of noting.
    pub fn member(&self, generation: usize, k: usize) -> Place
        requires { k < length (members_of self.now generation) }
        ensures { Some (place_word result) ≡ slice_get (members_of self.now generation) k }
    {
        self.sets[generation].member(k)
    }

    /// The members of that generation's set by rising place. An error says that memory ran out.
    pub fn members<B: Allocator + Clone>(
        &self,
        alloc: B,
        generation: usize,
    ) -> Result<Vec<Place, B>, AllocError>
        ensures rising { IfOk result (λ places. IsStrictlyIncreasing (map place_word places.items)) }
        ensures all { IfOk result (λ places. (n : ℕ) →
            has (map place_word places.items) n ≡ has (members_of self.now generation) n) }
    {
        if generation >= self.sets.len() {
            return Ok(Vec::new(alloc));
        }
        self.sets[generation].rising(alloc)
    }

    /// Takes back the members of that generation's set that were noted last, so that at most so many are left.
    /// It takes no memory.
    pub fn cut(&mut self, generation: usize, len: usize)
        requires { generation < length self.old }
        ensures { self.new ≡ slice_set self.old generation (take len (members_of self.old generation)) }
    {
        self.sets[generation].cut(len)
    }

    /// Takes the `k`-th member of that generation's set out, and the last takes its place. It takes no memory.
    pub fn remove(&mut self, generation: usize, k: usize)
        requires in_range { k < length (members_of self.old generation) }
        ensures others { (h : ℕ) → h ≢ generation → members_of self.new h ≡ members_of self.old h }
        ensures generations { length self.new ≡ length self.old }
        ensures len { length (members_of self.new generation) + 1 ≡ length (members_of self.old generation) }
        ensures members { (n : ℕ) → IsTrue (has (members_of self.new generation) n) ↔
            (IsTrue (has (members_of self.old generation) n) × (n ≢ slice_index (members_of self.old generation) k)) }
        ensures before { take k (members_of self.new generation) ≡ take k (members_of self.old generation) }
        ensures rest { (n : ℕ) → IsTrue (has (drop k (members_of self.new generation)) n) →
            IsTrue (has (drop (k + 1) (members_of self.old generation)) n) }
    {
        self.sets[generation].remove(k)
    }
}
