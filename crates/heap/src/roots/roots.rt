//! Roots by number.
ghost use Rattle.std.specs.Prelude.{◌≡◌, ◌≢◌, ◌+◌, ◌<◌, ◌^◌, ℕ, [], Some, None, MatchOption, IsOk, IfOk, IfSome, IfNone, OnOk, OnSome, is_some, count_by, slice_index_or};
ghost use Rattle.std.specs.Option.{option_map};
ghost use Rattle.heap.specs.RootsValue.{HasRoom, Updates, NoneFrom, IsFirstFrom};

use block_pool::Flags;
use layout::Place;
use slab::Slab;
use std::alloc::{AllocError, Allocator, Global};
use std::marker::Model;

/// A place for each number that is in use. The numbers in use are walked by their flags, and not by the places.
#[derive(Drop)]
pub struct Roots<A: Allocator = Global> {
    slab: Slab<Place, A>,
    used: Flags<A>,
}

impl<A: Allocator> Model for Roots<A> {
    ghost use Rattle.std.specs.Prelude.{length};
    ghost use Rattle.heap.specs.RootsValue.{RootsValue, AreFlags};

    ghost Value = { RootsValue };

    ghost view = { λ r. record {
      slots = r.slab.slots;
      next = r.slab.vacant_key;
      capacity = r.slab.capacity;
      numbers = length r.used;
    } };

    ghost invariant = { λ r. AreFlags r.slab.slots r.used };
}

impl<A: Allocator + Clone> Roots<A> {
    /// No root. An error says that memory ran out.
    pub fn new(alloc: A) -> Result<Self, AllocError>
        ensures { IfOk result (λ roots. roots.slots ≡ []) }
    {
        Ok(Roots {
            slab: Slab::new(alloc.clone()?),
            used: Flags::new(alloc),
        })
    }
}

impl<A: Allocator> Roots<A> {
    /// How many roots there are.
    pub fn len(&self) -> usize
        ensures { result ≡ count_by is_some self.now.slots }
    {
        self.slab.len()
    }

    /// Makes room for one more root. At an error, too, the roots are as before.
    pub fn reserve(&mut self) -> Result<(), AllocError>
        ensures room { OnOk result (HasRoom self.new) }
        ensures slots { self.new.slots ≡ self.old.slots }
        ensures next { self.new.next ≡ self.old.next }
        ensures had_room { HasRoom self.old → IsOk result }
    {
        self.slab.reserve(1)?;
        self.used.reserve(self.slab.vacant_key())
    }

    /// Makes a root, and gives its number, which was not in use. The number that was given up last is the first to be used
    /// again.
    pub fn insert_reserved(&mut self, place: Place) -> usize
        requires { HasRoom self.old }
        ensures number { result ≡ self.old.next }
        ensures was_vacant { slice_index_or self.old.slots result None ≡ None }
        ensures updates { Updates self.old.slots self.new.slots result (Some place) }
    {
        let number = self.slab.insert_reserved(place);
        self.used.set(number);
        number
    }

    /// Gives up a root, and says where it led. It takes no memory. None says that the number is not in use.
    pub fn remove(&mut self, number: usize) -> Option<Place>
        ensures value { result ≡ slice_index_or self.old.slots number None }
        ensures updates { Updates self.old.slots self.new.slots number None }
        ensures next { OnSome result (self.new.next ≡ number) }
        ensures room { OnSome result (HasRoom self.new) }
        ensures absent { IfNone result (self.new ≡ self.old) }
    {
        match self.slab.try_remove(number) {
            Some(place) => {
                self.used.unset(number);
                Some(place)
            }
            None => None,
        }
    }

    /// Where a root leads. None says that the number is not in use.
    pub fn get(&self, number: usize) -> Option<Place>
        ensures { result ≡ slice_index_or self.now.slots number None }
    {
        self.slab.get(number).copied()
    }

    /// Has a root lead to a place. A number that is not in use stays so.
    pub fn set(&mut self, number: usize, place: Place)
        ensures changed { slice_index_or self.new.slots number None ≡
            option_map (λ _. place) (slice_index_or self.old.slots number None) }
        ensures others { (n : ℕ) → n ≢ number →
            slice_index_or self.new.slots n None ≡ slice_index_or self.old.slots n None }
        ensures next { self.new.next ≡ self.old.next }
    {
        if let Some(root) = self.slab.get_mut(number) {
            *root = place;
        }
    }

    /// The root of the lowest number from this one on. None says that there is none from there on.
    pub fn first_from(&self, from: usize) -> Option<(usize, Place)>
        ensures first { MatchOption result (NoneFrom self.now.slots from)
            (λ root. IsFirstFrom self.now.slots from root.0 root.1) }
        ensures in_range { IfSome result (λ root. root.0 + 1 < 2 ^ 64) }
    {
        let _capacity = self.slab.capacity();
        let Some(number) = self.used.next(from) else {
            return None;
        };
        match self.slab.get(number) {
            Some(place) => Some((number, *place)),
            None => None,
        }
    }
}
