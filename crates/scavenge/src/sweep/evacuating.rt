//! The current slot's object is evacuated in a sweep: looked at, raced for, and copied by the one that wins.
ghost use Rattle.std.specs.Prelude.{◌≡◌, ◌<◌, ◌≤◌, ◌≢◌, ◌⊎◌, [], Some, None, IsSome, IsSomeAnd, if◌then◌else◌};
ghost use Rattle.std.specs.Option.{option_map};
ghost use Rattle.model.specs.Graph.{IsClosed, object_at};
ghost use Rattle.layout.specs.Place.{place_word, small_word};
ghost use Rattle.block_pool.specs.ClaimsValue.{SeatValue};
ghost use Rattle.forwarding.specs.KeepsPasses.{KeepsPasses};
ghost use Rattle.heap.specs.CollectionValue.{young_names};
ghost use Rattle.heap.specs.NamesArePlaces.{NamesArePlaces};
ghost use Rattle.heap.specs.Words.{LiesIn};
ghost use Rattle.workers.specs.Setting.{is_large_name};
ghost use Rattle.workers.specs.Worker.{Nothing};
ghost use Rattle.workers.specs.WorkerSteps.{current_slot};
ghost use Rattle.workers.specs.Ready.{IsUntouched};
ghost use Rattle.scavenge.specs.Slots.{seen, objects_of, Looks};
ghost use Rattle.scavenge.specs.MayStep.{IsOpenFor, MayLook, OnlyLooks};
ghost use Rattle.scavenge.specs.Evacuates.{LeadsToUncopied, LooksAndRaces};
ghost use Rattle.scavenge.specs.Swept.{left_in_hand};
ghost use Rattle.scavenge.specs.declared.evacuating.Evacuated.TheVariants.{Left, NoSlot, Looked, Raced};

use crate::evacuating::Evacuated;
use crate::looking::forwarded_place;
use crate::sweep::sweep::Sweep;
use block_pool::Block;
use forwarding::Cells;
use heap::{Collection, FoundSmall, Heap};
use layout::{Place, SmallPlace};
use std::alloc::Allocator;

/// What the current slot holds, where there is one.
#[inline(always)]
fn slot_in<A: Allocator + Clone>(sweep: &Sweep<A>, heap: &Heap<A>) -> Option<Option<Place>>
    requires closed { IsClosed heap.now.graph }
    requires places { NamesArePlaces heap.now.graph }
    requires untouched { IsUntouched (objects_of heap.now) sweep.now.worker }
    ensures slot { option_map (option_map place_word) result ≡ current_slot (objects_of heap.now) sweep.now.worker }
    ensures started { sweep.now.worker.starts ≡ [] }
    ensures held { sweep.now.worker.hand ≢ Nothing }
{
    let _ = heap;
    sweep.current()
}

impl<A: Allocator + Clone> Sweep<A> {
    /// Looks at the current slot, which leads to a large object: what `look` does, where the object isn't collected or was
    /// claimed.
    #[inline(always)]
    fn look_at_large<C: Cells>(
        &mut self,
        heap: &Heap<A>,
        collection: &Collection<A>,
        cells: &mut C,
        pass: &mut C::Pass,
        name: Place,
    ) -> Evacuated
        requires open { IsOpenFor heap.now collection.now self.old }
        requires worker { MayLook heap.now collection.now self.old }
        requires cells { C.fits cells.old pass.old × (collection.now.cells ≤ C.limit cells.old) }
        requires there { IsSome (object_at heap.now.graph (place_word name)) }
        requires slot { current_slot (seen heap.now collection.now) self.old.worker ≡ Some (Some (place_word name)) }
        ensures keeps { KeepsPasses C.limit C.fits C.at_home C.apart cells.old pass.old cells.new pass.new }
        ensures looks { OnlyLooks C.won C.known cells.old pass.old cells.new pass.new }
        ensures ends { (result ≡ Left) ⊎ (result ≡ Looked) }
        ensures left { result ≡ Left → self.new ≡ self.old }
        ensures left_why { result ≡ Left →
            LeadsToUncopied heap.now collection.now (C.look_gives cells.old) self.old.worker }
        ensures looked { result ≡ Looked → (seat : SeatValue) →
            Looks heap.now collection.now (C.look_gives cells.old) (C.known pass.old)
            (C.known pass.new) seat seat self.old self.new }
        ensures less { result ≡ Looked → left_in_hand self.new.worker < left_in_hand self.old.worker }
        ensures proposal { self.new.worker.proposal ≡ None }
    {
        let found = heap.find_there(collection, name);
        let Some(number) = found.number else {
            self.finish(Some(name));
            return Evacuated::Looked;
        };
        let Some(shown) = cells.look(pass, number) else {
            return Evacuated::Left;
        };
        let place = forwarded_place(heap, name, found.object, shown);
        self.finish(Some(place));
        Evacuated::Looked
    }

    /// Looks at the current slot, where no block is wanted for it: what `look` does, and where a small object has no copy yet, the
    /// race for its copy at once. It leaves to `look` large objects, copies for another destination or that don't fit, and a race
    /// for which memory ran out.
    #[inline(always)]
    pub fn evacuate<C: Cells>(
        &mut self,
        heap: &Heap<A>,
        collection: &Collection<A>,
        cells: &mut C,
        pass: &mut C::Pass,
    ) -> Evacuated
        requires open { IsOpenFor heap.now collection.now self.old }
        requires names { self.old.names ≡ young_names heap.now.graph collection.now.generation }
        requires worker { MayLook heap.now collection.now self.old }
        requires cells { C.fits cells.old pass.old × (collection.now.cells ≤ C.limit cells.old) }
        ensures keeps { KeepsPasses C.limit C.fits C.at_home C.apart cells.old pass.old cells.new pass.new }
        ensures looks { result ≢ Raced → OnlyLooks C.won C.known cells.old pass.old cells.new pass.new }
        ensures left { result ≡ Left → self.new ≡ self.old }
        ensures left_why { result ≡ Left →
            LeadsToUncopied heap.now collection.now (C.look_gives cells.old) self.old.worker }
        ensures none { result ≡ NoSlot → (self.new ≡ self.old) ×
            (current_slot (seen heap.now collection.now) self.old.worker ≡ None) ×
            (self.old.worker.hand ≢ Nothing) }
        ensures slot { (result ≡ Looked) ⊎ (result ≡ Raced) →
            IsSome (current_slot (seen heap.now collection.now) self.old.worker) }
        ensures looked { result ≡ Looked → (seat : SeatValue) →
            Looks heap.now collection.now (C.look_gives cells.old) (C.known pass.old)
            (C.known pass.new) seat seat self.old self.new }
        ensures raced { result ≡ Raced →
            LooksAndRaces heap.now collection.now (C.fits cells.old) C.known C.won (C.look_gives cells.old)
            (λ number at outcome. C.race_gives cells.old number at outcome cells.new) pass.old pass.new self.old
            self.new }
        ensures less { (result ≡ Looked) ⊎ (result ≡ Raced) → left_in_hand self.new.worker < left_in_hand self.old.worker }
        ensures proposal { self.new.worker.proposal ≡ None }
    {
        let Some(target) = slot_in(self, heap) else {
            return Evacuated::NoSlot;
        };
        let Some(name) = target else {
            self.finish(None);
            return Evacuated::Looked;
        };
        let Place::Small(at) = name else {
            return self.look_at_large(heap, collection, cells, pass, name);
        };
        let FoundSmall {
            block,
            at: from,
            number,
        } = heap.find_small(collection, at);
        let Some(number) = number else {
            self.finish(Some(name));
            return Evacuated::Looked;
        };
        if let Some(shown) = cells.look(pass, number) {
            self.finish(Some(shown));
            return Evacuated::Looked;
        }
        if !self.race(heap, cells, pass, number, at, from, block) {
            return Evacuated::Left;
        }
        Evacuated::Raced
    }
}
