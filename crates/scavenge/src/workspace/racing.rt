//! What is raced with, and what a race leaves of the worker.
ghost use Rattle.std.specs.Prelude.{◌≡◌, ◌<◌, ◌-◌, Bool, true, false, Ok, OnErr, Some, None, IsSome, MatchOption, length, slice_index};
ghost use Rattle.std.specs.Option.{option_map};
ghost use Rattle.model.specs.Graph.{object_at};
ghost use Rattle.layout.specs.Object.{Raw, raw_size};
ghost use Rattle.layout.specs.Place.{place_word, small_word};
ghost use Rattle.block_pool.specs.BlockValue.{BeginsAt};
ghost use Rattle.forwarding.specs.KeepsPasses.{KeepsPasses};
ghost use Rattle.heap.specs.StepPairs.{step_pair, stands_at};
ghost use Rattle.workers.specs.Setting.{destination_of};
ghost use Rattle.workers.specs.Worker.{allocation_at};
ghost use Rattle.workers.specs.WorkerSteps.{after_race};
ghost use Rattle.workers.specs.Ready.{CanFinish};
ghost use Rattle.scavenge.specs.Shown.{IsBid, lost_to, name_of, has_place_for, with_copy_proposed};
ghost use Rattle.scavenge.specs.Slots.{objects_of};
ghost use Rattle.scavenge.specs.Told.{RacesAt};

use crate::workspace::workspace::Workspace;
use block_pool::Block;
use forwarding::{Cells, Outcome};
use heap::{Heap, PackedPlace, Won};
use layout::{Place, SmallPlace};
use std::alloc::{AllocError, Allocator};
use steps::StepId;

impl<A: Allocator> Workspace<A> {
    /// The object that is proposed, where one is.
    pub fn proposed(&self) -> Option<Place>
        ensures { MatchOption result (self.now.worker.proposal ≡ None)
            (λ name. place_word name ≡ name_of self.now.worker.proposal) }
    {
        match self.proposed {
            Some(p) => Some(p.name),
            None => None,
        }
    }

    /// What is raced with for the proposal, where there is one: the place of its copy, or for a large object the claim.
    #[inline(always)]
    pub fn bid(&self) -> Option<Place>
        ensures { MatchOption result (self.now.worker.proposal ≡ None) (IsBid self.now.claim self.now.worker.proposal) }
    {
        let p = self.proposed?;
        match p.destination {
            Some(_) => Some(p.place),
            None => Some(self.claim),
        }
    }

    /// The race is lost, and the cell shows this place: a copy is taken back. A large object stays at its own place.
    pub fn lose(&mut self, first: Place)
        requires room { 0 < self.old.won_room }
        requires proposal { IsSome self.old.worker.proposal }
        requires slot { CanFinish self.old.worker self.old.worker.starts }
        requires few { self.old.worker.fields < 4294967296 }
        ensures { self.new ≡
            record self.old {
              worker = after_race self.old.worker
                  (Some (lost_to (place_word first) self.old.worker.proposal));
              won_room = self.old.won_room - 1;
            } }
    {
        let Some(p) = self.proposed else {
            return;
        };
        self.won_room -= 1;
        self.proposed = None;
        match p.destination {
            Some(d) => {
                self.allocation.take_back(d);
                self.finish(Some(first));
            }
            None => self.finish(Some(p.name)),
        }
    }

    /// The race for the object with this number is won: the copy stays at its place, and a large object, at its own, is
    /// claimed.
    #[inline(always)]
    pub fn win(&mut self, number: u32)
        requires room { 0 < self.old.won_room }
        requires proposal { IsSome self.old.worker.proposal }
        requires number { number < length self.old.names }
        requires name { slice_index self.old.names number ≡ name_of self.old.worker.proposal }
        requires slot { CanFinish self.old.worker self.old.worker.starts }
        requires few { self.old.worker.fields < 4294967296 }
        ensures { self.new ≡
            record self.old { worker = after_race self.old.worker None; won_room = self.old.won_room - 1 } }
    {
        let Some(p) = self.proposed else {
            return;
        };
        self.won_room -= 1;
        self.proposed = None;
        match p.destination {
            Some(d) => {
                self.won.push_reserved(Won {
                    number,
                    place: PackedPlace::new(p.place),
                });
                self.allocation.note(d, p.name.to_word());
                self.finish(Some(p.place));
            }
            None => {
                self.won.push_reserved(Won {
                    number,
                    place: PackedPlace::new(p.name),
                });
                self.claimed.push_back_reserved(p.name);
                self.finish(Some(p.name));
            }
        }
    }
}

impl<A: Allocator + Clone> Workspace<A> {
    /// Races for the small object with this number, which stands at that place in a block of the heap, where its copy fits at the
    /// end of the block for its destination. It races with the place there, and copies the object once it has won. Tells whether
    /// it raced: else the copy doesn't fit, and nothing came. An error says that memory ran out. Then nothing came either.
    #[inline(always)]
    pub fn race_small<C: Cells>(
        &mut self,
        heap: &Heap<A>,
        cells: &mut C,
        pass: &mut C::Pass,
        number: u32,
        at: SmallPlace,
        stands: StepId,
        from: &Block<A>,
    ) -> Result<bool, AllocError>
        requires config { self.old.config ≡ heap.now.config }
        requires stands { Some (step_pair stands) ≡
            option_map stands_at (object_at heap.now.graph (small_word at.block at.offset)) }
        requires proposal { self.old.worker.proposal ≡ None }
        requires slot { CanFinish self.old.worker self.old.worker.starts }
        requires few { self.old.worker.fields < 4294967296 }
        requires pass { C.fits cells.old pass.old }
        requires number { number < C.limit cells.old }
        requires known { number < length self.old.names }
        requires name { slice_index self.old.names number ≡ small_word at.block at.offset }
        requires object { (raw : Raw) × BeginsAt from.now at.offset raw }
        ensures keeps { KeepsPasses C.limit C.fits C.at_home C.apart cells.old pass.old cells.new pass.new }
        ensures none { result ≡ Ok false → (self.new ≡ self.old) × (cells.new ≡ cells.old) × (pass.new ≡ pass.old) }
        ensures err { OnErr result ((self.new ≡ self.old) × (cells.new ≡ cells.old) × (pass.new ≡ pass.old)) }
        ensures fits { (raced : Bool) → result ≡ Ok raced → (raw : Raw) → BeginsAt from.now at.offset raw →
            has_place_for self.old.config.block_words (raw_size raw)
            (allocation_at self.old.worker (destination_of (objects_of heap.now) (small_word at.block at.offset))) ≡
            raced }
        ensures raced { result ≡ Ok true → (raw : Raw) → BeginsAt from.now at.offset raw →
            RacesAt number (λ number at outcome. C.race_gives cells.old number at outcome cells.new)
            (C.known pass.old) (C.known pass.new) (C.won pass.old) (C.won pass.new)
            (record self.old {
              worker = with_copy_proposed self.old.worker (small_word at.block at.offset) raw
                  (destination_of (objects_of heap.now) (small_word at.block at.offset));
            }) self.new }
    {
        let _ = heap;
        let offset = at.offset as usize;
        let size = from.size_from(offset);
        let d = self.config.dest_number(self.config.dest(stands));
        let Some(place) = self.allocation.place_for(d, size) else {
            return Ok(false);
        };
        self.won.reserve(self.won_room + 1)?;
        let Ok(outcome) = cells.race(pass, number, place) else {
            return Err(AllocError);
        };
        match outcome {
            Outcome::Lost(first) => self.finish(Some(first)),
            Outcome::Won => {
                let origin = Place::Small(at).to_word();
                self.allocation.push_from(d, from, offset, size, origin);
                self.won.push_reserved(Won {
                    number,
                    place: PackedPlace::new(place),
                });
                self.finish(Some(place));
            }
        }
        Ok(true)
    }
}
