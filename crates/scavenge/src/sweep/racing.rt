//! A sweep races for an object, and copies it where it has won.
ghost use Rattle.std.specs.Prelude.{◌≡◌, ◌<◌, Some, None, true, false, length, slice_index};
ghost use Rattle.std.specs.Option.{option_map};
ghost use Rattle.model.specs.Graph.{object_at};
ghost use Rattle.layout.specs.Object.{Raw, raw_size};
ghost use Rattle.layout.specs.Place.{small_word};
ghost use Rattle.block_pool.specs.BlockValue.{BeginsAt};
ghost use Rattle.forwarding.specs.KeepsPasses.{KeepsPasses};
ghost use Rattle.heap.specs.StepPairs.{step_pair, stands_at};
ghost use Rattle.workers.specs.Setting.{destination_of};
ghost use Rattle.workers.specs.Worker.{allocation_at};
ghost use Rattle.workers.specs.Ready.{CanFinish};
ghost use Rattle.scavenge.specs.Shown.{has_place_for, with_copy_proposed};
ghost use Rattle.scavenge.specs.Slots.{objects_of};
ghost use Rattle.scavenge.specs.Swept.{left_in_hand};
ghost use Rattle.scavenge.specs.Told.{RacesAt};

use crate::sweep::going::goes_into;
use crate::sweep::sweep::Sweep;
use crate::to_space::place_behind;
use block_pool::Block;
use forwarding::{Cells, Outcome};
use heap::{Heap, PackedPlace, Won};
use layout::{Place, SmallPlace};
use std::alloc::Allocator;
use steps::StepId;

impl<A: Allocator + Clone> Sweep<A> {
    /// Races for the object with this number, which stands at that place in a block of the heap, where its copy goes to the block
    /// that is copied into and fits there. It races with the place behind the last copy, and copies the object there once it has
    /// won. Tells whether it raced: else nothing came.
    #[inline(always)]
    pub fn race<C: Cells>(
        &mut self,
        heap: &Heap<A>,
        cells: &mut C,
        pass: &mut C::Pass,
        number: u32,
        at: SmallPlace,
        stands: StepId,
        from: &Block<A>,
    ) -> bool
        requires config { self.old.config ≡ heap.now.config }
        requires stands { Some (step_pair stands) ≡
            option_map stands_at (object_at heap.now.graph (small_word at.block at.offset)) }
        requires slot { CanFinish self.old.worker self.old.worker.starts }
        requires few { self.old.worker.fields < 4294967296 }
        requires pass { C.fits cells.old pass.old }
        requires number { number < C.limit cells.old }
        requires known { number < length self.old.names }
        requires name { slice_index self.old.names number ≡ small_word at.block at.offset }
        requires object { (raw : Raw) × BeginsAt from.now at.offset raw }
        ensures keeps { KeepsPasses C.limit C.fits C.at_home C.apart cells.old pass.old cells.new pass.new }
        ensures none { result ≡ false → (self.new ≡ self.old) × (cells.new ≡ cells.old) × (pass.new ≡ pass.old) }
        ensures fits { result ≡ true → (raw : Raw) → BeginsAt from.now at.offset raw →
            has_place_for self.old.config.block_words (raw_size raw)
            (allocation_at self.old.worker (destination_of (objects_of heap.now) (small_word at.block at.offset))) ≡ true }
        ensures raced { result ≡ true → (raw : Raw) → BeginsAt from.now at.offset raw →
            RacesAt number (λ number at outcome. C.race_gives cells.old number at outcome cells.new)
            (C.known pass.old) (C.known pass.new) (C.won pass.old) (C.won pass.new)
            (record self.old {
              worker = with_copy_proposed self.old.worker (small_word at.block at.offset) raw
                  (destination_of (objects_of heap.now) (small_word at.block at.offset));
            }) self.new }
        ensures less { result ≡ true → left_in_hand self.new.worker < left_in_hand self.old.worker }
        ensures proposal { self.new.worker.proposal ≡ None }
    {
        let _ = heap;
        let goes_here = goes_into(
            &mut self.going,
            self.config,
            stands,
            self.destination,
            self.is_only,
        );
        if !goes_here {
            return false;
        }
        let offset = at.offset as usize;
        let size = from.size_from(offset);
        if !self.into.fits(size) {
            return false;
        }
        let place = place_behind(&self.into);
        let Ok(outcome) = cells.race(pass, number, place) else {
            return false;
        };
        match outcome {
            Outcome::Lost(first) => self.finish(Some(first)),
            Outcome::Won => {
                let _ = self.into.push_copy(from, offset, size);
                self.into.note_origin(Place::Small(at).to_word());
                self.won.push_reserved(Won {
                    number,
                    place: PackedPlace::new(place),
                });
                self.finish(Some(place));
            }
        }
        true
    }
}
