//! The slots of the block in hand: read and finished, and the next object's after them.
ghost use Rattle.std.specs.Prelude.{◌≡◌, ◌≢◌, ◌<◌, [], true, false, None};
ghost use Rattle.std.specs.Option.{option_map};
ghost use Rattle.layout.specs.Place.{place_word};
ghost use Rattle.workers.specs.Worker.{Nothing};
ghost use Rattle.workers.specs.WorkerSteps.{after_scan, finish_slot};
ghost use Rattle.workers.specs.Ready.{CanFinish, CanPass};
ghost use Rattle.scavenge.specs.Shown.{CanRead, Holds, has_another, known_slot};
ghost use Rattle.scavenge.specs.Swept.{left_in_hand};

use crate::sweep::cursor::{cursor_of, pointer_at, write_at};
use crate::sweep::sweep::Sweep;
use crate::to_space::pass_front;
use heap::PackedPlace;
use layout::{Place, word_of};
use std::alloc::Allocator;

impl<A: Allocator> Sweep<A> {
    /// What the current slot holds, where there is one.
    #[inline(always)]
    pub fn current(&self) -> Option<Option<Place>>
        requires pointer { CanRead self.now.worker self.now.worker.starts }
        ensures slot { Holds (option_map (option_map place_word) result) ≡ known_slot self.now.worker }
        ensures started { self.now.worker.starts ≡ [] }
        ensures held { self.now.worker.hand ≢ Nothing }
    {
        pointer_at(&self.held, self.cursor, self.fields)
    }

    /// The current slot gets the value, and is finished.
    #[inline(always)]
    pub fn finish(&mut self, value: Option<Place>)
        requires slot { CanFinish self.old.worker self.old.worker.starts }
        requires few { self.old.worker.fields < 4294967296 }
        ensures finished { self.new ≡
            record self.old { worker = finish_slot (option_map place_word value) self.old.worker } }
        ensures less { left_in_hand self.new.worker < left_in_hand self.old.worker }
        ensures proposal { self.new.worker.proposal ≡ None }
    {
        let i = self.fields;
        self.fields += 1;
        write_at(&mut self.held, self.cursor, i, word_of(value));
    }

    /// The current object is scanned, where another is unscanned behind it: tells whether it is.
    #[inline(always)]
    pub fn scan_to_next(&mut self) -> bool
        requires hand { CanPass self.old.worker self.old.worker.hand }
        ensures some { result ≡ true → self.new ≡ record self.old { worker = after_scan self.old.worker } }
        ensures less { result ≡ true → left_in_hand self.new.worker < left_in_hand self.old.worker }
        ensures none { result ≡ false → self.new ≡ self.old }
        ensures which { result ≡ has_another self.old.worker.hand }
        ensures proposal { self.new.worker.proposal ≡ None }
    {
        if self.held.len() - self.held.front() < 2 {
            return false;
        }
        let (place, _) = pass_front(&mut self.held);
        self.cursor = cursor_of(&self.held);
        self.scanned.push_reserved(PackedPlace::new(place));
        self.fields = 0;
        true
    }
}
