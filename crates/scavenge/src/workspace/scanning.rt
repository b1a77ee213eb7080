//! Slots are finished, and objects scanned.
ghost use Rattle.std.specs.Prelude.{◌≡◌, ◌<◌, ◌+◌, true, false, None, Ok, IfOk, OnOk, OnErr};
ghost use Rattle.std.specs.Option.{option_map};
ghost use Rattle.layout.specs.Place.{place_word};
ghost use Rattle.workers.specs.WorkerSteps.{after_scan, finish_slot};
ghost use Rattle.workers.specs.Ready.{CanFinish, CanPass};
ghost use Rattle.scavenge.specs.Shown.{has_another};

use crate::to_space::{pass_front, write_front};
use crate::workspace::hand::Hand;
use crate::workspace::workspace::Workspace;
use heap::PackedPlace;
use layout::{Place, word_of};
use std::alloc::{AllocError, Allocator};
use std::mem;

impl<A: Allocator> Workspace<A> {
    /// The current slot gets the value, and is finished.
    #[inline(always)]
    pub fn finish(&mut self, value: Option<Place>)
        requires slot { CanFinish self.old.worker self.old.worker.starts }
        requires proposal { self.old.worker.proposal ≡ None }
        requires few { self.old.worker.fields < 4294967296 }
        ensures { self.new ≡ record self.old { worker = finish_slot (option_map place_word value) self.old.worker } }
    {
        if self.started < self.starts.len() {
            self.started += 1;
            return;
        }
        let word = word_of(value);
        let i = self.fields;
        self.fields += 1;
        match &mut self.hand {
            Hand::Nothing | Hand::Large(_) => {}
            Hand::Open(d) => self.allocation.write_front(*d, i, word),
            Hand::Holding(block) => write_front(block, i, word),
        }
    }

    /// The current object is scanned, where it is one of a block in hand that has another unscanned behind it: tells whether
    /// it is. An error says that memory ran out, and changes nothing.
    #[inline(always)]
    pub fn scan_to_next(&mut self) -> Result<bool, AllocError>
        requires proposal { self.old.worker.proposal ≡ None }
        requires hand { CanPass self.old.worker self.old.worker.hand }
        ensures some { result ≡ Ok true → self.new ≡ record self.old { worker = after_scan self.old.worker } }
        ensures none { result ≡ Ok false → self.new ≡ self.old }
        ensures which { IfOk result (λ some. some ≡ has_another self.old.worker.hand) }
        ensures err { OnErr result (self.new ≡ self.old) }
    {
        self.scanned.reserve(1)?;
        let Hand::Holding(held) = &mut self.hand else {
            return Ok(false);
        };
        if held.len() - held.front() < 2 {
            return Ok(false);
        }
        let (place, _) = pass_front(held);
        self.scanned.push_reserved(PackedPlace::new(place));
        self.fields = 0;
        Ok(true)
    }

    /// The current object is scanned. An error says that memory ran out, and changes nothing.
    pub fn scan(&mut self) -> Result<(), AllocError>
        requires proposal { self.old.worker.proposal ≡ None }
        requires hand { CanPass self.old.worker self.old.worker.hand }
        ensures ok { OnOk result (self.new ≡ record self.old { worker = after_scan self.old.worker }) }
        ensures err { OnErr result (self.new ≡ self.old) }
    {
        if self.scan_to_next()? {
            return Ok(());
        }
        self.scan_last()
    }

    /// The same, whatever is in hand.
    fn scan_last(&mut self) -> Result<(), AllocError>
        requires proposal { self.old.worker.proposal ≡ None }
        requires hand { CanPass self.old.worker self.old.worker.hand }
        ensures ok { OnOk result (self.new ≡ record self.old { worker = after_scan self.old.worker }) }
        ensures err { OnErr result (self.new ≡ self.old) }
    {
        self.scanned.reserve(1)?;
        self.done.reserve(self.block_room + 1)?;
        self.claimed_done.reserve(1)?;
        self.fields = 0;
        match mem::replace(&mut self.hand, Hand::Nothing) {
            Hand::Nothing => {}
            Hand::Open(destination) => {
                let (place, more) = self.allocation.pass_front(destination);
                self.scanned.push_reserved(PackedPlace::new(place));
                if more {
                    self.hand = Hand::Open(destination);
                    return Ok(());
                }
            }
            Hand::Holding(mut held) => {
                let (place, more) = pass_front(&mut held);
                self.scanned.push_reserved(PackedPlace::new(place));
                if more {
                    self.hand = Hand::Holding(held);
                    return Ok(());
                }
                self.done.push_reserved(held);
            }
            Hand::Large(name) => {
                self.scanned.push_reserved(PackedPlace::new(name));
                self.claimed_done.push_reserved(name);
            }
        }
        Ok(())
    }
}
