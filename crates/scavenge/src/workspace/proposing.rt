//! What is proposed, and the blocks that are copied into.
ghost use Rattle.std.specs.Prelude.{◌≡◌, ◌<◌, ◌-◌, ◌↔◌, true, Some, None, IsTrue, OnOk, OnErr, length};
ghost use Rattle.layout.specs.Object.{raw_size};
ghost use Rattle.layout.specs.ObjectRef.{raw_of};
ghost use Rattle.layout.specs.Place.{place_word};
ghost use Rattle.workers.specs.Block.{empty_block};
ghost use Rattle.workers.specs.Worker.{Claimed, allocation_at};
ghost use Rattle.workers.specs.WorkerSteps.{with_new_block};
ghost use Rattle.scavenge.specs.Named.{named, IsWhole};
ghost use Rattle.scavenge.specs.Shown.{has_place_for, with_copy_proposed};

use crate::workspace::hand::Hand;
use crate::workspace::proposed::Proposed;
use crate::workspace::workspace::Workspace;
use block_pool::Block;
use layout::{ObjectRef, Place};
use std::alloc::{AllocError, Allocator};

impl<A: Allocator> Workspace<A> {
    /// Whether an object of `size` words fits at the end of the block for a destination.
    #[inline(always)]
    pub fn fits(&self, d: usize, size: usize) -> bool
        requires { self.now.worker.proposal ≡ None }
        ensures { IsTrue result ↔
            (has_place_for self.now.config.block_words size (allocation_at self.now.worker d) ≡ true) }
    {
        self.allocation.fits(d, size)
    }

    /// Puts a copy of the object with this name at the end of the block for a destination, where it fits, and proposes it.
    #[inline(always)]
    pub fn push_copy(&mut self, name: Place, object: ObjectRef<'_>, d: usize)
        requires proposal { self.old.worker.proposal ≡ None }
        requires fits { has_place_for self.old.config.block_words (raw_size (raw_of object))
            (allocation_at self.old.worker d) ≡ true }
        ensures { self.new ≡
            record self.old { worker = with_copy_proposed self.old.worker (place_word name) (raw_of object.entry) d } }
    {
        let place = self.allocation.push(d, object);
        self.proposed = Some(Proposed {
            name,
            place,
            destination: Some(d),
        });
    }

    /// Proposes a large object. An error says that memory ran out, and changes nothing.
    pub fn propose_large(&mut self, name: Place) -> Result<(), AllocError>
        requires { self.old.worker.proposal ≡ None }
        ensures ok { OnOk result
            (self.new ≡ record self.old
            { worker = record self.old.worker { proposal = Some (Claimed (place_word name)) } }) }
        ensures err { OnErr result (self.new ≡ self.old) }
    {
        self.claimed.reserve(1)?;
        self.proposed = Some(Proposed {
            name,
            place: name,
            destination: None,
        });
        Ok(())
    }

    /// A block that was drawn for a destination comes into its place, and the one that is there is retired: in hand it stays
    /// there, else it goes aside or is done.
    pub fn renew(&mut self, d: usize, block: Block<A>)
        requires free { 0 < self.old.block_room }
        requires proposal { self.old.worker.proposal ≡ None }
        requires room { d < length self.old.worker.allocation }
        requires whole { IsWhole self.old.config.shape self.old.config.block_words block }
        requires empty { named self.old.config.shape block ≡ empty_block block.number d }
        ensures { self.new ≡
            record self.old {
              worker = with_new_block self.old.worker d block.number;
              block_room = self.old.block_room -
                  1;
            } }
    {
        self.block_room -= 1;
        let Some(full) = self.allocation.replace(d, block) else {
            return;
        };
        if self.hand.is_open(d) {
            self.hand = Hand::Holding(full);
            return;
        }
        if full.front() < full.len() {
            self.aside.push_back_reserved(full);
            return;
        }
        self.done.push_reserved(full);
    }
}
