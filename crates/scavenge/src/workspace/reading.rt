//! What is at hand, and the current slot.
ghost use Rattle.std.specs.Prelude.{◌≡◌, ◌≢◌, ◌↔◌, [], true, None, IsTrue, IsSome, length};
ghost use Rattle.workers.specs.Worker.{Nothing};
ghost use Rattle.workers.specs.WorkerSteps.{has_open_work};
ghost use Rattle.scavenge.specs.Shown.{CanRead, known_of, known_slot};
ghost use Rattle.scavenge.specs.Swept.{is_holding};

use crate::to_space::front_pointer;
use crate::workspace::current::Current;
use crate::workspace::hand::Hand;
use crate::workspace::workspace::Workspace;
use std::alloc::Allocator;

impl<A: Allocator> Workspace<A> {
    /// The current slot, as far as the worker itself knows it.
    #[inline(always)]
    pub fn current(&self) -> Current
        requires proposal { self.now.worker.proposal ≡ None }
        requires pointer { CanRead self.now.worker self.now.worker.starts }
        ensures { known_of result ≡ known_slot self.now.worker }
    {
        if self.started < self.starts.len() {
            return Current::Holds(Some(Some(self.starts[self.started])));
        }
        match &self.hand {
            Hand::Nothing => Current::Holds(None),
            Hand::Open(d) => Current::Holds(self.allocation.front_pointer(*d, self.fields)),
            Hand::Holding(block) => Current::Holds(front_pointer(block, self.fields)),
            Hand::Large(name) => Current::OfLarge(*name, self.fields),
        }
    }

    /// How many destinations there are.
    pub fn destinations(&self) -> usize
        ensures { result ≡ length self.now.worker.allocation }
    {
        self.allocation.len()
    }

    /// Whether the allocation block for a destination has something unscanned.
    pub fn has_open(&self, d: usize) -> bool
        requires { self.now.worker.proposal ≡ None }
        ensures { IsTrue result ↔ (has_open_work self.now.worker d ≡ true) }
    {
        self.allocation.has_unscanned(d)
    }

    /// Whether something is aside.
    pub fn has_aside(&self) -> bool
        ensures { IsTrue result ↔ (self.now.worker.aside ≢ []) }
    {
        !self.aside.is_empty()
    }

    /// Whether a claimed large object is left.
    pub fn has_large(&self) -> bool
        ensures { IsTrue result ↔ (self.now.worker.large ≢ []) }
    {
        !self.claimed.is_empty()
    }

    /// Whether there is a proposal.
    pub fn has_proposal(&self) -> bool
        ensures { IsTrue result ↔ IsSome self.now.worker.proposal }
    {
        self.proposed.is_some()
    }

    /// Whether something is in hand.
    pub fn has_hand(&self) -> bool
        ensures { IsTrue result ↔ (self.now.worker.hand ≢ Nothing) }
    {
        !matches!(self.hand, Hand::Nothing)
    }

    /// Whether a block is held in hand that was retired or taken.
    #[inline(always)]
    pub fn holds_block(&self) -> bool
        ensures { result ≡ is_holding self.now.worker.hand }
    {
        matches!(self.hand, Hand::Holding(_))
    }

    /// Whether the start list is finished.
    #[inline(always)]
    pub fn is_started(&self) -> bool
        ensures { IsTrue result ↔ (self.now.worker.starts ≡ []) }
    {
        self.started >= self.starts.len()
    }
}
