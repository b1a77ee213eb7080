//! What there is to do.
ghost use Rattle.std.specs.Prelude.{◌≡◌, ◌≢◌, ◌↔◌, [], None, IsSome, IsTrue};
ghost use Rattle.workers.specs.Worker.{Nothing};
ghost use Rattle.workers.specs.Lawful.{lowest_open};
ghost use Rattle.scavenge.specs.Swept.{is_holding};

use crate::serial::SerialCollection;
use std::alloc::Allocator;

impl<A: Allocator> SerialCollection<A> {
    /// Whether there is a proposal.
    pub fn has_proposal(&self) -> bool
        ensures { IsTrue result ↔ IsSome self.now.workspace.worker.proposal }
    {
        self.workspace.has_proposal()
    }

    /// Whether something is in hand.
    pub fn has_hand(&self) -> bool
        ensures { IsTrue result ↔ (self.now.workspace.worker.hand ≢ Nothing) }
    {
        self.workspace.has_hand()
    }

    /// Whether a block is held in hand that was retired or taken.
    #[inline(always)]
    pub fn holds_block(&self) -> bool
        ensures { result ≡ is_holding self.now.workspace.worker.hand }
    {
        self.workspace.holds_block()
    }

    /// Whether something is aside.
    pub fn has_aside(&self) -> bool
        ensures { IsTrue result ↔ (self.now.workspace.worker.aside ≢ []) }
    {
        self.workspace.has_aside()
    }

    /// Whether a claimed large object is left.
    pub fn has_large(&self) -> bool
        ensures { IsTrue result ↔ (self.now.workspace.worker.large ≢ []) }
    {
        self.workspace.has_large()
    }

    /// The lowest destination whose allocation block has something unscanned.
    pub fn lowest_open(&self) -> Option<usize>
        requires { self.now.workspace.worker.proposal ≡ None }
        ensures { result ≡ lowest_open 0 self.now.workspace.worker.allocation }
    {
        for d in 0..self.workspace.destinations() {
            if self.workspace.has_open(d) {
                return Some(d);
            }
        }
        None
    }
}
