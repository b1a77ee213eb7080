//! What there is to do.
ghost use Rattle.std.specs.Prelude.{◌≡◌, ◌≢◌, ◌<◌, ◌↔◌, [], None, IsSome, IsTrue};
ghost use Rattle.workers.specs.Worker.{Nothing};
ghost use Rattle.workers.specs.Lawful.{lowest_open};
ghost use Rattle.scavenge.specs.Swept.{is_holding};
ghost use Rattle.workers_in_threads.specs.SharingValue.{worker_of};

use crate::sharing_worker::worker::SharingWorker;
use forwarding::Cells;
use std::alloc::Allocator;

impl<'a, C: Cells, A: Allocator> SharingWorker<'a, C, A> {
    /// Which worker it is, and which queue is its own.
    pub fn number(&self) -> u32
        ensures number { result ≡ self.now.seat.index }
        ensures member { result < self.now.workers }
    {
        self.seat.index()
    }

    /// How many workers there are.
    pub fn workers(&self) -> u32
        ensures { result ≡ self.now.workers }
    {
        self.workers
    }

    /// Whether there is a proposal.
    pub fn has_proposal(&self) -> bool
        ensures { IsTrue result ↔ IsSome (worker_of self.now).proposal }
    {
        self.workspace.has_proposal()
    }

    /// Whether something is in hand.
    pub fn has_hand(&self) -> bool
        ensures { IsTrue result ↔ ((worker_of self.now).hand ≢ Nothing) }
    {
        self.workspace.has_hand()
    }

    /// Whether a block is held in hand that was retired or taken.
    #[inline(always)]
    pub fn holds_block(&self) -> bool
        ensures { result ≡ is_holding (worker_of self.now).hand }
    {
        self.workspace.holds_block()
    }

    /// Whether something is aside.
    pub fn has_aside(&self) -> bool
        ensures { IsTrue result ↔ ((worker_of self.now).aside ≢ []) }
    {
        self.workspace.has_aside()
    }

    /// Whether a claimed large object is left.
    pub fn has_large(&self) -> bool
        ensures { IsTrue result ↔ ((worker_of self.now).large ≢ []) }
    {
        self.workspace.has_large()
    }

    /// The lowest destination whose allocation block has something unscanned.
    pub fn lowest_open(&self) -> Option<usize>
        requires { (worker_of self.now).proposal ≡ None }
        ensures { result ≡ lowest_open 0 (worker_of self.now).allocation }
    {
        for d in 0..self.workspace.destinations() {
            if self.workspace.has_open(d) {
                return Some(d);
            }
        }
        None
    }
}
