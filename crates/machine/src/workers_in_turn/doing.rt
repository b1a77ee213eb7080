//! What one worker can do.
ghost use Rattle.std.specs.Prelude.{◌≡◌, ◌≢◌, ◌↔◌, [], true, List, None, IsTrue};
ghost use Rattle.model.specs.Graph.{IsClosed};
ghost use Rattle.steps.specs.NamesArePlaces.{NamesArePlaces};
ghost use Rattle.workers.specs.WorkerSteps.{CanLook, CanScan, IsFree, IsOutOfWork, has_open_work};
ghost use Rattle.workers.specs.Lawful.{lowest_open, next_of_worker};
ghost use Rattle.workers.specs.Block.{Block};
ghost use Rattle.machine.specs.SystemEvents.{event_of};
ghost use Rattle.workers.specs.Ready.{IsUntouched};
ghost use Rattle.scavenge.specs.Slots.{objects_of};

use crate::workers_in_turn::event::Event;
use crate::workers_in_turn::member::Member;
use heap::Heap;
use scavenge::has_slot;
use std::alloc::Allocator;

impl<A: Allocator> Member<A> {
    /// Whether its start list is finished, and nothing is in hand or proposed.
    pub(crate) fn is_free(&self) -> bool
        ensures { IsTrue result ↔ IsFree self.now.workspace.worker }
    {
        !self.workspace.has_proposal() && self.workspace.is_started() && !self.workspace.has_hand()
    }

    /// Whether it can take its allocation block for a destination in hand.
    pub(crate) fn may_own(&self, d: usize) -> bool
        ensures { IsTrue result ↔ IsFree self.now.workspace.worker ×
            (has_open_work self.now.workspace.worker d ≡ true) }
    {
        self.is_free() && self.workspace.has_open(d)
    }

    /// Whether it can take a claimed large object in hand.
    pub(crate) fn may_own_large(&self) -> bool
        ensures { IsTrue result ↔ IsFree self.now.workspace.worker × (self.now.workspace.worker.large ≢ []) }
    {
        self.is_free() && self.workspace.has_large()
    }

    /// The lowest destination whose allocation block has something unscanned.
    pub(crate) fn lowest_open(&self) -> Option<usize>
        requires { self.now.workspace.worker.proposal ≡ None }
        ensures { result ≡ lowest_open 0 self.now.workspace.worker.allocation }
    {
        for d in 0..self.workspace.destinations() {
            if self.workspace.has_open(d) {
                return Some(d);
            }
        }
        None
    }

    /// Whether nothing of its own is left.
    pub(crate) fn is_out_of_work(&self) -> bool
        ensures { IsTrue result ↔ IsOutOfWork self.now.workspace.worker }
    {
        if !self.is_free() {
            return false;
        }
        if self.workspace.has_aside() {
            return false;
        }
        !self.workspace.has_large() && self.lowest_open().is_none()
    }
}

impl<A: Allocator + Clone> Member<A> {
    /// Whether it has a slot to look at, and proposes nothing.
    pub(crate) fn can_look(&self, heap: &Heap<A>) -> bool
        requires closed { IsClosed heap.now.graph }
        requires places { NamesArePlaces heap.now.graph }
        requires untouched { IsUntouched (objects_of heap.now) self.now.workspace.worker }
        ensures { IsTrue result ↔ CanLook (objects_of heap.now) self.now.workspace.worker }
    {
        !self.workspace.has_proposal() && has_slot(&self.workspace, heap)
    }

    /// Whether what is in hand can be scanned.
    pub(crate) fn can_scan(&self, heap: &Heap<A>) -> bool
        requires closed { IsClosed heap.now.graph }
        requires places { NamesArePlaces heap.now.graph }
        requires untouched { IsUntouched (objects_of heap.now) self.now.workspace.worker }
        ensures { IsTrue result ↔ CanScan (objects_of heap.now) self.now.workspace.worker }
    {
        !self.workspace.has_proposal()
            && self.workspace.has_hand()
            && !has_slot(&self.workspace, heap)
    }

    /// What comes next of it, where it isn't idle. It has number `t`, and something waits in its queue or not.
    pub(crate) fn next(&self, heap: &Heap<A>, t: u32, queued: bool) -> Event
        requires closed { IsClosed heap.now.graph }
        requires places { NamesArePlaces heap.now.graph }
        requires untouched { IsUntouched (objects_of heap.now) self.now.workspace.worker }
        ensures { (queue : List Block) → (IsTrue queued → queue ≢ []) → (queue ≢ [] → IsTrue queued) →
            event_of result ≡ next_of_worker (objects_of heap.now) t self.now.workspace.worker queue }
    {
        if self.workspace.has_proposal() {
            return Event::Race(t);
        }
        if has_slot(&self.workspace, heap) {
            return Event::Look(t);
        }
        if self.workspace.has_hand() {
            return Event::Scan(t);
        }
        if self.workspace.has_aside() {
            return Event::Export(t);
        }
        if let Some(d) = self.lowest_open() {
            return Event::Own(t, d);
        }
        if self.workspace.has_large() {
            return Event::OwnLarge(t);
        }
        if queued {
            return Event::Take(t, t);
        }
        Event::Idle(t)
    }
}
