//! Which events are lawful.
ghost use Rattle.std.specs.Prelude.{◌≡◌, ◌↔◌, Some, true, false, IsTrue};
ghost use Rattle.workers.specs.System as system;
ghost use Rattle.workers.specs.Lawful.{IsLawful, HasQueued};
ghost use Rattle.machine.specs.InterleavedValue.{setting_in, system_of};
ghost use Rattle.machine.specs.SystemEvents.{event_of};
ghost use Rattle.std.specs.Prelude.{slice_get};

use crate::workers_in_turn::event::Event;
use crate::workers_in_turn::interleaved::InterleavedCollection;
use heap::Heap;
use std::alloc::Allocator;

impl<A: Allocator> InterleavedCollection<A> {
    /// Whether there is a worker `t` and it isn't idle.
    fn is_awake(&self, t: u32) -> bool
        ensures { IsTrue result ↔ (slice_get (system_of self.now).idle t ≡ Some false) }
    {
        match self.members.get(t as usize) {
            Some(member) => !member.idle,
            None => false,
        }
    }

    fn may_race(&self, t: u32) -> bool
        ensures { IsTrue result ↔ IsLawful (setting_in self.now) (system_of self.now) (system.Race t) }
    {
        self.is_awake(t) && self.members[t as usize].workspace.has_proposal()
    }

    fn may_export(&self, t: u32) -> bool
        ensures { IsTrue result ↔ IsLawful (setting_in self.now) (system_of self.now) (system.Export t) }
    {
        self.is_awake(t) && self.members[t as usize].workspace.has_aside()
    }

    fn may_take(&self, t: u32, u: u32) -> bool
        ensures { IsTrue result ↔ IsLawful (setting_in self.now) (system_of self.now) (system.Take t u) }
    {
        if !self.has_queued(u) {
            return false;
        }
        self.is_awake(t) && self.members[t as usize].is_free()
    }

    fn may_own(&self, t: u32, d: usize) -> bool
        ensures { IsTrue result ↔ IsLawful (setting_in self.now) (system_of self.now) (system.Own t d) }
    {
        self.is_awake(t) && self.members[t as usize].may_own(d)
    }

    fn may_own_large(&self, t: u32) -> bool
        ensures { IsTrue result ↔ IsLawful (setting_in self.now) (system_of self.now) (system.OwnLarge t) }
    {
        self.is_awake(t) && self.members[t as usize].may_own_large()
    }

    fn may_idle(&self, t: u32) -> bool
        ensures { IsTrue result ↔ IsLawful (setting_in self.now) (system_of self.now) (system.Idle t) }
    {
        if self.has_queued(t) {
            return false;
        }
        self.is_awake(t) && self.members[t as usize].is_out_of_work()
    }

    /// Whether there is a worker `u` and a block waits in its queue.
    pub(crate) fn has_queued(&self, u: u32) -> bool
        ensures { IsTrue result ↔ HasQueued (system_of self.now) u }
    {
        u < self.workers && self.queues.maybe(u)
    }

    /// Whether there is a worker `t` that is idle and hasn't ended.
    fn is_resting(&self, t: u32) -> bool
        ensures { IsTrue result ↔ (slice_get (system_of self.now).idle t ≡ Some true) ×
            (slice_get (system_of self.now).ended t ≡ Some false) }
    {
        match self.members.get(t as usize) {
            Some(member) => member.idle && !member.ended,
            None => false,
        }
    }

    fn may_wake(&self, t: u32) -> bool
        ensures { IsTrue result ↔ IsLawful (setting_in self.now) (system_of self.now) (system.Wake t) }
    {
        self.is_resting(t) && self.idlers < self.workers
    }

    fn may_end(&self, t: u32) -> bool
        ensures { IsTrue result ↔ IsLawful (setting_in self.now) (system_of self.now) (system.End t) }
    {
        self.is_resting(t) && self.idlers == self.workers
    }
}

impl<A: Allocator + Clone> InterleavedCollection<A> {
    fn may_look(&self, heap: &Heap<A>, t: u32) -> bool
        requires { heap.now ≡ self.now.heap }
        ensures { IsTrue result ↔ IsLawful (setting_in self.now) (system_of self.now) (system.Look t) }
    {
        self.is_awake(t) && self.members[t as usize].can_look(heap)
    }

    fn may_scan(&self, heap: &Heap<A>, t: u32) -> bool
        requires { heap.now ≡ self.now.heap }
        ensures { IsTrue result ↔ IsLawful (setting_in self.now) (system_of self.now) (system.Scan t) }
    {
        self.is_awake(t) && self.members[t as usize].can_scan(heap)
    }

    /// Whether the event is lawful now.
    pub fn lawful(&self, heap: &Heap<A>, event: Event) -> bool
        requires { heap.now ≡ self.now.heap }
        ensures { IsTrue result ↔ IsLawful (setting_in self.now) (system_of self.now) (event_of event) }
    {
        match event {
            Event::Look(t) => self.may_look(heap, t),
            Event::Race(t) => self.may_race(t),
            Event::Scan(t) => self.may_scan(heap, t),
            Event::Export(t) => self.may_export(t),
            Event::Take(t, u) => self.may_take(t, u),
            Event::Own(t, d) => self.may_own(t, d),
            Event::OwnLarge(t) => self.may_own_large(t),
            Event::Idle(t) => self.may_idle(t),
            Event::Wake(t) => self.may_wake(t),
            Event::End(t) => self.may_end(t),
        }
    }
}
