//! What comes next by itself.
ghost use Rattle.std.specs.Prelude.{◌≡◌, ◌↔◌, ◌<◌, Some, IfSome, IsTrue, slice_get};
ghost use Rattle.std.specs.Option.{option_map};
ghost use Rattle.workers.specs.Lawful.{AllEnded, lowest_unset, next_lawful, next_of_worker, queue_at};
ghost use Rattle.machine.specs.InterleavedValue.{setting_in, system_of};
ghost use Rattle.machine.specs.SystemEvents.{event_of};

use crate::workers_in_turn::event::Event;
use crate::workers_in_turn::interleaved::InterleavedCollection;
use heap::Heap;
use std::alloc::Allocator;

impl<A: Allocator> InterleavedCollection<A> {
    /// The lowest worker that isn't idle.
    fn lowest_awake(&self) -> Option<u32>
        ensures lowest { result ≡ lowest_unset 0 (system_of self.now).idle }
        ensures below { IfSome result (λ t. t < self.now.workers) }
    {
        for t in 0..self.workers {
            if !self.members[t as usize].idle {
                return Some(t);
            }
        }
        None
    }

    /// The lowest worker that hasn't ended.
    fn lowest_going(&self) -> Option<u32>
        ensures { result ≡ lowest_unset 0 (system_of self.now).ended }
    {
        for t in 0..self.workers {
            if !self.members[t as usize].ended {
                return Some(t);
            }
        }
        None
    }

    /// Whether every worker has ended.
    pub fn all_ended(&self) -> bool
        ensures { IsTrue result ↔ AllEnded (system_of self.now) }
    {
        self.lowest_going().is_none()
    }
}

impl<A: Allocator + Clone> InterleavedCollection<A> {
    /// What comes next of worker `t`, which isn't idle.
    fn next_of(&self, heap: &Heap<A>, t: u32) -> Event
        requires heap { heap.now ≡ self.now.heap }
        requires there { t < self.now.workers }
        ensures { Some (event_of result) ≡
            option_map (λ w. next_of_worker (setting_in self.now) t w (queue_at (system_of self.now) t))
            (slice_get (system_of self.now).workers t) }
    {
        self.members[t as usize].next(heap, t, self.has_queued(t))
    }

    /// The event that comes next by itself: of the lowest worker that isn't idle, else the end of the lowest that hasn't
    /// ended.
    pub fn next_lawful(&self, heap: &Heap<A>) -> Option<Event>
        requires { heap.now ≡ self.now.heap }
        ensures { option_map event_of result ≡ next_lawful (setting_in self.now) (system_of self.now) }
    {
        if let Some(t) = self.lowest_awake() {
            return Some(self.next_of(heap, t));
        }
        let t = self.lowest_going()?;
        Some(Event::End(t))
    }
}
