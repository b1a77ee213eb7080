//! Which events are lawful, and how one comes.
ghost use Rattle.std.specs.Prelude.{◌≡◌, ◌↔◌, None, Err, IsTrue, IfSome, OnOk, OnErr};
ghost use Rattle.std.specs.Option.{option_map};
ghost use Rattle.workers.specs.Lawful.{IsLawful, AllEnded, next_lawful};
ghost use Rattle.machine.specs.SystemEvents.{event_of};
ghost use Rattle.machine.specs.MachineValue.{HasReached, setting_in};
ghost use Rattle.machine.specs.Events.{Comes, IsFullForEvent};

use crate::carrying::carry_out;
use crate::machine::Machine;
use crate::step_error::StepError;
use crate::workers_in_turn::Event;
use scavenge::LookError;
use std::alloc::Allocator;

impl<'a, A: Allocator + Clone> Machine<'a, A> {
    /// Whether the event is lawful now.
    pub fn lawful(&self, event: Event) -> bool
        ensures lawful { IsTrue result ↔ IsLawful (setting_in self.now) self.now.system (event_of event) }
        // What holds of every machine.
        ensures reached { HasReached self.now }
    {
        self.workers.lawful(self.heap, event)
    }

    /// The event that comes next by itself: of the lowest worker that isn't idle, else the end of the lowest that hasn't
    /// ended. There is none only where all ended.
    pub fn next_lawful(&self) -> Option<Event>
        ensures next { option_map event_of result ≡ next_lawful (setting_in self.now) self.now.system }
        ensures lawful { IfSome result (λ event. IsLawful (setting_in self.now) self.now.system (event_of event)) }
        ensures none { (result ≡ None) ↔ AllEnded self.now.system }
        // What holds of every machine.
        ensures reached { HasReached self.now }
    {
        self.workers.next_lawful(self.heap)
    }

    /// The event, which is lawful, comes. An error says that a block was wanted and none is left, or that memory ran out;
    /// nothing came then.
    pub(crate) fn go_on(&mut self, event: Event) -> Result<(), LookError>
        requires { IsLawful (setting_in self.old) self.old.system (event_of event) }
        ensures ok { OnOk result (Comes (event_of event) self.old self.new) }
        ensures full { result ≡ Err LookError.HeapFull → IsFullForEvent (event_of event) self.old }
        ensures err { OnErr result (self.new ≡ self.old) }
    {
        let alloc = self.alloc.clone()?;
        carry_out(alloc, self.heap, &self.collection, &mut self.workers, event)
    }

    /// The event comes, where it is lawful. An error says that it isn't, or that a block was wanted and none is left, or
    /// that memory ran out; nothing came then.
    pub fn step(&mut self, event: Event) -> Result<(), StepError>
        ensures ok { OnOk result (Comes (event_of event) self.old self.new) }
        ensures unlawful { (result ≡ Err StepError.NotLawful) ↔
            ¬ IsLawful (setting_in self.old) self.old.system (event_of event) }
        ensures full { result ≡ Err StepError.HeapFull → IsFullForEvent (event_of event) self.old }
        ensures memory { result ≡ Err StepError.NoMemory →
            IsLawful (setting_in self.old) self.old.system (event_of event) }
        ensures err { OnErr result (self.new ≡ self.old) }
    {
        if !self.lawful(event) {
            return Err(StepError::NotLawful);
        }
        Ok(self.go_on(event)?)
    }
}
