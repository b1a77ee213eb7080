//! A list of events, and all that are left.
ghost use Rattle.std.specs.Prelude.{◌≡◌, Err, OnOk, IfErr, map};
ghost use Rattle.workers.specs.Lawful.{AllEnded};
ghost use Rattle.machine.specs.SystemEvents.{event_of};
ghost use Rattle.machine.specs.Events.{Ran, Stopped, WentOn, IsStuck};

use crate::machine::Machine;
use crate::step_error::StepError;
use crate::workers_in_turn::Event;
use scavenge::LookError;
use std::alloc::Allocator;

impl<'a, A: Allocator + Clone> Machine<'a, A> {
    /// The events come one after another. An error says which didn't come, and why; those before it came.
    pub fn run(&mut self, events: &[Event]) -> Result<(), (usize, StepError)>
        ensures ok { OnOk result (Ran (map event_of events.now) self.old self.new) }
        ensures err { IfErr result (λ e. Stopped (map event_of events.now) e.0 e.1 self.old self.new) }
    {
        for i in 0..events.len() {
            if let Err(error) = self.step(events[i]) {
                return Err((i, error));
            }
        }
        Ok(())
    }

    /// What comes next by itself comes, until all ended. An error says that a block was wanted and none is left, or that
    /// memory ran out; the events before that came.
    pub fn finish(&mut self) -> Result<(), LookError>
        ensures steps { WentOn self.old self.new }
        ensures ok { OnOk result (AllEnded self.new.system) }
        ensures full { result ≡ Err LookError.HeapFull → IsStuck self.new }
    {
        while let Some(event) = self.next_lawful() {
            self.go_on(event)?;
        }
        Ok(())
    }
}
