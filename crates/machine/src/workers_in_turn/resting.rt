//! When a worker rests, goes on and ends, and how many there are.
ghost use Rattle.std.specs.Prelude.{◌≡◌, ◌<◌, ◌≤◌};
ghost use Rattle.workers.specs.System.{Idle, Wake, End};
ghost use Rattle.workers.specs.Lawful.{IsLawful};
ghost use Rattle.machine.specs.InterleavedValue.{Goes, HasWorkers, setting_in, system_of};

use crate::workers_in_turn::interleaved::InterleavedCollection;
use std::alloc::Allocator;

impl<A: Allocator> InterleavedCollection<A> {
    /// Worker `t` goes idle.
    pub fn idle(&mut self, t: u32)
        requires { IsLawful (setting_in self.old) (system_of self.old) (Idle t) }
        ensures { Goes (Idle t) self.old self.new }
    {
        self.members[t as usize].idle = true;
        self.idlers += 1;
    }

    /// Worker `t` is idle no longer.
    pub fn wake(&mut self, t: u32)
        requires { IsLawful (setting_in self.old) (system_of self.old) (Wake t) }
        ensures { Goes (Wake t) self.old self.new }
    {
        self.members[t as usize].idle = false;
        self.idlers -= 1;
    }

    /// Worker `t`, idle as all are, ends.
    pub fn end(&mut self, t: u32)
        requires { IsLawful (setting_in self.old) (system_of self.old) (End t) }
        ensures { Goes (End t) self.old self.new }
    {
        self.members[t as usize].ended = true;
    }

    /// How many workers there are, 1 to 16.
    pub fn workers(&self) -> u32
        ensures count { result ≡ self.now.workers }
        ensures each { HasWorkers (system_of self.now) result }
        ensures some { 0 < result }
        ensures most { result ≤ 16 }
    {
        self.workers
    }
}
