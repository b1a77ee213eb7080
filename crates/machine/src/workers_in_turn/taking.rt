//! What a worker takes in hand, and scans.
ghost use Rattle.std.specs.Prelude.{◌≡◌, OnOk, OnErr};
ghost use Rattle.workers.specs.System.{Own, OwnLarge, Scan};
ghost use Rattle.workers.specs.Lawful.{IsLawful};
ghost use Rattle.machine.specs.InterleavedValue.{Goes, Stays, setting_in, system_of};

use crate::workers_in_turn::interleaved::InterleavedCollection;
use std::alloc::{AllocError, Allocator};

impl<A: Allocator> InterleavedCollection<A> {
    /// Worker `t` takes its allocation block for a destination in hand.
    pub fn own(&mut self, t: u32, d: usize)
        requires { IsLawful (setting_in self.old) (system_of self.old) (Own t d) }
        ensures { Goes (Own t d) self.old self.new }
    {
        self.members[t as usize].workspace.own(d);
    }

    /// Worker `t` takes the large object that it claimed first in hand.
    pub fn own_large(&mut self, t: u32)
        requires { IsLawful (setting_in self.old) (system_of self.old) (OwnLarge t) }
        ensures { Goes (OwnLarge t) self.old self.new }
    {
        self.members[t as usize].workspace.own_large();
    }

    /// The current object of worker `t` is scanned. An error says that memory ran out; nothing came then.
    pub fn scan(&mut self, t: u32) -> Result<(), AllocError>
        requires { IsLawful (setting_in self.old) (system_of self.old) (Scan t) }
        ensures ok { OnOk result (Goes (Scan t) self.old self.new) }
        ensures err { OnErr result (self.new ≡ self.old) }
    {
        self.members[t as usize].workspace.scan()
    }
}
