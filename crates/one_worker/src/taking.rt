//! What the worker takes in hand, and scans.
ghost use Rattle.std.specs.Prelude.{◌≡◌, ◌≢◌, [], true, false, Ok, IfOk, OnOk, OnErr};
ghost use Rattle.workers.specs.WorkerSteps.{CanScan, IsFree, has_open_work};
ghost use Rattle.workers.specs.System.{Own, OwnLarge, Scan};
ghost use Rattle.scavenge.specs.Shown.{has_another};
ghost use Rattle.one_worker.specs.SerialValue.{Goes, setting_in};

use crate::serial::SerialCollection;
use std::alloc::{AllocError, Allocator};

impl<A: Allocator> SerialCollection<A> {
    /// The worker takes its allocation block for a destination in hand.
    pub fn own(&mut self, d: usize)
        requires free { IsFree self.old.workspace.worker }
        requires work { has_open_work self.old.workspace.worker d ≡ true }
        ensures { Goes (Own 0 d) self.old self.new }
    {
        self.workspace.own(d);
    }

    /// The worker takes the large object that it claimed first in hand.
    pub fn own_large(&mut self)
        requires free { IsFree self.old.workspace.worker }
        requires work { self.old.workspace.worker.large ≢ [] }
        ensures { Goes (OwnLarge 0) self.old self.new }
    {
        self.workspace.own_large();
    }

    /// The current object is scanned. An error says that memory ran out, and changes nothing.
    pub fn scan(&mut self) -> Result<(), AllocError>
        requires can { CanScan (setting_in self.old) self.old.workspace.worker }
        ensures ok { OnOk result (Goes (Scan 0) self.old self.new) }
        ensures err { OnErr result (self.new ≡ self.old) }
    {
        self.workspace.scan()
    }

    /// The current object is scanned, where it is one of a block in hand that has another unscanned behind it: tells whether
    /// it is. An error says that memory ran out, and changes nothing.
    #[inline(always)]
    pub fn scan_to_next(&mut self) -> Result<bool, AllocError>
        requires can { CanScan (setting_in self.old) self.old.workspace.worker }
        ensures some { result ≡ Ok true → Goes (Scan 0) self.old self.new }
        ensures none { result ≡ Ok false → self.new ≡ self.old }
        ensures which { IfOk result (λ some. some ≡ has_another self.old.workspace.worker.hand) }
        ensures err { OnErr result (self.new ≡ self.old) }
    {
        self.workspace.scan_to_next()
    }
}
