//! What the worker takes in hand, and scans.
ghost use Rattle.std.specs.Prelude.{◌≡◌, ◌≢◌, [], true, false, Ok, OnOk, OnErr};
ghost use Rattle.workers.specs.WorkerSteps.{CanScan, IsFree, has_open_work};
ghost use Rattle.workers.specs.WorkerRun.{Scanned, Owned, OwnedLarge};
ghost use Rattle.workers_in_threads.specs.SharingValue.{setting_in, worker_of};
ghost use Rattle.workers_in_threads.specs.Sharing.{IsSame, Acts};

use crate::sharing_worker::worker::SharingWorker;
use forwarding::Cells;
use std::alloc::{AllocError, Allocator};

impl<'a, C: Cells, A: Allocator> SharingWorker<'a, C, A> {
    /// The worker takes its allocation block for a destination in hand.
    pub fn own(&mut self, d: usize)
        requires free { IsFree self.old.workspace.worker }
        requires work { has_open_work self.old.workspace.worker d ≡ true }
        ensures same { IsSame C.at_home self.old self.new }
        ensures acts { Acts (Owned d) self.old self.new }
    {
        self.workspace.own(d);
    }

    /// The worker takes the large object that it claimed first in hand.
    pub fn own_large(&mut self)
        requires free { IsFree self.old.workspace.worker }
        requires work { self.old.workspace.worker.large ≢ [] }
        ensures same { IsSame C.at_home self.old self.new }
        ensures acts { Acts OwnedLarge self.old self.new }
    {
        self.workspace.own_large();
    }

    /// The current object is scanned. An error says that memory ran out, and changes nothing.
    pub fn scan(&mut self) -> Result<(), AllocError>
        requires can { CanScan (setting_in self.old) (worker_of self.old) }
        ensures same { IsSame C.at_home self.old self.new }
        ensures ok { OnOk result (Acts Scanned self.old self.new) }
        ensures err { OnErr result (self.new ≡ self.old) }
    {
        self.workspace.scan()
    }

    /// The current object is scanned, where it is one of a block in hand that has another unscanned behind it: tells whether
    /// it is. An error says that memory ran out, and changes nothing.
    #[inline(always)]
    pub fn scan_to_next(&mut self) -> Result<bool, AllocError>
        requires can { CanScan (setting_in self.old) (worker_of self.old) }
        ensures same { IsSame C.at_home self.old self.new }
        ensures some { result ≡ Ok true → Acts Scanned self.old self.new }
        ensures none { result ≡ Ok false → self.new ≡ self.old }
        ensures err { OnErr result (self.new ≡ self.old) }
    {
        self.workspace.scan_to_next()
    }
}
