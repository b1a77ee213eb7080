//! How a worker that holds a block in hand sweeps over it, in a loop that owns what it goes over.
ghost use Rattle.std.specs.Prelude.{◌≡◌, ◌<◌, true, None};
ghost use Rattle.scavenge.specs.Swept.{left_in_hand};
ghost use Rattle.workers_in_threads.specs.SharingValue.{worker_of};
ghost use Rattle.workers_in_threads.specs.Sharing.{IsSame};

use crate::sharing_worker::sweep::SharingSweep;
use crate::sharing_worker::worker::SharingWorker;
use forwarding::Cells;
use scavenge::Evacuated;
use std::alloc::Allocator;

impl<'a, C: Cells, A: Allocator + Clone> SharingSweep<'a, C, A> {
    /// A look with the race for what it proposes, or a scan, where they want neither a block nor a queue. Tells whether there
    /// was one.
    #[inline(always)]
    fn sweep_once(&mut self) -> bool
        requires proposal { (worker_of self.old).proposal ≡ None }
        ensures same { IsSame C.at_home self.old self.new }
        ensures some { result ≡ true → left_in_hand (worker_of self.new) < left_in_hand (worker_of self.old) }
        ensures proposal { (worker_of self.new).proposal ≡ None }
    {
        match self.evacuate() {
            Evacuated::Left => false,
            Evacuated::NoSlot => self.scan_to_next(),
            Evacuated::Looked | Evacuated::Raced => true,
        }
    }

    /// The next steps, as far as the sweep goes.
    #[inline(always)]
    fn sweep_on(&mut self)
        requires proposal { (worker_of self.old).proposal ≡ None }
        ensures { IsSame C.at_home self.old self.new }
    {
        while self.sweep_once() {}
    }

    /// The same, where copies go one way. Each turn asks for that, so that a compiler knows it in the whole loop, which then holds
    /// nothing of where else a copy may go: some 15 instructions an object less.
    #[inline(always)]
    fn sweep_one_way(&mut self)
        requires proposal { (worker_of self.old).proposal ≡ None }
        ensures { IsSame C.at_home self.old self.new }
    {
        while self.goes_one_way() && self.sweep_once() {}
    }
}

impl<'a, C: Cells, A: Allocator + Clone> SharingWorker<'a, C, A> {
    /// The next steps of a worker that holds a block in hand, as far as a sweep over that block goes. There may be none: what is
    /// left is left to `scavenge`. It owns the sweep, so that blocks and lists can stay in registers, and is no part of another
    /// function, which would want registers too.
    #[inline(never)]
    pub fn swept(self) -> Self
        ensures same { IsSame C.at_home self.entry result }
    {
        let mut sweep = match self.opened() {
            Ok(sweep) => sweep,
            Err(worker) => return worker,
        };
        if sweep.goes_one_way() {
            sweep.sweep_one_way();
        } else {
            sweep.sweep_on();
        }
        sweep.closed()
    }
}
