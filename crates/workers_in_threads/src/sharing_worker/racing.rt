//! What the worker looks at, and races for.
ghost use Rattle.std.specs.Prelude.{◌≡◌, ◌↔◌, true, false, None, Ok, Err, IsSome, OnOk, OnErr};
ghost use Rattle.workers.specs.WorkerSteps.{current_slot};
ghost use Rattle.scavenge.specs.declared.evacuating.Evacuated.TheVariants.{Left, NoSlot};
ghost use Rattle.workers_in_threads.specs.SharingValue.{setting_in, worker_of};
ghost use Rattle.workers_in_threads.specs.Sharing.{IsSame, Looks, Races, IsRefusedBlock};

use crate::sharing_worker::worker::SharingWorker;
use forwarding::Cells;
use scavenge::{Evacuated, LookError};
use std::alloc::{AllocError, Allocator};

impl<'a, C: Cells, A: Allocator + Clone> SharingWorker<'a, C, A> {
    /// Looks at the current slot, where there is one: `false` says that there is none, and then nothing changes. An error
    /// says that a block was wanted and all were drawn, or that memory ran out; the worker is as before.
    pub fn look(&mut self, alloc: A) -> Result<bool, LookError>
        requires proposal { self.old.workspace.worker.proposal ≡ None }
        ensures same { IsSame C.at_home self.old self.new }
        ensures none { (result ≡ Ok false) ↔ (current_slot (setting_in self.old) (worker_of self.old) ≡ None) }
        ensures nothing { result ≡ Ok false → self.new ≡ self.old }
        ensures ok { result ≡ Ok true → Looks self.old self.new }
        ensures full { result ≡ Err LookError.HeapFull → IsRefusedBlock self.new }
        ensures err { OnErr result (worker_of self.new ≡ worker_of self.old) }
    {
        scavenge::look(
            &mut self.workspace,
            alloc,
            self.heap,
            self.collection,
            &mut self.cells,
            &mut self.pass,
            self.claims,
            &mut self.draws,
        )
    }

    /// Races for what is proposed. An error says that memory ran out; nothing came then.
    pub fn race(&mut self) -> Result<(), AllocError>
        requires proposal { IsSome self.old.workspace.worker.proposal }
        ensures same { IsSame C.at_home self.old self.new }
        ensures ok { OnOk result (Races self.old self.new) }
        ensures err { OnErr result (worker_of self.new ≡ worker_of self.old) }
    {
        scavenge::race(
            &mut self.workspace,
            self.heap,
            self.collection,
            &mut self.cells,
            &mut self.pass,
        )
    }

    /// Looks at the current slot, where no block is wanted for it, and races at once for a copy that this proposes. What it
    /// leaves is left to `look`.
    #[inline(always)]
    pub fn evacuate(&mut self) -> Evacuated
        requires proposal { self.old.workspace.worker.proposal ≡ None }
        ensures same { IsSame C.at_home self.old self.new }
        ensures left { result ≡ Left → self.new.workspace ≡ self.old.workspace }
        ensures none { result ≡ NoSlot → self.new.workspace ≡ self.old.workspace }
        ensures no_slot { result ≡ NoSlot → current_slot (setting_in self.old) (worker_of self.old) ≡ None }
    {
        scavenge::evacuate(
            &mut self.workspace,
            self.heap,
            self.collection,
            &mut self.cells,
            &mut self.pass,
        )
    }
}
