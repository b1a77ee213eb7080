//! What the worker looks at, and races for.
ghost use Rattle.std.specs.Prelude.{◌≡◌, ◌↔◌, true, false, None, Ok, Err, IsSome, OnOk, OnErr};
ghost use Rattle.workers.specs.WorkerSteps.{current_slot};
ghost use Rattle.workers.specs.System.{Look, Race};
ghost use Rattle.scavenge.specs.declared.evacuating.Evacuated.TheVariants.{Left, NoSlot, Looked, Raced};
ghost use Rattle.one_worker.specs.SerialValue.{Goes, Stays, IsUncopied, LooksThenRaces, WantsDraw, setting_in};

use crate::serial::SerialCollection;
use heap::{Collection, Heap};
use scavenge::{Evacuated, LookError};
use std::alloc::{AllocError, Allocator};

impl<A: Allocator + Clone> SerialCollection<A> {
    /// Looks at the current slot, where there is one: `false` says that there is none, and then nothing changes. An error
    /// says that a block was wanted and all were drawn, or that memory ran out; nothing came then.
    pub fn look(
        &mut self,
        alloc: A,
        heap: &Heap<A>,
        collection: &Collection<A>,
    ) -> Result<bool, LookError>
        requires heap { heap.now ≡ self.old.heap }
        requires collection { collection.now ≡ self.old.collection }
        requires proposal { self.old.workspace.worker.proposal ≡ None }
        ensures none { (result ≡ Ok false) ↔ (current_slot (setting_in self.old) self.old.workspace.worker ≡ None) }
        ensures nothing { result ≡ Ok false → self.new ≡ self.old }
        ensures ok { result ≡ Ok true → Goes (Look 0) self.old self.new }
        ensures full { result ≡ Err LookError.HeapFull → WantsDraw self.old × (self.new.draws.out ≡ true) }
        ensures err { OnErr result (Stays self.old self.new) }
    {
        scavenge::look(
            &mut self.workspace,
            alloc,
            heap,
            collection,
            &mut self.cells,
            &mut self.pass,
            &self.claims,
            &mut self.draws,
        )
    }

    /// Races for what is proposed. An error says that memory ran out; nothing came then.
    pub fn race(&mut self, heap: &Heap<A>, collection: &Collection<A>) -> Result<(), AllocError>
        requires heap { heap.now ≡ self.old.heap }
        requires collection { collection.now ≡ self.old.collection }
        requires proposal { IsSome self.old.workspace.worker.proposal }
        ensures ok { OnOk result (Goes (Race 0) self.old self.new) }
        ensures err { OnErr result (Stays self.old self.new) }
    {
        scavenge::race(
            &mut self.workspace,
            heap,
            collection,
            &mut self.cells,
            &mut self.pass,
        )
    }

    /// Looks at the current slot, where no block is wanted for it, and races at once for a copy that this proposes. What it
    /// leaves is left to `look`.
    #[inline(always)]
    pub fn evacuate(&mut self, heap: &Heap<A>, collection: &Collection<A>) -> Evacuated
        requires heap { heap.now ≡ self.old.heap }
        requires collection { collection.now ≡ self.old.collection }
        requires proposal { self.old.workspace.worker.proposal ≡ None }
        ensures left { result ≡ Left → Stays self.old self.new }
        ensures left_why { result ≡ Left → IsUncopied self.old }
        ensures none { result ≡ NoSlot → Stays self.old self.new }
        ensures no_slot { result ≡ NoSlot → current_slot (setting_in self.new) self.new.workspace.worker ≡ None }
        ensures looked_slot { result ≡ Looked → IsSome (current_slot (setting_in self.old) self.old.workspace.worker) }
        ensures looked { result ≡ Looked → Goes (Look 0) self.old self.new }
        ensures raced_slot { result ≡ Raced → IsSome (current_slot (setting_in self.old) self.old.workspace.worker) }
        ensures raced { result ≡ Raced → LooksThenRaces self.old self.new }
    {
        scavenge::evacuate(
            &mut self.workspace,
            heap,
            collection,
            &mut self.cells,
            &mut self.pass,
        )
    }
}
