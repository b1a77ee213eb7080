//! What a worker looks at, and races for.
ghost use Rattle.std.specs.Prelude.{◌≡◌, true, Err, OnOk, OnErr};
ghost use Rattle.workers.specs.System.{Look, Race};
ghost use Rattle.workers.specs.Lawful.{IsLawful, IsRefused};
ghost use Rattle.machine.specs.InterleavedValue.{Goes, Stays, WantsDraw, setting_in, system_of};

use crate::workers_in_turn::interleaved::InterleavedCollection;
use heap::{Collection, Heap};
use scavenge::LookError;
use std::alloc::{AllocError, Allocator};

impl<A: Allocator + Clone> InterleavedCollection<A> {
    /// Worker `t` looks at its current slot. An error says that a block was wanted and all were drawn, or that memory ran
    /// out; nothing came then.
    pub fn look(
        &mut self,
        t: u32,
        alloc: A,
        heap: &Heap<A>,
        collection: &Collection<A>,
    ) -> Result<(), LookError>
        requires heap { heap.now ≡ self.old.heap }
        requires collection { collection.now ≡ self.old.collection }
        requires lawful { IsLawful (setting_in self.old) (system_of self.old) (Look t) }
        ensures ok { OnOk result (Goes (Look t) self.old self.new) }
        ensures full { result ≡ Err LookError.HeapFull → WantsDraw self.old t × (self.new.draws.out ≡ true) }
        ensures refused { result ≡ Err LookError.HeapFull →
            IsRefused (setting_in self.old) (system_of self.old) (Look t) }
        ensures err { OnErr result (Stays self.old self.new) }
    {
        if let Err(error) = scavenge::look(
            &mut self.members[t as usize].workspace,
            alloc,
            heap,
            collection,
            &mut self.cells,
            &mut self.pass,
            &self.claims,
            &mut self.draws,
        ) {
            return Err(error);
        }
        Ok(())
    }

    /// Worker `t` races for what it proposes. An error says that memory ran out; nothing came then.
    pub fn race(
        &mut self,
        t: u32,
        heap: &Heap<A>,
        collection: &Collection<A>,
    ) -> Result<(), AllocError>
        requires heap { heap.now ≡ self.old.heap }
        requires collection { collection.now ≡ self.old.collection }
        requires lawful { IsLawful (setting_in self.old) (system_of self.old) (Race t) }
        ensures ok { OnOk result (Goes (Race t) self.old self.new) }
        ensures err { OnErr result (Stays self.old self.new) }
    {
        scavenge::race(
            &mut self.members[t as usize].workspace,
            heap,
            collection,
            &mut self.cells,
            &mut self.pass,
        )
    }
}
