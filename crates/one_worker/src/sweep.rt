//! A collection by one worker, opened for a sweep over the block in hand.
ghost use Rattle.std.specs.Prelude.{◌≡◌, ◌≢◌, true, false, None, IsSome, IfOk, IfErr};
ghost use Rattle.workers.specs.Worker.{Nothing};
ghost use Rattle.workers.specs.WorkerSteps.{CanScan, current_slot};
ghost use Rattle.workers.specs.System.{Look, Scan};
ghost use Rattle.scavenge.specs.declared.evacuating.Evacuated.TheVariants.{Left, NoSlot, Looked, Raced};
ghost use Rattle.one_worker.specs.SerialValue.{Goes, Stays, LooksThenRaces, setting_in};

use crate::serial::SerialCollection;
use block_pool::{ClaimSeat, Claims};
use forwarding::{PlainCells, PlainPass};
use heap::{Collection, Heap};
use pending_queues::{PlainPending, PlainSeat};
use scavenge::{Copies, Evacuated, Sweep};
use std::alloc::{AllocError, Allocator, Global};
use std::marker::Model;
use std::snapshot::Snapshot;

/// The same as a `SerialCollection`, whose worker holds a block in hand and is opened for a sweep over it.
#[derive(Drop)]
pub struct SerialSweep<A: Allocator = Global> {
    heap: Snapshot<Heap<A>>,
    collection: Snapshot<Collection<A>>,
    cells: PlainCells<A>,
    pass: PlainPass,
    claims: Claims<A>,
    draws: ClaimSeat,
    queues: PlainPending<Copies<A>, A>,
    seat: PlainSeat,
    sweep: Sweep<A>,
}

impl<A: Allocator> Model for SerialSweep<A> {
    ghost use Rattle.one_worker.specs.SerialValue.{SerialValue, serial_code};
    ghost use Rattle.one_worker.specs.IsSerial.{IsSerial};

    ghost Value = { SerialValue };

    ghost coded = { serial_code };

    ghost view = { λ s. record { heap = s.heap.value; collection = s.collection.value; cells = s.cells; pass = s.pass; claims = s.claims; draws = s.draws; queues = s.queues; seat = s.seat; workspace = s.sweep } };

    ghost invariant = { λ s. IsSerial (record { heap = s.heap.value; collection = s.collection.value; cells = s.cells; pass = s.pass; claims = s.claims; draws = s.draws; queues = s.queues; seat = s.seat; workspace = s.sweep }) };
}

impl<A: Allocator> SerialCollection<A> {
    /// Reserves room for what a sweep over one block brings. An error says that memory ran out. Nothing comes.
    pub fn reserve_sweep(&mut self) -> Result<(), AllocError>
        ensures { self.new ≡ self.old }
    {
        self.workspace.reserve_sweep()
    }

    /// Opens the collection for a sweep over the block in hand. `Err` gives it back where `Workspace::opened` does.
    #[inline(always)]
    pub fn opened(self) -> Result<SerialSweep<A>, SerialCollection<A>>
        ensures ok { IfOk result (λ sweep. sweep ≡ self) }
        ensures proposal { IfOk result (λ sweep. sweep.workspace.worker.proposal ≡ None) }
        ensures err { IfErr result (λ serial. serial ≡ self) }
    {
        let SerialCollection {
            heap,
            collection,
            cells,
            pass,
            claims,
            draws,
            queues,
            seat,
            workspace,
        } = self;
        match workspace.opened() {
            Ok(sweep) => Ok(SerialSweep {
                heap,
                collection,
                cells,
                pass,
                claims,
                draws,
                queues,
                seat,
                sweep,
            }),
            Err(workspace) => Err(SerialCollection {
                heap,
                collection,
                cells,
                pass,
                claims,
                draws,
                queues,
                seat,
                workspace,
            }),
        }
    }
}

impl<A: Allocator> SerialSweep<A> {
    /// The collection after the sweep.
    #[inline(always)]
    pub fn closed(self) -> SerialCollection<A>
        ensures { result ≡ self }
    {
        let SerialSweep {
            heap,
            collection,
            cells,
            pass,
            claims,
            draws,
            queues,
            seat,
            sweep,
        } = self;
        SerialCollection {
            heap,
            collection,
            cells,
            pass,
            claims,
            draws,
            queues,
            seat,
            workspace: sweep.closed(),
        }
    }

    /// The current object is scanned, where another is unscanned behind it: tells whether it is.
    #[inline(always)]
    pub fn scan_to_next(&mut self) -> bool
        requires can { CanScan (setting_in self.old) self.old.workspace.worker }
        ensures some { result ≡ true → Goes (Scan 0) self.old self.new }
        ensures none { result ≡ false → self.new ≡ self.old }
        ensures proposal { self.new.workspace.worker.proposal ≡ None }
    {
        self.sweep.scan_to_next()
    }
}

impl<A: Allocator + Clone> SerialSweep<A> {
    /// Looks at the current slot, where no block is wanted for it, and races at once for a copy that this proposes. What it
    /// leaves is left to `SerialCollection::look`.
    #[inline(always)]
    pub fn evacuate(&mut self, heap: &Heap<A>, collection: &Collection<A>) -> Evacuated
        requires heap { heap.now ≡ self.old.heap }
        requires collection { collection.now ≡ self.old.collection }
        requires proposal { self.old.workspace.worker.proposal ≡ None }
        ensures left { result ≡ Left → Stays self.old self.new }
        ensures none { result ≡ NoSlot → Stays self.old self.new }
        ensures no_slot { result ≡ NoSlot → current_slot (setting_in self.new) self.new.workspace.worker ≡ None }
        ensures held { result ≡ NoSlot → self.new.workspace.worker.hand ≢ Nothing }
        ensures looked_slot { result ≡ Looked → IsSome (current_slot (setting_in self.old) self.old.workspace.worker) }
        ensures looked { result ≡ Looked → Goes (Look 0) self.old self.new }
        ensures raced_slot { result ≡ Raced → IsSome (current_slot (setting_in self.old) self.old.workspace.worker) }
        ensures raced { result ≡ Raced → LooksThenRaces self.old self.new }
        ensures proposal { self.new.workspace.worker.proposal ≡ None }
    {
        self.sweep
            .evacuate(heap, collection, &mut self.cells, &mut self.pass)
    }
}
