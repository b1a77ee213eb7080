//! A worker among several, opened for a sweep over the block in hand.
ghost use Rattle.std.specs.Prelude.{◌≡◌, ◌≢◌, ◌<◌, ◌⊎◌, ℕ, true, false, None, IfOk, IfErr};
ghost use Rattle.workers.specs.Worker.{Nothing};
ghost use Rattle.workers.specs.WorkerSteps.{CanScan, current_slot};
ghost use Rattle.workers.specs.WorkerRun.{Scanned};
ghost use Rattle.scavenge.specs.declared.evacuating.Evacuated.TheVariants.{Left, NoSlot, Looked, Raced};
ghost use Rattle.scavenge.specs.Cursors.{AllGo};
ghost use Rattle.scavenge.specs.Swept.{left_in_hand};
ghost use Rattle.workers_in_threads.specs.SharingValue.{setting_in, worker_of};
ghost use Rattle.workers_in_threads.specs.Sharing.{IsSame, Acts};

use crate::sharing_worker::worker::SharingWorker;
use block_pool::{ClaimSeat, Claims};
use forwarding::Cells;
use heap::{Collection, Heap};
use pending_queues::{PendingSeat, RuledPending};
use scavenge::{Copies, Evacuated, Sweep};
use std::alloc::{AllocError, Allocator, Global};
use std::marker::Model;

/// The same as a `SharingWorker`, which holds a block in hand and is opened for a sweep over it.
pub struct SharingSweep<'a, C: Cells, A: Allocator = Global> {
    heap: &'a Heap<A>,
    collection: &'a Collection<A>,
    claims: &'a Claims<A>,
    queues: &'a RuledPending<Copies<A>, A>,
    cells: C,
    pass: C::Pass,
    seat: PendingSeat<Copies<A>, A>,
    workers: u32,
    draws: ClaimSeat,
    sweep: Sweep<A>,
}

impl<'a, C: Cells, A: Allocator> Model for SharingSweep<'a, C, A> {
    ghost use Rattle.workers_in_threads.specs.SharingValue.{SharingValue};
    ghost use Rattle.workers_in_threads.specs.SharingCode.{sharing_code};
    ghost use Rattle.workers_in_threads.specs.IsSharing.{IsSharing};

    ghost Value = { SharingValue C C.Pass A };

    ghost coded = { sharing_code C.code C.Pass.code A.code };

    ghost view = { λ s. record { heap = s.heap.now; collection = s.collection.now; claims = s.claims.now; queues = s.queues.now; workers = s.workers; cells = s.cells; pass = s.pass; draws = s.draws; seat = s.seat; workspace = s.sweep } };

    ghost invariant = { λ s. IsSharing C.fits C.limit C.known C.won (record { heap = s.heap.now; collection = s.collection.now; claims = s.claims.now; queues = s.queues.now; workers = s.workers; cells = s.cells; pass = s.pass; draws = s.draws; seat = s.seat; workspace = s.sweep }) };
}

impl<'a, C: Cells, A: Allocator> SharingWorker<'a, C, A> {
    /// Reserves room for what a sweep over one block brings. An error says that memory ran out. Nothing comes.
    pub fn reserve_sweep(&mut self) -> Result<(), AllocError>
        ensures { self.new ≡ self.old }
    {
        self.workspace.reserve_sweep()
    }

    /// Opens the worker for a sweep over the block in hand. `Err` gives it back where `Workspace::opened` does.
    #[inline(always)]
    pub fn opened(self) -> Result<SharingSweep<'a, C, A>, SharingWorker<'a, C, A>>
        ensures ok { IfOk result (λ sweep. sweep ≡ self.entry) }
        ensures proposal { IfOk result (λ sweep. (worker_of sweep).proposal ≡ None) }
        ensures err { IfErr result (λ worker. worker ≡ self.entry) }
    {
        let SharingWorker {
            heap,
            collection,
            claims,
            queues,
            workers,
            cells,
            pass,
            draws,
            seat,
            workspace,
        } = self;
        match workspace.opened() {
            Ok(sweep) => Ok(SharingSweep {
                heap,
                collection,
                claims,
                queues,
                workers,
                cells,
                pass,
                draws,
                seat,
                sweep,
            }),
            Err(workspace) => Err(SharingWorker {
                heap,
                collection,
                claims,
                queues,
                workers,
                cells,
                pass,
                draws,
                seat,
                workspace,
            }),
        }
    }
}

impl<'a, C: Cells, A: Allocator> SharingSweep<'a, C, A> {
    /// The worker after the sweep.
    #[inline(always)]
    pub fn closed(self) -> SharingWorker<'a, C, A>
        ensures { result ≡ self.entry }
    {
        let SharingSweep {
            heap,
            collection,
            claims,
            queues,
            workers,
            cells,
            pass,
            draws,
            seat,
            sweep,
        } = self;
        SharingWorker {
            heap,
            collection,
            claims,
            queues,
            workers,
            cells,
            pass,
            draws,
            seat,
            workspace: sweep.closed(),
        }
    }

    /// Whether it is known that small objects go to one destination, wherever they stand.
    #[inline(always)]
    pub fn goes_one_way(&self) -> bool
        ensures { result ≡ true → (d : ℕ) × AllGo self.now.workspace.config.shape d }
    {
        self.sweep.goes_one_way()
    }

    /// The current object is scanned, where another is unscanned behind it: tells whether it is.
    #[inline(always)]
    pub fn scan_to_next(&mut self) -> bool
        requires can { CanScan (setting_in self.old) (worker_of self.old) }
        ensures same { IsSame C.at_home self.old self.new }
        ensures some { result ≡ true → Acts Scanned self.old self.new }
        ensures none { result ≡ false → self.new ≡ self.old }
        ensures less { result ≡ true → left_in_hand (worker_of self.new) < left_in_hand (worker_of self.old) }
        ensures proposal { (worker_of self.new).proposal ≡ None }
    {
        self.sweep.scan_to_next()
    }
}

impl<'a, C: Cells, A: Allocator + Clone> SharingSweep<'a, C, A> {
    /// Looks at the current slot, where no block is wanted for it, and races at once for a copy that this proposes. What it
    /// leaves is left to `SharingWorker::look`.
    #[inline(always)]
    pub fn evacuate(&mut self) -> Evacuated
        requires proposal { self.old.workspace.worker.proposal ≡ None }
        ensures same { IsSame C.at_home self.old self.new }
        ensures left { result ≡ Left → self.new.workspace ≡ self.old.workspace }
        ensures none { result ≡ NoSlot → self.new.workspace ≡ self.old.workspace }
        ensures no_slot { result ≡ NoSlot → current_slot (setting_in self.old) (worker_of self.old) ≡ None }
        ensures held { result ≡ NoSlot → (worker_of self.old).hand ≢ Nothing }
        ensures less { (result ≡ Looked) ⊎ (result ≡ Raced) →
            left_in_hand (worker_of self.new) < left_in_hand (worker_of self.old) }
        ensures proposal { (worker_of self.new).proposal ≡ None }
    {
        self.sweep.evacuate(self.heap, self.collection, &mut self.cells, &mut self.pass)
    }
}
