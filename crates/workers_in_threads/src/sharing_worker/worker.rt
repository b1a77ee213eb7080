//! What one worker among several has, and what it shares.
ghost use Rattle.std.specs.Prelude.{◌≡◌, ◌<◌, ◌≤◌, []};
ghost use Rattle.block_pool.specs.ClaimsValue.{unused};
ghost use Rattle.pending_queues.specs.PendingValue.{IsSeatOf, new_seat};
ghost use Rattle.workers_in_threads.specs.Kits.{IsShared, IsNewWorkspace};
ghost use Rattle.workers_in_threads.specs.IsSharing.{IsSharing};

use block_pool::{ClaimSeat, Claims};
use forwarding::Cells;
use heap::{Collection, Heap};
use pending_queues::{PendingSeat, RuledPending};
use scavenge::{Copies, Workspace};
use std::alloc::{Allocator, Global};
use std::marker::Model;

/// One worker of several. It reads the heap, and shares cells, draws and queues with the others.
pub struct SharingWorker<'a, C: Cells, A: Allocator = Global> {
    pub(crate) heap: &'a Heap<A>,
    pub(crate) collection: &'a Collection<A>,
    pub(crate) claims: &'a Claims<A>,
    pub(crate) queues: &'a RuledPending<Copies<A>, A>,
    pub(crate) cells: C,
    pub(crate) pass: C::Pass,
    pub(crate) seat: PendingSeat<Copies<A>, A>,
    pub(crate) workers: u32,
    pub(crate) draws: ClaimSeat,
    pub(crate) workspace: Workspace<A>,
}

impl<'a, C: Cells, A: Allocator> Model for SharingWorker<'a, C, A> {
    ghost use Rattle.workers_in_threads.specs.SharingValue.{SharingValue};
    ghost use Rattle.workers_in_threads.specs.SharingCode.{sharing_code};
    ghost use Rattle.workers_in_threads.specs.IsSharing.{IsSharing};

    ghost Value = { SharingValue C C.Pass A };

    ghost coded = { sharing_code C.code C.Pass.code A.code };

    ghost view = { λ s. record { heap = s.heap.now; collection = s.collection.now; claims = s.claims.now; queues = s.queues.now; workers = s.workers; cells = s.cells; pass = s.pass; draws = s.draws; seat = s.seat; workspace = s.workspace } };

    ghost invariant = { λ s. IsSharing C.fits C.limit C.known C.won (record { heap = s.heap.now; collection = s.collection.now; claims = s.claims.now; queues = s.queues.now; workers = s.workers; cells = s.cells; pass = s.pass; draws = s.draws; seat = s.seat; workspace = s.workspace }) };
}

/// What a worker has that it doesn't share.
pub struct SharingParts<C, P, A: Allocator = Global> {
    /// The cells as they were lent to it.
    pub cells: C,
    /// What it knows of the cells and has won.
    pub pass: P,
    /// Its seat at the draws, with the free blocks that it drew.
    pub draws: ClaimSeat,
    /// Its seat at the queues, with what it exported and took.
    pub seat: PendingSeat<Copies<A>, A>,
    /// Its own part: its blocks, its lists and what it has in hand.
    pub workspace: Workspace<A>,
}

impl<'a, C: Cells, A: Allocator> SharingWorker<'a, C, A> {
    /// A worker before its first step, with its own pass, seats and part.
    pub fn new(
        heap: &'a Heap<A>,
        collection: &'a Collection<A>,
        claims: &'a Claims<A>,
        queues: &'a RuledPending<Copies<A>, A>,
        workers: u32,
        cells: C,
        pass: C::Pass,
        draws: ClaimSeat,
        seat: PendingSeat<Copies<A>, A>,
        workspace: Workspace<A>,
    ) -> Self
        requires shared { IsShared heap.now collection.now claims.now queues.now workers }
        requires member { seat.index < workers }
        requires pass { C.fits cells pass × (C.won pass ≡ []) }
        requires cells { collection.now.cells ≤ C.limit cells }
        requires draws { draws ≡ unused claims.now.source }
        requires seat { seat ≡ new_seat queues.now seat.index }
        requires workspace { IsNewWorkspace heap.now collection.now workers seat.index workspace }
        ensures { result ≡ record {
          heap = heap.now;
          collection = collection.now;
          claims = claims.now;
          queues = queues.now;
          workers = workers;
          cells = cells;
          pass = pass;
          draws = draws;
          seat = seat;
          workspace = workspace;
        } }
    {
        SharingWorker {
            heap,
            collection,
            claims,
            queues,
            workers,
            cells,
            pass,
            draws,
            seat,
            workspace,
        }
    }

    /// Takes the worker apart.
    pub fn into_parts(self) -> SharingParts<C, C::Pass, A>
        ensures sharing { IsSharing C.fits C.limit C.known C.won self.entry }
        ensures pass { result.pass ≡ self.entry.pass }
        ensures draws { result.draws ≡ self.entry.draws }
        ensures seat { result.seat ≡ self.entry.seat }
        ensures workspace { result.workspace ≡ self.entry.workspace }
    {
        let SharingWorker {
            heap: _,
            collection: _,
            claims: _,
            queues: _,
            workers: _,
            cells,
            pass,
            draws,
            seat,
            workspace,
        } = self;
        SharingParts {
            cells,
            pass,
            draws,
            seat,
            workspace,
        }
    }
}
