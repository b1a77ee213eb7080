//! What a collection by one worker has.
use block_pool::{ClaimSeat, Claims};
use forwarding::{PlainCells, PlainPass};
use heap::{Collection, Heap};
use pending_queues::{PlainPending, PlainSeat};
use scavenge::{Copies, Workspace};
use std::alloc::{Allocator, Global};
use std::marker::Model;
use std::snapshot::Snapshot;

/// A worker, and the cells, the draws and the queue that it alone uses.
#[derive(Drop)]
pub struct SerialCollection<A: Allocator = Global> {
    /// The heap and the collection of it, remembered without a byte.
    pub(crate) heap: Snapshot<Heap<A>>,
    pub(crate) collection: Snapshot<Collection<A>>,
    pub(crate) cells: PlainCells<A>,
    pub(crate) pass: PlainPass,
    pub(crate) claims: Claims<A>,
    pub(crate) draws: ClaimSeat,
    pub(crate) queues: PlainPending<Copies<A>, A>,
    pub(crate) seat: PlainSeat,
    pub(crate) workspace: Workspace<A>,
}

impl<A: Allocator> Model for SerialCollection<A> {
    ghost use Rattle.one_worker.specs.SerialValue.{SerialValue, serial_code};
    ghost use Rattle.one_worker.specs.IsSerial.{IsSerial};

    ghost Value = { SerialValue };

    ghost coded = { serial_code };

    ghost view = { λ s. record { heap = s.heap.value; collection = s.collection.value; cells = s.cells; pass = s.pass; claims = s.claims; draws = s.draws; queues = s.queues; seat = s.seat; workspace = s.workspace } };

    ghost invariant = { λ s. IsSerial (record { heap = s.heap.value; collection = s.collection.value; cells = s.cells; pass = s.pass; claims = s.claims; draws = s.draws; queues = s.queues; seat = s.seat; workspace = s.workspace }) };
}
