//! How a collection by one worker begins.
ghost use Rattle.std.specs.Prelude.{◌≡◌, IfOk};
ghost use Rattle.workers.specs.System.{opening};
ghost use Rattle.one_worker.specs.SerialValue.{system_of, destinations_in, targets_in};
ghost use Rattle.scavenge.specs.ReadyToCollect.{IsReadyToCollect};

use crate::serial::SerialCollection;
use block_pool::Claims;
use forwarding::PlainCells;
use heap::{Collection, Heap, Spare};
use pending_queues::PlainPending;
use scavenge::{CopiesKey, Workspace};
use std::alloc::{AllocError, Allocator};
use std::snapshot::Snapshot;

impl<A: Allocator + Clone> SerialCollection<A> {
    /// The collection before its first event, which takes the spare memory before it asks for more. An error says that memory
    /// ran out.
    pub fn new(
        alloc: A,
        heap: &Heap<A>,
        collection: &Collection<A>,
        mut spare: Spare<A>,
    ) -> Result<Self, AllocError>
        requires { IsReadyToCollect heap.now collection.now }
        ensures heap { IfOk result (λ s. s.heap ≡ heap.now) }
        ensures collection { IfOk result (λ s. s.collection ≡ collection.now) }
        ensures first { IfOk result (λ s. system_of s ≡ opening (destinations_in s) 1 (targets_in s) s.heap.free) }
    {
        let free = collection.free().share()?;
        let (claims, draws) = Claims::alone(alloc.clone()?, free)?;
        let memory = spare.cells(alloc.clone()?);
        let (cells, pass) = PlainCells::alone_within(alloc.clone()?, memory, collection.cells())?;
        let key = CopiesKey::new(heap, collection.generation());
        let (queues, seat) = PlainPending::alone(alloc.clone()?, &key)?;
        let mut workspace = Workspace::new(alloc, heap, collection, 0, 1)?;
        workspace.supply(spare);
        Ok(SerialCollection {
            heap: Snapshot::of(heap),
            collection: Snapshot::of(collection),
            cells,
            pass,
            claims,
            draws,
            queues,
            seat,
            workspace,
        })
    }
}
