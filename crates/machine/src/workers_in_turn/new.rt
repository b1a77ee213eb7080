//! How a collection by several workers begins.
ghost use Rattle.std.specs.Prelude.{◌≡◌, ◌<◌, ◌≤◌, IfOk};
ghost use Rattle.std.specs.List.{range_with_len};
ghost use Rattle.workers.specs.System.{opening};
ghost use Rattle.scavenge.specs.ReadyToCollect.{IsReadyToCollect};
ghost use Rattle.machine.specs.InterleavedValue.{system_of, destinations_in, targets_in};
ghost use Rattle.machine.specs.IsInterleaved.{AreFirst};

use crate::workers_in_turn::interleaved::InterleavedCollection;
use crate::workers_in_turn::member::Member;
use block_pool::Claims;
use forwarding::PlainCells;
use heap::{Collection, Heap};
use pending_queues::{PlainPending, PlainSeat};
use scavenge::{CopiesKey, Workspace};
use std::alloc::{AllocError, Allocator};
use std::snapshot::Snapshot;

/// The workers before their first event, one for each seat.
fn first_members<A: Allocator + Clone>(
    alloc: A,
    heap: &Heap<A>,
    collection: &Collection<A>,
    seats: Vec<PlainSeat, A>,
    n: u32,
) -> Result<Vec<Member<A>, A>, AllocError>
    requires seats { seats.items ≡ range_with_len 0 n }
    requires few { n < 65536 }
    ensures { IfOk result (λ members. AreFirst heap.now collection.now n members.items) }
{
    let mut members = Vec::new(alloc.clone()?);
    for seat in seats {
        let t = seat.index();
        let workspace = Workspace::new(alloc.clone()?, heap, collection, t, n)?;
        let taken = Vec::new(alloc.clone()?);
        members.push(Member {
            seat,
            workspace,
            taken,
            idle: false,
            ended: false,
        })?;
    }
    Ok(members)
}

impl<A: Allocator + Clone> InterleavedCollection<A> {
    /// The collection by `n` workers before its first event. An error says that memory ran out.
    pub fn new(
        alloc: A,
        heap: &Heap<A>,
        collection: &Collection<A>,
        n: u32,
    ) -> Result<Self, AllocError>
        requires ready { IsReadyToCollect heap.now collection.now }
        requires some { 0 < n }
        requires most { n ≤ 16 }
        ensures heap { IfOk result (λ m. m.heap ≡ heap.now) }
        ensures collection { IfOk result (λ m. m.collection ≡ collection.now) }
        ensures workers { IfOk result (λ m. m.workers ≡ n) }
        ensures first { IfOk result (λ m. system_of m ≡ opening (destinations_in m) n (targets_in m) m.heap.free) }
    {
        let free = collection.free().share()?;
        let (claims, draws) = Claims::alone(alloc.clone()?, free)?;
        let (cells, pass) = PlainCells::alone(alloc.clone()?, collection.cells())?;
        let key = CopiesKey::new(heap, collection.generation());
        let (queues, seats) = PlainPending::new(alloc.clone()?, n, &key)?;
        let members = first_members(alloc, heap, collection, seats, n)?;
        Ok(InterleavedCollection {
            heap: Snapshot::of(heap),
            collection: Snapshot::of(collection),
            cells,
            pass,
            claims,
            draws,
            queues,
            workers: n,
            idlers: 0,
            members,
        })
    }
}
