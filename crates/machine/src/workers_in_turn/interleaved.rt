//! What a collection by several workers has.
use crate::workers_in_turn::member::Member;
use block_pool::{ClaimSeat, Claims};
use forwarding::{PlainCells, PlainPass};
use heap::{Collection, Heap};
use pending_queues::PlainPending;
use scavenge::Copies;
use std::alloc::{Allocator, Global};
use std::marker::Model;
use std::snapshot::Snapshot;

/// Workers, and the cells, the draws and the queues that they share. They take turns on one thread, so one pass and one
/// right to draw serve them all, and remember in which order things were won and drawn.
#[derive(Drop)]
pub struct InterleavedCollection<A: Allocator = Global> {
    /// The heap and the collection of it, remembered without a byte.
    pub(crate) heap: Snapshot<Heap<A>>,
    pub(crate) collection: Snapshot<Collection<A>>,
    pub(crate) cells: PlainCells<A>,
    pub(crate) pass: PlainPass,
    pub(crate) claims: Claims<A>,
    pub(crate) draws: ClaimSeat,
    pub(crate) queues: PlainPending<Copies<A>, A>,
    pub(crate) workers: u32,
    pub(crate) idlers: u32,
    pub(crate) members: Vec<Member<A>, A>,
}

impl<A: Allocator> Model for InterleavedCollection<A> {
    ghost use Rattle.machine.specs.InterleavedValue.{InterleavedValue, interleaved_code};
    ghost use Rattle.machine.specs.IsInterleaved.{IsInterleaved};

    ghost Value = { InterleavedValue };

    ghost coded = { interleaved_code };

    ghost view = { λ s. record { heap = s.heap.value; collection = s.collection.value; cells = s.cells; pass = s.pass; claims = s.claims; draws = s.draws; queues = s.queues; workers = s.workers; idlers = s.idlers; members = s.members.items } };

    ghost invariant = { λ s. IsInterleaved (record { heap = s.heap.value; collection = s.collection.value; cells = s.cells; pass = s.pass; claims = s.claims; draws = s.draws; queues = s.queues; workers = s.workers; idlers = s.idlers; members = s.members.items }) };
}
