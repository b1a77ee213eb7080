//! The parts of a collection by several workers.
ghost use Rattle.std.specs.Prelude.{◌≡◌};
ghost use Rattle.machine.specs.IsInterleaved.{IsInterleaved};

use crate::workers_in_turn::interleaved::InterleavedCollection;
use crate::workers_in_turn::member::Member;
use forwarding::{PlainCells, PlainPass};
use pending_queues::{PlainPending, PlainSeat};
use scavenge::{Copies, Workspace};
use std::alloc::{Allocator, Global};

/// The cells and what is known of them, the queues, and each worker.
#[derive(Drop)]
pub struct InterleavedParts<A: Allocator = Global> {
    /// The forwarding cells that all workers share.
    pub cells: PlainCells<A>,
    /// What is known of the cells and was won, one pass for all workers.
    pub pass: PlainPass,
    /// The queues of exported blocks, one for each worker.
    pub queues: PlainPending<Copies<A>, A>,
    /// The workers, in the order of their numbers.
    pub members: Vec<Member<A>, A>,
}

impl<A: Allocator> InterleavedCollection<A> {
    /// Takes the collection apart.
    pub fn into_parts(self) -> InterleavedParts<A>
        ensures interleaved { IsInterleaved self }
        ensures cells { result.cells ≡ self.cells }
        ensures pass { result.pass ≡ self.pass }
        ensures queues { result.queues ≡ self.queues }
        ensures members { result.members.items ≡ self.members }
    {
        let InterleavedCollection {
            heap: _,
            collection: _,
            cells,
            pass,
            claims: _,
            draws: _,
            queues,
            workers: _,
            idlers: _,
            members,
        } = self;
        InterleavedParts {
            cells,
            pass,
            queues,
            members,
        }
    }
}

impl<A: Allocator> Member<A> {
    /// Its seat at the queues, and its own part.
    pub fn into_parts(self) -> (PlainSeat, Workspace<A>)
        ensures seat { result.0 ≡ self.seat }
        ensures workspace { result.1 ≡ self.workspace }
    {
        let Member {
            seat,
            workspace,
            taken: _,
            idle: _,
            ended: _,
        } = self;
        (seat, workspace)
    }
}
