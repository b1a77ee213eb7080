//! The parts of a collection by one worker.
ghost use Rattle.std.specs.Prelude.{◌≡◌};
ghost use Rattle.one_worker.specs.IsSerial.{IsSerial};

use crate::serial::SerialCollection;
use forwarding::{PlainCells, PlainPass};
use pending_queues::{PlainPending, PlainSeat};
use scavenge::{Copies, Workspace};
use std::alloc::{Allocator, Global};

/// The cells and what the worker knows of them, its queue, and its own part.
#[derive(Drop)]
pub struct SerialParts<A: Allocator = Global> {
    /// The forwarding cells, which hold the places that the worker won.
    pub cells: PlainCells<A>,
    /// What the worker knows of the cells and has won, for contracts alone.
    pub pass: PlainPass,
    /// The one queue, to which the worker exported its blocks.
    pub queues: PlainPending<Copies<A>, A>,
    /// The worker's seat at the queue.
    pub seat: PlainSeat,
    /// The worker's own part: its blocks, its lists and what it has in hand.
    pub workspace: Workspace<A>,
}

impl<A: Allocator> SerialCollection<A> {
    /// Takes the collection apart.
    pub fn into_parts(self) -> SerialParts<A>
        ensures serial { IsSerial self }
        ensures cells { result.cells ≡ self.cells }
        ensures pass { result.pass ≡ self.pass }
        ensures queues { result.queues ≡ self.queues }
        ensures seat { result.seat ≡ self.seat }
        ensures workspace { result.workspace ≡ self.workspace }
    {
        let SerialCollection {
            heap: _,
            collection: _,
            cells,
            pass,
            claims: _,
            draws: _,
            queues,
            seat,
            workspace,
        } = self;
        SerialParts {
            cells,
            pass,
            queues,
            seat,
            workspace,
        }
    }
}
