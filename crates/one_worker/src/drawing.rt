//! What was drawn in all.
ghost use Rattle.std.specs.Prelude.{◌≡◌, [], true, OnOk};
ghost use Rattle.one_worker.specs.SerialValue.{system_of};

use crate::serial::SerialCollection;
use std::alloc::{AllocError, Allocator};

impl<A: Allocator> SerialCollection<A> {
    /// Ends the collection after a draw that found no block, and counts what was drawn: no free block is left. An error says
    /// that memory ran out.
    pub fn count_drawn(self, alloc: A) -> Result<(), AllocError>
        requires { self.draws.out ≡ true }
        ensures { OnOk result ((system_of self).free ≡ []) }
    {
        let SerialCollection {
            heap: _,
            collection: _,
            cells: _,
            pass: _,
            claims,
            draws,
            queues: _,
            seat: _,
            workspace: _,
        } = self;
        let mut seats = Vec::with_capacity(alloc, 1)?;
        seats.push_reserved(draws);
        let _ = claims.close(seats);
        Ok(())
    }
}
