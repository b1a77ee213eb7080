//! How a machine's collection ends.
ghost use Rattle.std.specs.Prelude.{◌≡◌, ◌↔◌, Err, IfOk, OnOk};
ghost use Rattle.workers.specs.Lawful.{AllEnded};
ghost use Rattle.machine.specs.MachineValue.{HasReached};
ghost use Rattle.machine.specs.Settles.{Settles};

use crate::interleaved_settling::{SettleError, settle};
use crate::machine::Machine;
use heap::Settled;
use std::alloc::Allocator;

impl<'a, A: Allocator + Clone> Machine<'a, A> {
    /// What the workers bring to the commit of their collection. An error says that some worker hasn't ended, or that
    /// memory ran out.
    pub fn settle(self) -> Result<Settled<A>, SettleError>
        ensures ended { (result ≡ Err SettleError.NotEnded) ↔ ¬ AllEnded self.entry.system }
        ensures ok { IfOk result
            (λ s. Settles self.entry s.collection s.places s.blocks.items s.workers.items s.deliveries.items) }
        // What holds of every machine.
        ensures reached { OnOk result (HasReached self.entry) }
    {
        settle(self.alloc, self.heap, self.collection, self.workers)
    }
}
