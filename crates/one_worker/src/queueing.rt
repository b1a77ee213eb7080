//! The worker's queue.
ghost use Rattle.std.specs.Prelude.{◌≡◌, ◌≢◌, ◌↔◌, [], IsTrue, OnOk, OnErr};
ghost use Rattle.workers.specs.WorkerSteps.{IsFree};
ghost use Rattle.workers.specs.System.{Export, Take};
ghost use Rattle.one_worker.specs.SerialValue.{Goes, Stays, lane_of};
ghost use Rattle.scavenge.specs.Waiting.{waiting_in};

use crate::serial::SerialCollection;
use std::alloc::{AllocError, Allocator};

impl<A: Allocator> SerialCollection<A> {
    /// Whether a block waits in the queue.
    pub fn has_queued(&self) -> bool
        ensures { IsTrue result ↔ (waiting_in (lane_of self.now) ≢ []) }
    {
        self.queues.maybe(0)
    }

    /// Exports the oldest block aside. An error says that memory ran out; nothing came then.
    pub fn export(&mut self) -> Result<(), AllocError>
        requires { self.old.workspace.worker.aside ≢ [] }
        ensures ok { OnOk result (Goes (Export 0) self.old self.new) }
        ensures err { OnErr result (Stays self.old self.new) }
    {
        let Some(block) = self.workspace.aside() else {
            unreachable!();
        };
        match self.queues.export(&mut self.seat, block) {
            Ok(()) => Ok(()),
            Err((block, error)) => {
                self.workspace.unaside(block);
                Err(error)
            }
        }
    }

    /// Takes the block that was exported first in hand. An error says that memory ran out; nothing came then.
    pub fn take(&mut self) -> Result<(), AllocError>
        requires free { IsFree self.old.workspace.worker }
        requires work { waiting_in (lane_of self.old) ≢ [] }
        ensures ok { OnOk result (Goes (Take 0 0) self.old self.new) }
        ensures err { OnErr result (Stays self.old self.new) }
    {
        let Some(block) = self.queues.take(&mut self.seat, 0)? else {
            unreachable!();
        };
        self.workspace.taken(block);
        Ok(())
    }
}
