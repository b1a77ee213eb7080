//! What the worker sends to the others, and takes of them.
ghost use Rattle.std.specs.Prelude.{◌≡◌, ◌≢◌, ◌<◌, [], true, false, Ok, OnOk, OnErr, length};
ghost use Rattle.workers.specs.WorkerSteps.{IsFree};
ghost use Rattle.workers.specs.WorkerRun.{Exported};
ghost use Rattle.workers_in_threads.specs.SharingValue.{worker_of};
ghost use Rattle.workers_in_threads.specs.Sharing.{IsSame, Acts};

use crate::sharing_worker::worker::SharingWorker;
use forwarding::Cells;
use std::alloc::{AllocError, Allocator};
use std::sync::Wait;

impl<'a, C: Cells, A: Allocator> SharingWorker<'a, C, A> {
    /// Exports the oldest block aside. An error says that memory ran out; nothing came then.
    pub fn export<R: Wait>(&mut self, rt: &R) -> Result<(), AllocError>
        requires { self.old.workspace.worker.aside ≢ [] }
        ensures same { IsSame C.at_home self.old self.new }
        ensures ok { OnOk result (Acts Exported self.old self.new) }
        ensures err { OnErr result (worker_of self.new ≡ worker_of self.old) }
    {
        let Some(block) = self.workspace.aside() else {
            unreachable!();
        };
        match self.queues.export(rt, &mut self.seat, block) {
            Ok(()) => Ok(()),
            Err((block, error)) => {
                self.workspace.unaside(block);
                Err(error)
            }
        }
    }

    /// Takes the block at the front of an exporter's queue in hand, where there is one. None of its own queue says that each
    /// of its exports was taken. An error says that memory ran out; nothing came then.
    pub fn take<R: Wait>(&mut self, rt: &R, exporter: u32) -> Result<bool, AllocError>
        requires free { IsFree self.old.workspace.worker }
        requires exporter { exporter < self.old.workers }
        ensures same { IsSame C.at_home self.old self.new }
        ensures none { result ≡ Ok false → worker_of self.new ≡ worker_of self.old }
        ensures own { result ≡ Ok false → exporter ≡ self.old.seat.index →
            self.new.seat.cleared ≡ length self.new.seat.sent }
        ensures others { result ≡ Ok false → self.old.seat.cleared ≡ length self.old.seat.sent →
            self.new.seat.cleared ≡ length self.new.seat.sent }
        ensures err { OnErr result (worker_of self.new ≡ worker_of self.old) }
    {
        match self.queues.take(rt, &mut self.seat, exporter)? {
            None => Ok(false),
            Some(block) => {
                self.workspace.taken(block);
                Ok(true)
            }
        }
    }

    /// Whether a block may be in an exporter's queue. It is a hint, which promises nothing.
    pub fn maybe(&mut self, exporter: u32) -> bool
        requires { exporter < self.old.workers }
        ensures { self.new ≡ self.old }
    {
        self.queues.maybe(&mut self.seat, exporter)
    }
}
