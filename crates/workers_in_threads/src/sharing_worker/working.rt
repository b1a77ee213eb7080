//! How a worker works until nothing is left to it, or it is told to leave.
ghost use Rattle.std.specs.Prelude.{◌≡◌, ◌≢◌, true, false, Ok, Err, Some, IsSome, length};
ghost use Rattle.workers.specs.WorkerSteps.{IsFree};
ghost use Rattle.workers_in_threads.specs.SharingValue.{worker_of};
ghost use Rattle.workers_in_threads.specs.Sharing.{IsSame, IsRefusedBlock, HasNothingInHand, IsDone};
ghost use Rattle.workers_in_threads.specs.declared.sharing_worker.working.Stop.TheVariants.{OutOfWork, Told};

use crate::sharing_worker::worker::SharingWorker;
use forwarding::{Cells, Gate, StepKind};
use idle_count::{Verdict, VerdictSeat};
use scavenge::{Evacuated, LookError};
use std::alloc::{AllocError, Allocator};
use std::sync::Wait;

/// Why a worker stops.
#[derive(Clone, Copy, PartialEq, Eq, Debug)]
pub enum Stop {
    /// Nothing is left to it.
    OutOfWork,
    /// It is told to leave.
    Told,
}

impl<'a, C: Cells, A: Allocator + Clone> SharingWorker<'a, C, A> {
    /// A look with the race for what it proposes, or a scan, where they want neither a block nor a queue. Tells whether
    /// there was one. An error says that memory ran out in a scan, which didn't come.
    #[inline(always)]
    fn scavenge_one(&mut self) -> Result<bool, AllocError>
        ensures same { IsSame C.at_home self.old self.new }
    {
        if self.has_proposal() {
            return Ok(false);
        }
        match self.evacuate() {
            Evacuated::Left => Ok(false),
            Evacuated::NoSlot => {
                if self.has_hand() {
                    self.scan_to_next()
                } else {
                    Ok(false)
                }
            }
            Evacuated::Looked | Evacuated::Raced => Ok(true),
        }
    }

    /// Goes on so as long as it can. An error says that memory ran out in a scan, which didn't come.
    fn scavenge<R: Wait>(&mut self, rt: &R) -> Result<(), AllocError>
        ensures same { IsSame C.at_home self.old self.new }
    {
        for _ in rt.forever() {
            if !self.scavenge_one()? {
                return Ok(());
            }
        }
        unreachable!()
    }

    /// The race for what is proposed, else a look at the current slot, else the scan of what is in hand. Tells whether there
    /// was one of these.
    fn go_on(&mut self, alloc: A) -> Result<bool, LookError>
        ensures same { IsSame C.at_home self.old self.new }
        ensures none { result ≡ Ok false → HasNothingInHand self.new }
        ensures full { result ≡ Err LookError.HeapFull → IsRefusedBlock self.new }
    {
        if self.has_proposal() {
            self.race()?;
            return Ok(true);
        }
        if self.look(alloc)? {
            return Ok(true);
        }
        if self.has_hand() {
            self.scan()?;
            return Ok(true);
        }
        Ok(false)
    }

    /// Takes a block of the worker's own queue, else of another's. Tells whether there was one. Else each of its own
    /// exports was taken.
    fn take_any<R: Wait, G: Gate>(&mut self, rt: &R, gate: &G) -> Result<bool, AllocError>
        requires { IsFree self.old.workspace.worker }
        ensures same { IsSame C.at_home self.old self.new }
        ensures none { result ≡ Ok false →
            (worker_of self.new ≡ worker_of self.old) × (self.new.seat.cleared ≡ length self.new.seat.sent) }
    {
        let own = self.number();
        gate.before(own, StepKind::Take);
        if self.take(rt, own)? {
            return Ok(true);
        }
        for other in 0..self.workers() {
            if self.maybe(other) {
                gate.before(own, StepKind::Take);
                if self.take(rt, other)? {
                    return Ok(true);
                }
            }
        }
        Ok(false)
    }

    /// Finds something else to scan: exports what is aside, else takes of a queue, else takes what lies in an allocation block
    /// or is large. Tells whether there was one of these.
    fn find_work<R: Wait, G: Gate>(&mut self, rt: &R, gate: &G) -> Result<bool, AllocError>
        requires { HasNothingInHand self.old }
        ensures same { IsSame C.at_home self.old self.new }
        ensures none { result ≡ Ok false → IsDone self.new }
    {
        if self.has_aside() {
            gate.before(self.number(), StepKind::Export);
            self.export(rt)?;
            return Ok(true);
        }
        if self.take_any(rt, gate)? {
            return Ok(true);
        }
        if let Some(d) = self.lowest_open() {
            self.own(d);
            return Ok(true);
        }
        if self.has_large() {
            self.own_large();
            return Ok(true);
        }
        Ok(false)
    }

    /// What comes next: what `scavenge` can do, and then a step that may want a block or a queue, or a look at the verdict. It tells
    /// why the worker stops, where it does. An error says that a block was wanted and all were drawn, or that memory ran out.
    fn work_once<R: Wait, G: Gate>(
        &mut self,
        rt: &R,
        alloc: A,
        gate: &G,
        verdict: &Verdict,
        voice: &mut VerdictSeat,
    ) -> Result<Option<Stop>, LookError>
        requires voice { voice.old.name ≡ verdict.now.name }
        ensures voice { voice.new.name ≡ verdict.now.name }
        ensures heard { voice.new.won ≡ voice.old.won }
        ensures same { IsSame C.at_home self.old self.new }
        ensures done { result ≡ Ok (Some OutOfWork) → IsDone self.new }
        ensures told { result ≡ Ok (Some Told) → IsSome voice.new.known }
        ensures full { result ≡ Err LookError.HeapFull → IsRefusedBlock self.new }
    {
        self.scavenge(rt)?;
        if self.go_on(alloc)? {
            return Ok(None);
        }
        gate.before(self.number(), StepKind::Verdict);
        if verdict.read(voice).is_some() {
            return Ok(Some(Stop::Told));
        }
        if self.find_work(rt, gate)? {
            return Ok(None);
        }
        Ok(Some(Stop::OutOfWork))
    }

    /// Works until nothing is left to the worker, or until it is told to leave. Where it holds a block in hand, a sweep goes over
    /// that first. An error says that a block was wanted and all were drawn, or that memory ran out.
    pub fn work<R: Wait, G: Gate>(
        mut self,
        rt: &R,
        alloc: A,
        gate: &G,
        verdict: &Verdict,
        voice: &mut VerdictSeat,
    ) -> (Self, Result<Stop, LookError>)
        requires voice { voice.old.name ≡ verdict.now.name }
        ensures voice { voice.new.name ≡ verdict.now.name }
        ensures heard { voice.new.won ≡ voice.old.won }
        ensures same { IsSame C.at_home self.entry result.0 }
        ensures done { result.1 ≡ Ok OutOfWork → IsDone result.0 }
        ensures told { result.1 ≡ Ok Told → IsSome voice.new.known }
        ensures full { result.1 ≡ Err LookError.HeapFull → IsRefusedBlock result.0 }
    {
        for _ in rt.forever() {
            if self.holds_block() && !self.has_proposal() {
                if self.reserve_sweep().is_err() {
                    return (self, Err(LookError::NoMemory));
                }
                self = self.swept();
            }
            let Ok(own) = alloc.clone() else {
                return (self, Err(LookError::NoMemory));
            };
            match self.work_once(rt, own, gate, verdict, voice) {
                Ok(None) => {}
                Ok(Some(stop)) => return (self, Ok(stop)),
                Err(error) => return (self, Err(error)),
            }
        }
        unreachable!()
    }
}
