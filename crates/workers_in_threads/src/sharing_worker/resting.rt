//! How a worker rests until all do, and how its thread runs.
ghost use Rattle.std.specs.Prelude.{◌≡◌, ◌≢◌, true, false, IsSome, IsTrue};
ghost use Rattle.idle_count.specs.IdleValue.{IsSeatOf, HasEnded};
ghost use Rattle.scavenge.specs.declared.looking.LookError.TheVariants.{HeapFull};
ghost use Rattle.workers_in_threads.specs.Sharing.{IsSame, IsRefusedBlock, IsDone};
ghost use Rattle.workers_in_threads.specs.declared.sharing_worker.resting.Outcome.TheVariants.{Ended, Left, Refused};
ghost use Rattle.workers_in_threads.specs.declared.sharing_worker.resting.Rested.TheVariants as rested;

use crate::sharing_worker::worker::SharingWorker;
use crate::sharing_worker::working::Stop;
use crossbeam_utils::Backoff;
use forwarding::{Cells, Gate, StepKind};
use idle_count::{Cause, Idle, IdleSeat, Polled, Verdict, VerdictSeat};
use scavenge::LookError;
use std::alloc::Allocator;
use std::sync::Wait;

/// How a rest ended.
#[derive(Clone, Copy, PartialEq, Eq, Debug)]
pub enum Rested {
    /// All workers are idle.
    Ended,
    /// It is told to leave.
    Left,
    /// Work may be there.
    Woken,
}

/// How a worker's thread ended.
#[derive(Clone, Copy, PartialEq, Eq, Debug)]
pub enum Outcome {
    /// All workers were idle, and nothing was left to this one.
    Ended,
    /// It was told to leave.
    Left,
    /// It couldn't go on.
    Refused(LookError),
}

impl<'a, C: Cells, A: Allocator + Clone> SharingWorker<'a, C, A> {
    /// Whether a block may be in some queue.
    fn may_take(&mut self) -> bool
        ensures { self.new ≡ self.old }
    {
        for exporter in 0..self.workers() {
            if self.maybe(exporter) {
                return true;
            }
        }
        false
    }

    /// Idle until all are, or work may be there, or it is told to leave.
    fn rest<R: Wait, G: Gate, B: Allocator>(
        &mut self,
        rt: &R,
        gate: &G,
        idle: &Idle<B>,
        rest: &mut IdleSeat,
        verdict: &Verdict,
        voice: &mut VerdictSeat,
    ) -> Rested
        requires rest { IsSeatOf idle.now rest.old }
        requires idle { rest.old.idle ≡ true }
        requires voice { voice.old.name ≡ verdict.now.name }
        ensures worker { self.new ≡ self.old }
        ensures rest { IsSeatOf idle.now rest.new }
        ensures voice { voice.new.name ≡ verdict.now.name }
        ensures heard { voice.new.won ≡ voice.old.won }
        ensures ended { result ≡ rested.Ended → HasEnded rest.new }
        ensures left { result ≡ rested.Left → IsSome voice.new.known }
        ensures woken { result ≡ rested.Woken → rest.new.idle ≡ false }
    {
        let number = self.number();
        let backoff = Backoff::new();
        for _ in rt.forever() {
            gate.before(number, StepKind::Poll);
            if idle.poll(rest) == Polled::Ended {
                return Rested::Ended;
            }
            gate.before(number, StepKind::Verdict);
            if verdict.read(voice).is_some() {
                return Rested::Left;
            }
            if self.may_take() {
                gate.before(number, StepKind::Wake);
                if idle.wake(rest) {
                    return Rested::Woken;
                }
            }
            backoff.snooze();
        }
        unreachable!()
    }

    /// Works and rests in turn until all workers are idle, or it is told to leave, or it can't go on; then it tells the
    /// others to leave. So it knows the verdict, unless all were idle, and gives none but where it can't go on.
    pub fn run<R: Wait, G: Gate, B: Allocator>(
        mut self,
        rt: &R,
        alloc: A,
        gate: &G,
        idle: &Idle<B>,
        rest: &mut IdleSeat,
        verdict: &Verdict,
        voice: &mut VerdictSeat,
    ) -> (Self, Outcome)
        requires rest { IsSeatOf idle.now rest.old }
        requires busy { rest.old.idle ≡ false }
        requires voice { voice.old.name ≡ verdict.now.name }
        ensures same { IsSame C.at_home self.entry result.0 }
        ensures rest { IsSeatOf idle.now rest.new }
        ensures voice { voice.new.name ≡ verdict.now.name }
        ensures ended { result.1 ≡ Ended → IsDone result.0 × HasEnded rest.new }
        ensures told { result.1 ≢ Ended → IsSome voice.new.known }
        ensures quiet { result.1 ≡ Ended → voice.new.won ≡ voice.old.won }
        ensures left { result.1 ≡ Left → voice.new.won ≡ voice.old.won }
        ensures full { result.1 ≡ Refused HeapFull → IsRefusedBlock result.0 }
    {
        let number = self.number();
        for _ in rt.forever() {
            let Ok(alloc) = alloc.clone() else {
                gate.before(number, StepKind::Verdict);
                verdict.raise(voice, Cause::Refused);
                return (self, Outcome::Refused(LookError::NoMemory));
            };
            let (worker, worked) = self.work(rt, alloc, gate, verdict, voice);
            self = worker;
            match worked {
                Err(error) => {
                    gate.before(number, StepKind::Verdict);
                    verdict.raise(voice, Cause::Refused);
                    return (self, Outcome::Refused(error));
                }
                Ok(Stop::Told) => return (self, Outcome::Left),
                Ok(Stop::OutOfWork) => {}
            }
            gate.before(number, StepKind::Idle);
            idle.idle(rest);
            match self.rest(rt, gate, idle, rest, verdict, voice) {
                Rested::Ended => return (self, Outcome::Ended),
                Rested::Left => return (self, Outcome::Left),
                Rested::Woken => {}
            }
        }
        unreachable!()
    }
}
