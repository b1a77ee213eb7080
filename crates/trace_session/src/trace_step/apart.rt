//! One line, with its collections by workers on threads of their own.
ghost use Rattle.std.specs.Prelude.{◌≡◌, ℕ, ◌+◌, ◌-◌, ◌^◌, ◌<◌, ◌≤◌, Option, Some, Err, OnOk, IfErr};
ghost use Rattle.collector.specs.declared.apart.CellKind.TheVariants.{Box};
ghost use Rattle.trace_session.specs.CollectsFirst.{IsSoundSoFar};
ghost use Rattle.trace_session.specs.Faults.{never, AtFault};
ghost use Rattle.trace_session.specs.Outcome.{line_step};
ghost use Rattle.trace_session.specs.Sound.{IsSoundTraceLine};
ghost use Rattle.trace_session.specs.Stepped.{AtEach, StepsTo, Writes};
ghost use Rattle.trace_session.specs.Refusals.{IsFullForLine, MayBeFull};
ghost use Rattle.trace_session.specs.Session.{Stands};

use crate::session::Session;
use crate::trace_lines::{Attempt, Fault};
use crate::trace_prints::{collect_apart, make_room_apart};
use crate::trace_step::asking::collected;
use crate::trace_step::attempting::attempt_line;
use collector::Crew;
use forwarding::Gate;
use heap_text::Sink;
use std::alloc::{AllocGlobal, Allocator};
use std::sync::Wait;
use std::thread::Threads;

/// Carries out one line, whose collections are the crew's. Where a new object has no room in its nursery, generation 0 is
/// collected first. `HeapFull` says that this heap, as it was before the line, has too few free blocks for it (`full`), `Unsettled`
/// that boxed cells were not settled.
pub fn carry_out_apart<
    R: Threads + Wait + Sync + AllocGlobal,
    G: Gate + Sync,
    A: Allocator + Clone + Send + Sync,
    W: Sink,
>(
    crew: &Crew<'_, R, G>,
    session: &mut Session<A>,
    number: u128,
    line: &[u8],
    writer: &mut W,
) -> Result<(), Fault>
    requires { W.failed_writes writer.old < 2 ^ 64 - 1 }
    ensures ok { OnOk result (AtEach (Stands session.old)
        (λ config store. StepsTo (Stands session.new) config (line_step config store line.now) (W.output writer.old)
        (W.output writer.new))) }
    ensures counts { OnOk result (W.failed_writes writer.new ≡ W.failed_writes writer.old) }
    ensures rises { W.failed_writes writer.new ≤ W.failed_writes writer.old + 1 }
    ensures err { IfErr result (AtFault (record never {
      trace = λ at kind. (at ≡ number) ×
          AtEach (Stands session.old) (λ config store. (line_step config store line.now ≡ Err kind) ×
          (writer.new ≡ writer.old));
      full = λ at. (at ≡ Some number) ×
          AtEach (Stands session.old) (λ config store. MayBeFull crew.now.workers config store line.now ×
          (writer.new ≡ writer.old));
      memory = λ at. (at ≡ Some number) ×
          AtEach (Stands session.old)
          (λ config store. Writes (IsSoundSoFar config store line.now) (W.output writer.old) (W.output writer.new));
      unsettled = λ at. (at ≡ number) × (crew.now.kind ≡ Box) ×
          AtEach (Stands session.old) (λ config store. IsSoundTraceLine config store line.now ×
          (writer.new ≡ writer.old));
      write = W.failed_writes writer.new ≡ W.failed_writes writer.old + 1;
    })) }
    ensures full { (at : Option ℕ) → result ≡ Err (Fault.HeapFull at) →
        AtEach (Stands session.old)
        (λ config store. IsFullForLine crew.now.workers session.old.heap config store line.now) }
{
    if let Some(generation) = collected(line) {
        return collect_apart(crew, session, number, generation, writer);
    }
    match attempt_line(session, number, line, writer)? {
        Attempt::Done => return Ok(()),
        Attempt::NurseryFull => {}
    }
    make_room_apart(crew, session, number, writer)?;
    match attempt_line(session, number, line, writer)? {
        Attempt::Done => Ok(()),
        // A collection leaves each nursery with room.
        Attempt::NurseryFull => Err(Fault::HeapFull(Some(number))),
    }
}
