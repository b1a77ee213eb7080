//! One line, with the collection that may have to come first.
ghost use Rattle.std.specs.Prelude.{◌≡◌, ℕ, ◌+◌, ◌-◌, ◌^◌, ◌<◌, ◌≤◌, Option, Some, Err, OnOk, IfErr};
ghost use Rattle.trace_session.specs.CollectsFirst.{IsSoundSoFar};
ghost use Rattle.trace_session.specs.Faults.{never, AtFault};
ghost use Rattle.trace_session.specs.Outcome.{line_step};
ghost use Rattle.trace_session.specs.Stepped.{AtEach, StepsTo, Writes};
ghost use Rattle.trace_session.specs.Refusals.{IsFullForLine, MayBeFull};
ghost use Rattle.trace_session.specs.Session.{Stands};

use crate::session::Session;
use crate::trace_lines::{Attempt, Fault};
use crate::trace_prints::make_room;
use crate::trace_step::attempting::attempt_line;
use heap_text::Sink;
use std::alloc::Allocator;

/// Carries out one line by one worker. Where a new object has no room in its nursery, generation 0 is collected first.
/// `HeapFull` says that this heap, as it was before the line, has too few free blocks for it (`full`).
pub fn carry_out<A: Allocator + Clone, W: Sink>(
    session: &mut Session<A>,
    number: u128,
    line: &[u8],
    writer: &mut W,
) -> Result<(), Fault>
    requires { W.failed_writes writer.old < 2 ^ 64 - 1 }
    ensures ok { OnOk result (AtEach (Stands session.old)
        (λ config store. StepsTo (Stands session.new) config (line_step config store line.now) (W.output writer.old)
        (W.output writer.new))) }
    ensures counts { OnOk result (W.failed_writes writer.new ≡ W.failed_writes writer.old) }
    ensures rises { W.failed_writes writer.new ≤ W.failed_writes writer.old + 1 }
    ensures err { IfErr result (AtFault (record never {
      trace = λ at kind. (at ≡ number) ×
          AtEach (Stands session.old) (λ config store. (line_step config store line.now ≡ Err kind) ×
          (writer.new ≡ writer.old));
      full = λ at. (at ≡ Some number) ×
          AtEach (Stands session.old) (λ config store. MayBeFull 1 config store line.now × (writer.new ≡ writer.old));
      memory = λ at. (at ≡ Some number) ×
          AtEach (Stands session.old)
          (λ config store. Writes (IsSoundSoFar config store line.now) (W.output writer.old) (W.output writer.new));
      write = W.failed_writes writer.new ≡ W.failed_writes writer.old + 1;
    })) }
    ensures full { (at : Option ℕ) → result ≡ Err (Fault.HeapFull at) →
        AtEach (Stands session.old) (λ config store. IsFullForLine 1 session.old.heap config store line.now) }
{
    match attempt_line(session, number, line, writer)? {
        Attempt::Done => return Ok(()),
        Attempt::NurseryFull => {}
    }
    make_room(session, number, writer)?;
    match attempt_line(session, number, line, writer)? {
        Attempt::Done => Ok(()),
        // A collection leaves each nursery with room.
        Attempt::NurseryFull => Err(Fault::HeapFull(Some(number))),
    }
}
