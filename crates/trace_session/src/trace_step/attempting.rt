//! What one line does where the nurseries have room.
ghost use Rattle.std.specs.Prelude.{◌≡◌, ◌+◌, ◌-◌, ◌^◌, ◌<◌, ◌≤◌, Some, Ok, Err, IfOk, OnOk, IfErr};
ghost use Rattle.model.specs.Commands.{command_of};
ghost use Rattle.trace_text.specs.Grammar.{entry_of};
ghost use Rattle.trace_session.specs.Attempts.{MatchAttempt};
ghost use Rattle.trace_session.specs.CollectsFirst.{LineCollectsFirst};
ghost use Rattle.trace_session.specs.Faults.{never, AtFault, UnlessOfWrite};
ghost use Rattle.trace_session.specs.Outcome.{line_step, command_step};
ghost use Rattle.trace_session.specs.Sound.{IsSoundTraceLine, IsSoundCommand};
ghost use Rattle.trace_session.specs.Stepped.{AtEach, StepsTo};
ghost use Rattle.trace_session.specs.Refusals.{MayBeFull, CommandMayBeFull, IsFullFor};
ghost use Rattle.trace_session.specs.Session.{Stands};
ghost use Rattle.trace_session.specs.Commands.{MakesNone, IsNoCollection};
ghost use Rattle.trace_session.specs.Does.{Does, LineDoes};

use crate::session::Session;
use crate::trace_lines::{Attempt, Fault};
use crate::trace_prints::{census, collect, show_heap};
use heap_text::Sink;
use std::alloc::Allocator;
use trace_text::{Command, Line, parse};

/// Carries out one command that makes no new object.
fn carry_out_command<A: Allocator + Clone, W: Sink>(
    session: &mut Session<A>,
    number: u128,
    command: Command<'_>,
    writer: &mut W,
) -> Result<(), Fault>
    requires old { MakesNone (command_of command) }
    requires countable { W.failed_writes writer.old < 2 ^ 64 - 1 }
    ensures ok { OnOk result (AtEach (Stands session.old)
        (λ config store. StepsTo (Stands session.new) config (command_step config store (command_of command.entry))
        (W.output writer.old) (W.output writer.new))) }
    ensures own { OnOk result (IsNoCollection (Ok (Some (command_of command.entry)))
        → Does session.old.heap session.old.names (command_of command.entry) session.new.heap session.new.names) }
    ensures counts { OnOk result (W.failed_writes writer.new ≡ W.failed_writes writer.old) }
    ensures rises { W.failed_writes writer.new ≤ W.failed_writes writer.old + 1 }
    ensures before { IfErr result (λ e. UnlessOfWrite e (session.new ≡ session.old)) }
    ensures err { IfErr result (AtFault (record never {
      trace = λ at kind. (at ≡ number) ×
          AtEach (Stands session.old) (λ config store. command_step config store (command_of command.entry) ≡
          Err kind) × (writer.new ≡ writer.old);
      full = λ at. (at ≡ Some number) × MakesNone (command_of command.entry) ×
          IsFullFor 1 session.old.heap (Ok (Some (command_of command.entry))) ×
          AtEach (Stands session.old) (λ config store. CommandMayBeFull 1 config store (command_of command.entry)) ×
          (writer.new ≡ writer.old);
      memory = λ at. (at ≡ Some number) ×
          AtEach (Stands session.old) (λ config store. IsSoundCommand config store (command_of command.entry)) ×
          (writer.new ≡ writer.old);
      write = W.failed_writes writer.new ≡ W.failed_writes writer.old + 1;
    })) }
{
    match command {
        Command::Set {
            name,
            field,
            target,
        } => session.set(number, name, field, target),
        Command::Put { name, field, value } => session.put(number, name, field, value),
        Command::Get {
            new_name,
            name,
            field,
        } => session.get(number, new_name, name, field),
        Command::Drop { name } => session.remove(number, name),
        Command::Collect { generation } => collect(session, number, generation, writer),
        Command::Census => census(session, number, writer),
        Command::Heap => show_heap(session, number, writer),
        Command::New { .. } => unreachable!(),
    }
}

/// Carries out one line, unless it is a new object for which its nursery has no room.
#[tactic(auto, unfolding(crate::specs::Outcome::line_step))]
pub fn attempt_line<A: Allocator + Clone, W: Sink>(
    session: &mut Session<A>,
    number: u128,
    line: &[u8],
    writer: &mut W,
) -> Result<Attempt, Fault>
    requires { W.failed_writes writer.old < 2 ^ 64 - 1 }
    ensures ok { IfOk result (λ attempt. AtEach (Stands session.old) (λ config store. MatchAttempt attempt
        (StepsTo (Stands session.new) config (line_step config store line.now) (W.output writer.old)
        (W.output writer.new) × ¬ LineCollectsFirst config store line.now)
        (IsSoundTraceLine config store line.now × LineCollectsFirst config store line.now))) }
    ensures own { IfOk result (λ attempt. MatchAttempt attempt (IsNoCollection (entry_of line.now)
        → LineDoes session.old.heap session.old.names (entry_of line.now) session.new.heap session.new.names)
        (Unit {0})) }
    ensures full { result ≡ Ok Attempt.NurseryFull → (session.new ≡ session.old) × (writer.new ≡ writer.old) }
    ensures counts { OnOk result (W.failed_writes writer.new ≡ W.failed_writes writer.old) }
    ensures rises { W.failed_writes writer.new ≤ W.failed_writes writer.old + 1 }
    ensures before { IfErr result (λ e. UnlessOfWrite e (session.new ≡ session.old)) }
    ensures err { IfErr result (AtFault (record never {
      trace = λ at kind. (at ≡ number) ×
          AtEach (Stands session.old) (λ config store. line_step config store line.now ≡ Err kind) ×
          (writer.new ≡ writer.old);
      full = λ at. (at ≡ Some number) × IsFullFor 1 session.old.heap (entry_of line.now) ×
          AtEach (Stands session.old) (λ config store. MayBeFull 1 config store line.now ×
          ¬ LineCollectsFirst config store line.now) × (writer.new ≡ writer.old);
      memory = λ at. (at ≡ Some number) ×
          AtEach (Stands session.old) (λ config store. IsSoundTraceLine config store line.now) ×
          (writer.new ≡ writer.old);
      write = W.failed_writes writer.new ≡ W.failed_writes writer.old + 1;
    })) }
{
    match parse(line) {
        Err(kind) => Err(Fault::BadTrace(number, kind)),
        Ok(Line::Nothing) => Ok(Attempt::Done),
        Ok(
            Line::Command(
                Command::New {
                    name,
                    mutator,
                    pointers,
                    plain,
                },
            ),
        ) => session.add(number, name, mutator, pointers, plain),
        Ok(Line::Command(command)) => {
            carry_out_command(session, number, command, writer)?;
            Ok(Attempt::Done)
        }
    }
}
