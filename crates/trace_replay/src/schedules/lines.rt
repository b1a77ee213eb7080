//! One line of a schedule.
ghost use Rattle.std.specs.Prelude.{◌≡◌, ◌≤◌, Some, Err, Ok, IfOk, OnOk, IfErr};
ghost use Rattle.workers.specs.Lawful.{IsLawful};
ghost use Rattle.trace_text.specs.ScheduleGrammar.{schedule_line_of};
ghost use Rattle.trace_text.specs.declared.schedule.LineFault.TheVariants as faults;
ghost use Rattle.trace_session.specs.Faults.{never, AtFault};
ghost use Rattle.trace_replay.specs.Naming.{meant};
ghost use Rattle.machine.specs.MachineValue.{setting_in};
ghost use Rattle.machine.specs.Events.{Comes, IsFullForEvent};
ghost use Rattle.trace_replay.specs.Runs.{Answers, BringsOn, Finished};
ghost use Rattle.trace_replay.specs.Stops.{IsFaulty, IsShort, IsSoundLine, IsStuckAfter};

use crate::schedule_events::named_event;
use machine::{LookError, Machine, StepError};
use std::alloc::Allocator;
use trace_session::Fault;
use trace_text::{LineFault, ScheduleEvent, ScheduleKind, ScheduleLine, parse_event};

/// Whether a schedule goes on after a line.
#[derive(Clone, Copy, Debug, PartialEq, Eq)]
pub(crate) enum Progress {
    GoesOn,
    /// The line says that the collection is to be committed.
    Ends,
}

/// The event that a schedule names comes, where it is lawful.
fn come<A: Allocator + Clone>(
    machine: &mut Machine<'_, A>,
    number: u128,
    named: ScheduleEvent,
) -> Result<(), Fault>
    ensures ok { OnOk result (Comes (meant named) machine.old machine.new) }
    ensures err { IfErr result (AtFault (record never {
      schedule = λ at kind. (at ≡ number) × (kind ≡ ScheduleKind.NotLawful) ×
          ¬ IsLawful (setting_in machine.old) machine.old.system (meant named);
      full = λ at. (at ≡ Some number) × IsFullForEvent (meant named) machine.old;
      memory = λ at. (at ≡ Some number) × IsLawful (setting_in machine.old) machine.old.system (meant named);
    })) }
{
    let Some(event) = named_event(named) else {
        let _sixteen = machine.workers();
        return Err(Fault::BadSchedule(number, ScheduleKind::NotLawful));
    };
    match machine.step(event) {
        Ok(()) => Ok(()),
        Err(StepError::NotLawful) => Err(Fault::BadSchedule(number, ScheduleKind::NotLawful)),
        Err(StepError::HeapFull) => Err(Fault::HeapFull(Some(number))),
        Err(StepError::NoMemory) => Err(Fault::NoMemory(Some(number))),
    }
}

/// What comes next by itself comes, until all have ended.
pub(crate) fn finish<A: Allocator + Clone>(
    machine: &mut Machine<'_, A>,
    number: u128,
) -> Result<(), Fault>
    ensures ok { OnOk result (Finished machine.old machine.new) }
    ensures err { IfErr result (AtFault (record never {
      full = λ at. (at ≡ Some number) × IsStuckAfter machine.old;
      memory = λ at. at ≡ Some number;
    })) }
{
    match machine.finish() {
        Ok(()) => Ok(()),
        Err(LookError::HeapFull) => Err(Fault::HeapFull(Some(number))),
        Err(LookError::NoMemory) => Err(Fault::NoMemory(Some(number))),
    }
}

/// What a line of a schedule says comes.
pub(crate) fn carry_out_line<A: Allocator + Clone>(
    machine: &mut Machine<'_, A>,
    number: u128,
    line: &[u8],
) -> Result<Progress, Fault>
    ensures ok { IfOk result (λ progress. Answers progress line.now machine.old machine.new) }
    ensures err { IfErr result (AtFault (record never {
      trace = λ at kind. (at ≡ number) × (schedule_line_of line.now ≡ Err (faults.Trace kind));
      schedule = λ at kind. (at ≡ number) × IsFaulty (setting_in machine.old) machine.old.system line.now kind;
      full = λ at. (at ≡ Some number) × IsShort line.now machine.old;
      memory = λ at. (at ≡ Some number) × IsSoundLine (setting_in machine.old) machine.old.system line.now;
    })) }
{
    match parse_event(line) {
        Err(LineFault::Trace(kind)) => Err(Fault::BadTrace(number, kind)),
        Err(LineFault::Schedule(kind)) => Err(Fault::BadSchedule(number, kind)),
        Ok(ScheduleLine::Nothing) => Ok(Progress::GoesOn),
        Ok(ScheduleLine::Event(event)) => {
            come(machine, number, event)?;
            Ok(Progress::GoesOn)
        }
        Ok(ScheduleLine::Finish) => {
            finish(machine, number)?;
            Ok(Progress::GoesOn)
        }
        Ok(ScheduleLine::Commit) => Ok(Progress::Ends),
    }
}
