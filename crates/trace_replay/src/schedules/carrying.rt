//! The lines of a schedule, one after another.
ghost use Rattle.std.specs.Prelude.{◌≡◌, ◌+◌, ◌-◌, ◌^◌, ◌<◌, ◌≤◌, ◌⊎◌, MatchOption, IfOk, OnOk, IfErr};
ghost use Rattle.heap_text.specs.Streams.{OfGiven, OfInput};
ghost use Rattle.trace_session.specs.Faults.{never, AtFault};
ghost use Rattle.trace_session.specs.Lines.{IsOutOfReads, Moves, most_left};
ghost use Rattle.machine.specs.MachineValue.{setting_in};
ghost use Rattle.machine.specs.Events.{IsSameCollection, IsShortOfBlocks};
ghost use Rattle.trace_replay.specs.Runs.{IsSchedule};
ghost use Rattle.trace_replay.specs.Stops.{IsRefusedBlocks, IsSoundLine, IsUnreadable, IsUsedUp, OfLine, StopsAt, StopsWith};

use crate::schedules::lines::{Progress, carry_out_line};
use heap_text::{ReadFailed, Source};
use machine::Machine;
use model::Kind;
use std::alloc::Allocator;
use trace_session::{Fault, Lines, Next};
use trace_text::ScheduleKind;

/// Reads and carries out the schedule that follows the `collect` of line `start`, and gives the number of its last
/// line, which is `commit`. What comes after that is left to `lines` and `reader`.
pub fn carry_out_schedule<A: Allocator + Clone, S: Source>(
    machine: &mut Machine<'_, A>,
    start: u128,
    lines: &mut Lines<A>,
    reader: &mut S,
) -> Result<u128, Fault>
    requires room { start + 1 + most_left lines.old < 2 ^ 127 }
    requires readable { S.failed_reads reader.old < 2 ^ 64 - 1 }
    ensures ok { IfOk result (λ commit.
        Moves lines.old lines.new (S.input reader.old) (S.input reader.new) (λ text rest.
        IsSchedule (setting_in machine.old) machine.old.system (start + 1) text commit rest machine.new.system)) }
    ensures left { IfOk result (λ commit. commit + most_left lines.new ≤ start + most_left lines.old) }
    ensures same { OnOk result (IsSameCollection machine.old machine.new) }
    ensures reads { OnOk result (S.failed_reads reader.new ≡ S.failed_reads reader.old) }
    ensures read_rises { S.failed_reads reader.new ≤ S.failed_reads reader.old + 1 }
    ensures err { IfErr result (AtFault (record never {
      trace = λ at kind. OfInput lines.old.pending (S.input reader.old) (S.input reader.new) (λ text.
          StopsAt (IsUnreadable kind) (setting_in machine.old) machine.old.system (start + 1) text at);
      schedule = λ at kind. OfInput lines.old.pending (S.input reader.old) (S.input reader.new) (λ text.
          StopsWith (setting_in machine.old) machine.old.system start text at kind);
      full = λ at. MatchOption at ⊥ (λ line. OfInput lines.old.pending (S.input reader.old) (S.input reader.new)
          (λ text.
          StopsAt (OfLine (IsRefusedBlocks (setting_in machine.old)))
          (setting_in machine.old) machine.old.system (start + 1) text line)
          × IsShortOfBlocks machine.old.heap machine.old.collection.generation machine.old.workers);
      memory = λ at. MatchOption at ⊥ (λ line. OfInput lines.old.pending (S.input reader.old) (S.input reader.new)
          (λ text.
          StopsAt (OfLine (IsSoundLine (setting_in machine.old)))
          (setting_in machine.old) machine.old.system (start + 1) text line));
      read = OfGiven lines.old.pending (S.input reader.old) (S.input reader.new)
          (IsUsedUp (setting_in machine.old) machine.old.system)
          × ((S.failed_reads reader.new ≡ S.failed_reads reader.old + 1)
          ⊎ IsOutOfReads lines.old.reads (S.input reader.old) (S.input reader.new));
    })) }
{
    let mut next = start + 1;
    loop {
        match lines.advance(reader) {
            Ok(Next::Line) => {}
            Ok(Next::TooLong) => return Err(Fault::BadTrace(next, Kind::LineTooLong)),
            Ok(Next::Unfinished) => return Err(Fault::BadTrace(next, Kind::UnfinishedLine)),
            Ok(Next::End) => {
                return Err(Fault::BadSchedule(start, ScheduleKind::UnfinishedSchedule));
            }
            Err(ReadFailed) => return Err(Fault::ReadFailed),
        }
        match carry_out_line(machine, next, lines.line())? {
            Progress::GoesOn => {}
            Progress::Ends => return Ok(next),
        }
        next += 1;
    }
}
