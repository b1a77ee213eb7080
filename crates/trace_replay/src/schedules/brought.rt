//! What a schedule brings to a commit.
ghost use Rattle.std.specs.Prelude.{◌≡◌, ◌+◌, ◌-◌, ◌^◌, ◌<◌, ◌≤◌, ◌⊎◌, MatchOption, IfOk, OnOk, IfErr};
ghost use Rattle.heap_text.specs.Streams.{OfGiven, OfInput};
ghost use Rattle.trace_session.specs.Faults.{never, AtFault};
ghost use Rattle.trace_session.specs.Lines.{IsOutOfReads, Moves, most_left};
ghost use Rattle.settling.specs.Collects.{setting_at, opening_at};
ghost use Rattle.machine.specs.Events.{IsShortOfBlocks};
ghost use Rattle.trace_replay.specs.Brought.{BringsToCommit};
ghost use Rattle.trace_replay.specs.Stops.{IsRefusedBlocks, IsSoundLine, IsUnreadable, IsUsedUp, OfLine, StopsAt, StopsWith};

use crate::schedules::carrying::carry_out_schedule;
use heap::{Heap, Settled};
use heap_text::Source;
use machine::{Machine, MachineError, SettleError};
use std::alloc::Allocator;
use trace_session::{Fault, Lines};
use trace_text::ScheduleKind;

/// Carries out a collection of the generations 0 to `generation` by so many workers, 1 to 16, as the schedule says that
/// follows the `collect` of line `start` and is read line by line. It gives what is to be committed, and the number of
/// the line that says `commit`.
pub fn settled_by_schedule<A: Allocator + Clone, S: Source>(
    alloc: A,
    heap: &Heap<A>,
    generation: u64,
    workers: u32,
    start: u128,
    lines: &mut Lines<A>,
    reader: &mut S,
) -> Result<(Settled<A>, u128), Fault>
    requires generation { generation < heap.now.config.shape.generations }
    requires workers { (0 < workers) × (workers ≤ 16) }
    requires room { start + 1 + most_left lines.old < 2 ^ 127 }
    requires readable { S.failed_reads reader.old < 2 ^ 64 - 1 }
    ensures ok { IfOk result (λ found. Moves lines.old lines.new (S.input reader.old) (S.input reader.new) (λ text rest.
        BringsToCommit heap.now generation workers start text found.1 rest
        found.0.collection found.0.places found.0.blocks.items found.0.workers.items found.0.deliveries.items)) }
    ensures left { IfOk result (λ found. found.1 + most_left lines.new ≤ start + most_left lines.old) }
    ensures reads { OnOk result (S.failed_reads reader.new ≡ S.failed_reads reader.old) }
    ensures read_rises { S.failed_reads reader.new ≤ S.failed_reads reader.old + 1 }
    ensures err { IfErr result (AtFault (record never {
      trace = λ at kind. OfInput lines.old.pending (S.input reader.old) (S.input reader.new) (λ text.
          StopsAt (IsUnreadable kind)
          (setting_at heap.now generation workers) (opening_at heap.now generation workers) (start + 1) text at);
      schedule = λ at kind. OfInput lines.old.pending (S.input reader.old) (S.input reader.new) (λ text.
          StopsWith (setting_at heap.now generation workers)
          (opening_at heap.now generation workers) start text at kind);
      full = λ at. MatchOption at ⊥ (λ line. OfInput lines.old.pending (S.input reader.old) (S.input reader.new)
          (λ text.
          StopsAt (OfLine (IsRefusedBlocks (setting_at heap.now generation workers)))
          (setting_at heap.now generation workers) (opening_at heap.now generation workers) (start + 1) text line)
          × IsShortOfBlocks heap.now generation workers);
      memory = λ at. MatchOption at ⊥ (λ line. OfInput lines.old.pending (S.input reader.old) (S.input reader.new)
          (λ text.
          (line ≡ start) ⊎ StopsAt (OfLine (IsSoundLine (setting_at heap.now generation workers)))
          (setting_at heap.now generation workers) (opening_at heap.now generation workers) (start + 1) text line));
      read = OfGiven lines.old.pending (S.input reader.old) (S.input reader.new)
          (IsUsedUp (setting_at heap.now generation workers) (opening_at heap.now generation workers))
          × ((S.failed_reads reader.new ≡ S.failed_reads reader.old + 1)
          ⊎ IsOutOfReads lines.old.reads (S.input reader.old) (S.input reader.new));
    })) }
{
    let mut machine = match Machine::open(alloc, heap, generation, workers) {
        Ok(machine) => machine,
        Err(MachineError::NoMemory) => return Err(Fault::NoMemory(Some(start))),
        Err(MachineError::BadConfig | MachineError::NoGeneration) => unreachable!(),
    };
    let commit = carry_out_schedule(&mut machine, start, lines, reader)?;
    match machine.settle() {
        Ok(settled) => Ok((settled, commit)),
        Err(SettleError::NotEnded) => Err(Fault::BadSchedule(commit, ScheduleKind::NotEnded)),
        Err(SettleError::NoMemory) => Err(Fault::NoMemory(Some(commit))),
    }
}
