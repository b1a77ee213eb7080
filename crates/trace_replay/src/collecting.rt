//! Collections by several workers in turn: by a schedule, and by themselves.
ghost use Rattle.std.specs.Prelude.{◌≡◌, ◌+◌, ◌-◌, ◌^◌, ◌<◌, ◌≤◌, ◌⊎◌, [], Some, MatchOption, IfOk, OnOk, IfErr};
ghost use Rattle.heap_text.specs.Streams.{OfGiven, OfInput};
ghost use Rattle.model.specs.Store.{collected};
ghost use Rattle.trace_session.specs.Faults.{never, AtFault, UnlessOfWrite};
ghost use Rattle.trace_session.specs.Lines.{IsOutOfReads, Moves, most_left};
ghost use Rattle.trace_session.specs.Stepped.{AtEach, Writes};
ghost use Rattle.trace_session.specs.Session.{Stands};
ghost use Rattle.trace_replay.specs.Stops.{IsFullInTurn};
ghost use Rattle.trace_replay.specs.Replays.{CollectsTo, MakesRoom, state_of};
ghost use Rattle.trace_replay.specs.ReplayStops.{AfterCollect, HasTraceFault, HasScheduleFault, WantsBlocks, IsSoundAt, LeavesNothingWhole};

use crate::schedules::{settled_by_itself, settled_by_schedule};
use heap_text::{Cause, Sink, Source, WriteFailed, workers_text, write_report};
use model::Kind;
use std::alloc::Allocator;
use trace_session::{Fault, Lines, Session};

/// Collects the generations 0 to `generation` by so many workers, 1 to 16, as the schedule says that follows line
/// `number` and is read line by line, and writes what was kept and freed and what each worker did. It gives the number
/// of the line after the schedule. At each fault but that of a write the session is as before.
pub(crate) fn collect<A: Allocator + Clone, S: Source, W: Sink>(
    session: &mut Session<A>,
    workers: u32,
    number: u128,
    generation: u64,
    lines: &mut Lines<A>,
    reader: &mut S,
    writer: &mut W,
) -> Result<u128, Fault>
    requires workers { (0 < workers) × (workers ≤ 16) }
    requires room { number + 1 + most_left lines.old < 2 ^ 127 }
    requires readable { S.failed_reads reader.old < 2 ^ 64 - 1 }
    requires countable { W.failed_writes writer.old < 2 ^ 64 - 1 }
    ensures ok { IfOk result (λ found. Moves lines.old lines.new (S.input reader.old) (S.input reader.new) (λ text rest.
        AtEach (Stands session.old) (λ config store. CollectsTo session.new config workers generation
        (state_of session.old store) number text found rest (W.output writer.old) (W.output writer.new)))) }
    ensures left { IfOk result (λ found. found + most_left lines.new ≤ number + 1 + most_left lines.old) }
    ensures later { IfOk result (λ found. number < found) }
    ensures reads { OnOk result (S.failed_reads reader.new ≡ S.failed_reads reader.old) }
    ensures read_rises { S.failed_reads reader.new ≤ S.failed_reads reader.old + 1 }
    ensures counts { OnOk result (W.failed_writes writer.new ≡ W.failed_writes writer.old) }
    ensures rises { W.failed_writes writer.new ≤ W.failed_writes writer.old + 1 }
    ensures err { IfErr result (AtFault (record never {
      trace = λ at kind. OfInput lines.old.pending (S.input reader.old) (S.input reader.new) (λ text.
          AtEach (Stands session.old) (λ config store. AfterCollect generation text (λ left.
          HasTraceFault config workers kind (state_of session.old store) number left at))) × (writer.new ≡ writer.old);
      schedule = λ at kind. OfInput lines.old.pending (S.input reader.old) (S.input reader.new) (λ text.
          AtEach (Stands session.old) (λ config store. AfterCollect generation text (λ left.
          HasScheduleFault config workers kind (state_of session.old store) number left at))) ×
          (writer.new ≡ writer.old);
      full = λ at. MatchOption at ⊥ (λ line. OfInput lines.old.pending (S.input reader.old) (S.input reader.new)
          (λ text.
          AtEach (Stands session.old) (λ config store. AfterCollect generation text (λ left.
          WantsBlocks config workers (state_of session.old store) number left line)))) × (writer.new ≡ writer.old);
      memory = λ at. MatchOption at ⊥ (λ line. OfInput lines.old.pending (S.input reader.old) (S.input reader.new)
          (λ text.
          AtEach (Stands session.old) (λ config store. AfterCollect generation text (λ left.
          IsSoundAt config workers (state_of session.old store) number left line [])))) × (writer.new ≡ writer.old);
      read = OfGiven lines.old.pending (S.input reader.old) (S.input reader.new) (λ text.
          AtEach (Stands session.old) (λ config store. AfterCollect generation text
          (LeavesNothingWhole config workers (state_of session.old store)))) × (writer.new ≡ writer.old)
          × ((S.failed_reads reader.new ≡ S.failed_reads reader.old + 1)
          ⊎ IsOutOfReads lines.old.reads (S.input reader.old) (S.input reader.new));
      write = W.failed_writes writer.new ≡ W.failed_writes writer.old + 1;
    })) }
    ensures before { IfErr result (λ e. UnlessOfWrite e (session.new ≡ session.old)) }
{
    if generation >= session.heap.config().generations() as u64 {
        return Err(Fault::BadTrace(number, Kind::NoGeneration));
    }
    let Ok(alloc) = session.alloc.clone() else {
        return Err(Fault::NoMemory(Some(number)));
    };
    let Ok(commit_alloc) = session.alloc.clone() else {
        return Err(Fault::NoMemory(Some(number)));
    };
    let Ok(text_alloc) = session.alloc.clone() else {
        return Err(Fault::NoMemory(Some(number)));
    };
    let (settled, commit) = settled_by_schedule(
        alloc,
        &session.heap,
        generation,
        workers,
        number,
        lines,
        reader,
    )?;
    let (won, taken) = (settled.workers.as_slice(), settled.deliveries.as_slice());
    let Ok(told) = workers_text(text_alloc, won, taken) else {
        return Err(Fault::NoMemory(Some(commit)));
    };
    let Ok(report) = session.heap.commit(commit_alloc, settled) else {
        return Err(Fault::NoMemory(Some(commit)));
    };
    let (kept, freed) = (report.kept, report.freed);
    match write_report(
        Cause::Command,
        generation,
        kept,
        freed,
        told.as_str(),
        writer,
    ) {
        Ok(()) => Ok(commit + 1),
        Err(WriteFailed) => Err(Fault::WriteFailed),
    }
}

/// Makes room in the nurseries for a new object in line `number`: so many workers, 1 to 16, collect generation 0, each event
/// the one that comes next by itself. It writes what was kept and freed and what each worker did. The only error after the
/// collection is that of a write.
pub(crate) fn make_room<A: Allocator + Clone, W: Sink>(
    session: &mut Session<A>,
    workers: u32,
    number: u128,
    writer: &mut W,
) -> Result<(), Fault>
    requires workers { (0 < workers) × (workers ≤ 16) }
    requires countable { W.failed_writes writer.old < 2 ^ 64 - 1 }
    ensures ok { OnOk result
        (AtEach (Stands session.old) (λ config store. Stands session.new config (collected config 0 store)
        × Writes (λ written. MakesRoom workers (state_of session.old store) written session.new.heap)
        (W.output writer.old) (W.output writer.new))) }
    ensures names { OnOk result (session.new.names ≡ session.old.names) }
    ensures counts { OnOk result (W.failed_writes writer.new ≡ W.failed_writes writer.old) }
    ensures rises { W.failed_writes writer.new ≤ W.failed_writes writer.old + 1 }
    ensures err { IfErr result (AtFault (record never {
      full = λ at. (at ≡ Some number) × IsFullInTurn session.old.heap 0 workers × (session.new ≡ session.old) ×
          (writer.new ≡ writer.old);
      memory = λ at. (at ≡ Some number) × (session.new ≡ session.old) × (writer.new ≡ writer.old);
      write = W.failed_writes writer.new ≡ W.failed_writes writer.old + 1;
    })) }
{
    let _generations = session.heap.config().generations();
    let Ok(alloc) = session.alloc.clone() else {
        return Err(Fault::NoMemory(Some(number)));
    };
    let Ok(commit_alloc) = session.alloc.clone() else {
        return Err(Fault::NoMemory(Some(number)));
    };
    let Ok(text_alloc) = session.alloc.clone() else {
        return Err(Fault::NoMemory(Some(number)));
    };
    let settled = settled_by_itself(alloc, &session.heap, 0, workers, number)?;
    let (won, taken) = (settled.workers.as_slice(), settled.deliveries.as_slice());
    let Ok(lines) = workers_text(text_alloc, won, taken) else {
        return Err(Fault::NoMemory(Some(number)));
    };
    let Ok(report) = session.heap.commit(commit_alloc, settled) else {
        return Err(Fault::NoMemory(Some(number)));
    };
    let (kept, freed) = (report.kept, report.freed);
    match write_report(Cause::FullNursery, 0, kept, freed, lines.as_str(), writer) {
        Ok(()) => Ok(()),
        Err(WriteFailed) => Err(Fault::WriteFailed),
    }
}
