//! A whole trace whose collections have schedules, from bytes to bytes.
ghost use Rattle.std.specs.Prelude.{◌≡◌, ◌+◌, ◌-◌, ◌^◌, ◌<◌, ◌≤◌, ◌⊎◌, ◌∷◌, Some, Err, IsTrue, MatchOption, IfOk, OnOk, IfErr};
ghost use Rattle.heap_text.specs.Streams.{OfGiven, OfInput};
ghost use Rattle.trace_text.specs.Grammar.{entry_of};
ghost use Rattle.trace_session.specs.Faults.{never, AtFault};
ghost use Rattle.trace_session.specs.Commands.{IsNoCollection};
ghost use Rattle.trace_session.specs.Lines.{IsOutOfReads, Moves, most_left};
ghost use Rattle.trace_session.specs.Outcome.{line_step};
ghost use Rattle.trace_session.specs.Pieces.{finished, pieces};
ghost use Rattle.trace_session.specs.Stepped.{AtEach, Writes};
ghost use Rattle.trace_session.specs.Session.{Stands};
ghost use Rattle.trace_replay.specs.Replays.{LineReplayed, ReplaysAll, ReplaysTo, state_of};
ghost use Rattle.trace_replay.specs.ReplayStops.{HasTraceFault, HasScheduleFault, WantsRoom, WantsBlocks, IsLineSoFar, IsSoundAt, Quietly, StopsIn};
ghost use Rattle.trace_replay.specs.ReplayStops.{LeavesNothingWhole, ReplaysWholeIn, IsReplayDone, IsReplayStopped};

use crate::collecting::{collect, make_room};
use heap::Config;
use heap_text::{ReadFailed, Sink, Source};
use model::Kind;
use std::alloc::Allocator;
use trace_session::{Attempt, Fault, Lines, Next, Session, attempt_line, collected};

/// Carries out line `number`, which has no schedule. Where a new object has no room in its nursery, so many workers collect
/// generation 0 first.
fn carry_out_line<A: Allocator + Clone, W: Sink>(
    session: &mut Session<A>,
    workers: u32,
    number: u128,
    line: &[u8],
    writer: &mut W,
) -> Result<(), Fault>
    requires workers { (0 < workers) × (workers ≤ 16) }
    requires plain { IsNoCollection (entry_of line.now) }
    requires countable { W.failed_writes writer.old < 2 ^ 64 - 1 }
    ensures ok { OnOk result (AtEach (Stands session.old) (λ config store.
        LineReplayed session.new config workers (state_of session.old store) line.now (W.output writer.old)
        (W.output writer.new))) }
    ensures counts { OnOk result (W.failed_writes writer.new ≡ W.failed_writes writer.old) }
    ensures rises { W.failed_writes writer.new ≤ W.failed_writes writer.old + 1 }
    ensures err { IfErr result (AtFault (record never {
      trace = λ at kind. (at ≡ number) ×
          AtEach (Stands session.old) (λ config store. (line_step config store line.now ≡ Err kind) ×
          (writer.new ≡ writer.old));
      full = λ at. (at ≡ Some number) ×
          AtEach (Stands session.old)
          (λ config store. WantsRoom config workers (state_of session.old store) line.now ×
          (writer.new ≡ writer.old));
      memory = λ at. (at ≡ Some number) ×
          AtEach (Stands session.old)
          (λ config store. Writes (IsLineSoFar config workers (state_of session.old store) line.now)
          (W.output writer.old) (W.output writer.new));
      write = W.failed_writes writer.new ≡ W.failed_writes writer.old + 1;
    })) }
{
    match attempt_line(session, number, line, writer)? {
        Attempt::Done => return Ok(()),
        Attempt::NurseryFull => {}
    }
    make_room(session, workers, number, writer)?;
    match attempt_line(session, number, line, writer)? {
        Attempt::Done => Ok(()),
        // A collection leaves each nursery with room.
        Attempt::NurseryFull => Err(Fault::HeapFull(Some(number))),
    }
}

/// Carries out line `number`, which was cut off last, with its schedule where it is one, which is read line by line. It
/// gives the number of the next line.
fn carry_out_first<A: Allocator + Clone, S: Source, W: Sink>(
    session: &mut Session<A>,
    workers: u32,
    number: u128,
    lines: &mut Lines<A>,
    reader: &mut S,
    writer: &mut W,
) -> Result<u128, Fault>
    requires workers { (0 < workers) × (workers ≤ 16) }
    requires room { number + 1 + most_left lines.old < 2 ^ 127 }
    requires readable { S.failed_reads reader.old < 2 ^ 64 - 1 }
    requires countable { W.failed_writes writer.old < 2 ^ 64 - 1 }
    ensures ok { IfOk result (λ found. Moves lines.old lines.new (S.input reader.old) (S.input reader.new) (λ text rest.
        AtEach (Stands session.old) (λ config store. ReplaysTo session.new config workers (state_of session.old store)
        number (finished lines.old.line ∷ pieces text) found rest (W.output writer.old) (W.output writer.new)))) }
    ensures left { IfOk result (λ found. found + most_left lines.new ≤ number + 1 + most_left lines.old) }
    ensures later { IfOk result (λ found. number < found) }
    ensures reads { OnOk result (S.failed_reads reader.new ≡ S.failed_reads reader.old) }
    ensures read_rises { S.failed_reads reader.new ≤ S.failed_reads reader.old + 1 }
    ensures counts { OnOk result (W.failed_writes writer.new ≡ W.failed_writes writer.old) }
    ensures rises { W.failed_writes writer.new ≤ W.failed_writes writer.old + 1 }
    ensures err { IfErr result (AtFault (record never {
      trace = λ at kind. OfInput lines.old.pending (S.input reader.old) (S.input reader.new) (λ text.
          AtEach (Stands session.old) (λ config store. HasTraceFault config workers kind
          (state_of session.old store) number (finished lines.old.line ∷ pieces text) at × (writer.new ≡ writer.old)));
      schedule = λ at kind. OfInput lines.old.pending (S.input reader.old) (S.input reader.new) (λ text.
          AtEach (Stands session.old) (λ config store. HasScheduleFault config workers kind
          (state_of session.old store) number (finished lines.old.line ∷ pieces text) at × (writer.new ≡ writer.old)));
      full = λ at. MatchOption at ⊥ (λ k. OfInput lines.old.pending (S.input reader.old) (S.input reader.new) (λ text.
          AtEach (Stands session.old) (λ config store. WantsBlocks config workers
          (state_of session.old store) number (finished lines.old.line ∷ pieces text) k × (writer.new ≡ writer.old))));
      memory = λ at. MatchOption at ⊥ (λ k. OfInput lines.old.pending (S.input reader.old) (S.input reader.new) (λ text.
          AtEach (Stands session.old) (λ config store. Writes (IsSoundAt config workers
          (state_of session.old store) number (finished lines.old.line ∷ pieces text) k)
          (W.output writer.old) (W.output writer.new))));
      read = OfGiven lines.old.pending (S.input reader.old) (S.input reader.new) (λ text.
          AtEach (Stands session.old) (λ config store. LeavesNothingWhole config workers
          (state_of session.old store) (finished lines.old.line ∷ pieces text))) × (writer.new ≡ writer.old)
          × ((S.failed_reads reader.new ≡ S.failed_reads reader.old + 1)
          ⊎ IsOutOfReads lines.old.reads (S.input reader.old) (S.input reader.new));
      write = W.failed_writes writer.new ≡ W.failed_writes writer.old + 1;
    })) }
{
    if let Some(generation) = collected(lines.line()) {
        return collect(session, workers, number, generation, lines, reader, writer);
    }
    carry_out_line(session, workers, number, lines.line(), writer)?;
    Ok(number + 1)
}

/// Reads and carries out the lines of a trace to its end.
fn carry_out_lines<A: Allocator + Clone, S: Source, W: Sink>(
    session: &mut Session<A>,
    workers: u32,
    lines: &mut Lines<A>,
    reader: &mut S,
    writer: &mut W,
) -> Result<(), Fault>
    requires workers { (0 < workers) × (workers ≤ 16) }
    requires room { most_left lines.old < 2 ^ 81 }
    requires readable { S.failed_reads reader.old < 2 ^ 64 - 1 }
    requires countable { W.failed_writes writer.old < 2 ^ 64 - 1 }
    ensures ok { OnOk result (IsTrue (S.input reader.new).ended
        × OfGiven lines.old.pending (S.input reader.old) (S.input reader.new) (λ text.
        AtEach (Stands session.old) (λ config store. ReplaysAll config workers
        (state_of session.old store) (pieces text) (W.output writer.old) (W.output writer.new)))) }
    ensures read_rises { S.failed_reads reader.new ≤ S.failed_reads reader.old + 1 }
    ensures rises { W.failed_writes writer.new ≤ W.failed_writes writer.old + 1 }
    ensures err { IfErr result (AtFault (record never {
      trace = λ at kind. OfInput lines.old.pending (S.input reader.old) (S.input reader.new) (λ text.
          AtEach (Stands session.old) (λ config store. StopsIn (Quietly (HasTraceFault config workers kind)) config
          workers (state_of session.old store) 1 (pieces text) at (W.output writer.old) (W.output writer.new)));
      schedule = λ at kind. OfInput lines.old.pending (S.input reader.old) (S.input reader.new) (λ text.
          AtEach (Stands session.old) (λ config store. StopsIn (Quietly (HasScheduleFault config workers kind)) config
          workers (state_of session.old store) 1 (pieces text) at (W.output writer.old) (W.output writer.new)));
      full = λ at. MatchOption at ⊥ (λ line. OfInput lines.old.pending (S.input reader.old) (S.input reader.new)
          (λ text.
          AtEach (Stands session.old) (λ config store. StopsIn (Quietly (WantsBlocks config workers)) config workers
          (state_of session.old store) 1 (pieces text) line (W.output writer.old) (W.output writer.new))));
      memory = λ at. MatchOption at ⊥ (λ line. OfInput lines.old.pending (S.input reader.old) (S.input reader.new)
          (λ text.
          AtEach (Stands session.old) (λ config store. StopsIn (IsSoundAt config workers) config workers
          (state_of session.old store) 1 (pieces text) line (W.output writer.old) (W.output writer.new))));
      read = OfGiven lines.old.pending (S.input reader.old) (S.input reader.new) (λ text.
          AtEach (Stands session.old) (λ config store. ReplaysWholeIn config workers
          (state_of session.old store) (pieces text) (W.output writer.old) (W.output writer.new)))
          × ((S.failed_reads reader.new ≡ S.failed_reads reader.old + 1)
          ⊎ IsOutOfReads lines.old.reads (S.input reader.old) (S.input reader.new));
      write = W.failed_writes writer.new ≡ W.failed_writes writer.old + 1;
    })) }
{
    let mut number = 1;
    loop {
        match lines.advance(reader) {
            Ok(Next::Line) => {}
            Ok(Next::TooLong) => return Err(Fault::BadTrace(number, Kind::LineTooLong)),
            Ok(Next::Unfinished) => return Err(Fault::BadTrace(number, Kind::UnfinishedLine)),
            Ok(Next::End) => return Ok(()),
            Err(ReadFailed) => return Err(Fault::ReadFailed),
        }
        number = carry_out_first(session, workers, number, lines, reader, writer)?;
    }
}

/// Reads a trace whose collections have schedules, `piece` bytes at a time, 1 to 65,536, carries out each line as it
/// comes with so many workers, 1 to 16, on one thread, and writes what it prints. It makes the heap first. The seed is that of
/// the hash by which names are found.
pub fn replay<A: Allocator + Clone, S: Source, W: Sink>(
    alloc: A,
    reader: &mut S,
    writer: &mut W,
    config: Config,
    workers: u32,
    piece: usize,
    seed: u128,
) -> Result<(), Fault>
    requires workers { (0 < workers) × (workers ≤ 16) }
    requires piece_some { 0 < piece }
    requires piece_most { piece ≤ 65536 }
    requires readable { S.failed_reads reader.old < 2 ^ 64 - 1 }
    requires writable { W.failed_writes writer.old < 2 ^ 64 - 1 }
    ensures ok { OnOk result (IsReplayDone config workers
        (S.input reader.old) (S.input reader.new) (W.output writer.old) (W.output writer.new)) }
    ensures err { IfErr result (IsReplayStopped config workers ((writer.new ≡ writer.old) × (reader.new ≡ reader.old))
        (S.input reader.old) (S.input reader.new) (W.output writer.old) (W.output writer.new)
        (S.failed_reads reader.new ≡ S.failed_reads reader.old + 1)
        (W.failed_writes writer.new ≡ W.failed_writes writer.old + 1)) }
    ensures reads { S.failed_reads reader.new ≤ S.failed_reads reader.old + 1 }
    ensures writes { W.failed_writes writer.new ≤ W.failed_writes writer.old + 1 }
{
    let Ok(text_alloc) = alloc.clone() else {
        return Err(Fault::NoMemory(None));
    };
    let mut session = Session::new(alloc, config, seed)?;
    let Ok(mut lines) = Lines::new(text_alloc, piece) else {
        return Err(Fault::NoMemory(None));
    };
    carry_out_lines(&mut session, workers, &mut lines, reader, writer)
}
