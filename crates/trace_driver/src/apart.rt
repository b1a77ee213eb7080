//! A run whose collections are those of workers on threads of their own, from bytes to bytes.
ghost use Rattle.std.specs.Prelude.{◌≡◌, ◌≢◌, ◌+◌, ◌-◌, ◌^◌, ◌<◌, ◌≤◌, OnOk, IfErr};
ghost use Rattle.collector.specs.declared.apart.CellKind.TheVariants.{Box};
ghost use Rattle.trace_session.specs.Lines.{most_left};
ghost use Rattle.trace_replay.specs.Session.{Stands};
ghost use Rattle.trace_driver.specs.Running.{IsRunDone, IsRunDoneAt, IsRunFull, IsRunStopped, IsRunStoppedAt};

use crate::config::RunConfig;
use crate::running::run_one;
use collector::Crew;
use forwarding::Gate;
use heap_text::{ReadFailed, Sink, Source};
use std::alloc::{AllocGlobal, Allocator};
use std::sync::Wait;
use std::thread::Threads;
use trace_session::{Fault, Lines, Next, Session, carry_out_apart};
use trace_text::Kind;

/// Carries out the lines of an input, each as soon as it was read.
fn carry_out_lines_apart<
    R: Threads + Wait + Sync + AllocGlobal,
    G: Gate + Sync,
    A: Allocator + Clone + Send + Sync,
    S: Source,
    W: Sink,
>(
    crew: &Crew<'_, R, G>,
    session: &mut Session<A>,
    lines: &mut Lines<A>,
    reader: &mut S,
    writer: &mut W,
) -> Result<(), Fault>
    requires room { most_left lines.old < 2 ^ 81 }
    requires readable { S.failed_reads reader.old < 2 ^ 64 - 1 }
    requires writable { W.failed_writes writer.old < 2 ^ 64 - 1 }
    ensures ok { OnOk result (IsRunDoneAt (Stands session.old) lines.old.pending
        (S.input reader.old) (S.input reader.new) (W.output writer.old) (W.output writer.new)) }
    ensures err { IfErr result
        (IsRunStoppedAt (Stands session.old) crew.now.workers (crew.now.kind ≡ Box) lines.old.pending lines.old.reads
        (S.input reader.old) (S.input reader.new) (W.output writer.old) (W.output writer.new)
        (S.failed_reads reader.new ≡ S.failed_reads reader.old + 1)
        (W.failed_writes writer.new ≡ W.failed_writes writer.old + 1)) }
    ensures reads { S.failed_reads reader.new ≤ S.failed_reads reader.old + 1 }
    ensures writes { W.failed_writes writer.new ≤ W.failed_writes writer.old + 1 }
{
    let mut number = 1;
    loop {
        match lines.advance(reader) {
            Ok(Next::Line) => {}
            Ok(Next::TooLong) => return Err(Fault::BadTrace(number, Kind::LineTooLong)),
            Ok(Next::Unfinished) => return Err(Fault::BadTrace(number, Kind::UnfinishedLine)),
            Ok(Next::End) => return Ok(()),
            Err(ReadFailed) => return Err(Fault::ReadFailed),
        }
        carry_out_apart(crew, session, number, lines.line(), writer)?;
        number += 1;
    }
}

/// Reads a trace piece by piece, carries it out by the crew line by line and writes what it prints. It makes the heap first.
fn run_apart<
    R: Threads + Wait + Sync + AllocGlobal,
    G: Gate + Sync,
    A: Allocator + Clone + Send + Sync,
    S: Source,
    W: Sink,
>(
    crew: &Crew<'_, R, G>,
    alloc: A,
    reader: &mut S,
    writer: &mut W,
    config: RunConfig,
) -> Result<(), Fault>
    requires readable { S.failed_reads reader.old < 2 ^ 64 - 1 }
    requires writable { W.failed_writes writer.old < 2 ^ 64 - 1 }
    ensures ok { OnOk result
        (IsRunDone config.config (S.input reader.old) (S.input reader.new) (W.output writer.old)
        (W.output writer.new)) }
    ensures full { IfErr result
        (IsRunFull config.config crew.now.workers (S.input reader.old) (S.input reader.new)) }
    ensures err { IfErr result
        (IsRunStopped config.config (crew.now.kind ≡ Box) ((writer.new ≡ writer.old) × (reader.new ≡ reader.old))
        (S.input reader.old) (S.input reader.new) (W.output writer.old) (W.output writer.new)
        (S.failed_reads reader.new ≡ S.failed_reads reader.old + 1)
        (W.failed_writes writer.new ≡ W.failed_writes writer.old + 1)) }
    ensures reads { S.failed_reads reader.new ≤ S.failed_reads reader.old + 1 }
    ensures writes { W.failed_writes writer.new ≤ W.failed_writes writer.old + 1 }
{
    let Ok(text_alloc) = alloc.clone() else {
        return Err(Fault::NoMemory(None));
    };
    let mut session = Session::new(alloc, config.config(), config.seed())?;
    let Ok(mut lines) = Lines::new(text_alloc, config.piece()) else {
        return Err(Fault::NoMemory(None));
    };
    carry_out_lines_apart(crew, &mut session, &mut lines, reader, writer)
}

/// Reads a trace piece by piece, carries it out line by line and writes what it prints. It makes the heap first. Each
/// collection is by so many workers as the settings say, the first on the caller's thread and each other on one of its own, and
/// the gate is called before each step that they share; where they say one, no thread is started. At `Ok` the bytes depend
/// neither on how many there are, nor on their cells, nor on the order in which they run, nor on how the input was cut into reads.
pub fn run<
    R: Threads + Wait + Sync + AllocGlobal,
    G: Gate + Sync,
    A: Allocator + Clone + Send + Sync,
    S: Source,
    W: Sink,
>(
    rt: &R,
    alloc: A,
    reader: &mut S,
    writer: &mut W,
    config: RunConfig,
    gate: &G,
) -> Result<(), Fault>
    requires readable { S.failed_reads reader.old < 2 ^ 64 - 1 }
    requires writable { W.failed_writes writer.old < 2 ^ 64 - 1 }
    ensures ok { OnOk result
        (IsRunDone config.config (S.input reader.old) (S.input reader.new) (W.output writer.old)
        (W.output writer.new)) }
    ensures full { IfErr result
        (IsRunFull config.config config.workers (S.input reader.old) (S.input reader.new)) }
    ensures err { IfErr result (IsRunStopped config.config ((config.kind ≡ Box) × (config.workers ≢ 1))
        ((writer.new ≡ writer.old) × (reader.new ≡ reader.old))
        (S.input reader.old) (S.input reader.new) (W.output writer.old) (W.output writer.new)
        (S.failed_reads reader.new ≡ S.failed_reads reader.old + 1)
        (W.failed_writes writer.new ≡ W.failed_writes writer.old + 1)) }
    ensures reads { S.failed_reads reader.new ≤ S.failed_reads reader.old + 1 }
    ensures writes { W.failed_writes writer.new ≤ W.failed_writes writer.old + 1 }
{
    if config.workers() == 1 {
        return run_one(alloc, reader, writer, config);
    }
    let crew = Crew::new(rt, config.workers(), config.kind(), gate);
    run_apart(&crew, alloc, reader, writer, config)
}
