//! A run by one worker, from bytes to bytes.
ghost use Rattle.std.specs.Prelude.{◌≡◌, ◌+◌, ◌-◌, ◌^◌, ◌<◌, ◌≤◌, OnOk, IfErr};
ghost use Rattle.trace_session.specs.Lines.{most_left};
ghost use Rattle.trace_replay.specs.Session.{Stands};
ghost use Rattle.trace_driver.specs.Running.{IsRunDone, IsRunDoneAt, IsRunFull, IsRunStopped, IsRunStoppedAt};

use crate::config::RunConfig;
use heap_text::{ReadFailed, Sink, Source};
use std::alloc::Allocator;
use trace_session::{Fault, Lines, Next, Session, carry_out};
use trace_text::Kind;

/// Carries out the lines of an input, each as soon as it was read.
fn carry_out_lines<A: Allocator + Clone, S: Source, W: Sink>(
    session: &mut Session<A>,
    lines: &mut Lines<A>,
    reader: &mut S,
    writer: &mut W,
) -> Result<(), Fault>
    requires room { most_left lines.old < 2 ^ 81 }
    requires readable { S.failed_reads reader.old < 2 ^ 64 - 1 }
    requires writable { W.failed_writes writer.old < 2 ^ 64 - 1 }
    ensures ok { OnOk result (IsRunDoneAt (Stands session.old) lines.old.pending
        (S.input reader.old) (S.input reader.new) (W.output writer.old) (W.output writer.new)) }
    ensures err { IfErr result (IsRunStoppedAt (Stands session.old) 1 ⊥ lines.old.pending lines.old.reads
        (S.input reader.old) (S.input reader.new) (W.output writer.old) (W.output writer.new)
        (S.failed_reads reader.new ≡ S.failed_reads reader.old + 1)
        (W.failed_writes writer.new ≡ W.failed_writes writer.old + 1)) }
    ensures reads { S.failed_reads reader.new ≤ S.failed_reads reader.old + 1 }
    ensures writes { W.failed_writes writer.new ≤ W.failed_writes writer.old + 1 }
{
    let mut number = 1;
    loop {
        match lines.advance(reader) {
            Ok(Next::Line) => {}
            Ok(Next::TooLong) => return Err(Fault::BadTrace(number, Kind::LineTooLong)),
            Ok(Next::Unfinished) => return Err(Fault::BadTrace(number, Kind::UnfinishedLine)),
            Ok(Next::End) => return Ok(()),
            Err(ReadFailed) => return Err(Fault::ReadFailed),
        }
        carry_out(session, number, lines.line(), writer)?;
        number += 1;
    }
}

/// Reads a trace piece by piece, carries it out with one worker line by line, and writes what it prints. It makes the heap
/// first, and starts no thread.
pub fn run_one<A: Allocator + Clone, S: Source, W: Sink>(
    alloc: A,
    reader: &mut S,
    writer: &mut W,
    config: RunConfig,
) -> Result<(), Fault>
    requires one { config.workers ≡ 1 }
    requires readable { S.failed_reads reader.old < 2 ^ 64 - 1 }
    requires writable { W.failed_writes writer.old < 2 ^ 64 - 1 }
    ensures ok { OnOk result
        (IsRunDone config.config (S.input reader.old) (S.input reader.new) (W.output writer.old)
        (W.output writer.new)) }
    ensures full { IfErr result (IsRunFull config.config 1 (S.input reader.old) (S.input reader.new)) }
    ensures err { IfErr result (IsRunStopped config.config ⊥ ((writer.new ≡ writer.old) × (reader.new ≡ reader.old))
        (S.input reader.old) (S.input reader.new) (W.output writer.old) (W.output writer.new)
        (S.failed_reads reader.new ≡ S.failed_reads reader.old + 1)
        (W.failed_writes writer.new ≡ W.failed_writes writer.old + 1)) }
    ensures reads { S.failed_reads reader.new ≤ S.failed_reads reader.old + 1 }
    ensures writes { W.failed_writes writer.new ≤ W.failed_writes writer.old + 1 }
{
    let Ok(text_alloc) = alloc.clone() else {
        return Err(Fault::NoMemory(None));
    };
    let mut session = Session::new(alloc, config.config(), config.seed())?;
    let Ok(mut lines) = Lines::new(text_alloc, config.piece()) else {
        return Err(Fault::NoMemory(None));
    };
    carry_out_lines(&mut session, &mut lines, reader, writer)
}
