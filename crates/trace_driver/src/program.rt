//! The whole program: the words of a command line, and what is read and written.
ghost use Rattle.std.specs.Prelude.{◌≡◌, ◌+◌, ◌-◌, ◌^◌, ◌<◌, ◌≤◌, ◌↔◌, IfOk, IsOk, map};
ghost use Rattle.trace_session.specs.FaultText.{fault_line, status_of};
ghost use Rattle.trace_driver.specs.Program.{config_of, AreInRange, Tells, TaskEnds};
ghost use Rattle.trace_driver.specs.Refusals.{IsRefusal};
ghost use Rattle.trace_driver.specs.Whole.{EndsBy};

use crate::apart::run;
use crate::command_line::{Options, Refused, Task, read_words};
use crate::config::RunConfig;
use crate::replaying::replay;
use forwarding::{Gate, OpenGate};
use heap::{BadConfig, Config};
use heap_text::{Sink, Source, write_all};
use std::alloc::AllocGlobal;
use std::convert::AsStr;
use std::random::RandomSource;
use std::sync::Wait;
use std::thread::Threads;
use trace_session::{Fault, write_fault};

/// The settings that the words ask for.
fn run_config(options: &Options) -> Result<RunConfig, BadConfig>
    ensures ok { IfOk result (λ run. run ≡ record {
      config = config_of options.now;
      workers = options.now.threads;
      kind = options.now.cells;
      piece = 4096;
      seed = 0;
    }) }
    ensures in_range { IsOk result ↔ AreInRange options.now }
{
    let config = Config::new(options.sizes)?;
    RunConfig::new(config, options.threads, options.cells)
}

/// The status of a fault, whose line is written to `errors`. A failed write of the line changes nothing.
pub(crate) fn tell<E: Sink>(fault: &Fault, errors: &mut E) -> u8
    requires { E.failed_writes errors.old < 2 ^ 64 - 1 }
    ensures status { result ≡ status_of fault.now }
    ensures told { Tells (E.failed_writes errors.new ≡ E.failed_writes errors.old + 1)
        (E.output errors.old) (E.output errors.new) (fault_line fault.now) }
    ensures rises { E.failed_writes errors.new ≤ E.failed_writes errors.old + 1 }
{
    let _ = write_fault(fault, errors);
    fault.status()
}

/// The status of a command line that isn't carried out: 0 for help, which goes to `writer`, or 4 where it can't be written; 3 for
/// a mistake in the words and 1 for want of memory, of which `errors` is told.
fn refuse<W: Sink, E: Sink>(refused: &Refused, writer: &mut W, errors: &mut E) -> u8
    requires writable { W.failed_writes writer.old < 2 ^ 64 - 1 }
    requires tellable { E.failed_writes errors.old < 2 ^ 64 - 1 }
    ensures status { result ≤ 4 }
    ensures ends { IsRefusal refused.now (writer.new ≡ writer.old) (errors.new ≡ errors.old)
        (W.failed_writes writer.new ≡ W.failed_writes writer.old + 1)
        (E.failed_writes errors.new ≡ E.failed_writes errors.old + 1)
        (W.output writer.old) (W.output writer.new) (E.output errors.old) (E.output errors.new) result }
    ensures writes { W.failed_writes writer.new ≤ W.failed_writes writer.old + 1 }
    ensures error_writes { E.failed_writes errors.new ≤ E.failed_writes errors.old + 1 }
{
    match refused {
        Refused::Help(text) => match write_all(writer, text.as_bytes()) {
            Ok(()) => 0,
            Err(_) => tell(&Fault::WriteFailed, errors),
        },
        Refused::Usage(text) => {
            let _ = write_all(errors, text.as_bytes());
            3
        }
        Refused::NoMemory => tell(&Fault::NoMemory(None), errors),
    }
}

/// A seed that the system draws, or 0 where it draws none.
fn drawn_seed(rt: &impl RandomSource) -> u128 {
    let mut bytes = [0; 16];
    match rt.fill_bytes(&mut bytes) {
        Ok(()) => u128::from_le_bytes(bytes),
        Err(_) => 0,
    }
}

/// The settings that the words ask for, with a seed that the system draws.
fn seeded_config(rt: &impl RandomSource, options: &Options) -> Result<RunConfig, BadConfig>
    ensures ok { IfOk result (λ run. (run.config ≡ config_of options.now) × (run.workers ≡ options.now.threads) ×
        (run.kind ≡ options.now.cells) × (run.piece ≡ 4096)) }
    ensures in_range { IsOk result ↔ AreInRange options.now }
{
    let config = run_config(options)?;
    Ok(config.with_seed(drawn_seed(rt)))
}

/// Carries out a trace with these numbers, and says the status.
fn run_with<
    R: Threads + Wait + Sync + AllocGlobal + RandomSource,
    S: Source,
    W: Sink,
    E: Sink,
    G: Gate + Sync,
>(rt: &R, options: &Options, reader: &mut S, writer: &mut W, errors: &mut E, gate: &G) -> u8
    requires readable { S.failed_reads reader.old < 2 ^ 64 - 1 }
    requires writable { W.failed_writes writer.old < 2 ^ 64 - 1 }
    requires tellable { E.failed_writes errors.old < 2 ^ 64 - 1 }
    ensures status { result ≤ 4 }
    ensures ends { TaskEnds options.now ((writer.new ≡ writer.old) × (reader.new ≡ reader.old))
        (errors.new ≡ errors.old)
        (S.failed_reads reader.new ≡ S.failed_reads reader.old + 1)
        (W.failed_writes writer.new ≡ W.failed_writes writer.old + 1)
        (E.failed_writes errors.new ≡ E.failed_writes errors.old + 1)
        (S.input reader.old) (S.input reader.new) (W.output writer.old) (W.output writer.new) (E.output errors.old)
        (E.output errors.new) result }
    ensures reads { S.failed_reads reader.new ≤ S.failed_reads reader.old + 1 }
    ensures writes { W.failed_writes writer.new ≤ W.failed_writes writer.old + 1 }
    ensures error_writes { E.failed_writes errors.new ≤ E.failed_writes errors.old + 1 }
{
    let config = match seeded_config(rt, options) {
        Ok(config) => config,
        Err(BadConfig) => {
            let _ = write_all(errors, b"gctrace: bad configuration\n");
            return 3;
        }
    };
    match options.task {
        Task::Run => match run(rt, rt.alloc(), reader, writer, config, gate) {
            Ok(()) => 0,
            Err(fault) => tell(&fault, errors),
        },
        Task::Replay => match replay(rt.alloc(), reader, writer, config) {
            Ok(()) => 0,
            Err(fault) => tell(&fault, errors),
        },
    }
}

/// Reads a command line, whose first word is the program's name, carries out the trace that `reader` gives by the options that
/// the words ask for (`AreAskedBy`), and says the exit status: 0 for a trace without a fault and for help, 1 where blocks or
/// memory are wanting or boxed cells were not settled, 2 for a faulty trace, 3 for a mistake in the words or a number out of its
/// range, 4 for a failed read or write. What it tells of a fault goes to `errors`; a failed write of that doesn't change the
/// status. Names are hashed with a seed that the runtime draws.
pub fn main_with<
    R: Threads + Wait + Sync + AllocGlobal + RandomSource,
    T: AsStr,
    S: Source,
    W: Sink,
    E: Sink,
>(rt: &R, words: &[T], reader: &mut S, writer: &mut W, errors: &mut E) -> u8
    requires readable { S.failed_reads reader.old < 2 ^ 64 - 1 }
    requires writable { W.failed_writes writer.old < 2 ^ 64 - 1 }
    requires tellable { E.failed_writes errors.old < 2 ^ 64 - 1 }
    ensures status { result ≤ 4 }
    ensures ends { EndsBy (map T.text words.now) (reader.new ≡ reader.old) (writer.new ≡ writer.old)
        (errors.new ≡ errors.old)
        (S.failed_reads reader.new ≡ S.failed_reads reader.old + 1)
        (W.failed_writes writer.new ≡ W.failed_writes writer.old + 1)
        (E.failed_writes errors.new ≡ E.failed_writes errors.old + 1)
        (S.input reader.old) (S.input reader.new) (W.output writer.old) (W.output writer.new) (E.output errors.old)
        (E.output errors.new) result }
    ensures reads { S.failed_reads reader.new ≤ S.failed_reads reader.old + 1 }
    ensures writes { W.failed_writes writer.new ≤ W.failed_writes writer.old + 1 }
    ensures error_writes { E.failed_writes errors.new ≤ E.failed_writes errors.old + 1 }
{
    main_at(rt, words, reader, writer, errors, &OpenGate)
}

/// The same, where the gate is called before each step that the workers of a run share.
pub fn main_at<
    R: Threads + Wait + Sync + AllocGlobal + RandomSource,
    T: AsStr,
    S: Source,
    W: Sink,
    E: Sink,
    G: Gate + Sync,
>(rt: &R, words: &[T], reader: &mut S, writer: &mut W, errors: &mut E, gate: &G) -> u8
    requires readable { S.failed_reads reader.old < 2 ^ 64 - 1 }
    requires writable { W.failed_writes writer.old < 2 ^ 64 - 1 }
    requires tellable { E.failed_writes errors.old < 2 ^ 64 - 1 }
    ensures status { result ≤ 4 }
    ensures ends { EndsBy (map T.text words.now) (reader.new ≡ reader.old) (writer.new ≡ writer.old)
        (errors.new ≡ errors.old)
        (S.failed_reads reader.new ≡ S.failed_reads reader.old + 1)
        (W.failed_writes writer.new ≡ W.failed_writes writer.old + 1)
        (E.failed_writes errors.new ≡ E.failed_writes errors.old + 1)
        (S.input reader.old) (S.input reader.new) (W.output writer.old) (W.output writer.new) (E.output errors.old)
        (E.output errors.new) result }
    ensures reads { S.failed_reads reader.new ≤ S.failed_reads reader.old + 1 }
    ensures writes { W.failed_writes writer.new ≤ W.failed_writes writer.old + 1 }
    ensures error_writes { E.failed_writes errors.new ≤ E.failed_writes errors.old + 1 }
{
    match read_words(rt.alloc(), words) {
        Ok(options) => run_with(rt, &options, reader, writer, errors, gate),
        Err(refused) => refuse(&refused, writer, errors),
    }
}
