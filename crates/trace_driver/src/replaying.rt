//! A replay from bytes to bytes.
ghost use Rattle.std.specs.Prelude.{◌≡◌, ◌+◌, ◌-◌, ◌^◌, ◌<◌, ◌≤◌, OnOk, IfErr};
ghost use Rattle.trace_replay.specs.ReplayStops.{IsReplayDone, IsReplayStopped};

use crate::config::RunConfig;
use heap_text::{Sink, Source};
use std::alloc::Allocator;
use trace_session::Fault;

/// Reads a trace piece by piece whose collections have schedules, carries it out line by line and writes what it prints. It
/// makes the heap first. The workers take turns on one thread.
pub fn replay<A: Allocator + Clone, S: Source, W: Sink>(
    alloc: A,
    reader: &mut S,
    writer: &mut W,
    config: RunConfig,
) -> Result<(), Fault>
    requires readable { S.failed_reads reader.old < 2 ^ 64 - 1 }
    requires writable { W.failed_writes writer.old < 2 ^ 64 - 1 }
    ensures ok { OnOk result (IsReplayDone config.config config.workers
        (S.input reader.old) (S.input reader.new) (W.output writer.old) (W.output writer.new)) }
    ensures err { IfErr result
        (IsReplayStopped config.config config.workers ((writer.new ≡ writer.old) × (reader.new ≡ reader.old))
        (S.input reader.old) (S.input reader.new) (W.output writer.old) (W.output writer.new)
        (S.failed_reads reader.new ≡ S.failed_reads reader.old + 1)
        (W.failed_writes writer.new ≡ W.failed_writes writer.old + 1)) }
    ensures reads { S.failed_reads reader.new ≤ S.failed_reads reader.old + 1 }
    ensures writes { W.failed_writes writer.new ≤ W.failed_writes writer.old + 1 }
{
    let (sizes, piece) = (config.config(), config.piece());
    let (workers, seed) = (config.workers(), config.seed());
    trace_replay::replay(alloc, reader, writer, sizes, workers, piece, seed)
}
