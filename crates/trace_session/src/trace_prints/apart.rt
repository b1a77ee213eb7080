//! Collections by workers on threads of their own, and what they print.
ghost use Rattle.std.specs.Prelude.{◌≡◌, ◌+◌, ◌-◌, ◌^◌, ◌<◌, ◌≤◌, Some, Err, OnOk, IfErr};
ghost use Rattle.heap_text.specs.Streams.{Appends};
ghost use Rattle.model.specs.Store.{collected};
ghost use Rattle.model.specs.Commands.{Collect};
ghost use Rattle.collector.specs.declared.apart.CellKind.TheVariants.{Box};
ghost use Rattle.trace_session.specs.CollectsFirst.{auto_line};
ghost use Rattle.trace_session.specs.Faults.{never, AtFault, UnlessOfWrite};
ghost use Rattle.trace_session.specs.Outcome.{command_step};
ghost use Rattle.trace_session.specs.Sound.{IsSoundCommand};
ghost use Rattle.trace_session.specs.Stepped.{AtEach, StepsTo};
ghost use Rattle.trace_session.specs.Refusals.{CommandMayBeFull, IsFullToCollect};
ghost use Rattle.trace_session.specs.Session.{Stands};

use crate::Session;
use crate::trace_lines::Fault;
use collector::{Crew, ThreadsError};
use forwarding::Gate;
use heap_text::{Cause, Sink, WriteFailed, write_collection};
use model::Kind;
use std::alloc::{AllocGlobal, Allocator};
use std::sync::Wait;
use std::thread::Threads;

/// Collects the generations 0 to this one by the crew, and writes how many objects were kept and freed. `HeapFull` says that
/// a copy wanted a block when none was free, and that fewer were free than the space bound for so many workers, `Unsettled` that boxed cells were not settled.
pub fn collect_apart<
    R: Threads + Wait + Sync + AllocGlobal,
    G: Gate + Sync,
    A: Allocator + Clone + Send + Sync,
    W: Sink,
>(
    crew: &Crew<'_, R, G>,
    session: &mut Session<A>,
    number: u128,
    generation: u64,
    writer: &mut W,
) -> Result<(), Fault>
    requires { W.failed_writes writer.old < 2 ^ 64 - 1 }
    ensures ok { OnOk result (AtEach (Stands session.old)
        (λ config store. StepsTo (Stands session.new) config (command_step config store (Collect generation))
        (W.output writer.old) (W.output writer.new))) }
    ensures counts { OnOk result (W.failed_writes writer.new ≡ W.failed_writes writer.old) }
    ensures rises { W.failed_writes writer.new ≤ W.failed_writes writer.old + 1 }
    ensures err { IfErr result (AtFault (record never {
      trace = λ at kind. (at ≡ number) ×
          AtEach (Stands session.old) (λ config store. command_step config store (Collect generation) ≡ Err kind) ×
          (writer.new ≡ writer.old);
      full = λ at. (at ≡ Some number) × IsFullToCollect session.old.heap generation crew.now.workers ×
          AtEach (Stands session.old)
          (λ config store. CommandMayBeFull crew.now.workers config store (Collect generation)) ×
          (writer.new ≡ writer.old);
      memory = λ at. (at ≡ Some number) ×
          AtEach (Stands session.old) (λ config store. IsSoundCommand config store (Collect generation)) ×
          (writer.new ≡ writer.old);
      unsettled = λ at. (at ≡ number) × (crew.now.kind ≡ Box) ×
          AtEach (Stands session.old) (λ config store. IsSoundCommand config store (Collect generation)) ×
          (writer.new ≡ writer.old);
      write = W.failed_writes writer.new ≡ W.failed_writes writer.old + 1;
    })) }
    ensures before { IfErr result (λ e. UnlessOfWrite e (session.new ≡ session.old)) }
{
    if generation >= session.heap.config().generations() as u64 {
        return Err(Fault::BadTrace(number, Kind::NoGeneration));
    }
    let Ok(alloc) = session.alloc.clone() else {
        return Err(Fault::NoMemory(Some(number)));
    };
    let report = match crew.collect(alloc, &mut session.heap, generation) {
        Ok(report) => report,
        Err(ThreadsError::BadConfig) => unreachable!(),
        Err(ThreadsError::NoGeneration) => return Err(Fault::BadTrace(number, Kind::NoGeneration)),
        Err(ThreadsError::HeapFull) => return Err(Fault::HeapFull(Some(number))),
        Err(ThreadsError::NoMemory) => return Err(Fault::NoMemory(Some(number))),
        Err(ThreadsError::Unsettled) => return Err(Fault::Unsettled(number)),
    };
    let (kept, freed) = (report.kept, report.freed);
    session.heap.reuse(report);
    match write_collection(Cause::Command, generation, kept, freed, writer) {
        Ok(()) => Ok(()),
        Err(WriteFailed) => Err(Fault::WriteFailed),
    }
}

/// Makes room in the nurseries for a new object: the crew collects generation 0, and how many objects were kept and freed is
/// written. The only error after the collection is that of a write.
pub fn make_room_apart<
    R: Threads + Wait + Sync + AllocGlobal,
    G: Gate + Sync,
    A: Allocator + Clone + Send + Sync,
    W: Sink,
>(
    crew: &Crew<'_, R, G>,
    session: &mut Session<A>,
    number: u128,
    writer: &mut W,
) -> Result<(), Fault>
    requires { W.failed_writes writer.old < 2 ^ 64 - 1 }
    ensures ok { OnOk result (AtEach (Stands session.old)
        (λ config store. Stands session.new config (collected config 0 store) ×
        Appends (W.output writer.old) (W.output writer.new) (auto_line store))) }
    ensures counts { OnOk result (W.failed_writes writer.new ≡ W.failed_writes writer.old) }
    ensures rises { W.failed_writes writer.new ≤ W.failed_writes writer.old + 1 }
    ensures err { IfErr result (AtFault (record never {
      full = λ at. (at ≡ Some number) × IsFullToCollect session.old.heap 0 crew.now.workers ×
          (session.new ≡ session.old) ×
          (writer.new ≡ writer.old);
      memory = λ at. (at ≡ Some number) × (session.new ≡ session.old) × (writer.new ≡ writer.old);
      unsettled = λ at. (at ≡ number) × (crew.now.kind ≡ Box) × (session.new ≡ session.old) × (writer.new ≡ writer.old);
      write = W.failed_writes writer.new ≡ W.failed_writes writer.old + 1;
    })) }
{
    let _generations = session.heap.config().generations();
    let Ok(alloc) = session.alloc.clone() else {
        return Err(Fault::NoMemory(Some(number)));
    };
    let done = match crew.collect(alloc, &mut session.heap, 0) {
        Ok(done) => done,
        Err(ThreadsError::BadConfig) => unreachable!(),
        Err(ThreadsError::NoGeneration) => unreachable!(),
        Err(ThreadsError::HeapFull) => return Err(Fault::HeapFull(Some(number))),
        Err(ThreadsError::NoMemory) => return Err(Fault::NoMemory(Some(number))),
        Err(ThreadsError::Unsettled) => return Err(Fault::Unsettled(number)),
    };
    let (kept, freed) = (done.kept, done.freed);
    session.heap.reuse(done);
    match write_collection(Cause::FullNursery, 0, kept, freed, writer) {
        Ok(()) => Ok(()),
        Err(WriteFailed) => Err(Fault::WriteFailed),
    }
}
