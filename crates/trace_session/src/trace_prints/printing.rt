//! The commands that print.
ghost use Rattle.std.specs.Prelude.{◌≡◌, ◌+◌, ◌-◌, ◌^◌, ◌<◌, ◌≤◌, Some, Err, OnOk, IfErr, is_some};
ghost use Rattle.heap_text.specs.Streams.{Appends};
ghost use Rattle.std.specs.List.{list_all};
ghost use Rattle.model.specs.Graph.{root_at};
ghost use Rattle.model.specs.Store.{collected};
ghost use Rattle.model.specs.Commands as meant;
ghost use Rattle.model.specs.Commands.{Collect, Census};
ghost use Rattle.trace_session.specs.CollectsFirst.{auto_line};
ghost use Rattle.trace_session.specs.Faults.{never, AtFault, UnlessOfWrite};
ghost use Rattle.trace_session.specs.Outcome.{command_step};
ghost use Rattle.trace_session.specs.Sound.{IsSoundCommand};
ghost use Rattle.trace_session.specs.Stepped.{AtEach, StepsTo};
ghost use Rattle.trace_session.specs.Refusals.{CommandMayBeFull, IsFullToCollect};
ghost use Rattle.trace_session.specs.Session.{Stands};

use crate::Session;
use crate::trace_lines::Fault;
use collector::{CollectError, collect_one};
use heap::Heap;
use heap_text::{
    Cause, Name, Sink, WriteError, WriteFailed, write_census, write_collection, write_heap,
};
use model::Kind;
use std::alloc::Allocator;

/// The fault of a text that was not written in a line.
fn not_written(number: u128, error: WriteError) -> Fault
    ensures { AtFault (record never {
      memory = λ at. (at ≡ Some number) × (error ≡ WriteError.NoMemory);
      write = error ≡ WriteError.WriteFailed;
    }) result }
{
    match error {
        WriteError::NoMemory => Fault::NoMemory(Some(number)),
        WriteError::WriteFailed => Fault::WriteFailed,
    }
}

/// Writes the counts of the heap.
pub fn census<A: Allocator + Clone, W: Sink>(
    session: &mut Session<A>,
    number: u128,
    writer: &mut W,
) -> Result<(), Fault>
    requires { W.failed_writes writer.old < 2 ^ 64 - 1 }
    ensures ok { OnOk result (AtEach (Stands session.old)
        (λ config store. StepsTo (Stands session.new) config (command_step config store Census) (W.output writer.old)
        (W.output writer.new))) }
    ensures counts { OnOk result (W.failed_writes writer.new ≡ W.failed_writes writer.old) }
    ensures rises { W.failed_writes writer.new ≤ W.failed_writes writer.old + 1 }
    ensures err { IfErr result (AtFault (record never {
      memory = λ at. (at ≡ Some number) × AtEach (Stands session.old)
          (λ config store. IsSoundCommand config store Census) ×
          (writer.new ≡ writer.old);
      write = W.failed_writes writer.new ≡ W.failed_writes writer.old + 1;
    })) }
    ensures kept { session.new ≡ session.old }
{
    let Ok(alloc) = session.alloc.clone() else {
        return Err(Fault::NoMemory(Some(number)));
    };
    let census = session.heap.census();
    match write_census(alloc, &census, writer) {
        Ok(()) => Ok(()),
        Err(error) => Err(not_written(number, error)),
    }
}

/// Collects the generations 0 to this one, and writes how many objects were kept and freed. `HeapFull` says that a copy
/// wanted a block when none was free, and that fewer blocks of this heap were free than the space bound. At each fault but that of
/// a write the session is as before.
pub fn collect<A: Allocator + Clone, W: Sink>(
    session: &mut Session<A>,
    number: u128,
    generation: u64,
    writer: &mut W,
) -> Result<(), Fault>
    requires { W.failed_writes writer.old < 2 ^ 64 - 1 }
    ensures ok { OnOk result (AtEach (Stands session.old)
        (λ config store. StepsTo (Stands session.new) config (command_step config store (Collect generation))
        (W.output writer.old) (W.output writer.new))) }
    ensures counts { OnOk result (W.failed_writes writer.new ≡ W.failed_writes writer.old) }
    ensures rises { W.failed_writes writer.new ≤ W.failed_writes writer.old + 1 }
    ensures err { IfErr result (AtFault (record never {
      trace = λ at kind. (at ≡ number) ×
          AtEach (Stands session.old) (λ config store. command_step config store (Collect generation) ≡ Err kind) ×
          (writer.new ≡ writer.old);
      full = λ at. (at ≡ Some number) × IsFullToCollect session.old.heap generation 1 ×
          AtEach (Stands session.old) (λ config store. CommandMayBeFull 1 config store (Collect generation)) ×
          (writer.new ≡ writer.old);
      memory = λ at. (at ≡ Some number) ×
          AtEach (Stands session.old) (λ config store. IsSoundCommand config store (Collect generation)) ×
          (writer.new ≡ writer.old);
      write = W.failed_writes writer.new ≡ W.failed_writes writer.old + 1;
    })) }
    ensures before { IfErr result (λ e. UnlessOfWrite e (session.new ≡ session.old)) }
{
    if generation >= session.heap.config().generations() as u64 {
        return Err(Fault::BadTrace(number, Kind::NoGeneration));
    }
    let Ok(alloc) = session.alloc.clone() else {
        return Err(Fault::NoMemory(Some(number)));
    };
    let report = match collect_one(alloc, &mut session.heap, generation) {
        Ok(report) => report,
        Err(CollectError::NoGeneration) => return Err(Fault::BadTrace(number, Kind::NoGeneration)),
        Err(CollectError::HeapFull) => return Err(Fault::HeapFull(Some(number))),
        Err(CollectError::NoMemory) => return Err(Fault::NoMemory(Some(number))),
    };
    let (kept, freed) = (report.kept, report.freed);
    session.heap.reuse(report);
    match write_collection(Cause::Command, generation, kept, freed, writer) {
        Ok(()) => Ok(()),
        Err(WriteFailed) => Err(Fault::WriteFailed),
    }
}

/// Makes room in the nurseries for a new object: collects generation 0, and writes how many objects were kept and freed.
/// The only error after the collection is that of a write.
pub fn make_room<A: Allocator + Clone, W: Sink>(
    session: &mut Session<A>,
    number: u128,
    writer: &mut W,
) -> Result<(), Fault>
    requires { W.failed_writes writer.old < 2 ^ 64 - 1 }
    ensures ok { OnOk result (AtEach (Stands session.old)
        (λ config store. Stands session.new config (collected config 0 store) ×
        Appends (W.output writer.old) (W.output writer.new) (auto_line store))) }
    ensures counts { OnOk result (W.failed_writes writer.new ≡ W.failed_writes writer.old) }
    ensures rises { W.failed_writes writer.new ≤ W.failed_writes writer.old + 1 }
    ensures err { IfErr result (AtFault (record never {
      full = λ at. (at ≡ Some number) × IsFullToCollect session.old.heap 0 1 × (session.new ≡ session.old) ×
          (writer.new ≡ writer.old);
      memory = λ at. (at ≡ Some number) × (session.new ≡ session.old) × (writer.new ≡ writer.old);
      write = W.failed_writes writer.new ≡ W.failed_writes writer.old + 1;
    })) }
{
    let _generations = session.heap.config().generations();
    let Ok(alloc) = session.alloc.clone() else {
        return Err(Fault::NoMemory(Some(number)));
    };
    let done = match collect_one(alloc, &mut session.heap, 0) {
        Ok(done) => done,
        Err(CollectError::NoGeneration) => unreachable!(),
        Err(CollectError::HeapFull) => return Err(Fault::HeapFull(Some(number))),
        Err(CollectError::NoMemory) => return Err(Fault::NoMemory(Some(number))),
    };
    let (kept, freed) = (done.kept, done.freed);
    session.heap.reuse(done);
    match write_collection(Cause::FullNursery, 0, kept, freed, writer) {
        Ok(()) => Ok(()),
        Err(WriteFailed) => Err(Fault::WriteFailed),
    }
}

/// Whether each name's root is one of the heap.
fn are_rooted<A: Allocator + Clone>(heap: &Heap<A>, names: &[Name<'_>]) -> bool
    ensures { result ≡ list_all (λ name. is_some (root_at heap.now.graph name.root.number)) names.now }
{
    names.iter().all(|name| heap.target(name.root).is_some())
}

/// Writes the names, and each object that a name leads to.
pub fn show_heap<A: Allocator + Clone, W: Sink>(
    session: &mut Session<A>,
    number: u128,
    writer: &mut W,
) -> Result<(), Fault>
    requires { W.failed_writes writer.old < 2 ^ 64 - 1 }
    ensures ok { OnOk result (AtEach (Stands session.old)
        (λ config store. StepsTo (Stands session.new) config (command_step config store meant.Heap)
        (W.output writer.old) (W.output writer.new))) }
    ensures counts { OnOk result (W.failed_writes writer.new ≡ W.failed_writes writer.old) }
    ensures rises { W.failed_writes writer.new ≤ W.failed_writes writer.old + 1 }
    ensures err { IfErr result (AtFault (record never {
      trace = λ at kind. (at ≡ number) ×
          AtEach (Stands session.old) (λ config store. command_step config store meant.Heap ≡ Err kind) ×
          (writer.new ≡ writer.old);
      memory = λ at. (at ≡ Some number) ×
          AtEach (Stands session.old) (λ config store. IsSoundCommand config store meant.Heap) ×
          (writer.new ≡ writer.old);
      write = W.failed_writes writer.new ≡ W.failed_writes writer.old + 1;
    })) }
    ensures kept { session.new ≡ session.old }
{
    let Ok(alloc) = session.alloc.clone() else {
        return Err(Fault::NoMemory(Some(number)));
    };
    let Ok(names_alloc) = session.alloc.clone() else {
        return Err(Fault::NoMemory(Some(number)));
    };
    let Ok(names) = session.names.list(names_alloc) else {
        return Err(Fault::NoMemory(Some(number)));
    };
    if !are_rooted(&session.heap, &names) {
        return Err(Fault::BadTrace(number, Kind::UnknownName));
    }
    match write_heap(alloc, &session.heap, &names, writer) {
        Ok(()) => Ok(()),
        Err(error) => Err(not_written(number, error)),
    }
}
