//! What a collection without a schedule brings to a commit.
ghost use Rattle.std.specs.Prelude.{◌≡◌, ◌<◌, ◌≤◌, Some, IfOk, IfErr};
ghost use Rattle.trace_session.specs.Faults.{never, AtFault};
ghost use Rattle.trace_replay.specs.Brought.{ComesToCommit};
ghost use Rattle.trace_replay.specs.Stops.{IsFullInTurn};

use crate::schedules::lines::finish;
use heap::{Heap, Settled};
use machine::{Machine, MachineError, SettleError};
use std::alloc::Allocator;
use trace_session::Fault;

/// Carries out a collection of the generations 0 to `generation` by so many workers, 1 to 16, each event the one that comes
/// next by itself, and gives what is to be committed. It is wanted in line `number`.
pub fn settled_by_itself<A: Allocator + Clone>(
    alloc: A,
    heap: &Heap<A>,
    generation: u64,
    workers: u32,
    number: u128,
) -> Result<Settled<A>, Fault>
    requires generation { generation < heap.now.config.shape.generations }
    requires workers { (0 < workers) × (workers ≤ 16) }
    ensures ok { IfOk result
        (λ s. ComesToCommit heap.now generation workers s.collection s.places s.blocks.items s.workers.items
        s.deliveries.items) }
    ensures err { IfErr result (AtFault (record never {
      full = λ at. (at ≡ Some number) × IsFullInTurn heap.now generation workers;
      memory = λ at. at ≡ Some number;
    })) }
{
    let mut machine = match Machine::open(alloc, heap, generation, workers) {
        Ok(machine) => machine,
        Err(MachineError::NoMemory) => return Err(Fault::NoMemory(Some(number))),
        Err(MachineError::BadConfig | MachineError::NoGeneration) => unreachable!(),
    };
    finish(&mut machine, number)?;
    match machine.settle() {
        Ok(settled) => Ok(settled),
        Err(SettleError::NotEnded) => unreachable!(),
        Err(SettleError::NoMemory) => Err(Fault::NoMemory(Some(number))),
    }
}
