//! A machine, and how it opens.
ghost use Rattle.std.specs.Prelude.{◌≡◌, ◌<◌, ◌≤◌, ◌⊎◌, ◌↔◌, Err, IfOk};
ghost use Rattle.machine.specs.InterleavedValue.{HasWorkers};
ghost use Rattle.machine.specs.Events.{Opens};

use crate::machine_error::MachineError;
use crate::workers_in_turn::InterleavedCollection;
use heap::{Collection, Heap};
use std::alloc::{Allocator, Global};
use std::marker::Model;

/// A collection of a heap by several workers, event by event. It borrows the heap, and never changes it.
#[derive(Drop)]
pub struct Machine<'a, A: Allocator = Global> {
    pub(crate) alloc: A,
    pub(crate) heap: &'a Heap<A>,
    pub(crate) collection: Collection<A>,
    pub(crate) workers: InterleavedCollection<A>,
}

impl<'a, A: Allocator> Model for Machine<'a, A> {
    ghost use Rattle.machine.specs.MachineValue.{MachineValue, IsMachine, machine_code, machine_of};

    ghost Value = { MachineValue };

    ghost coded = { machine_code };

    ghost view = { λ m. machine_of m.workers };

    ghost invariant = { λ m. IsMachine m.heap.now m.collection m.workers };
}

impl<'a, A: Allocator + Clone> Machine<'a, A> {
    /// `n` workers, 1 to 16, before the first event of a collection of the generations 0 to `generation`.
    pub fn open(alloc: A, heap: &'a Heap<A>, generation: u64, n: u32) -> Result<Self, MachineError>
        ensures ok { IfOk result (λ m. Opens heap.now generation n m) }
        ensures config { (result ≡ Err MachineError.BadConfig) ↔ ((n ≡ 0) ⊎ (16 < n)) }
        ensures generation { (result ≡ Err MachineError.NoGeneration) ↔
            ((0 < n) × (n ≤ 16) × (heap.now.config.shape.generations ≤ generation)) }
    {
        if n == 0 || n > 16 {
            return Err(MachineError::BadConfig);
        }
        if generation >= heap.config().generations() as u64 {
            return Err(MachineError::NoGeneration);
        }
        let collection = heap.open_collection(alloc.clone()?, generation)?;
        let workers = InterleavedCollection::new(alloc.clone()?, heap, &collection, n)?;
        Ok(Machine {
            alloc,
            heap,
            collection,
            workers,
        })
    }

    /// How many workers there are, 1 to 16.
    pub fn workers(&self) -> u32
        ensures count { result ≡ self.now.workers }
        ensures each { HasWorkers self.now.system result }
        ensures some { 0 < result }
        ensures most { result ≤ 16 }
    {
        self.workers.workers()
    }
}
