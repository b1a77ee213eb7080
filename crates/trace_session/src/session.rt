//! What a run keeps between lines.
ghost use Rattle.std.specs.Prelude.{false, ◌≡◌, ◌+◌, ◌*◌, ◌<◌, ◌≤◌, ◌++◌, [], Some, None, Ok, Err, IfOk, OnOk, IfErr, OnErr};
ghost use Rattle.model.specs.Store.{empty_store};
ghost use Rattle.model.specs.Commands.{New, Drop, is_too_big};
ghost use Rattle.heap.specs.HeapValue.{empty_heap};
ghost use Rattle.trace_session.specs.Attempts.{MatchAttempt};
ghost use Rattle.trace_session.specs.CollectsFirst.{CollectsFirst};
ghost use Rattle.trace_session.specs.Does.{Does};
ghost use Rattle.trace_session.specs.Faults.{never, AtFault};
ghost use Rattle.trace_session.specs.Outcome.{command_step};
ghost use Rattle.trace_session.specs.Sound.{IsSoundCommand, IsFaultOfNew};
ghost use Rattle.trace_session.specs.Stepped.{AtEach, StepsQuietly};

use crate::trace_lines::{Attempt, Fault};
use crate::trace_names::{Names, put_in, room_for};
use heap::{AllocateError, Config, Heap, MakeError, NoRoot};
use layout::MOST_FIELDS;
use model::Kind;
use std::alloc::{Allocator, Global};

/// The fault of a new object where memory is wanting: its own comes first.
fn without_memory(number: u128, config: Config, mutator: u64, pointers: u64, plain: u64) -> Fault
    ensures { AtFault (record never {
      trace = λ at kind. (at ≡ number) × IsFaultOfNew config mutator pointers plain kind;
      memory = λ at. (at ≡ Some number) × (mutator < config.mutators) × (is_too_big pointers plain ≡ false);
    }) result }
{
    if mutator >= config.mutators() as u64 {
        return Fault::BadTrace(number, Kind::NoMutator);
    }
    if pointers > MOST_FIELDS as u64 || plain > MOST_FIELDS as u64 {
        return Fault::BadTrace(number, Kind::TooBig);
    }
    Fault::NoMemory(Some(number))
}

/// A heap, and the names that lead into it. It isn't used again after a fault.
#[derive(Drop)]
pub struct Session<A: Allocator = Global> {
    /// The objects.
    pub heap: Heap<A>,
    /// What each name leads to.
    pub names: Names<A>,
    /// For what a line needs beside the heap.
    pub alloc: A,
}

impl<A: Allocator + Clone> Session<A> {
    ghost use Rattle.trace_session.specs.Session.{Stands};
    ghost use Rattle.trace_session.specs.Refusals.{CommandMayBeFull, LacksBlocks};

    /// A heap without objects, and no names. The seed is that of the hash by which names are found: where it is drawn at random,
    /// nobody can choose names that make a run slow.
    pub fn new(alloc: A, config: Config, seed: u128) -> Result<Session<A>, Fault>
        ensures ok { IfOk result (λ session. Stands session config (empty_store config)) }
        ensures first { IfOk result (λ session. (session.heap ≡ empty_heap config) × (session.names ≡ [])) }
        ensures err { IfErr result (AtFault (record never {
          full = λ at. (at ≡ None) × (config.blocks < config.mutators * config.nursery_blocks);
          memory = λ at. at ≡ None;
        })) }
    {
        let Ok(heap_alloc) = alloc.clone() else {
            return Err(Fault::NoMemory(None));
        };
        let Ok(names_alloc) = alloc.clone() else {
            return Err(Fault::NoMemory(None));
        };
        let heap = match Heap::new(heap_alloc, config) {
            Ok(heap) => heap,
            Err(MakeError::HeapFull) => return Err(Fault::HeapFull(None)),
            Err(MakeError::NoMemory) => return Err(Fault::NoMemory(None)),
        };
        let names = Names::new(names_alloc, seed);
        Ok(Session { heap, names, alloc })
    }

    /// A new object, to which a free name leads. Where its nursery has no room, nothing has changed. `HeapFull` says that a
    /// large one takes more blocks than are free in this heap. At a fault the session is as before.
    pub fn add(
        &mut self,
        number: u128,
        name: &[u8],
        mutator: u64,
        pointers: u64,
        plain: u64,
    ) -> Result<Attempt, Fault>
        ensures ok { IfOk result (λ attempt. AtEach (Stands self.old) (λ config store. MatchAttempt attempt
            (StepsQuietly (Stands self.new) config (command_step config store (New name.now mutator pointers plain)) ×
            ¬ CollectsFirst config store (New name.now mutator pointers plain))
            (IsSoundCommand config store (New name.now mutator pointers plain) ×
            CollectsFirst config store (New name.now mutator pointers plain)))) }
        ensures own { IfOk result (λ attempt. MatchAttempt attempt
            (Does self.old.heap self.old.names (New name.now mutator pointers plain) self.new.heap self.new.names)
            (Unit {0})) }
        ensures full { result ≡ Ok Attempt.NurseryFull → self.new ≡ self.old }
        ensures err { IfErr result (AtFault (record never {
          trace = λ at kind. (at ≡ number) ×
              AtEach (Stands self.old)
              (λ config store. command_step config store (New name.now mutator pointers plain) ≡ Err kind);
          full = λ at. (at ≡ Some number) × LacksBlocks self.old.heap pointers plain ×
              AtEach (Stands self.old)
              (λ config store. CommandMayBeFull 1 config store (New name.now mutator pointers plain) ×
              ¬ CollectsFirst config store (New name.now mutator pointers plain));
          memory = λ at. (at ≡ Some number) ×
              AtEach (Stands self.old)
              (λ config store. IsSoundCommand config store (New name.now mutator pointers plain));
        })) }
        ensures before { OnErr result (self.new ≡ self.old) }
    {
        if self.names.get(name).is_some() {
            return Err(Fault::BadTrace(number, Kind::NameInUse));
        }
        let Ok(text) = room_for(&mut self.names.roots, &self.alloc, name) else {
            return Err(without_memory(number, self.heap.config(), mutator, pointers, plain));
        };
        let root = match self.heap.allocate(mutator, pointers, plain) {
            Ok(root) => root,
            Err(AllocateError::NoMutator) => return Err(Fault::BadTrace(number, Kind::NoMutator)),
            Err(AllocateError::TooBig) => return Err(Fault::BadTrace(number, Kind::TooBig)),
            Err(AllocateError::NurseryFull) => return Ok(Attempt::NurseryFull),
            Err(AllocateError::HeapFull) => return Err(Fault::HeapFull(Some(number))),
            Err(AllocateError::NoMemory) => return Err(Fault::NoMemory(Some(number))),
        };
        put_in(&mut self.names.roots, text, root);
        Ok(Attempt::Done)
    }

    /// The name leads to nothing any more. At a fault the session is as before.
    pub fn remove(&mut self, number: u128, name: &[u8]) -> Result<(), Fault>
        ensures ok { OnOk result (AtEach (Stands self.old) (λ config store.
            StepsQuietly (Stands self.new) config (command_step config store (Drop name.now)))) }
        ensures own { OnOk result (Does self.old.heap self.old.names (Drop name.now) self.new.heap self.new.names) }
        ensures err { IfErr result (AtFault (record never {
          trace = λ at kind. (at ≡ number) ×
              AtEach (Stands self.old) (λ config store. command_step config store (Drop name.now) ≡ Err kind);
        })) }
        ensures before { OnErr result (self.new ≡ self.old) }
    {
        let Some(root) = self.names.get(name) else {
            return Err(Fault::BadTrace(number, Kind::UnknownName));
        };
        match self.heap.release(root) {
            Ok(()) => {
                let _root = self.names.remove(name);
                Ok(())
            }
            // No name leads to such a root.
            Err(NoRoot) => Err(Fault::BadTrace(number, Kind::UnknownName)),
        }
    }
}
