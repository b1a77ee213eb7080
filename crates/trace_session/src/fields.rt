//! The commands on the fields of the objects that names lead to.
ghost use Rattle.std.specs.Prelude.{◌≡◌, ◌↔◌, Some, Err, OnOk, OnErr, IfOk, IfErr, IsTrue};
ghost use Rattle.std.specs.Option.{option_map};
ghost use Rattle.model.specs.Commands.{Set, Put, Get, target_of};
ghost use Rattle.heap.specs.Commands.{HasPointer};
ghost use Rattle.trace_session.specs.Does.{Does};
ghost use Rattle.trace_session.specs.Faults.{never, AtFault};
ghost use Rattle.trace_session.specs.Outcome.{command_step};
ghost use Rattle.trace_session.specs.Sound.{IsSoundCommand};
ghost use Rattle.trace_session.specs.Session.{Stands};
ghost use Rattle.trace_session.specs.Stepped.{AtEach, StepsQuietly};
ghost use Rattle.trace_session.specs.Targets.{IsRootOf, IsUnknown};

use crate::session::Session;
use crate::trace_lines::Fault;
use heap::{FieldError, Heap, LoadError, RootId, StoreError};
use model::Kind;
use std::alloc::Allocator;

/// Whether the root's object has a pointer of that number.
fn has_pointer<A: Allocator + Clone>(heap: &Heap<A>, root: RootId, field: u64) -> bool
    ensures { IsTrue result ↔ HasPointer heap.now.graph root.number field }
{
    let Some(place) = heap.target(root) else {
        return false;
    };
    match heap.object(place) {
        Some(object) => field < object.pointers.len() as u64,
        None => false,
    }
}

impl<A: Allocator + Clone> Session<A> {
    /// The root of a target's name, or none for nil. The fault says that the name is not in use.
    fn target_root(&self, target: Option<&[u8]>) -> Result<Option<RootId>, Kind>
        ensures ok { IfOk result
            (λ root. IsRootOf self.now.names (target_of (λ x. x.now) target.entry) (option_map (λ r. r.number) root)) }
        ensures err { IfErr result (λ kind. (kind ≡ Kind.UnknownName) ×
            IsUnknown self.now.names (target_of (λ x. x.now) target.entry)) }
    {
        match target {
            None => Ok(None),
            Some(name) => match self.names.get(name) {
                Some(root) => Ok(Some(root)),
                None => Err(Kind::UnknownName),
            },
        }
    }

    /// Pointer `field` of the name's object leads to the target's object from now on, or is nil.
    pub fn set(
        &mut self,
        number: u128,
        name: &[u8],
        field: u64,
        target: Option<&[u8]>,
    ) -> Result<(), Fault>
        ensures ok { OnOk result (AtEach (Stands self.old) (λ config store.
            StepsQuietly (Stands self.new) config
            (command_step config store (Set name.now field (target_of (λ x. x.now) target.entry))))) }
        ensures own { OnOk result
            (Does self.old.heap self.old.names
            (Set name.now field (target_of (λ x. x.now) target.entry)) self.new.heap self.new.names) }
        ensures err { IfErr result (AtFault (record never {
          trace = λ at kind. (at ≡ number) ×
              AtEach (Stands self.old)
              (λ config store. command_step config store (Set name.now field (target_of (λ x. x.now) target.entry)) ≡
              Err kind);
          memory = λ at. (at ≡ Some number) ×
              AtEach (Stands self.old)
              (λ config store. IsSoundCommand config store
              (Set name.now field (target_of (λ x. x.now) target.entry)));
        })) }
        ensures before { OnErr result (self.new ≡ self.old) }
    {
        let Some(holder) = self.names.get(name) else {
            return Err(Fault::BadTrace(number, Kind::UnknownName));
        };
        let value = match self.target_root(target) {
            Ok(value) => value,
            Err(kind) => {
                if has_pointer(&self.heap, holder, field) {
                    return Err(Fault::BadTrace(number, kind));
                }
                return Err(Fault::BadTrace(number, Kind::NoField));
            }
        };
        match self.heap.store(holder, field, value) {
            Ok(()) => Ok(()),
            Err(StoreError::NoRoot) => Err(Fault::BadTrace(number, Kind::UnknownName)),
            Err(StoreError::BadField) => Err(Fault::BadTrace(number, Kind::NoField)),
            Err(StoreError::NoMemory) => Err(Fault::NoMemory(Some(number))),
        }
    }

    /// Plain word `field` of the name's object is the value from now on.
    pub fn put(&mut self, number: u128, name: &[u8], field: u64, value: u64) -> Result<(), Fault>
        ensures ok { OnOk result (AtEach (Stands self.old) (λ config store.
            StepsQuietly (Stands self.new) config (command_step config store (Put name.now field value)))) }
        ensures own { OnOk result
            (Does self.old.heap self.old.names (Put name.now field value) self.new.heap self.new.names) }
        ensures err { IfErr result (AtFault (record never {
          trace = λ at kind. (at ≡ number) ×
              AtEach (Stands self.old) (λ config store. command_step config store (Put name.now field value) ≡
              Err kind);
        })) }
        ensures before { OnErr result (self.new ≡ self.old) }
    {
        let Some(root) = self.names.get(name) else {
            return Err(Fault::BadTrace(number, Kind::UnknownName));
        };
        match self.heap.put(root, field, value) {
            Ok(()) => Ok(()),
            Err(FieldError::NoRoot) => Err(Fault::BadTrace(number, Kind::UnknownName)),
            Err(FieldError::BadField) => Err(Fault::BadTrace(number, Kind::NoField)),
        }
    }

    /// A free name leads from now on to what pointer `field` of the other name's object leads to. At a fault the session is as
    /// before.
    pub fn get(
        &mut self,
        number: u128,
        new_name: &[u8],
        name: &[u8],
        field: u64,
    ) -> Result<(), Fault>
        ensures ok { OnOk result (AtEach (Stands self.old) (λ config store.
            StepsQuietly (Stands self.new) config (command_step config store (Get new_name.now name.now field)))) }
        ensures own { OnOk result
            (Does self.old.heap self.old.names (Get new_name.now name.now field) self.new.heap self.new.names) }
        ensures err { IfErr result (AtFault (record never {
          trace = λ at kind. (at ≡ number) ×
              AtEach (Stands self.old) (λ config store. command_step config store (Get new_name.now name.now field) ≡
              Err kind);
          memory = λ at. (at ≡ Some number) ×
              AtEach (Stands self.old)
              (λ config store. IsSoundCommand config store (Get new_name.now name.now field));
        })) }
        ensures before { OnErr result (self.new ≡ self.old) }
    {
        if self.names.get(new_name).is_some() {
            return Err(Fault::BadTrace(number, Kind::NameInUse));
        }
        let Some(holder) = self.names.get(name) else {
            return Err(Fault::BadTrace(number, Kind::UnknownName));
        };
        let loaded = match self.heap.load(holder, field) {
            Ok(loaded) => loaded,
            Err(LoadError::NoRoot) => return Err(Fault::BadTrace(number, Kind::UnknownName)),
            Err(LoadError::BadField) => return Err(Fault::BadTrace(number, Kind::NoField)),
            Err(LoadError::NoMemory) => return Err(Fault::NoMemory(Some(number))),
        };
        let Some(root) = loaded else {
            return Err(Fault::BadTrace(number, Kind::NilPointer));
        };
        match self.names.insert(&self.alloc, new_name, root) {
            Ok(()) => Ok(()),
            Err(_) => {
                // No name leads to the new root.
                let _known = self.heap.release(root);
                Err(Fault::NoMemory(Some(number)))
            }
        }
    }
}
