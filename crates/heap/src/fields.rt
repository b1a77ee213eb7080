//! The fields of the objects that roots lead to.
ghost use Rattle.std.specs.Prelude.{◌≡◌, ◌≢◌, ◌↔◌, ◌⊎◌, Some, Err, IsSome, IsNone, IsSomeAnd, IfOk, OnOk, OnErr, slice_get, slice_set};
ghost use Rattle.std.specs.Option.{option_map};
ghost use Rattle.model.specs.Graph.{root_at};
ghost use Rattle.layout.specs.Place.{place_word};
ghost use Rattle.heap.specs.Commands.{Changes, HasPointer, HasPlain, IsValue, rooted_object, pointer_of, Loads, Stores, MustNote};

use crate::barrier::remember;
use crate::heap::{FieldError, Heap, LoadError, StoreError};
use layout::Place;
use std::alloc::Allocator;
use steps::RootId;

impl<A: Allocator + Clone> Heap<A> {
    /// Makes pointer `field` of a root's object lead where another root does, or makes it nil. Where it leads to an object
    /// of a younger generation, the root's object is remembered.
    pub fn store(
        &mut self,
        root: RootId,
        field: u64,
        value: Option<RootId>,
    ) -> Result<(), StoreError>
        ensures ok { OnOk result (Stores self.old root.number field (option_map (λ r. r.number) value) self.new) }
        ensures known { OnOk result (IsValue self.old.graph (option_map (λ r. r.number) value)) }
        ensures field { OnOk result (HasPointer self.old.graph root.number field) }
        ensures no_root { (result ≡ Err StoreError.NoRoot) ↔ (IsNone (root_at self.old.graph root.number)
            ⊎ (HasPointer self.old.graph root.number field ×
            ¬ (IsValue self.old.graph (option_map (λ r. r.number) value)))) }
        ensures bad_field { (result ≡ Err StoreError.BadField)
            ↔ (IsSome (root_at self.old.graph root.number) × ¬ (HasPointer self.old.graph root.number field)) }
        // Memory is wanted only for a new member of a remembered set.
        ensures memory { result ≡ Err StoreError.NoMemory →
            MustNote self.old root.number (option_map (λ r. r.number) value) }
        ensures err { OnErr result (self.new ≡ self.old) }
    {
        let Some(holder) = self.target(root) else {
            return Err(StoreError::NoRoot);
        };
        if field >= self.objects.pointer_count(holder) as u64 {
            return Err(StoreError::BadField);
        }
        let target = match value {
            None => None,
            Some(other) => match self.target(other) {
                Some(place) => Some(place),
                None => return Err(StoreError::NoRoot),
            },
        };
        let Ok(()) = remember(&self.objects, &mut self.remembered, holder, target) else {
            return Err(StoreError::NoMemory);
        };
        let _objects = self.objects.free_count();
        self.objects.set_pointer(holder, field as usize, target);
        Ok(())
    }

    /// Writes plain word `field` of a root's object.
    pub fn put(&mut self, root: RootId, field: u64, value: u64) -> Result<(), FieldError>
        ensures ok { OnOk result (Changes self.old root.number
            (λ o. record o { plain = slice_set o.plain field value }) self.new) }
        ensures field { OnOk result (HasPlain self.old.graph root.number field) }
        ensures no_root { (result ≡ Err FieldError.NoRoot) ↔ IsNone (root_at self.old.graph root.number) }
        ensures bad_field { (result ≡ Err FieldError.BadField)
            ↔ (IsSome (root_at self.old.graph root.number) × ¬ (HasPlain self.old.graph root.number field)) }
        ensures err { OnErr result (self.new ≡ self.old) }
    {
        let Some(holder) = self.target(root) else {
            return Err(FieldError::NoRoot);
        };
        if field >= self.objects.plain_count(holder) as u64 {
            return Err(FieldError::BadField);
        }
        let _objects = self.objects.free_count();
        self.objects.set_plain(holder, field as usize, value);
        Ok(())
    }

    /// Reads plain word `field` of a root's object.
    pub fn get(&self, root: RootId, field: u64) -> Result<u64, FieldError>
        ensures ok { IfOk result (λ word. IsSomeAnd (rooted_object self.now.graph root.number)
            (λ o. slice_get o.plain field ≡ Some word)) }
        ensures no_root { (result ≡ Err FieldError.NoRoot) ↔ IsNone (root_at self.now.graph root.number) }
        ensures bad_field { (result ≡ Err FieldError.BadField)
            ↔ (IsSome (root_at self.now.graph root.number) × ¬ (HasPlain self.now.graph root.number field)) }
    {
        let Some(holder) = self.target(root) else {
            return Err(FieldError::NoRoot);
        };
        match self.objects.object(holder) {
            Some(object) if field < object.words.len() as u64 => Ok(object.words[field as usize]),
            _ => Err(FieldError::BadField),
        }
    }

    /// A new root to what pointer `field` of a root's object leads to, or `None` where it is nil.
    pub fn load(&mut self, root: RootId, field: u64) -> Result<Option<RootId>, LoadError>
        ensures ok { IfOk result
            (λ loaded. Loads self.old root.number field (option_map (λ r. r.number) loaded) self.new) }
        ensures no_root { (result ≡ Err LoadError.NoRoot) ↔ IsNone (root_at self.old.graph root.number) }
        ensures bad_field { (result ≡ Err LoadError.BadField) ↔
            (IsSome (root_at self.old.graph root.number) × ¬ (HasPointer self.old.graph root.number field)) }
        ensures memory { result ≡ Err LoadError.NoMemory →
            IsSomeAnd (pointer_of self.old.graph root.number field) (λ target. IsSome target) }
        ensures err { OnErr result (self.new ≡ self.old) }
    {
        let pointer = match self.pointer_at(root, field) {
            Ok(pointer) => pointer,
            Err(error) => return Err(error),
        };
        let Some(place) = pointer else {
            return Ok(None);
        };
        if self.roots.reserve().is_err() {
            return Err(LoadError::NoMemory);
        }
        Ok(Some(RootId {
            number: self.roots.insert_reserved(place),
        }))
    }

    /// Where pointer `field` of a root's object leads.
    fn pointer_at(&self, root: RootId, field: u64) -> Result<Option<Place>, LoadError>
        ensures ok { IfOk result
            (λ pointer. pointer_of self.now.graph root.number field ≡ Some (option_map place_word pointer)) }
        ensures no_root { (result ≡ Err LoadError.NoRoot) ↔ IsNone (root_at self.now.graph root.number) }
        ensures bad_field { (result ≡ Err LoadError.BadField)
            ↔ (IsSome (root_at self.now.graph root.number) × ¬ (HasPointer self.now.graph root.number field)) }
        ensures memory { result ≢ Err LoadError.NoMemory }
    {
        let _free = self.objects.free_count();
        let Some(holder) = self.target(root) else {
            return Err(LoadError::NoRoot);
        };
        match self.objects.object(holder) {
            Some(object) if field < object.pointers.len() as u64 => {
                match Place::from_word(object.pointers[field as usize]) {
                    Some(pointer) => Ok(pointer),
                    // Each pointer leads to an object, and each object stands at a place.
                    None => unreachable!(),
                }
            }
            _ => Err(LoadError::BadField),
        }
    }
}
