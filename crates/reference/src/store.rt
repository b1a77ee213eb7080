//! Objects by fixed names, and what trace names lead to.
ghost use Rattle.std.specs.Prelude.{◌≡◌, ◌++◌, map, filter, length, IfOk};
ghost use Rattle.std.specs.Option.{option_copied};
ghost use Rattle.model.specs.Destination.{numbers_from};
ghost use Rattle.model.specs.Store.{object_at, is_young_at, targets_of, old_targets, present, live_list};
ghost use Rattle.reference.specs.Plain.{old_of, steps_within, starts};

use crate::reference_data::{Named, Object, Room, reached};
use std::alloc::{AllocError, Allocator, Global};
use std::marker::Model;

/// Objects by name, a name being a place in their list, what trace names lead to, and the rooms of the nurseries.
#[derive(Drop)]
pub struct Store<A: Allocator = Global> {
    pub(crate) objects: Vec<Option<Object<A>>, A>,
    pub(crate) names: Vec<Named<A>, A>,
    pub(crate) rooms: Vec<Room, A>,
}

impl<A: Allocator> Model for Store<A> {
    ghost use Rattle.model.specs.Store as meant;
    ghost use Rattle.reference.specs.StoreCode.{store_code};

    ghost Value = { meant.Store };

    ghost coded = { store_code };

    ghost view = { λ s. record { objects = s.objects.items; names = s.names.items; rooms = s.rooms.items } };
}

fn old_of<A: Allocator>(
    alloc: A,
    slot: &Option<Object<A>>,
    g: u64,
) -> Result<Vec<usize, A>, AllocError>
    ensures { IfOk result (λ v. v.items ≡ old_of g slot.now) }
{
    match slot {
        Some(object) if object.generation() > g => object.targets(alloc),
        _ => Ok(Vec::new(alloc)),
    }
}

impl<A: Allocator + Clone> Store<A> {
    pub(crate) fn object_at(&self, name: usize) -> Option<&Object<A>>
        ensures { option_copied result ≡ object_at self.now name }
    {
        if name < self.objects.len() {
            self.objects[name].as_ref()
        } else {
            None
        }
    }

    fn is_young_at(&self, g: u64, name: usize) -> bool
        ensures { result ≡ is_young_at self.now g name }
    {
        match self.object_at(name) {
            Some(object) => object.generation() <= g,
            None => false,
        }
    }

    fn targets_of(&self, alloc: A, name: usize) -> Result<Vec<usize, A>, AllocError>
        ensures { IfOk result (λ v. v.items ≡ targets_of self.now name) }
    {
        match self.object_at(name) {
            Some(object) => object.targets(alloc),
            None => Ok(Vec::new(alloc)),
        }
    }

    fn young_of(&self, alloc: A, g: u64, names: &[usize]) -> Result<Vec<usize, A>, AllocError>
        ensures { IfOk result (λ v. v.items ≡ filter (is_young_at self.now g) names.now) }
    {
        names
            .iter()
            .copied()
            .filter(|name| self.is_young_at(g, *name))
            .collect(alloc)
    }

    fn steps_within(
        &self,
        alloc: A,
        limit: Option<u64>,
        name: usize,
    ) -> Result<Vec<usize, A>, AllocError>
        ensures { IfOk result (λ v. v.items ≡ steps_within self.now limit name) }
    {
        let targets = self.targets_of(alloc.clone()?, name)?;
        match limit {
            Some(g) => self.young_of(alloc, g, targets.as_slice()),
            None => Ok(targets),
        }
    }

    fn rows(&self, alloc: A, limit: Option<u64>) -> Result<Vec<Vec<usize, A>, A>, AllocError>
        ensures { IfOk result
            (λ v. map (λ r. r.items) v.items ≡
            map (steps_within self.now limit) (numbers_from 0 (length self.now.objects))) }
    {
        let mut rows = Vec::new(alloc.clone()?);
        for name in 0..self.objects.len() {
            rows.push(self.steps_within(alloc.clone()?, limit, name)?)?;
        }
        Ok(rows)
    }

    fn name_targets(&self, alloc: A) -> Result<Vec<usize, A>, AllocError>
        ensures { IfOk result (λ v. v.items ≡ map (λ e. e.1) self.now.names) }
    {
        self.names.iter().map(|named| named.name()).collect(alloc)
    }

    fn old_targets(&self, alloc: A, g: u64) -> Result<Vec<usize, A>, AllocError>
        ensures { IfOk result (λ v. v.items ≡ old_targets g (present self.now)) }
    {
        let mut found = Vec::new(alloc.clone()?);
        for slot in &self.objects {
            let more = old_of(alloc.clone()?, slot, g)?;
            found.extend_from_slice(more.as_slice())?;
        }
        Ok(found)
    }

    fn starts(&self, alloc: A, g: u64) -> Result<Vec<usize, A>, AllocError>
        ensures { IfOk result (λ v. v.items ≡ starts self.now g) }
    {
        let mut all = self.name_targets(alloc.clone()?)?;
        let old = self.old_targets(alloc.clone()?, g)?;
        all.extend_from_slice(old.as_slice())?;
        self.young_of(alloc, g, all.as_slice())
    }

    /// What a collection of the generations 0 to `generation` keeps of them, breadth first from roots and old pointers.
    /// An error says that memory ran out.
    pub fn live(&self, alloc: A, generation: u64) -> Result<Vec<usize, A>, AllocError>
        ensures { IfOk result (λ v. v.items ≡ live_list self.now generation) }
    {
        let rows = self.rows(alloc.clone()?, Some(generation))?;
        let start = self.starts(alloc.clone()?, generation)?;
        reached(alloc, rows.as_slice(), start.as_slice())
    }
}
