//! An object of a store.
ghost use Rattle.std.specs.Prelude.{◌≡◌, ◌<◌, ◌≤◌, length, replicate, slice_get, slice_set, None, IfOk};
ghost use Rattle.model.specs.Graph.{fresh_object, with_pointer, size_of, is_large};
ghost use Rattle.model.specs.Store.{targets, moved};

use crate::reference_data::config::Config;
use std::alloc::{AllocError, Allocator, Global};
use std::marker::Model;

/// What its pointers lead to, by name, its plain words, and where it stands.
#[derive(Drop)]
pub struct Object<A: Allocator = Global> {
    pointers: Vec<Option<usize>, A>,
    plain: Vec<u64, A>,
    generation: u64,
    step: u64,
}

impl<A: Allocator> Model for Object<A> {
    ghost use Rattle.model.specs.Graph as graph;
    ghost use Rattle.model.specs.GraphCode.{object_code};

    ghost Value = { graph.Object };

    ghost coded = { object_code };

    ghost view = { λ o. record {
      pointers = o.pointers.items;
      plain = o.plain.items;
      generation = o.generation;
      step = o.step;
    } };

    ghost use Rattle.std.specs.Prelude.{◌≤◌, length};

    ghost invariant = { λ o. (length o.pointers.items ≤ 100000) × (length o.plain.items ≤ 100000) };
}

impl<A: Allocator> Object<A> {
    /// Its generation, 0 for the youngest.
    pub fn generation(&self) -> u64
        ensures { result ≡ self.now.generation }
    {
        self.generation
    }

    /// The names that its pointers lead to, in order.
    /// An error says that memory ran out.
    pub fn targets(&self, alloc: A) -> Result<Vec<usize, A>, AllocError>
        ensures { IfOk result (λ v. v.items ≡ targets self.now) }
    {
        let mut found = Vec::new(alloc);
        for pointer in &self.pointers {
            if let Some(name) = *pointer {
                found.push(name)?;
            }
        }
        Ok(found)
    }

    /// Its step in its generation, 0 for the youngest.
    pub fn step(&self) -> u64
        ensures { result ≡ self.now.step }
    {
        self.step
    }

    /// Its pointers, each the name of an object or nil.
    pub fn pointers(&self) -> &[Option<usize>]
        ensures { result.now ≡ self.now.pointers }
    {
        self.pointers.as_slice()
    }

    /// Its plain words.
    pub fn plain(&self) -> &[u64]
        ensures { result.now ≡ self.now.plain }
    {
        self.plain.as_slice()
    }

    /// Header, pointers and plain words.
    pub fn size(&self) -> u64
        ensures size { result ≡ size_of self.now }
        ensures bound { result ≤ 200001 }
    {
        1 + self.pointers.len() as u64 + self.plain.len() as u64
    }

    /// Whether it takes more than a quarter of a block of so many words.
    pub fn is_large(&self, block_words: u64) -> bool
        ensures { result ≡ is_large block_words self.now }
    {
        block_words / 4 < self.size()
    }

    /// The object where it stands after it survived a collection.
    pub fn moved(self, config: &Config) -> Self
        ensures { result ≡ moved config.now.shape self }
    {
        let (generation, step) = config.dest(self.generation, self.step);
        let Object {
            pointers,
            plain,
            ..
        } = self;
        Object {
            pointers,
            plain,
            generation,
            step,
        }
    }

    /// The pointer of this number leads to the target from now on.
    pub fn set_pointer(&mut self, field: usize, target: Option<usize>)
        requires { field < length self.old.pointers }
        ensures { self.new ≡ with_pointer self.old field target }
    {
        self.pointers[field] = target;
    }

    /// The plain word of this number is the value from now on.
    pub fn set_plain(&mut self, field: usize, value: u64)
        requires { field < length self.old.plain }
        ensures { self.new ≡ record self.old { plain = slice_set self.old.plain field value } }
    {
        self.plain[field] = value;
    }
}

fn nil_pointers<A: Allocator>(alloc: A, p: u64) -> Result<Vec<Option<usize>, A>, AllocError>
    ensures { IfOk result (λ v. v.items ≡ replicate p None) }
{
    let mut pointers = Vec::new(alloc);
    for _field in 0..p {
        pointers.push(None)?;
    }
    Ok(pointers)
}

fn zero_words<A: Allocator>(alloc: A, q: u64) -> Result<Vec<u64, A>, AllocError>
    ensures { IfOk result (λ v. v.items ≡ replicate q 0) }
{
    let mut plain = Vec::new(alloc);
    for _field in 0..q {
        plain.push(0)?;
    }
    Ok(plain)
}

impl<A: Allocator + Clone> Object<A> {
    /// A new object with so many nil pointers and zero words.
    /// An error says that memory ran out.
    pub fn fresh(alloc: A, pointers: u64, plain_words: u64) -> Result<Self, AllocError>
        requires pointers { pointers ≤ 100000 }
        requires plain { plain_words ≤ 100000 }
        ensures { IfOk result (λ o. o ≡ fresh_object pointers plain_words) }
    {
        let pointers = nil_pointers(alloc.clone()?, pointers)?;
        let plain = zero_words(alloc, plain_words)?;
        Ok(Object {
            pointers,
            plain,
            generation: 0,
            step: 0,
        })
    }
}
