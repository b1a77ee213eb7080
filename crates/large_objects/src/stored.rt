//! One large object: its words in one piece of memory, its label and its blocks.
ghost use Rattle.std.specs.Prelude.{◌≡◌, ◌+◌, ◌-◌, ◌<◌, ◌≤◌, ◌++◌, length, drop, replicate};
ghost use Rattle.layout.specs.ObjectRef.{raw_of};
ghost use Rattle.block_pool.specs.BlockValue.{with_pointer_word, with_plain_word};
ghost use Rattle.large_objects.specs.LargeValue.{made};

use layout::ObjectRef;
use std::alloc::{Allocator, Global};
use std::marker::Model;

/// A large object. The words of its pointers come first, and its plain words follow.
#[derive(Drop)]
pub(crate) struct StoredObject<A: Allocator = Global> {
    generation: u8,
    step: u8,
    pointers: u32,
    words: Vec<u64, A>,
    blocks: Vec<u32, A>,
}

impl<A: Allocator> Model for StoredObject<A> {
    ghost use Rattle.large_objects.specs.LargeValue.{LargeObject, large_code};

    ghost Value = { LargeObject };

    ghost coded = { large_code };

    ghost use Rattle.large_objects.specs.Stored.{raw_in, IsStored};

    ghost view = { λ o. record {
      generation = o.generation;
      step = o.step;
      raw = raw_in o.pointers o.words.items;
      blocks = o.blocks.items;
    } };

    ghost invariant = { λ o. IsStored o.pointers o.words.items };
}

/// Puts other words in the place of the first ones.
fn replace_first(words: &mut [u64], new: &[u64])
    requires { length new.now ≤ length words.old }
    ensures { words.new ≡ new.now ++ drop (length new.now) words.old }
{
    words[..new.len()].copy_from_slice(new);
}

impl<A: Allocator> StoredObject<A> {
    /// A new object in words that are all 0, of which the first `p` are its pointers.
    pub(crate) fn new(p: u32, words: Vec<u64, A>, blocks: Vec<u32, A>) -> Self
        requires zeros { words.items ≡ replicate (length words.items) 0 }
        requires pointers_in_words { p ≤ length words.items }
        requires pointers_in_range { p ≤ 100000 }
        requires plain_in_range { length words.items ≤ p + 100000 }
        ensures { result ≡ made p (length words.items - p) blocks.items }
    {
        StoredObject {
            generation: 0,
            step: 0,
            pointers: p,
            words,
            blocks,
        }
    }

    /// The object where it lies.
    pub(crate) fn show(&self) -> ObjectRef<'_>
        ensures raw { raw_of result ≡ self.now.raw }
        ensures ordinal { result.header.ordinal ≡ 0 }
    {
        let middle = self.pointers as usize;
        ObjectRef::new(0, &self.words[..middle], &self.words[middle..])
    }

    /// The generation and the step that it belongs to.
    pub(crate) fn label(&self) -> (u8, u8)
        ensures { result ≡ (self.now.generation, self.now.step) }
    {
        (self.generation, self.step)
    }

    /// The numbers of its blocks.
    pub(crate) fn blocks(&self) -> &[u32]
        ensures { result.now ≡ self.now.blocks }
    {
        &self.blocks
    }

    /// Gives it another generation and step.
    pub(crate) fn relabel(&mut self, generation: u8, step: u8)
        ensures { self.new ≡ record self.old { generation = generation; step = step } }
    {
        self.generation = generation;
        self.step = step;
    }

    /// Changes pointer `i`.
    pub(crate) fn set_pointer(&mut self, i: usize, word: u64)
        requires { i < length self.old.raw.pointers }
        ensures { self.new ≡ record self.old { raw = with_pointer_word self.old.raw i word } }
    {
        self.words[i] = word;
    }

    /// Changes plain word `i`.
    pub(crate) fn set_plain(&mut self, i: usize, word: u64)
        requires { i < length self.old.raw.plain }
        ensures { self.new ≡ record self.old { raw = with_plain_word self.old.raw i word } }
    {
        self.words[self.pointers as usize + i] = word;
    }

    /// Changes all pointers.
    pub(crate) fn set_pointers(&mut self, words: &[u64])
        requires { length words.now ≡ length self.old.raw.pointers }
        ensures { self.new ≡ record self.old { raw = record self.old.raw { pointers = words.now } } }
    {
        replace_first(&mut self.words, words);
    }
}
