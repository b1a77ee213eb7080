//! The counts that a census shows.
ghost use Rattle.std.specs.Prelude.{◌≡◌, ◌≤◌, filter, length, count_by, sum_by, nat_lt};
ghost use Rattle.model.specs.Graph.{size_of};
ghost use Rattle.model.specs.Store.{object_at, present};
ghost use Rattle.model.specs.Census.{points_to, points_younger};
ghost use Rattle.reference.specs.Plain.{in_part, is_slot_in, words_in, is_slot_remembered};

use crate::reference_data::{Config, Object};
use crate::store::Store;
use std::alloc::Allocator;

/// The large objects, or the small ones of a generation and step.
fn is_in<A: Allocator>(config: &Config, part: Option<(u64, u64)>, object: &Object<A>) -> bool
    ensures { result ≡ in_part config.now.block_words part object.now }
{
    match part {
        None => object.is_large(config.block_words),
        Some((generation, step)) => {
            object.generation() == generation
                && object.step() == step
                && !object.is_large(config.block_words)
        }
    }
}

fn is_slot_in<A: Allocator>(
    config: &Config,
    part: Option<(u64, u64)>,
    slot: &Option<Object<A>>,
) -> bool
    ensures { result ≡ is_slot_in config.now.block_words part slot.now }
{
    match slot {
        Some(object) => is_in(config, part, object),
        None => false,
    }
}

fn words_in<A: Allocator>(
    config: &Config,
    part: Option<(u64, u64)>,
    slot: &Option<Object<A>>,
) -> u64
    ensures words { result ≡ words_in config.now.block_words part slot.now }
    ensures bound { result ≤ 200001 }
{
    match slot {
        Some(object) => {
            if is_in(config, part, object) {
                object.size()
            } else {
                0
            }
        }
        None => 0,
    }
}

impl<A: Allocator + Clone> Store<A> {
    fn slots_in(&self, config: &Config, part: Option<(u64, u64)>) -> usize
        ensures { result ≡ count_by (is_slot_in config.now.block_words part) self.now.objects }
    {
        self.objects
            .iter()
            .filter(|slot| is_slot_in(config, part, slot))
            .count()
    }

    fn slot_words_in(&self, config: &Config, part: Option<(u64, u64)>) -> u128
        ensures { result ≡ sum_by (words_in config.now.block_words part) self.now.objects }
    {
        let mut words: u128 = 0;
        for slot in &self.objects {
            words += u128::from(words_in(config, part, slot));
        }
        words
    }

    fn points_to_younger(&self, generation: u64, pointer: Option<usize>) -> bool
        ensures { result ≡ points_to (λ target. nat_lt target.generation generation) (object_at self.now) pointer }
    {
        match pointer {
            Some(name) => match self.object_at(name) {
                Some(object) => object.generation() < generation,
                None => false,
            },
            None => false,
        }
    }

    fn points_younger(&self, object: &Object<A>) -> bool
        ensures { result ≡ points_younger (object_at self.now) object.now }
    {
        let generation = object.generation();
        object
            .pointers()
            .iter()
            .any(|pointer| self.points_to_younger(generation, *pointer))
    }

    fn is_slot_remembered(&self, slot: &Option<Object<A>>) -> bool
        ensures { result ≡ is_slot_remembered self.now slot.now }
    {
        match slot {
            Some(object) => self.points_younger(object),
            None => false,
        }
    }

    fn slots_remembered(&self) -> usize
        ensures { result ≡ count_by (is_slot_remembered self.now) self.now.objects }
    {
        self.objects
            .iter()
            .filter(|slot| self.is_slot_remembered(slot))
            .count()
    }

    /// How many objects the part has.
    pub(crate) fn count_in(&self, config: &Config, part: Option<(u64, u64)>) -> usize
        ensures { result ≡ length (filter (in_part config.now.block_words part) (present self.now)) }
    {
        self.slots_in(config, part)
    }

    /// The words of the part's objects.
    pub(crate) fn words_in(&self, config: &Config, part: Option<(u64, u64)>) -> u128
        ensures { result ≡ sum_by size_of (filter (in_part config.now.block_words part) (present self.now)) }
    {
        self.slot_words_in(config, part)
    }

    /// How many objects have a pointer to a younger generation.
    pub(crate) fn remembered_count(&self) -> usize
        ensures { result ≡ count_by (points_younger (object_at self.now)) (present self.now) }
    {
        self.slots_remembered()
    }
}
