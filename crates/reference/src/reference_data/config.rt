//! The sizes of a heap.
ghost use Rattle.std.specs.Prelude.{◌≡◌};
ghost use Rattle.model.specs.Destination.{dest};

use std::marker::Model;

/// Words of a block, blocks in all, mutators, nursery blocks of each, generations, and steps of each but the oldest.
#[derive(Clone, Copy, Debug)]
pub struct Config {
    /// How many words a block has. An object of more than a quarter is large.
    pub block_words: u64,
    /// How many blocks there are in all.
    pub blocks: u64,
    /// How many mutators there are, each with a nursery of its own.
    pub mutators: u64,
    /// How many blocks each nursery has.
    pub nursery_blocks: u64,
    /// How many generations there are.
    pub generations: u64,
    /// How many steps each generation has but the oldest, which has one.
    pub steps: u64,
}

impl Model for Config {
    ghost use Rattle.model.specs.Config as meant;
    ghost use Rattle.model.specs.Config.{config_code};

    ghost Value = { meant.Config };

    ghost coded = { config_code };

    ghost view = { λ c. record {
      block_words = c.block_words;
      blocks = c.blocks;
      mutators = c.mutators;
      nursery_blocks = c.nursery_blocks;
      shape = record { generations = c.generations; steps = c.steps };
    } };

    ghost inverse = { λ c. record {
      block_words = c.block_words;
      blocks = c.blocks;
      mutators = c.mutators;
      nursery_blocks = c.nursery_blocks;
      generations = c.shape.generations;
      steps = c.shape.steps;
    } };
}

impl Config {
    /// The generation and step where an object of this generation and step goes when it survives.
    pub fn dest(&self, generation: u64, step: u64) -> (u64, u64)
        ensures { result ≡ dest self.now.shape (generation, step) }
    {
        let oldest = self.generations.saturating_sub(1);
        if generation < oldest {
            if step < self.steps.saturating_sub(1) {
                (generation, step + 1)
            } else {
                (generation + 1, 0)
            }
        } else {
            (oldest, 0)
        }
    }
}
