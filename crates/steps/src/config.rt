//! The sizes of a heap.
ghost use Rattle.std.specs.Prelude.{◌≡◌, ◌+◌, ◌-◌, ◌*◌, ◌%◌, ◌↔◌, IsOk, IfOk};
ghost use Rattle.model.specs.Destination.{dest, dest_count};
ghost use Rattle.steps.specs.ConfigRange.{IsInRange, sizes_of};
ghost use Rattle.steps.specs.StepPairs.{step_pair};

use crate::step_id::StepId;
use std::marker::Model;
use thiserror::Error;

/// Sizes of a heap as a user gives them, any of which may be out of range.
#[derive(Clone, Copy, Debug, PartialEq, Eq)]
pub struct Sizes {
    /// Words of a block: 16 to 512, a multiple of 4.
    pub block_words: u64,
    /// Blocks in all: 1 to 65,535.
    pub blocks: u64,
    /// 1 to 16.
    pub mutators: u64,
    /// Nursery blocks of a mutator: 1 to 64.
    pub nursery_blocks: u64,
    /// 1 to 4.
    pub generations: u64,
    /// Steps of each generation but the oldest: 1 to 4.
    pub steps: u64,
}

impl Default for Sizes {
    ghost use Rattle.steps.specs.ConfigRange.{default_sizes};
    ghost use Rattle.std.specs.Prelude.{◌≡◌};

    ghost is_default = { λ sizes. sizes ≡ default_sizes };

    /// 4,096 blocks of 512 words; one mutator, with a nursery of 4 blocks; two generations, the young one with two steps.
    fn default() -> Sizes {
        Sizes {
            block_words: 512,
            blocks: 4096,
            mutators: 1,
            nursery_blocks: 4,
            generations: 2,
            steps: 2,
        }
    }
}

/// A size is out of its range.
#[derive(Clone, Copy, Debug, PartialEq, Eq, Error)]
#[error("a size is out of its range")]
pub struct BadConfig;

/// Sizes of a heap, each in its range.
#[derive(Clone, Copy, Debug, PartialEq, Eq)]
pub struct Config {
    block_words: usize,
    blocks: usize,
    mutators: usize,
    nursery_blocks: usize,
    generations: usize,
    steps: usize,
}

impl Model for Config {
    ghost use Rattle.model.specs.Config.{Config as Shown, config_code};

    ghost Value = { Shown };

    ghost coded = { config_code };

    ghost use Rattle.steps.specs.ConfigView.{view_of, fields_of};
    ghost use Rattle.steps.specs.ConfigRange.{IsInRange};

    ghost view = { view_of };

    ghost invariant = { λ c. IsInRange (view_of c) };

    ghost inverse = { fields_of };
}

impl Config {
    /// Sizes in range: blocks of 16 to 512 words, a multiple of 4; 1 to 65,535 blocks; 1 to 16 mutators; 1 to 64 nursery
    /// blocks of each; 1 to 4 generations; 1 to 4 steps.
    pub fn new(sizes: Sizes) -> Result<Config, BadConfig>
        ensures ok { IfOk result (λ config. config ≡ sizes_of sizes) }
        ensures in_range { IsOk result ↔ IsInRange (sizes_of sizes) }
    {
        let words = sizes.block_words;
        if words < 16 || words > 512 || words % 4 != 0 {
            return Err(BadConfig);
        }
        if sizes.blocks < 1 || sizes.blocks > 65535 {
            return Err(BadConfig);
        }
        if sizes.mutators < 1 || sizes.mutators > 16 {
            return Err(BadConfig);
        }
        if sizes.nursery_blocks < 1 || sizes.nursery_blocks > 64 {
            return Err(BadConfig);
        }
        if sizes.generations < 1 || sizes.generations > 4 || sizes.steps < 1 || sizes.steps > 4 {
            return Err(BadConfig);
        }
        Ok(Config {
            block_words: words as usize,
            blocks: sizes.blocks as usize,
            mutators: sizes.mutators as usize,
            nursery_blocks: sizes.nursery_blocks as usize,
            generations: sizes.generations as usize,
            steps: sizes.steps as usize,
        })
    }

    /// Words of a block: 16 to 512, a multiple of 4.
    pub fn block_words(&self) -> usize
        ensures value { result ≡ self.now.block_words }
        ensures in_range { IsInRange self.now }
    {
        self.block_words
    }

    /// Blocks in all: 1 to 65,535.
    pub fn blocks(&self) -> usize
        ensures value { result ≡ self.now.blocks }
        ensures in_range { IsInRange self.now }
    {
        self.blocks
    }

    /// 1 to 16.
    pub fn mutators(&self) -> usize
        ensures value { result ≡ self.now.mutators }
        ensures in_range { IsInRange self.now }
    {
        self.mutators
    }

    /// Nursery blocks of each mutator: 1 to 64.
    pub fn nursery_blocks(&self) -> usize
        ensures value { result ≡ self.now.nursery_blocks }
        ensures in_range { IsInRange self.now }
    {
        self.nursery_blocks
    }

    /// 1 to 4.
    pub fn generations(&self) -> usize
        ensures value { result ≡ self.now.shape.generations }
        ensures in_range { IsInRange self.now }
    {
        self.generations
    }

    /// Steps of each generation but the oldest, which has one: 1 to 4.
    pub fn steps(&self) -> usize
        ensures value { result ≡ self.now.shape.steps }
        ensures in_range { IsInRange self.now }
    {
        self.steps
    }

    /// Where an object of that step goes when it survives a collection: to the next step, after the last one to the
    /// next generation. The oldest generation has one step.
    pub fn dest(&self, at: StepId) -> StepId
        ensures { step_pair result ≡ dest self.now.shape (step_pair at) }
    {
        let oldest = self.generations - 1;
        if at.generation as usize >= oldest {
            return StepId {
                generation: oldest as u8,
                step: 0,
            };
        }
        if (at.step as usize) < self.steps - 1 {
            return StepId {
                generation: at.generation,
                step: at.step + 1,
            };
        }
        StepId {
            generation: at.generation + 1,
            step: 0,
        }
    }

    /// How many destinations a collection of the generations 0 to `generation` has.
    pub fn dest_count(&self, generation: u8) -> usize
        ensures value { result ≡ dest_count self.now.shape generation }
        ensures in_range { IsInRange self.now }
    {
        let oldest = self.generations - 1;
        let generation = generation as usize;
        if generation < oldest {
            return (generation + 1) * self.steps;
        }
        (oldest * self.steps).max(1)
    }

    /// The number of a destination: they are numbered from 0, by generation, then by step. Step 0 of generation 0 is none, but
    /// for a heap of one generation, whose only destination it is.
    pub fn dest_number(&self, to: StepId) -> usize
        ensures { result ≡ to.generation * self.now.shape.steps + to.step - 1 }
    {
        let after = to.generation as usize * self.steps + to.step as usize;
        after.saturating_sub(1)
    }
}
