//! The counts of a heap.
ghost use Rattle.std.specs.Prelude.{◌≡◌, ◌<◌, map};
ghost use Rattle.steps.specs.CensusView.{step_value};

use crate::all_steps::MOST_STEPS;
use arrayvec::ArrayVec;
use std::marker::Model;

/// The small objects of a step, reachable or not, and how many words they take.
#[derive(Clone, Copy, Debug, Default, PartialEq, Eq)]
pub struct StepCount {
    /// The generation, 0 for the youngest.
    pub generation: u32,
    /// The step of that generation, 0 for the youngest.
    pub step: u32,
    /// How many small objects the step holds.
    pub objects: u64,
    /// How many words they take, headers included.
    pub words: u64,
}

/// The large objects, reachable or not, and how many words they take.
#[derive(Clone, Copy, Debug, Default, PartialEq, Eq)]
pub struct LargeCount {
    /// How many large objects there are, of all generations.
    pub objects: u64,
    /// How many words they take, headers included.
    pub words: u64,
}

/// How many objects of each kind a heap holds, reachable or not, and how many roots lead into it.
#[derive(Debug, Drop)]
pub struct Census {
    steps: ArrayVec<StepCount, MOST_STEPS>,
    large_objects: u64,
    large_words: u64,
    roots: u64,
    remembered: u64,
}

impl Model for Census {
    ghost use Rattle.model.specs.Census.{Census as Shown};
    ghost use Rattle.steps.specs.CensusCode.{census_code};

    ghost Value = { Shown };

    ghost coded = { census_code };

    ghost use Rattle.steps.specs.CensusView.{census_view};

    ghost view = { census_view };
}

impl Census {
    /// The census with the counts of every step, generations rising, steps rising, and that of the large objects.
    pub fn new(
        steps: ArrayVec<StepCount, MOST_STEPS>,
        large: LargeCount,
        roots: u64,
        remembered: u64,
    ) -> Census
        ensures { result ≡ record {
          steps = map step_value steps.items;
          large_objects = large.objects;
          large_words = large.words;
          roots =
              roots;
          remembered = remembered;
        } }
    {
        Census {
            steps,
            large_objects: large.objects,
            large_words: large.words,
            roots,
            remembered,
        }
    }

    /// Every step, generations rising, steps rising.
    pub fn steps(&self) -> &[StepCount]
        ensures { map step_value result.now ≡ self.now.steps }
    {
        self.steps.as_slice()
    }

    /// How many large objects there are, of all generations.
    pub fn large_objects(&self) -> u64
        ensures { result ≡ self.now.large_objects }
    {
        self.large_objects
    }

    /// How many words the large objects take.
    pub fn large_words(&self) -> u64
        ensures { result ≡ self.now.large_words }
    {
        self.large_words
    }

    /// How many roots there are.
    pub fn roots(&self) -> u64
        ensures { result ≡ self.now.roots }
    {
        self.roots
    }

    /// How many objects have a pointer to an object of a younger generation.
    pub fn remembered(&self) -> u64
        ensures { result ≡ self.now.remembered }
    {
        self.remembered
    }
}
