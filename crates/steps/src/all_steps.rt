//! Every generation and step of a heap.
ghost use Rattle.std.specs.Prelude.{◌≡◌, ◌+◌, ◌≤◌, ◌++◌, map, length};
ghost use Rattle.model.specs.Destination.{all_steps, numbers_from};
ghost use Rattle.steps.specs.StepPairs.{step_pair};

use crate::config::Config;
use crate::step_id::StepId;
use arrayvec::ArrayVec;

/// The most steps that a heap has: four in each of three generations, and one in the oldest.
pub const MOST_STEPS: usize = 13;

/// Puts the steps of a generation at the end.
fn push_steps(found: &mut ArrayVec<StepId, MOST_STEPS>, generation: u8, steps: usize)
    requires room { length found.old.items + steps ≤ 13 }
    requires few { steps ≤ 4 }
    ensures { map step_pair found.new.items ≡
        map step_pair found.old.items ++ map (λ s. (generation, s)) (numbers_from 0 steps) }
{
    for step in 0..steps {
        found.push(StepId {
            generation,
            step: step as u8,
        });
    }
}

impl Config {
    /// Every generation and step, generations rising, steps rising.
    pub fn all_steps(&self) -> ArrayVec<StepId, MOST_STEPS>
        ensures steps { map step_pair result.items ≡ all_steps self.now.shape }
        ensures few { length result.items ≤ 13 }
    {
        let mut found = ArrayVec::new();
        let steps = self.steps();
        let oldest = self.generations() - 1;
        for generation in 0..oldest {
            push_steps(&mut found, generation as u8, steps);
        }
        found.push(StepId {
            generation: oldest as u8,
            step: 0,
        });
        found
    }
}
