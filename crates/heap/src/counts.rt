//! The counts of a heap's objects, step by step.
ghost use Rattle.std.specs.Prelude.{◌≡◌, ◌≤◌, map, length};
ghost use Rattle.std.specs.FinMap.{values};
ghost use Rattle.model.specs.Census.{step_count};
ghost use Rattle.model.specs.Destination.{all_steps};
ghost use Rattle.steps.specs.StepPairs.{step_pair};
ghost use Rattle.steps.specs.CensusView.{step_value};

use arrayvec::ArrayVec;
use heap_objects::HeapObjects;
use std::alloc::Allocator;
use steps::{MOST_STEPS, StepCount, StepId};

/// The objects of each of these steps.
fn counts_of<A: Allocator + Clone>(
    objects: &HeapObjects<A>,
    steps: &[StepId],
) -> ArrayVec<StepCount, MOST_STEPS>
    requires { length steps.now ≤ 13 }
    ensures { map step_value result.items ≡ map (step_count objects.now.config.block_words (values objects.now.objects))
        (map step_pair steps.now) }
{
    let mut counts = ArrayVec::new();
    for number in 0..steps.len() {
        counts.push(objects.count(steps[number]));
    }
    counts
}

/// The small objects of each generation and step.
pub(crate) fn step_counts<A: Allocator + Clone>(
    objects: &HeapObjects<A>,
) -> ArrayVec<StepCount, MOST_STEPS>
    ensures { map step_value result.items ≡ map (step_count objects.now.config.block_words (values objects.now.objects))
        (all_steps objects.now.config.shape) }
{
    let steps = objects.config().all_steps();
    counts_of(objects, steps.as_slice())
}
