//! Where the objects of a generation and step go, remembered from one copy to the next.
ghost use Rattle.std.specs.Prelude.{◌≡◌, ◌↔◌, true, IsTrue};
ghost use Rattle.model.specs.Destination.{dest};
ghost use Rattle.heap.specs.StepPairs.{step_pair};
ghost use Rattle.workers.specs.Setting.{destination_number};
ghost use Rattle.scavenge.specs.Cursors.{IsGoing, AllGo};

use steps::{Config, StepId};

/// A generation and step, and the number of the destination to which the small objects go that stand there.
#[derive(Clone, Copy)]
pub struct Going {
    /// Where the small objects stand before they are copied.
    pub from: StepId,
    /// The number of the destination to which they are copied.
    pub to: usize,
}

/// Where the small objects of a generation and step go.
#[inline(always)]
pub fn going_from(config: Config, from: StepId) -> Going
    ensures going { IsGoing config.shape result }
    ensures from { step_pair result.from ≡ step_pair from }
{
    Going {
        from,
        to: config.dest_number(config.dest(from)),
    }
}

/// Whether small objects go to destination 0 wherever they stand: in a heap of one generation, or of two with one step.
pub fn has_one_destination(config: Config) -> bool
    ensures { IsTrue result ↔ AllGo config.shape 0 }
{
    let generations = config.generations();
    if generations > 2 {
        return false;
    }
    if generations == 1 {
        return true;
    }
    config.steps() == 1
}

/// Where the small objects of a generation and step go, by what is known of the last ones.
#[inline(always)]
fn going_after(last: Going, config: Config, from: StepId) -> Going
    requires { IsGoing config.shape last }
    ensures going { IsGoing config.shape result }
    ensures from { step_pair result.from ≡ step_pair from }
{
    if from.generation == last.from.generation && from.step == last.from.step {
        return last;
    }
    going_from(config, from)
}

/// Whether the small objects that stand in that generation and step go to this destination, by what is known of the last ones.
#[inline(always)]
pub fn goes_into(
    going: &mut Going,
    config: Config,
    from: StepId,
    destination: usize,
    is_only: bool,
) -> bool
    requires going { IsGoing config.shape going.old }
    requires only { is_only ≡ true → AllGo config.shape destination }
    ensures going { IsGoing config.shape going.new }
    ensures goes { IsTrue result ↔
        (destination_number config.shape (dest config.shape (step_pair from)) ≡ destination) }
{
    if is_only {
        return true;
    }
    *going = going_after(*going, config, from);
    going.to == destination
}
