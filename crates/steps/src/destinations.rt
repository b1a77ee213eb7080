//! Where the survivors of a collection go.
ghost use Rattle.std.specs.Prelude.{◌≡◌, ◌<◌, length, slice_get};
ghost use Rattle.std.specs.Option.{option_map};
ghost use Rattle.model.specs.DestinationList.{destination_at, destination_list};
ghost use Rattle.steps.specs.StepPairs.{step_pair};

use crate::config::Config;
use crate::step_id::StepId;
use arrayvec::ArrayVec;
use std::marker::Model;

/// The most destinations that a collection has: four steps of each of three generations.
const MOST_DESTINATIONS: usize = 12;

/// The places that the survivors of a collection go to, each once: by generation, then by step.
#[derive(Debug, Drop)]
pub struct Destinations {
    places: ArrayVec<StepId, MOST_DESTINATIONS>,
}

impl Model for Destinations {
    ghost use Rattle.std.specs.Prelude.{ℕ, List, map};
    ghost use Rattle.std.specs.Coded.{coded×, coded_ℕ, coded_list};
    ghost use Rattle.steps.specs.StepPairs.{step_pair};

    ghost Value = { List (ℕ × ℕ) };

    ghost coded = { coded_list (coded× coded_ℕ coded_ℕ) };

    ghost view = { λ d. map step_pair d.places.items };
}

/// The destination with a number.
fn destination_at(config: &Config, number: usize) -> StepId
    requires { number < 12 }
    ensures { step_pair result ≡ destination_at config.now.shape number }
{
    if config.generations() == 1 {
        return StepId {
            generation: 0,
            step: 0,
        };
    }
    let steps = config.steps();
    StepId {
        generation: ((number + 1) / steps) as u8,
        step: ((number + 1) % steps) as u8,
    }
}

impl Destinations {
    /// Those of a collection of the generations 0 to `generation`. Takes no memory.
    pub fn new(config: Config, generation: u8) -> Destinations
        requires { generation < config.shape.generations }
        ensures { result ≡ destination_list config.shape generation }
    {
        let mut places = ArrayVec::new();
        for number in 0..config.dest_count(generation) {
            places.push(destination_at(&config, number));
        }
        Destinations { places }
    }

    /// How many there are.
    pub fn len(&self) -> usize
        ensures { result ≡ length self.now }
    {
        self.places.len()
    }

    /// The one with that number, where there is one.
    pub fn get(&self, number: usize) -> Option<StepId>
        ensures { option_map step_pair result ≡ slice_get self.now number }
    {
        let places = self.places.as_slice();
        if number < places.len() {
            return Some(places[number]);
        }
        None
    }
}
