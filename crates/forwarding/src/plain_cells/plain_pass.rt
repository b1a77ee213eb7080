//! What one worker knows of plain cells, and has won.
ghost use Rattle.std.specs.Prelude.{◌≡◌, ◌∷◌, ◌++◌, [], Some, slice_set};
ghost use Rattle.forwarding.specs.Plain.{fresh_pass};

use crate::plain_cells::minds::{Fresh, Learned, Mind, Winner};
use crate::plain_cells::remembered::Remembered;
use layout::Place;
use std::marker::Model;

/// What one worker knows and has won. It is there for contracts alone: it has no bytes, and costs nothing at run time.
#[derive(Drop)]
pub struct PlainPass {
    pub(crate) mind: Remembered<Mind>,
}

impl Model for PlainPass {
    ghost use Rattle.forwarding.specs.Plain.{PlainPassValue};

    ghost Value = { PlainPassValue };

    ghost view = { λ p. record {
      number = p.mind.value.number;
      passes = p.mind.value.passes;
      known = p.mind.value.known;
      won = p.mind.value.won;
    } };
}

impl PlainPass {
    /// A pass that knows nothing and has won nothing.
    pub(crate) fn new(count: u32, passes: usize, number: usize) -> PlainPass
        ensures { result ≡ fresh_pass count passes number }
    {
        PlainPass {
            mind: Remembered::of::<(u32, usize, usize), Fresh>(&(count, passes, number)),
        }
    }

    /// The pass knows the place of the name.
    #[inline(always)]
    pub(crate) fn learn(&mut self, name: u32, place: Place)
        ensures { self.new ≡ record self.old { known = slice_set self.old.known name (Some place) } }
    {
        self.mind = Remembered::of::<(&Remembered<Mind>, u32, Place), Learned>(&(
            &self.mind, name, place,
        ));
    }

    /// The pass has won the pair.
    #[inline(always)]
    pub(crate) fn win(&mut self, name: u32, place: Place)
        ensures { self.new ≡ record self.old { won = self.old.won ++ (name, place) ∷ [] } }
    {
        self.mind = Remembered::of::<(&Remembered<Mind>, u32, Place), Winner>(&(
            &self.mind, name, place,
        ));
    }
}
