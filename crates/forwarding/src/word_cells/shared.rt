//! Word cells as workers share them.
ghost use Rattle.std.specs.Prelude.{◌≡◌};
ghost use Rattle.forwarding.specs.Known.{known_in};

use crate::cells::{Cells, Outcome};
use crate::word_cells::word_cells::{WordCells, WordPass};
use layout::Place;
use std::alloc::{AllocError, Allocator};

impl<A: Allocator> Cells for &WordCells<A> {
    type Pass = WordPass;

    ghost limit = { λ c. c.now.count };

    ghost fits = { λ c p. p.id ≡ c.now.id };

    ghost at_home = { λ c p. p.id ≡ c.now.id };

    ghost known = { λ p. known_in p.known };

    ghost won = { λ p. p.won };

    ghost apart = { λ _ _. Unit {0} };

    ghost look_gives = { λ _ _ _. Unit {0} };

    ghost race_gives = { λ _ _ _ _ _. Unit {0} };

    ghost may_refuse = { ⊥ };

    fn count(&self) -> u32 {
        WordCells::count(self)
    }

    fn look(&mut self, pass: &mut WordPass, name: u32) -> Option<Place> {
        WordCells::look(self, pass, name)
    }

    fn race(
        &mut self,
        pass: &mut WordPass,
        name: u32,
        place: Place,
    ) -> Result<Outcome, AllocError> {
        Ok(WordCells::race(self, pass, name, place))
    }
}
