//! Word cells as threads share them.
ghost use Rattle.std.specs.Prelude.{◌≡◌};

use crate::shared_cells::shared::SharedCells;
use crate::{Outcome, WordCells, WordPass};
use layout::Place;
use std::alloc::{AllocError, Allocator};

impl<A: Allocator> SharedCells for WordCells<A> {
    ghost use Rattle.forwarding.specs.Known.{known_in};

    type Pass = WordPass;

    ghost limit = { λ c. c.count };

    ghost is_pass = { λ c _ p. p.id ≡ c.id };

    ghost known = { λ p. known_in p.known };

    ghost won = { λ p. p.won };

    fn cell_count(&self) -> u32 {
        self.count()
    }

    #[inline(always)]
    fn look_at(&self, pass: &mut WordPass, name: u32) -> Option<Place> {
        self.look(pass, name)
    }

    #[inline(always)]
    fn race_for(
        &self,
        pass: &mut WordPass,
        name: u32,
        place: Place,
    ) -> Result<Outcome, AllocError> {
        Ok(self.race(pass, name, place))
    }
}
