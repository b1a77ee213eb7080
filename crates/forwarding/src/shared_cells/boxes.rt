//! Boxed cells as threads share them.
ghost use Rattle.std.specs.Prelude.{◌≡◌, length};

use crate::shared_cells::shared::SharedCells;
use crate::{BoxCells, BoxPass, Outcome};
use layout::Place;
use std::alloc::AllocError;

impl SharedCells for BoxCells {
    ghost use Rattle.forwarding.specs.Noted.{known_at, won_by};
    ghost use Rattle.forwarding.specs.Passes.{IsBoxPass};

    type Pass = BoxPass;

    ghost limit = { λ c. length c };

    ghost is_pass = { IsBoxPass };

    ghost known = { known_at };

    ghost won = { won_by };

    fn cell_count(&self) -> u32 {
        self.count()
    }

    fn look_at(&self, pass: &mut BoxPass, name: u32) -> Option<Place> {
        self.look(pass, name)
    }

    fn race_for(&self, pass: &mut BoxPass, name: u32, place: Place) -> Result<Outcome, AllocError> {
        self.race(pass, name, place)
    }
}
