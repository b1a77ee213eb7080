//! Boxed cells as workers share them.
ghost use Rattle.std.specs.Prelude.{◌≡◌, length};

use crate::box_cells::box_cells::{BoxCells, BoxPass};
use crate::cells::{Cells, Outcome};
use layout::Place;
use std::alloc::AllocError;

impl Cells for &BoxCells {
    ghost use Rattle.forwarding.specs.Noted.{IsPassOf, IsApart, known_at, won_by};

    type Pass = BoxPass;

    ghost limit = { λ c. length c.now };

    ghost fits = { λ c p. IsPassOf c.now p };

    ghost at_home = { λ c p. IsPassOf c.now p };

    ghost known = { known_at };

    ghost won = { won_by };

    ghost apart = { IsApart };

    ghost look_gives = { λ _ _ _. Unit {0} };

    ghost race_gives = { λ _ _ _ _ _. Unit {0} };

    ghost may_refuse = { Unit {0} };

    fn count(&self) -> u32 {
        BoxCells::count(self)
    }

    fn look(&mut self, pass: &mut BoxPass, name: u32) -> Option<Place> {
        BoxCells::look(self, pass, name)
    }

    fn race(&mut self, pass: &mut BoxPass, name: u32, place: Place) -> Result<Outcome, AllocError> {
        BoxCells::race(self, pass, name, place)
    }
}
