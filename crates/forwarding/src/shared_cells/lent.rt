//! Shared cells as one worker steps with them.
ghost use Rattle.std.specs.Prelude.{◌≡◌};

use crate::shared_cells::gate::{Gate, StepKind};
use crate::shared_cells::shared::SharedCells;
use crate::{Cells, Outcome};
use layout::Place;
use std::alloc::AllocError;

/// Cells that are lent to worker `worker`, behind its gate.
#[derive(Drop)]
pub struct Lent<'a, S, G> {
    /// The cells, which all workers share.
    pub cells: &'a S,
    /// What is called before each look and each race.
    pub gate: &'a G,
    /// The worker's number, from 0. Its pass has the same number, and the gate is told it.
    pub worker: u32,
}

impl<'a, S: SharedCells, G: Gate> Cells for Lent<'a, S, G> {
    type Pass = S::Pass;

    ghost limit = { λ c. S.limit c.cells.now };

    ghost fits = { λ c p. S.is_pass c.cells.now c.worker p };

    ghost at_home = { λ c p. S.is_pass c.cells.now c.worker p };

    ghost known = { S.known };

    ghost won = { S.won };

    ghost apart = { λ _ _. Unit {0} };

    ghost look_gives = { λ _ _ _. Unit {0} };

    ghost race_gives = { λ _ _ _ _ _. Unit {0} };

    ghost may_refuse = { Unit {0} };

    fn count(&self) -> u32 {
        self.cells.cell_count()
    }

    #[inline(always)]
    fn look(&mut self, pass: &mut S::Pass, name: u32) -> Option<Place> {
        self.gate.before(self.worker, StepKind::Look);
        self.cells.look_at(pass, name)
    }

    #[inline(always)]
    fn race(&mut self, pass: &mut S::Pass, name: u32, place: Place) -> Result<Outcome, AllocError> {
        self.gate.before(self.worker, StepKind::Race);
        self.cells.race_for(pass, name, place)
    }
}
