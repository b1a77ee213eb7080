//! Cells that threads share, as whoever makes and settles them sees them.
ghost use Rattle.std.specs.Prelude.{◌≡◌, ◌<◌, ℕ, List, Option, Some, IfOk, OnErr};
ghost use Rattle.layout.specs.declared.place.Place.{Place as At};
ghost use Rattle.forwarding.specs.Learned.{Learns, RaceEnds, place_after};

use crate::Outcome;
use layout::Place;
use std::alloc::AllocError;

/// Cells of a collection that workers on threads of their own share. Worker `i` steps with pass `i`.
pub trait SharedCells {
    /// What one worker knows of the cells, and has won.
    type Pass: Send + Drop;

    // The number of cells.
    ghost limit: { Self → ℕ };

    // The pass is worker i's pass of these cells.
    ghost is_pass: { Self → ℕ → Self.Pass → Type 0 };

    // The place that a pass knows for a name.
    ghost known: { Self.Pass → ℕ → Option At };

    // The pairs that a pass won, in order.
    ghost won: { Self.Pass → List (ℕ × At) };

    /// The number of cells. Names are below it.
    fn cell_count(&self) -> u32
        ensures { result ≡ limit self.now };

    /// The place of the name, where the cell shows one; the pass then knows it. A pass that knows a place gets it again.
    fn look_at(&self, pass: &mut Self::Pass, name: u32) -> Option<Place>
        requires pass { (i : ℕ) × is_pass self.now i pass.old }
        requires name { name < limit self.now }
        ensures pass { (cells : Self) (i : ℕ) → is_pass cells i pass.old → is_pass cells i pass.new }
        ensures known { Learns (known pass.old) (known pass.new) name result }
        ensures won { won pass.new ≡ won pass.old };

    /// Sets the name's cell to the place, unless it shows one. Won: the pass knows the place passed, and has won the
    /// pair; Lost: it knows the place that the cell shows. An error says that memory ran out, and changes nothing.
    fn race_for(
        &self,
        pass: &mut Self::Pass,
        name: u32,
        place: Place,
    ) -> Result<Outcome, AllocError>
        requires pass { (i : ℕ) × is_pass self.now i pass.old }
        requires name { name < limit self.now }
        ensures pass { (cells : Self) (i : ℕ) → is_pass cells i pass.old → is_pass cells i pass.new }
        ensures known { IfOk result (λ o. Learns (known pass.old) (known pass.new) name (Some (place_after o place))) }
        ensures won { IfOk result (λ o. RaceEnds (known pass.old name) (won pass.old) (won pass.new) name place o) }
        ensures err { OnErr result (pass.new ≡ pass.old) };
}
