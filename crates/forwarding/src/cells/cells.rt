//! Cells that are set once, as a worker sees them.
ghost use Rattle.std.specs.Prelude.{◌≡◌, ◌≢◌, ◌<◌, ℕ, List, Option, Some, None, IfOk, OnErr};
ghost use Rattle.layout.specs.declared.place.Place.{Place as At};
ghost use Rattle.forwarding.specs.declared.cells.outcome.Outcome.{Outcome as Ended};
ghost use Rattle.forwarding.specs.KeepsPasses.{KeepsPasses};
ghost use Rattle.forwarding.specs.Learned.{Learns, RaceEnds, place_after};

use crate::cells::outcome::Outcome;
use layout::Place;
use std::alloc::AllocError;

/// Cells of a collection, one for each name, numbered from 0. A worker steps with a pass of its own, which remembers
/// what it knows and what it won.
pub trait Cells {
    /// What one worker knows of the cells, and has won.
    type Pass;

    // The number of cells.
    ghost limit: { Self → ℕ };

    // The pass is one of these cells.
    ghost fits: { Self → Self.Pass → Type 0 };

    // The pass was made with cells that have these cells' name, which no step changes.
    ghost at_home: { Self → Self.Pass → Type 0 };

    // The place that a pass knows for a name.
    ghost known: { Self.Pass → ℕ → Option At };

    // The pairs that a pass won, in order.
    ghost won: { Self.Pass → List (ℕ × At) };

    // The two passes were given to two workers.
    ghost apart: { Self.Pass → Self.Pass → Type 0 };

    // What a look may answer.
    ghost look_gives: { Self → ℕ → Option At → Type 0 };

    // How a race may end, and the cells after it.
    ghost race_gives: { Self → ℕ → At → Ended → Self → Type 0 };

    // A race may find no memory.
    ghost may_refuse: { Type 0 };

    /// The number of cells. Names are below it.
    fn count(&self) -> u32
        ensures { result ≡ limit self.now };

    /// The place of the name, where the cell shows one; the pass then knows it. A pass that knows a place gets it again.
    fn look(&mut self, pass: &mut Self::Pass, name: u32) -> Option<Place>
        requires pass { fits self.old pass.old }
        requires name { name < limit self.old }
        ensures cells { self.new ≡ self.old }
        ensures keeps { KeepsPasses limit fits at_home apart self.old pass.old self.new pass.new }
        ensures known { Learns (known pass.old) (known pass.new) name result }
        ensures won { won pass.new ≡ won pass.old }
        ensures exact { look_gives self.old name result };

    /// Sets the name's cell to the place, unless it shows one. Won: the pass knows the place passed, and has won the
    /// pair; Lost: it knows the place that the cell shows. An error says that memory ran out, and changes nothing.
    fn race(
        &mut self,
        pass: &mut Self::Pass,
        name: u32,
        place: Place,
    ) -> Result<Outcome, AllocError>
        requires pass { fits self.old pass.old }
        requires name { name < limit self.old }
        ensures keeps { KeepsPasses limit fits at_home apart self.old pass.old self.new pass.new }
        ensures exact { IfOk result (λ o. race_gives self.old name place o self.new) }
        ensures refused { OnErr result may_refuse }
        ensures known { IfOk result (λ o. Learns (known pass.old) (known pass.new) name (Some (place_after o place))) }
        ensures won { IfOk result (λ o. RaceEnds (known pass.old name) (won pass.old) (won pass.new) name place o) }
        ensures err { OnErr result ((self.new ≡ self.old) × (pass.new ≡ pass.old)) };
}
