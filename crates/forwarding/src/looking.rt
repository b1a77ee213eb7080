//! A caller that serves every kind of cells.
ghost use Rattle.std.specs.Prelude.{◌<◌, ◌≡◌, Some, IfOk, OnErr};
ghost use Rattle.forwarding.specs.KeepsPasses.{KeepsPasses};
ghost use Rattle.forwarding.specs.Learned.{Learns};

use crate::cells::{Cells, Outcome};
use layout::Place;
use std::alloc::AllocError;

/// The place of the name, which is the one passed where the cell showed none. An error says that memory ran out.
pub fn look_then_race<C: Cells>(
    cells: &mut C,
    pass: &mut C::Pass,
    name: u32,
    mine: Place,
) -> Result<Place, AllocError>
    requires pass { C.fits cells.old pass.old }
    requires name { name < C.limit cells.old }
    ensures keeps { KeepsPasses C.limit C.fits C.at_home C.apart cells.old pass.old cells.new pass.new }
    ensures known { IfOk result (λ p. Learns (C.known pass.old) (C.known pass.new) name (Some p)) }
    ensures refused { OnErr result C.may_refuse }
{
    if let Some(there) = cells.look(pass, name) {
        return Ok(there);
    }
    match cells.race(pass, name, mine)? {
        Outcome::Won => Ok(mine),
        Outcome::Lost(first) => Ok(first),
    }
}
