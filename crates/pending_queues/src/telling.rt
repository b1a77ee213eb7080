//! How what became of each block is written down when the queues are closed.
ghost use Rattle.std.specs.Prelude.{◌≡◌, ◌<◌, All, length, map, slice_set, OnOk};
ghost use Rattle.pending_queues.specs.Written.{with_takers};
ghost use Rattle.pending_queues.specs.Delivered.{IsLabelledBelow};
ghost use Rattle.pending_queues.specs.Telling.{all_left, placed, named};

use crate::exports::{Cargo, Deliveries};
use crate::seat::PendingSeat;
use std::alloc::{AllocError, Allocator};

impl<C: Cargo, A: Allocator + Clone> PendingSeat<C, A> {
    /// Tells what the seat exported, as if nobody had taken it.
    fn tell_exports(&self, alloc: A, deliveries: &mut Deliveries<A>) -> Result<(), AllocError>
        requires { self.now.index < length deliveries.old }
        ensures many { length deliveries.new ≡ length deliveries.old }
        ensures told { OnOk result (deliveries.new ≡ slice_set deliveries.old self.now.index (all_left self.now.sent)) }
    {
        deliveries.tell_left(alloc, self.index, &self.sizes)
    }

    /// Names the seat as the taker of what it took.
    fn name_takes(&self, deliveries: &mut Deliveries<A>)
        ensures told { deliveries.new ≡ with_takers deliveries.old self.now.index (map (λ b. b.sent) self.now.taken) }
        ensures labels { All (IsLabelledBelow (length self.now.source.lanes)) self.now.taken }
    {
        for label in &self.log {
            deliveries.name_taker(*label, self.index);
        }
    }
}

/// Tells what each seat exported.
pub(crate) fn tell_all<C: Cargo, A: Allocator + Clone>(
    alloc: &A,
    seats: &[PendingSeat<C, A>],
    deliveries: &mut Deliveries<A>,
) -> Result<(), AllocError>
    requires { All (λ s. s.index < length deliveries.old) seats.now }
    ensures { OnOk result (deliveries.new ≡ placed deliveries.old seats.now) }
{
    for seat in seats {
        seat.tell_exports(alloc.clone()?, deliveries)?;
    }
    Ok(())
}

/// Names the takers of what all seats took.
pub(crate) fn name_all<C: Cargo, A: Allocator + Clone>(
    seats: &[PendingSeat<C, A>],
    deliveries: &mut Deliveries<A>,
)
    ensures told { deliveries.new ≡ named deliveries.old seats.now }
    ensures labels { All (λ s. All (IsLabelledBelow (length s.source.lanes)) s.taken) seats.now }
{
    for seat in seats {
        seat.name_takes(deliveries);
    }
}
