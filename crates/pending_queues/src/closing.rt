//! The end of the queues that threads share.
ghost use Rattle.std.specs.Prelude.{◌≡◌, ◌<◌, ◌++◌, ◌∷◌, [], ℕ, All, length, map, IfOk};
ghost use Rattle.pending_queues.specs.PendingValue.{IsSeatOf};
ghost use Rattle.pending_queues.specs.SeatPass.{AtEach};
ghost use Rattle.pending_queues.specs.Gathered.{AreGathered, IsGatheredMark, IsTold};
ghost use Rattle.pending_queues.specs.Delivered.{AreDelivered};

use crate::exports::{Cargo, Deliveries};
use crate::ruled_pending::RuledPending;
use crate::seat::PendingSeat;
use crate::shares::{Shares, gather_marks, gather_passes, settle_marks, settle_passes};
use crate::telling::{name_all, tell_all};
use std::alloc::{AllocError, Allocator};
use std::sync::Wait;

impl<C: Cargo, A: Allocator> PendingSeat<C, A> {
    /// What the seat has of the queues.
    fn into_shares(self) -> Shares<C, A>
        ensures lanes { map (λ p. p.lane) result.passes.items ≡ self.source.lanes }
        ensures tallies { map (λ m. m.name) result.marks.items ≡ self.source.tallies }
        ensures passes { AreGathered self.source.key (length self.source.lanes) (self ∷ []) result.passes.items }
        ensures marks { AtEach (λ u m. IsGatheredMark (self ∷ []) u m) result.marks.items }
    {
        let PendingSeat {
            index: _,
            key: _,
            passes,
            marks,
            sizes: _,
            log: _,
            taken: _,
            cleared: _,
        } = self;
        Shares { passes, marks }
    }
}

impl<C: Cargo, A: Allocator> RuledPending<C, A> {
    /// What all seats have of the queues.
    fn gather(&self, mut seats: Vec<PendingSeat<C, A>, A>, last: PendingSeat<C, A>) -> Shares<C, A>
        requires seats { All (IsSeatOf self.now) seats.items }
        requires last { IsSeatOf self.now last }
        ensures lanes { map (λ p. p.lane) result.passes.items ≡ self.now.lanes }
        ensures tallies { map (λ m. m.name) result.marks.items ≡ self.now.tallies }
        ensures passes { AreGathered self.now.key (length self.now.lanes)
            (seats.items ++ last ∷ []) result.passes.items }
        ensures marks { AtEach (λ u m. IsGatheredMark (seats.items ++ last ∷ []) u m) result.marks.items }
    {
        let Shares {
            mut passes,
            mut marks,
        } = last.into_shares();
        while let Some(seat) = seats.pop() {
            let mut shares = seat.into_shares();
            gather_passes(&self.lanes, &mut shares.passes, passes);
            gather_marks(&self.tallies, &mut shares.marks, marks);
            passes = shares.passes;
            marks = shares.marks;
        }
        Shares { passes, marks }
    }

    /// Shows what all seats tell of each exporter's queue.
    fn settle<R: Wait>(&self, rt: &R, mut seats: Vec<PendingSeat<C, A>, A>)
        requires seats { All (IsSeatOf self.now) seats.items }
        requires all { length seats.items ≡ length self.now.lanes }
        ensures { (u : ℕ) → u < length seats.items → IsTold seats.items u }
    {
        let Some(last) = seats.pop() else {
            return;
        };
        let mut shares = self.gather(seats, last);
        settle_passes(rt, &self.lanes, &mut shares.passes);
        settle_marks(&self.tallies, &mut shares.marks);
    }
}

impl<C: Cargo, A: Allocator + Clone> RuledPending<C, A> {
    /// What became of each block that was exported: its number of objects, and who took it, or that it is left. It takes all
    /// the seats that `new` gave. An error says that memory ran out.
    pub fn close<R: Wait>(
        self,
        rt: &R,
        alloc: A,
        seats: Vec<PendingSeat<C, A>, A>,
    ) -> Result<Deliveries<A>, AllocError>
        requires seats { All (IsSeatOf self) seats.items }
        requires all { length seats.items ≡ length self.lanes }
        ensures { IfOk result (λ d. AreDelivered seats.items d) }
    {
        let mut deliveries = Deliveries::untold(&alloc, seats.len())?;
        tell_all(&alloc, &seats, &mut deliveries)?;
        name_all(&seats, &mut deliveries);
        self.settle(rt, seats);
        Ok(deliveries)
    }
}
