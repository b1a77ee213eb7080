//! How the queues are opened, and how the seats get their parts of them.
ghost use Rattle.std.specs.Prelude.{◌≡◌, ◌+◌, ◌-◌, ◌<◌, All, length, map, IfOk, OnOk};
ghost use Rattle.pending_queues.specs.TallyValue.{unraised};
ghost use Rattle.pending_queues.specs.PendingValue.{new_seats};
ghost use Rattle.pending_queues.specs.Dealt.{AreRoots, AreNewPasses, AreHeaps};

use crate::exports::Cargo;
use crate::lanes::{Lane, LanePass};
use crate::ruled_pending::RuledPending;
use crate::seat::PendingSeat;
use crate::tally::{Tally, TallySeat};
use std::alloc::{AllocError, Allocator};

/// Queues, and the first pass of each.
pub type Lanes<C: Cargo, A> = (Vec<Lane<C, A>, A>, Vec<LanePass<C::Key, A>, A>);

/// Tallies, and the marks of each.
pub type Tallies<A> = (Vec<Tally<A>, A>, Vec<Vec<TallySeat, A>, A>);

/// A queue for each exporter, and its first pass.
pub fn open_lanes<C: Cargo, A: Allocator + Clone>(
    alloc: &A,
    key: &C::Key,
    count: u32,
) -> Result<Lanes<C, A>, AllocError>
    ensures many { IfOk result (λ r. length r.0.items ≡ count) }
    ensures roots { IfOk result (λ r. AreRoots key.now r.0.items count 0 r.1.items) }
{
    let mut lanes = Vec::with_capacity(alloc.clone()?, count as usize)?;
    let mut roots = Vec::with_capacity(alloc.clone()?, count as usize)?;
    for exporter in 0..count {
        let (lane, root) = Lane::open(alloc.clone()?, key, exporter, count)?;
        lanes.push_reserved(lane);
        roots.push_reserved(root);
    }
    Ok((lanes, roots))
}

/// A tally for each exporter, and its marks.
pub fn open_tallies<A: Allocator + Clone>(alloc: &A, count: u32) -> Result<Tallies<A>, AllocError>
    ensures many { IfOk result (λ r. length r.0.items ≡ count) }
    ensures seats { IfOk result (λ r. All (λ t. t.seats ≡ count) r.0.items) }
    ensures heaps { IfOk result (λ r. AreHeaps (map (λ t. t.name) r.0.items) count (λ h. h.items) r.1.items) }
{
    let mut tallies = Vec::with_capacity(alloc.clone()?, count as usize)?;
    let mut heaps = Vec::with_capacity(alloc.clone()?, count as usize)?;
    for _ in 0..count {
        let (tally, marks) = Tally::new(alloc.clone()?, count)?;
        tallies.push_reserved(tally);
        heaps.push_reserved(marks);
    }
    Ok((tallies, heaps))
}

impl<C: Cargo, A: Allocator> RuledPending<C, A> {
    /// A pass of each queue, for the seat with that number.
    pub(crate) fn deal_passes(
        &self,
        alloc: A,
        roots: &mut Vec<LanePass<C::Key, A>, A>,
        index: u32,
    ) -> Result<Vec<LanePass<C::Key, A>, A>, AllocError>
        requires index { index < length self.now.lanes }
        requires roots { AreRoots self.now.key self.now.lanes (length self.now.lanes) index roots.old.items }
        ensures roots { OnOk result
            (AreRoots self.now.key self.now.lanes (length self.now.lanes) (index + 1) roots.new.items) }
        ensures passes { IfOk result
            (λ r. AreNewPasses self.now.key self.now.lanes (length self.now.lanes) index r.items) }
    {
        let mut passes = Vec::with_capacity(alloc, self.lanes.len())?;
        for at in 0..self.lanes.len() {
            let pass = self.lanes[at].deal(&mut roots[at], at == index as usize);
            passes.push_reserved(pass);
        }
        Ok(passes)
    }

    /// A mark of each tally.
    pub(crate) fn deal_marks<B: Allocator>(
        &self,
        alloc: A,
        heaps: &mut Vec<Vec<TallySeat, B>, B>,
        left: usize,
    ) -> Result<Vec<TallySeat, A>, AllocError>
        requires left { 0 < left }
        requires heaps { AreHeaps self.now.tallies left (λ h. h.items) heaps.old.items }
        ensures heaps { OnOk result (AreHeaps self.now.tallies (left - 1) (λ h. h.items) heaps.new.items) }
        ensures marks { IfOk result (λ r. r.items ≡ map unraised self.now.tallies) }
    {
        let mut marks = Vec::with_capacity(alloc, self.tallies.len())?;
        for at in 0..self.tallies.len() {
            let Some(mark) = heaps[at].pop() else {
                unreachable!();
            };
            marks.push_reserved(mark);
        }
        Ok(marks)
    }
}

impl<C: Cargo, A: Allocator + Clone> RuledPending<C, A> {
    /// A seat for each queue, in order, with a part of each.
    pub(crate) fn deal_seats(
        &self,
        alloc: A,
        key: &C::Key,
        count: u32,
        mut roots: Vec<LanePass<C::Key, A>, A>,
        mut heaps: Vec<Vec<TallySeat, A>, A>,
    ) -> Result<Vec<PendingSeat<C, A>, A>, AllocError>
        requires key { key.now ≡ self.now.key }
        requires many { length self.now.lanes ≡ count }
        requires roots { AreRoots self.now.key self.now.lanes (length self.now.lanes) 0 roots.items }
        requires heaps { AreHeaps self.now.tallies count (λ h. h.items) heaps.items }
        ensures { IfOk result (λ seats. seats.items ≡ new_seats self.now count) }
    {
        let mut seats = Vec::with_capacity(alloc.clone()?, self.lanes.len())?;
        for index in 0..count {
            let passes = self.deal_passes(alloc.clone()?, &mut roots, index)?;
            let marks = self.deal_marks(alloc.clone()?, &mut heaps, (count - index) as usize)?;
            let seat = PendingSeat::fresh(&alloc, index, key, passes, marks)?;
            seats.push_reserved(seat);
        }
        Ok(seats)
    }
}
