//! Queues of blocks under their rule, one for each exporter, which threads share.
ghost use Rattle.std.specs.Prelude.{◌≡◌, ◌≤◌, ◌<◌, ℕ, Some, All, length, is_some, true, slice_get, IfOk, IfSome, MatchBool, MatchOption, MatchResult};
ghost use Rattle.pending_queues.specs.PassValue.{position_of};
ghost use Rattle.pending_queues.specs.PendingValue.{IsSeatOf, new_seats, next_export, after_export, after_take, after_none};
ghost use Rattle.pending_queues.specs.declared.exports.label.Label.{Label};

use crate::exports::{Cargo, Label};
use crate::lanes::Lane;
use crate::opening::{open_lanes, open_tallies};
use crate::seat::PendingSeat;
use crate::tally::Tally;
use block_pool::Block;
use crossbeam_utils::Backoff;
use std::alloc::{AllocError, Allocator, Global};
use std::marker::Model;
use std::snapshot::Snapshot;
use std::sync::Wait;

/// Queues that threads share: one for each exporter.
#[derive(Drop)]
pub struct RuledPending<C: Cargo, A: Allocator = Global> {
    pub(crate) lanes: Vec<Lane<C, A>, A>,
    pub(crate) tallies: Vec<Tally<A>, A>,
    pub(crate) key: Snapshot<C::Key>,
}

impl<C: Cargo, A: Allocator> Model for RuledPending<C, A> {
    ghost use Rattle.std.specs.Prelude.{◌≡◌, All, length, map};
    ghost use Rattle.pending_queues.specs.PendingValue.{Source};

    ghost Value = { Source A C.Key };

    ghost view = { λ r. record { key = r.key.value; lanes = r.lanes.items; tallies = map (λ t. t.name) r.tallies.items } };

    ghost invariant = { λ r. (length r.tallies.items ≡ length r.lanes.items) × All (λ t. t.seats ≡ length r.lanes.items) r.tallies.items };
}

/// The label of a block that has one.
fn label_of<A: Allocator>(block: &Block<A>) -> Label
    requires { is_some block.now.sent ≡ true }
    ensures { block.now.sent ≡ Some (result.exporter, result.position) }
{
    match block.sent() {
        Some((exporter, position)) => Label { exporter, position },
        None => unreachable!(),
    }
}

impl<C: Cargo, A: Allocator + Clone> RuledPending<C, A> {
    /// The queues of so many exporters, and their seats in order. An error says that memory ran out.
    pub fn new(
        alloc: A,
        count: u32,
        key: &C::Key,
    ) -> Result<(RuledPending<C, A>, Vec<PendingSeat<C, A>, A>), AllocError>
        ensures key { IfOk result (λ r. r.0.key ≡ key.now) }
        ensures many { IfOk result (λ r. length r.0.lanes ≡ count) }
        ensures seats { IfOk result (λ r. r.1.items ≡ new_seats r.0 count) }
    {
        let (lanes, roots) = open_lanes(&alloc, key, count)?;
        let (tallies, heaps) = open_tallies(&alloc, count)?;
        let pending = RuledPending {
            lanes,
            tallies,
            key: Snapshot::of(key),
        };
        let seats = pending.deal_seats(alloc, key, count, roots, heaps)?;
        Ok((pending, seats))
    }
}

impl<C: Cargo, A: Allocator> RuledPending<C, A> {
    /// Puts the block at the back of the seat's own queue, labelled. It comes back as it was where memory ran out.
    pub fn export<R: Wait>(
        &self,
        rt: &R,
        seat: &mut PendingSeat<C, A>,
        mut block: Block<A>,
    ) -> Result<(), (Block<A>, AllocError)>
        requires seat { IsSeatOf self.now seat.old }
        requires fact { C.fits self.now.key (next_export seat.old block) }
        ensures of { IsSeatOf self.now seat.new }
        ensures sent { MatchResult result (λ _. seat.new ≡ after_export seat.old block) (λ e. (e.0 ≡ block) ×
            (seat.new ≡ seat.old)) }
    {
        if seat.sizes.reserve(1).is_err() {
            return Err((block, AllocError));
        }
        let before = block.sent();
        let size = block.len();
        let own = seat.index as usize;
        block.mark_exported(seat.index, seat.sizes.len() as u64);
        match self.lanes[own].send(rt, &mut seat.passes[own], block) {
            Ok(()) => {
                seat.sizes.push_reserved(size);
                Ok(())
            }
            Err(mut refused) => {
                refused.restore_sent(before);
                Err((refused, AllocError))
            }
        }
    }

    /// One look into a queue. It takes the block at the front, where it finds one.
    fn look<R: Wait>(
        &self,
        rt: &R,
        seat: &mut PendingSeat<C, A>,
        exporter: u32,
    ) -> Result<Option<Block<A>>, AllocError>
        requires seat { IsSeatOf self.now seat.old }
        requires exporter { exporter < length self.now.lanes }
        ensures taken { MatchResult result
            (λ r. MatchOption r (seat.new ≡ seat.old) (λ b. seat.new ≡ after_take seat.old b))
            (λ _. seat.new ≡ seat.old) }
        ensures label { IfOk result (λ r. IfSome r (λ b. b.sent ≡ Some (exporter, position_of b))) }
        ensures fact { IfOk result (λ r. IfSome r (λ b. C.fits self.now.key b)) }
        ensures rises { IfOk result
            (λ r. IfSome r (λ b. All (λ t. (p : ℕ) → t.sent ≡ Some (exporter, p) → p < position_of b) seat.old.taken)) }
        ensures own { IfOk result
            (λ r. IfSome r (λ b. exporter ≡ seat.old.index → slice_get seat.old.sent (position_of b) ≡ Some b)) }
    {
        seat.log.reserve(1)?;
        seat.taken.reserve(1)?;
        let from = exporter as usize;
        let Some(block) = self.lanes[from].receive(rt, &mut seat.passes[from]) else {
            return Ok(None);
        };
        self.tallies[from].raise(&mut seat.marks[from]);
        seat.log.push_reserved(label_of(&block));
        seat.taken.push_reserved(Snapshot::of(&block));
        Ok(Some(block))
    }

    /// Whether each export of the seat was taken, for good.
    fn is_cleared(&self, seat: &mut PendingSeat<C, A>) -> bool
        requires seat { IsSeatOf self.now seat.old }
        ensures { MatchBool result (seat.new ≡ record seat.old { cleared = length seat.old.sent })
            (seat.new ≡ seat.old) }
    {
        let own = seat.index as usize;
        let count = self.tallies[own].read(&mut seat.marks[own]);
        let all = count == seat.sizes.len() as u64;
        if all {
            seat.cleared = count;
        }
        all
    }

    /// Takes the block at the front of an exporter's queue. None of the seat's own queue says that each of its exports is
    /// taken, for good; of another's it promises nothing. An error says that memory ran out, and then nothing was taken.
    pub fn take<R: Wait>(
        &self,
        rt: &R,
        seat: &mut PendingSeat<C, A>,
        exporter: u32,
    ) -> Result<Option<Block<A>>, AllocError>
        requires seat { IsSeatOf self.now seat.old }
        requires exporter { exporter < length self.now.lanes }
        ensures of { IsSeatOf self.now seat.new }
        ensures taken { MatchResult result
            (λ r. MatchOption r (seat.new ≡ after_none seat.old exporter) (λ b. seat.new ≡ after_take seat.old b))
            (λ _. seat.new ≡ seat.old) }

        // The block has its label, meets the fact, and its position is above those that the seat took from there before.
        ensures label { IfOk result (λ r. IfSome r (λ b. b.sent ≡ Some (exporter, position_of b))) }
        ensures fact { IfOk result (λ r. IfSome r (λ b. C.fits self.now.key b)) }
        ensures rises { IfOk result
            (λ r. IfSome r (λ b. All (λ t. (p : ℕ) → t.sent ≡ Some (exporter, p) → p < position_of b) seat.old.taken)) }

        // A block of its own is the one that it exported there.
        ensures own { IfOk result
            (λ r. IfSome r (λ b. exporter ≡ seat.old.index → slice_get seat.old.sent (position_of b) ≡ Some b)) }
    {
        let backoff = Backoff::new();
        for _ in rt.forever() {
            if let Some(block) = self.look(rt, seat, exporter)? {
                return Ok(Some(block));
            }
            if exporter != seat.index() || self.is_cleared(seat) {
                return Ok(None);
            }
            backoff.snooze();
        }
        unreachable!()
    }

    /// Whether a block may be in an exporter's queue. It is a hint, which promises nothing.
    pub fn maybe(&self, seat: &mut PendingSeat<C, A>, exporter: u32) -> bool
        requires seat { IsSeatOf self.now seat.old }
        requires exporter { exporter < length self.now.lanes }
        ensures { seat.new ≡ seat.old }
    {
        let from = exporter as usize;
        self.lanes[from].maybe(&mut seat.passes[from])
    }
}
