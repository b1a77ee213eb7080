//! Queues for one thread, which are exact.
ghost use Rattle.std.specs.Prelude.{◌≡◌, ◌<◌, ◌↔◌, ◌∷◌, [], IfOk, IfSome, IsSome, IsTrue, MatchResult, length, map, replicate};
ghost use Rattle.std.specs.List.{range_with_len};
ghost use Rattle.pending_queues.specs.PlainValue.{empty_lane, new_pending, lane_at, front_of, next_of, after_export, after_take, outcomes_of};

use crate::exports::{Cargo, Deliveries, Delivery};
use crate::plain_queues::plain_queue::PlainQueue;
use block_pool::Block;
use std::alloc::{AllocError, Allocator, Global};
use std::marker::Model;
use std::snapshot::Snapshot;

/// One exporter's number. It has a queue of its own, and may take from each.
#[derive(Drop)]
pub struct PlainSeat {
    index: u32,
}

impl Model for PlainSeat {
    ghost use Rattle.std.specs.Prelude.{ℕ};

    ghost Value = { ℕ };

    ghost view = { λ s. s.index };
}

/// Queues for one thread: one for each exporter. A take gives the block at the front, and none exactly where there is none.
#[derive(Drop)]
pub struct PlainPending<C: Cargo, A: Allocator = Global> {
    key: Snapshot<C::Key>,
    queues: Vec<PlainQueue<C, A>, A>,
}

impl<C: Cargo, A: Allocator> Model for PlainPending<C, A> {
    ghost use Rattle.std.specs.Prelude.{◌≡◌, map};
    ghost use Rattle.std.specs.List.{All};
    ghost use Rattle.pending_queues.specs.PlainValue.{PlainValue};

    ghost Value = { PlainValue C.Key };

    ghost view = { λ p. record { key = p.key.value; lanes = map (λ q. q.lane) p.queues.items } };

    ghost invariant = { λ p. All (λ q. q.key ≡ p.key.value) p.queues.items };
}

// So many empty queues.
fn empty_queues<C: Cargo, A: Allocator + Clone>(
    alloc: A,
    count: u32,
    key: &C::Key,
) -> Result<Vec<PlainQueue<C, A>, A>, AllocError>
    ensures { IfOk result (λ v. v.items ≡ replicate count (record { key = key.now; lane = empty_lane })) }
{
    let mut queues = Vec::with_capacity(alloc.clone()?, count as usize)?;
    for _ in 0..count {
        queues.push_reserved(PlainQueue::new(alloc.clone()?, key)?);
    }
    Ok(queues)
}

// So many seats, numbered from 0.
fn seats<A: Allocator>(alloc: A, count: u32) -> Result<Vec<PlainSeat, A>, AllocError>
    ensures { IfOk result (λ v. v.items ≡ range_with_len 0 count) }
{
    let mut seats = Vec::with_capacity(alloc, count as usize)?;
    for index in 0..count {
        seats.push_reserved(PlainSeat { index });
    }
    Ok(seats)
}

impl PlainSeat {
    /// The number of the seat, and of its queue.
    pub fn index(&self) -> u32
        ensures { result ≡ self.now }
    {
        self.index
    }
}

impl<C: Cargo, A: Allocator + Clone> PlainPending<C, A> {
    // So many empty queues.
    fn empty(alloc: A, count: u32, key: &C::Key) -> Result<Self, AllocError>
        ensures { IfOk result (λ made. made ≡ new_pending key.now count) }
    {
        let queues = empty_queues(alloc, count, key)?;
        let key = Snapshot::of(key);
        Ok(PlainPending { key, queues })
    }

    /// Empty queues, and a seat for each. An error says that memory ran out.
    pub fn new(
        alloc: A,
        count: u32,
        key: &C::Key,
    ) -> Result<(PlainPending<C, A>, Vec<PlainSeat, A>), AllocError>
        ensures queues { IfOk result (λ made. made.0 ≡ new_pending key.now count) }
        ensures seats { IfOk result (λ made. made.1.items ≡ range_with_len 0 count) }
    {
        let pending = PlainPending::empty(alloc.clone()?, count, key)?;
        Ok((pending, seats(alloc, count)?))
    }

    /// An empty queue, and one seat alone, for which no list is made. An error says that memory ran out.
    pub fn alone(alloc: A, key: &C::Key) -> Result<(PlainPending<C, A>, PlainSeat), AllocError>
        ensures queues { IfOk result (λ made. made.0 ≡ new_pending key.now 1) }
        ensures seat { IfOk result (λ made. made.1 ≡ 0) }
    {
        let pending = PlainPending::empty(alloc, 1, key)?;
        Ok((pending, PlainSeat { index: 0 }))
    }

    // What became of each block so far.
    fn told(&self, alloc: A) -> Result<Deliveries<A>, AllocError>
        ensures { IfOk result (λ d. d ≡ map outcomes_of self.now.lanes) }
    {
        let mut lists = Vec::with_capacity(alloc.clone()?, self.queues.len())?;
        for queue in &self.queues {
            lists.push_reserved(queue.outcomes(alloc.clone()?)?);
        }
        Ok(Deliveries::from_lists(lists))
    }

    /// What became of each block that was exported. An error says that memory ran out.
    pub fn close(self, alloc: A, seats: Vec<PlainSeat, A>) -> Result<Deliveries<A>, AllocError>
        ensures { IfOk result (λ d. d ≡ map outcomes_of self.lanes) }
    {
        let _ = seats;
        self.told(alloc)
    }

    /// As `close`, for one seat alone: the only list of outcomes.
    pub fn close_alone(self, alloc: A, seat: PlainSeat) -> Result<Vec<Delivery, A>, AllocError>
        requires alone { length self.lanes ≡ 1 }
        ensures { IfOk result (λ v. map outcomes_of self.lanes ≡ v.items ∷ []) }
    {
        let _ = seat;
        self.queues[0].outcomes(alloc)
    }
}

impl<C: Cargo, A: Allocator> PlainPending<C, A> {
    /// Puts a block at the back of the seat's own queue, with its label. Where memory ran out, the block comes back as it was,
    /// and nothing has changed.
    pub fn export(
        &mut self,
        seat: &mut PlainSeat,
        block: Block<A>,
    ) -> Result<(), (Block<A>, AllocError)>
        requires seat { seat.old < length self.old.lanes }
        requires fact { C.fits self.old.key (next_of self.old seat.old block) }
        ensures seat { seat.new ≡ seat.old }
        ensures pending { MatchResult result
            (λ _. self.new ≡ after_export self.old seat.old block)
            (λ e. (e.0 ≡ block) × (self.new ≡ self.old)) }
    {
        self.queues[seat.index as usize].push(seat.index, block)
    }

    /// Takes the block at the front of a queue. `None` says that there is none. An error says that memory ran out; nothing was
    /// taken then.
    pub fn take(
        &mut self,
        seat: &mut PlainSeat,
        exporter: u32,
    ) -> Result<Option<Block<A>>, AllocError>
        requires { exporter < length self.old.lanes }
        ensures seat { seat.new ≡ seat.old }
        ensures front { IfOk result (λ r. r ≡ front_of (lane_at self.old exporter)) }
        ensures pending { MatchResult result (λ r. self.new ≡ after_take self.old exporter seat.old r)
            (λ _. self.new ≡ self.old) }
        ensures fact { IfOk result (λ r. IfSome r (C.fits self.old.key)) }
    {
        self.queues[exporter as usize].pop(seat.index)
    }

    /// Whether a block waits in a queue.
    pub fn maybe(&self, exporter: u32) -> bool
        requires { exporter < length self.now.lanes }
        ensures { IsTrue result ↔ IsSome (front_of (lane_at self.now exporter)) }
    {
        self.queues[exporter as usize].is_waiting()
    }
}
