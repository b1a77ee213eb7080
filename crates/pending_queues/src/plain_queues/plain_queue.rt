//! One exporter's queue, for one thread.
ghost use Rattle.std.specs.Prelude.{◌≡◌, IfOk, IfSome, MatchResult, IsTrue, IsSome, ◌↔◌};
ghost use Rattle.pending_queues.specs.PlainKept.{KeyedLane};
ghost use Rattle.pending_queues.specs.PlainValue.{empty_lane, front_of, with_export, with_taker, outcomes};
ghost use Rattle.pending_queues.specs.Labelled.{labelled};
ghost use Rattle.std.specs.Prelude.{length};

use crate::exports::{Cargo, Delivery};
use block_pool::Block;
use std::alloc::{AllocError, Allocator, Global};
use std::collections::VecDeque;
use std::marker::Model;
use std::snapshot::Snapshot;

/// The blocks that wait, the number of objects of each block that was sent, and who took the first of them. That each block
/// was sent is remembered without a byte.
#[derive(Drop)]
pub struct PlainQueue<C: Cargo, A: Allocator = Global> {
    key: Snapshot<C::Key>,
    waiting: VecDeque<Block<A>, A>,
    sent: Vec<Snapshot<Block<A>>, A>,
    sizes: Vec<usize, A>,
    takers: Vec<u32, A>,
}

impl<C: Cargo, A: Allocator> Model for PlainQueue<C, A> {
    ghost use Rattle.std.specs.Prelude.{map};
    ghost use Rattle.pending_queues.specs.PlainKept.{KeyedLane, IsPlain};

    ghost Value = { KeyedLane C.Key };

    ghost view = { λ q. record { key = q.key.value; lane = record { sent = map (λ s. s.value) q.sent.items; takers = q.takers.items } } };

    ghost invariant = { λ q. IsPlain C.fits q.key.value (record { sent = map (λ s. s.value) q.sent.items; takers = q.takers.items }) q.waiting.items q.sizes.items };
}

impl<C: Cargo, A: Allocator + Clone> PlainQueue<C, A> {
    /// An empty queue of blocks that fit the key. An error says that memory ran out.
    pub fn new(alloc: A, key: &C::Key) -> Result<Self, AllocError>
        ensures { IfOk result (λ q. q ≡ record { key = key.now; lane = empty_lane }) }
    {
        Ok(PlainQueue {
            key: Snapshot::of(key),
            waiting: VecDeque::new(alloc.clone()?),
            sent: Vec::new(alloc.clone()?),
            sizes: Vec::new(alloc.clone()?),
            takers: Vec::new(alloc),
        })
    }
}

impl<C: Cargo, A: Allocator> PlainQueue<C, A> {
    /// Puts a block at the back, with its exporter's label. It comes back as it was where memory ran out.
    pub fn push(&mut self, exporter: u32, mut block: Block<A>) -> Result<(), (Block<A>, AllocError)>
        requires { C.fits self.old.key (labelled exporter (length self.old.lane.sent) block) }
        ensures { MatchResult result
            (λ _. self.new ≡ record self.old { lane = with_export self.old.lane exporter block })
            (λ e. (e.0 ≡ block) × (self.new ≡ self.old)) }
    {
        if self.sizes.reserve(1).is_err()
            || self.sent.reserve(1).is_err()
            || self.waiting.reserve(1).is_err()
        {
            return Err((block, AllocError));
        }
        block.mark_exported(exporter, self.sizes.len() as u64);
        self.sizes.push_reserved(block.len());
        self.sent.push_reserved(Snapshot::of(&block));
        self.waiting.push_back_reserved(block);
        Ok(())
    }

    /// Takes the block at the front, where there is one. At an error memory ran out, and nothing was taken.
    pub fn pop(&mut self, taker: u32) -> Result<Option<Block<A>>, AllocError>
        ensures front { IfOk result (λ r. r ≡ front_of self.old.lane) }
        ensures lane { MatchResult result (λ r. self.new ≡ record self.old { lane = with_taker self.old.lane taker r })
            (λ _. self.new ≡ self.old) }
        ensures fact { IfOk result (λ r. IfSome r (C.fits self.old.key)) }
    {
        self.takers.reserve(1)?;
        let Some(block) = self.waiting.pop_front() else {
            return Ok(None);
        };
        self.takers.push_reserved(taker);
        Ok(Some(block))
    }

    /// Whether a block waits, so that there is one to take.
    pub fn is_waiting(&self) -> bool
        ensures { IsTrue result ↔ IsSome (front_of self.now.lane) }
    {
        !self.waiting.is_empty()
    }

    /// What became of each block that was pushed, by position. An error says that memory ran out.
    pub fn outcomes(&self, alloc: A) -> Result<Vec<Delivery, A>, AllocError>
        ensures { IfOk result (λ v. v.items ≡ outcomes self.now.lane.sent self.now.lane.takers) }
    {
        let mut deliveries = Vec::with_capacity(alloc, self.sizes.len())?;
        for (position, objects) in self.sizes.iter().enumerate() {
            let taker = self.takers.get(position).copied();
            deliveries.push_reserved(Delivery {
                objects: *objects,
                taker,
            });
        }
        Ok(deliveries)
    }
}
