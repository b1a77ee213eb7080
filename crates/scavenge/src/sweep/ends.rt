//! How a sweep begins and ends.
ghost use Rattle.std.specs.Prelude.{◌≡◌, ◌<◌, ◌≤◌, ℕ, true, None, length, IsSome, IfOk, IfErr};
ghost use Rattle.block_pool.specs.BlockValue.{BlockValue};
ghost use Rattle.workers.specs.Joined.{OnSome};
ghost use Rattle.scavenge.specs.Cursors.{AllGo};
ghost use Rattle.scavenge.specs.Shown.{held_in};

use crate::sweep::cursor::cursor_of;
use crate::sweep::going::{going_from, has_one_destination};
use crate::sweep::sweep::Sweep;
use crate::workspace::{Hand, Workspace};
use std::alloc::Allocator;
use steps::{Config, StepId};

/// The number of the destination whose copies stand in the block that is held in hand, where one is that has something
/// unscanned, and no more objects than so many.
fn held_for<A: Allocator>(hand: &Hand<A>, config: Config, most: usize) -> Option<usize>
    ensures held { IsSome result → IsSome (held_in hand.now) }
    ensures unscanned { IsSome result → OnSome (λ (b : BlockValue). b.front < length b.objects) (held_in hand.now) }
    ensures few { IsSome result → OnSome (λ (b : BlockValue). length b.objects ≤ most) (held_in hand.now) }
{
    let Hand::Holding(block) = hand else {
        return None;
    };
    if block.front() >= block.len() || block.len() > most {
        return None;
    }
    Some(config.dest_number(StepId {
        generation: block.generation(),
        step: block.step(),
    }))
}

impl<A: Allocator> Workspace<A> {
    /// Opens the workspace for a sweep over the block in hand, which copies into the block for one destination, with room
    /// for what the two bring. `Err` gives it back: the start list isn't finished, something is proposed, no block is held in
    /// hand with something unscanned, there is none to copy into, or memory ran out.
    #[inline(always)]
    pub fn opened(mut self) -> Result<Sweep<A>, Workspace<A>>
        ensures ok { IfOk result (λ sweep. sweep ≡ self) }
        ensures proposal { IfOk result (λ sweep. sweep.worker.proposal ≡ None) }
        ensures err { IfErr result (λ workspace. workspace ≡ self) }
    {
        if self.reserve_sweep().is_err() {
            return Err(self);
        }
        let room = self.scanned.capacity() - self.scanned.len();
        let Some(held) = held_for(&self.hand, self.config, room) else {
            return Err(self);
        };
        let destination = self.allocation.last_or(held);
        if self.won.capacity() - self.won.len() - self.won_room < self.config.block_words() {
            return Err(self);
        }
        if self.started < self.starts.len() || self.proposed.is_some() {
            return Err(self);
        }
        if !self.allocation.has_block(destination) {
            return Err(self);
        }
        let Workspace {
            config,
            claim,
            starts,
            started,
            fields,
            proposed: _,
            hand,
            mut allocation,
            aside,
            spare,
            done,
            claimed,
            claimed_done,
            won,
            scanned,
            won_room,
            block_room,
            names,
            memory,
        } = self;
        let Hand::Holding(held) = hand else {
            unreachable!();
        };
        let Some(into) = allocation.take(destination) else {
            unreachable!();
        };
        let is_only = destination == 0 && has_one_destination(config);
        let cursor = cursor_of(&held);
        let going = going_from(
            config,
            StepId {
                generation: held.generation(),
                step: held.step(),
            },
        );
        Ok(Sweep {
            config,
            claim,
            starts,
            started,
            fields,
            held,
            cursor,
            going,
            into,
            destination,
            is_only,
            allocation,
            aside,
            spare,
            done,
            claimed,
            claimed_done,
            won,
            scanned,
            won_room,
            block_room,
            names,
            memory,
        })
    }
}

impl<A: Allocator> Sweep<A> {
    /// Whether it is known that small objects go to one destination, wherever they stand.
    #[inline(always)]
    pub fn goes_one_way(&self) -> bool
        ensures { result ≡ true → (d : ℕ) × AllGo self.now.config.shape d }
    {
        self.is_only
    }

    /// The workspace after the sweep.
    #[inline(always)]
    pub fn closed(self) -> Workspace<A>
        ensures { result ≡ self }
    {
        let Sweep {
            config,
            claim,
            starts,
            started,
            fields,
            held,
            cursor: _,
            going: _,
            into,
            destination,
            is_only: _,
            mut allocation,
            aside,
            spare,
            done,
            claimed,
            claimed_done,
            won,
            scanned,
            won_room,
            block_room,
            names,
            memory,
        } = self;
        let _ = allocation.replace(destination, into);
        Workspace {
            config,
            claim,
            starts,
            started,
            fields,
            proposed: None,
            hand: Hand::Holding(held),
            allocation,
            aside,
            spare,
            done,
            claimed,
            claimed_done,
            won,
            scanned,
            won_room,
            block_room,
            names,
            memory,
        }
    }
}
