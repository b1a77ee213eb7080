//! The rule of one queue, and what each step on it tells.
use crate::exports::Cargo;
use crate::lanes::view::View;
use block_pool::Block;
use crossbeam_queue::protocol::{Join, Lesson, Outcome, Protocol, Split};
use std::alloc::Allocator;
use std::marker::{Brand, PhantomData};

/// The rule, for what the queue carries.
pub struct Rule<C> {
    of: PhantomData<C>,
}

impl<C: Cargo, A: Allocator> Protocol<Block<A>, View<C::Key, A>> for Rule<C> {
    ghost use Rattle.pending_queues.specs.LaneRule.{IsKeptLane, opening};

    ghost holds = { IsKeptLane C.fits };

    ghost first = { opening };
}

/// The key, the exporter and the number of seats, which the call that makes a queue picks.
pub trait Naming<K> {
    ghost use Rattle.std.specs.Prelude.{Option, ℕ};

    ghost about: { Option (K × ℕ × ℕ) };
}

impl<K> Naming<K> for Brand {
    ghost use Rattle.std.specs.Prelude.{None};

    ghost about = { None };
}

/// The first pass says what the queue is about.
pub struct Named<N> {
    of: PhantomData<N>,
}

impl<K, A: Allocator, N: Naming<K>> Split<View<K, A>> for Named<N> {
    ghost use Rattle.pending_queues.specs.LaneRule.{named, spent};

    ghost left = { named N.about };

    ghost right = { λ v. spent };
}

/// A part for a seat that may not send.
pub struct Cut;

impl<K, A: Allocator> Split<View<K, A>> for Cut {
    ghost use Rattle.pending_queues.specs.LaneRule.{less_one, part_of};

    ghost left = { less_one };

    ghost right = { part_of };
}

/// A part for the seat that may send.
pub struct Hand;

impl<K, A: Allocator> Split<View<K, A>> for Hand {
    ghost use Rattle.pending_queues.specs.LaneRule.{kept, handed};

    ghost left = { kept };

    ghost right = { handed };
}

/// Two passes become one.
pub struct Gather;

impl<K, A: Allocator> Join<View<K, A>> for Gather {
    ghost use Rattle.pending_queues.specs.LaneRule.{gathered, spent};

    ghost both = { gathered };

    ghost spent = { spent };
}

/// What a send tells.
pub struct Sends;

impl<K, A: Allocator> Outcome<Block<A>, View<K, A>> for Sends {
    ghost use Rattle.pending_queues.specs.LaneRule.{Sent};

    ghost then = { Sent };
}

/// What a take tells. Where nothing was there, it teaches nothing.
pub struct Takes<C> {
    of: PhantomData<C>,
}

impl<C: Cargo, A: Allocator> Outcome<Block<A>, View<C::Key, A>> for Takes<C> {
    ghost use Rattle.pending_queues.specs.LaneRule.{TookIn};

    ghost then = { TookIn C.fits };
}

impl<C: Cargo, A: Allocator> Lesson<Block<A>, View<C::Key, A>> for Takes<C> {
    ghost use Rattle.pending_queues.specs.LaneRule.{Nothing};

    ghost fact = { Nothing };
}

/// What the one pass that has all parts learns of the blocks that are left.
pub struct Settles;

impl<K, A: Allocator> Lesson<Block<A>, View<K, A>> for Settles {
    ghost use Rattle.pending_queues.specs.LaneRule.{Settled};

    ghost fact = { Settled };
}
