//! The rule of the counter, and what a step on it tells.
use crate::number_sets::RankedSet;
use atomic_table::{Join, Play, Split, TableRule};
use std::alloc::Allocator;
use std::collections::LinkedList;

/// The free list, and how many seats draw from it.
#[derive(Drop)]
pub struct Plan<A: Allocator> {
    pub free: RankedSet<A>,
    pub seats: u32,
}

/// What a seat knows: the free list, how many seats there are, its parts of the right to know all, the numbers that it
/// drew, and how often it found none left. No value of it is made.
pub struct Share {
    pub free: LinkedList<u32>,
    pub seats: u32,
    pub parts: u64,
    pub drawn: LinkedList<u32>,
    pub outs: u64,
}

pub struct Rule;

impl<A: Allocator> TableRule<(), Share, Plan<A>> for Rule {
    ghost use Rattle.block_pool.specs.Drawn.{share, IsKeptDraws};
    ghost use Rattle.std.specs.Prelude.{[]};

    ghost holds = { λ plan s. IsKeptDraws plan.free plan.seats s };

    ghost first = { λ plan. share plan.free plan.seats plan.seats [] 0 };
}

pub struct Draw;

impl Play<(), Share> for Draw {
    ghost use Rattle.block_pool.specs.Drawn.{Drew};

    ghost then = { Drew };
}

pub struct Deal;

impl Split<Share> for Deal {
    ghost use Rattle.block_pool.specs.Drawn.{dealt, newcomer};

    ghost left = { dealt };

    ghost right = { newcomer };
}

pub struct Gather;

impl Join<Share> for Gather {
    ghost use Rattle.block_pool.specs.Drawn.{both, spent};

    ghost both = { both };

    ghost spent = { spent };
}
