//! What a worker takes to its thread, and what it brings back.
use crate::sharing_worker::Outcome;
use block_pool::ClaimSeat;
use heap::Spare;
use idle_count::{IdleSeat, VerdictSeat};
use pending_queues::PendingSeat;
use scavenge::{Copies, Workspace};
use std::alloc::{Allocator, Global};

/// What a worker takes to its thread: its seats, its pass and its own part.
#[derive(Drop)]
pub struct Kit<P, A: Allocator = Global> {
    /// The allocator that it takes memory from while it works.
    pub alloc: A,
    /// Its pass over the cells, which has won nothing yet.
    pub pass: P,
    /// Its seat at the draws of free blocks, which has drawn none yet.
    pub draws: ClaimSeat,
    /// Its seat at the queues, whose number is the worker's.
    pub seat: PendingSeat<Copies<A>, A>,
    /// Its own part, with its share of the start slots.
    pub workspace: Workspace<A>,
    /// Its part of the memory that the heap kept for this collection.
    pub spare: Spare<A>,
    /// Its seat at the count of idle workers, not idle yet.
    pub rest: IdleSeat,
    /// Its seat at the verdict, which it reads and may raise.
    pub voice: VerdictSeat,
}

/// What it brings back: how it ended, what it knows and won, drew, sent and took, and its own part.
#[derive(Drop)]
pub struct Brought<P, A: Allocator = Global> {
    /// Whether it ended, left early or was refused.
    pub outcome: Outcome,
    /// What it knows of the cells and has won.
    pub pass: P,
    /// Its seat at the draws, with the free blocks that it drew.
    pub draws: ClaimSeat,
    /// Its seat at the queues, with what it exported and took.
    pub seat: PendingSeat<Copies<A>, A>,
    /// Its own part as its last step left it.
    pub workspace: Workspace<A>,
    /// Its seat at the verdict, with which it told the others to leave where it was refused.
    pub voice: VerdictSeat,
}
