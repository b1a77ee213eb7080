//! `Sweep`: a worker's part, with the block in hand and the one that is copied into in fields of their own.
use crate::sweep::cursor::Cursor;
use crate::sweep::going::Going;
use crate::to_space::AllocationBlocks;
use block_pool::Block;
use boxcar::tag::Tag;
use heap::{PackedPlace, Spare, Won};
use layout::Place;
use std::alloc::{Allocator, Global};
use std::collections::VecDeque;
use std::marker::Model;
use steps::Config;

/// A worker's part whose start list is finished, which proposes nothing, and which holds a block in hand with something
/// unscanned. That block, the one that is copied into, and the lists stand in fields of their own, so that a loop that owns it
/// can keep them in registers. Its value is that of the workspace that was opened.
#[derive(Drop)]
pub struct Sweep<A: Allocator = Global> {
    pub(crate) config: Config,
    pub(crate) claim: Place,
    pub(crate) starts: Vec<Place, A>,
    pub(crate) started: usize,
    pub(crate) fields: usize,
    /// The block in hand, and its first unscanned object.
    pub(crate) held: Block<A>,
    pub(crate) cursor: Cursor,
    /// Where the object that was copied last went, and those go that stand where it stood.
    pub(crate) going: Going,
    /// The block that is copied into, and the number of its destination. The others have theirs in `allocation`.
    pub(crate) into: Block<A>,
    pub(crate) destination: usize,
    pub(crate) allocation: AllocationBlocks<A>,
    pub(crate) aside: VecDeque<Block<A>, A>,
    pub(crate) spare: bool,
    pub(crate) done: Vec<Block<A>, A>,
    pub(crate) claimed: VecDeque<Place, A>,
    pub(crate) claimed_done: Vec<Place, A>,
    pub(crate) won: Vec<Won, A>,
    pub(crate) scanned: Vec<PackedPlace, A>,
    pub(crate) won_room: usize,
    pub(crate) block_room: usize,
    pub(crate) names: Tag,
    pub(crate) memory: Spare<A>,
    /// Whether it is known to be the only one, so that none has to be asked for.
    pub(crate) is_only: bool,
}

impl<A: Allocator> Model for Sweep<A> {
    ghost use Rattle.std.specs.Prelude.{Some, None, true, ◌≡◌, ◌<◌, ◌≤◌, ◌+◌, All, length, map, drop, vec_len, vec_capacity};
    ghost use Rattle.std.specs.VecDeque.{deque_len, deque_capacity};
    ghost use Rattle.block_pool.specs.BlockValue.{used_of};
    ghost use Rattle.steps.specs.ReportValue.{renaming_of};
    ghost use Rattle.steps.specs.ReportView.{won_value};
    ghost use Rattle.workers.specs.Worker.{Holding};
    ghost use Rattle.scavenge.specs.Named.{named};
    ghost use Rattle.scavenge.specs.Swept.{with_block};
    ghost use Rattle.scavenge.specs.Cursors.{StandsAt, IsGoing, AllGo};
    ghost use Rattle.scavenge.specs.Shown.{WorkspaceValue, slots_of, blocks_of, words_of, packed_words, AreNoted, AreMade, HasRoom};

    ghost Value = { WorkspaceValue };

    ghost view = { λ s. record {
      config = s.config;
      claim = s.claim;
      spare = s.spare;
      won_room = s.won_room;
      block_room = s.block_room;
      names = s.names.numbers;
      worker = record {
        starts = drop s.started (words_of s.starts.items);
        fields = s.fields;
        proposal = None;
        hand = Holding (named s.config.shape s.held);
        allocation = slots_of s.config.shape (with_block s.allocation s.destination s.into);
        aside = blocks_of s.config.shape s.aside.items;
        done = blocks_of s.config.shape s.done.items;
        large = words_of s.claimed.items;
        large_done = words_of s.claimed_done.items;
        won = renaming_of s.names.numbers (map won_value s.won.items);
        scanned = packed_words s.scanned.items;
      };
    } };

    ghost invariant = { λ s. AreNoted (with_block s.allocation s.destination s.into) s.aside.items s.done.items (Some s.held) None
        × AreMade s.config (with_block s.allocation s.destination s.into) s.aside.items s.done.items (Some s.held)
        × HasRoom (vec_len s.won, vec_capacity s.won) (vec_len s.done, vec_capacity s.done) (deque_len s.aside, deque_capacity s.aside) (deque_len s.claimed, deque_capacity s.claimed) s.won_room s.block_room s.spare None
        × All (λ e. e.0 < length s.names.numbers) (map won_value s.won.items)
        × (s.destination < length s.allocation)
        × (length s.starts.items ≤ s.started)
        × StandsAt s.held s.cursor
        × IsGoing s.config.shape s.going
        × (vec_len s.won + s.won_room + s.into.words ≤ vec_capacity s.won + used_of s.into)
        × (vec_len s.scanned + length s.held.objects ≤ vec_capacity s.scanned + s.held.front)
        × (s.is_only ≡ true → AllGo s.config.shape s.destination) };
}
