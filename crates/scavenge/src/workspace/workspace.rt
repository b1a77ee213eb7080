//! `Workspace`: one worker's part, what comes in hand, and what it brings back.
ghost use Rattle.std.specs.Prelude.{◌≡◌, ◌≢◌, ◌<◌, ◌≤◌, ◌∷◌, [], true, false, None, is_some, All, IfOk, IfSome, MatchOption, ℕ, length, map};
ghost use Rattle.std.specs.Option.{option_map};
ghost use Rattle.layout.specs.Place.{place_word};
ghost use Rattle.block_pool.specs.BlockValue.{empty_block};
ghost use Rattle.steps.specs.Packed.{packed_word};
ghost use Rattle.steps.specs.ReportValue.{renaming_of};
ghost use Rattle.steps.specs.ReportView.{won_value};
ghost use Rattle.workers.specs.Block.{has_unscanned};
ghost use Rattle.workers.specs.Joined.{Each, OnSome};
ghost use Rattle.workers.specs.WorkerSteps.{IsFree, has_open_work, after_own, after_own_large, after_take, after_aside};
ghost use Rattle.scavenge.specs.Named.{named, IsWhole};
ghost use Rattle.scavenge.specs.Fronts.{slot_at};
ghost use Rattle.scavenge.specs.Shown.{Begins};

use crate::to_space::AllocationBlocks;
use crate::workspace::hand::Hand;
use crate::workspace::proposed::Proposed;
use block_pool::Block;
use boxcar::tag::Tag;
use heap::{PackedPlace, Spare, Won};
use layout::Place;
use std::alloc::{AllocError, Allocator, Global};
use std::collections::VecDeque;
use std::marker::Model;
use steps::Config;

/// One worker's part of a collection.
#[derive(Drop)]
pub struct Workspace<A: Allocator = Global> {
    pub(crate) config: Config,
    /// The place that it claims large objects with: no other worker has it. Of a large object's cell only whether it is set tells.
    pub(crate) claim: Place,
    /// What its start slots lead to, of which so many are finished.
    pub(crate) starts: Vec<Place, A>,
    pub(crate) started: usize,
    /// How many pointers of the current object are finished.
    pub(crate) fields: usize,
    pub(crate) proposed: Option<Proposed>,
    pub(crate) hand: Hand<A>,
    pub(crate) allocation: AllocationBlocks<A>,
    pub(crate) aside: VecDeque<Block<A>, A>,
    /// Whether `aside` has room for the block that it handed out last.
    pub(crate) spare: bool,
    pub(crate) done: Vec<Block<A>, A>,
    pub(crate) claimed: VecDeque<Place, A>,
    pub(crate) claimed_done: Vec<Place, A>,
    /// Each object that it won, by number, and its place.
    pub(crate) won: Vec<Won, A>,
    pub(crate) scanned: Vec<PackedPlace, A>,
    /// How many races are run for which `won` has room.
    pub(crate) won_room: usize,
    /// How many blocks are drawn for which `aside` and `done` have room to retire one.
    pub(crate) block_room: usize,
    /// The names that the collection numbers, by number: for contracts alone.
    pub(crate) names: Tag,
    /// Memory for blocks that it draws.
    pub(crate) memory: Spare<A>,
}

/// What one worker brings back.
#[derive(Drop)]
pub struct Parts<A: Allocator = Global> {
    /// The allocation block for each destination, where there is one.
    pub allocation: Vec<Option<Block<A>>, A>,
    /// The retired and taken blocks in which each copy is scanned.
    pub done: Vec<Block<A>, A>,
    /// The large objects that it scanned.
    pub large: Vec<Place, A>,
    /// Each object that it won, by number, and its place.
    pub won: Vec<Won, A>,
    /// The places of the copies and large objects that it scanned, in the order of the scans.
    pub scanned: Vec<PackedPlace, A>,
    /// Memory that it did not need.
    pub spare: Spare<A>,
}

impl<A: Allocator> Model for Workspace<A> {
    ghost use Rattle.std.specs.Prelude.{◌<◌, All, length, map, drop, vec_len, vec_capacity};
    ghost use Rattle.std.specs.VecDeque.{deque_len, deque_capacity};
    ghost use Rattle.steps.specs.ReportValue.{renaming_of};
    ghost use Rattle.steps.specs.ReportView.{won_value};
    ghost use Rattle.scavenge.specs.Shown.{WorkspaceValue, hand_of, held_in, slots_of, blocks_of, words_of, packed_words, proposal_of, AreNoted, AreMade, HasRoom};

    ghost Value = { WorkspaceValue };

    ghost view = { λ w. record {
      config = w.config;
      claim = w.claim;
      spare = w.spare;
      won_room = w.won_room;
      block_room = w.block_room;
      names = w.names.numbers;
      worker = record {
        starts = drop w.started (words_of w.starts.items);
        fields = w.fields;
        proposal = proposal_of w.allocation w.proposed;
        hand = hand_of w.config.shape w.hand;
        allocation = slots_of w.config.shape w.allocation;
        aside = blocks_of w.config.shape w.aside.items;
        done = blocks_of w.config.shape w.done.items;
        large = words_of w.claimed.items;
        large_done = words_of w.claimed_done.items;
        won = renaming_of w.names.numbers (map won_value w.won.items);
        scanned = packed_words w.scanned.items;
      };
    } };

    ghost invariant = { λ w. AreNoted w.allocation w.aside.items w.done.items (held_in w.hand) w.proposed
        × AreMade w.config w.allocation w.aside.items w.done.items (held_in w.hand)
        × HasRoom (vec_len w.won, vec_capacity w.won) (vec_len w.done, vec_capacity w.done) (deque_len w.aside, deque_capacity w.aside) (deque_len w.claimed, deque_capacity w.claimed) w.won_room w.block_room w.spare w.proposed
        × All (λ e. e.0 < length w.names.numbers) (map won_value w.won.items) };
}

impl<A: Allocator> Workspace<A> {
    /// Gives it memory for the blocks that it draws and, before its first win, for its lists.
    pub fn supply(&mut self, mut memory: Spare<A>)
        ensures { self.new ≡ self.old }
    {
        if self.won.is_empty() && self.scanned.is_empty() && self.won_room == 0 {
            if let Some((won, scanned)) = memory.lists() {
                self.won = won;
                self.scanned = scanned;
            }
        }
        self.memory = memory;
    }

    /// An empty block of so many words. An error says that memory ran out.
    pub fn new_block(&mut self, alloc: A, words: usize) -> Result<Block<A>, AllocError>
    where
        A: Clone,
        requires words_from { 16 ≤ words }
        requires words_to { words ≤ 512 }
        ensures block { IfOk result (λ block. block ≡ empty_block words) }
        ensures same { self.new ≡ self.old }
    {
        self.memory.block(alloc, words)
    }

    /// Takes the allocation block for a destination in hand.
    pub fn own(&mut self, d: usize)
        requires free { IsFree self.old.worker }
        requires work { has_open_work self.old.worker d ≡ true }
        ensures { self.new ≡ record self.old { worker = after_own self.old.worker d } }
    {
        self.hand = Hand::Open(d);
    }

    /// Takes the large object claimed first in hand.
    pub fn own_large(&mut self)
        requires free { IsFree self.old.worker }
        requires work { self.old.worker.large ≢ [] }
        ensures { self.new ≡ record self.old { worker = after_own_large self.old.worker } }
    {
        if let Some(name) = self.claimed.pop_front() {
            self.hand = Hand::Large(name);
        }
    }

    /// Takes a block in hand that a queue gave.
    pub fn taken(&mut self, block: Block<A>)
        requires free { IsFree self.old.worker }
        requires whole { IsWhole self.old.config.shape self.old.config.block_words block }
        requires unscanned { has_unscanned (named self.old.config.shape block) ≡ true }
        ensures { self.new ≡
            record self.old { worker = after_take self.old.worker (named self.old.config.shape block) } }
    {
        self.hand = Hand::Holding(block);
    }

    /// Hands out the oldest block aside, and leaves room to put it back.
    pub fn aside(&mut self) -> Option<Block<A>>
        ensures worker { self.new ≡ record self.old { worker = after_aside self.old.worker; spare = is_some result } }
        ensures block { MatchOption result (self.old.worker.aside ≡ [])
            (Begins self.old.config.shape self.old.worker.aside) }
        ensures whole { IfSome result (IsWhole self.old.config.shape self.old.config.block_words) }
    {
        let block = self.aside.pop_front();
        self.spare = block.is_some();
        block
    }

    /// Puts back in front a block that `aside` handed out.
    pub fn unaside(&mut self, block: Block<A>)
        requires room { self.old.spare ≡ true }
        requires whole { IsWhole self.old.config.shape self.old.config.block_words block }
        ensures { self.new ≡
            record self.old {
              worker = record self.old.worker
                  { aside = named self.old.config.shape block ∷ self.old.worker.aside };
              spare = false;
            } }
    {
        self.spare = false;
        self.aside.push_front_reserved(block);
    }

    /// What the worker brings back.
    pub fn into_parts(self) -> Parts<A>
        requires { self.worker.proposal ≡ None }
        ensures allocation { map (option_map (named self.config.shape)) result.allocation.items ≡
            self.worker.allocation }
        ensures done { map (named self.config.shape) result.done.items ≡ self.worker.done }
        ensures allocation_whole { (d : ℕ) →
            OnSome (IsWhole self.config.shape self.config.block_words) (slot_at result.allocation.items d) }
        ensures done_whole { Each (IsWhole self.config.shape self.config.block_words) result.done.items }
        ensures large { map place_word result.large.items ≡ self.worker.large_done }
        ensures won { renaming_of self.names (map won_value result.won.items) ≡ self.worker.won }
        ensures numbers { All (λ e. e.0 < length self.names) (map won_value result.won.items) }
        ensures scanned { map packed_word result.scanned.items ≡ self.worker.scanned }
    {
        let Workspace {
            config: _,
            claim: _,
            starts: _,
            started: _,
            fields: _,
            proposed: _,
            hand: _,
            allocation,
            aside: _,
            spare: _,
            done,
            claimed: _,
            claimed_done,
            won,
            scanned,
            won_room: _,
            block_room: _,
            names: _,
            memory,
        } = self;
        Parts {
            allocation: allocation.into_blocks(),
            done,
            large: claimed_done,
            won,
            scanned,
            spare: memory,
        }
    }
}
