//! What a worker begins with.
ghost use Rattle.std.specs.Prelude.{◌≡◌, ◌<◌, false, IfOk, map};
ghost use Rattle.model.specs.Destination.{dest_count};
ghost use Rattle.layout.specs.Place.{IsLargeAt};
ghost use Rattle.heap.specs.CollectionValue.{target_of_slot, young_names};
ghost use Rattle.workers.specs.System.{opening_worker};

use crate::to_space::AllocationBlocks;
use crate::workspace::hand::Hand;
use crate::workspace::opening::every_target;
use crate::workspace::workspace::Workspace;
use boxcar::tag::{Names, Tag};
use heap::{Collection, Heap, Spare};
use layout::Place;
use std::alloc::{AllocError, Allocator};
use std::collections::VecDeque;

/// The names that a collection numbers.
pub(crate) struct Numbered;

impl<A: Allocator> Names<(&Heap<A>, &Collection<A>)> for Numbered {
    ghost numbers = { λ p. young_names p.0.now.graph p.1.now.generation };
}

impl<A: Allocator + Clone> Workspace<A> {
    /// What worker `t` of `n` begins with: every n-th slot, from slot `t` on, and an empty place for each destination. An
    /// error says that memory ran out.
    pub fn new(
        alloc: A,
        heap: &Heap<A>,
        collection: &Collection<A>,
        t: u32,
        n: u32,
    ) -> Result<Self, AllocError>
        requires part { t < n }
        requires few { n < 65536 }
        ensures config { IfOk result (λ made. made.config ≡ heap.now.config) }
        ensures names { IfOk result (λ made. made.names ≡ young_names heap.now.graph collection.now.generation) }
        ensures claim { IfOk result (λ made. IsLargeAt made.claim t) }
        ensures spare { IfOk result (λ made. made.spare ≡ false) }
        ensures won_room { IfOk result (λ made. made.won_room ≡ 0) }
        ensures block_room { IfOk result (λ made. made.block_room ≡ 0) }
        ensures worker { IfOk result
            (λ made. made.worker ≡ opening_worker (dest_count heap.now.config.shape collection.now.generation) n
            (map target_of_slot collection.now.slots) t) }
    {
        let config = heap.config();
        let starts = every_target(alloc.clone()?, collection.slots(), t, n)?;
        let count = config.dest_count(collection.generation());
        let allocation = AllocationBlocks::new(alloc.clone()?, count)?;
        Ok(Workspace {
            config,
            claim: Place::large(t as u16),
            starts,
            started: 0,
            fields: 0,
            proposed: None,
            hand: Hand::Nothing,
            allocation,
            aside: VecDeque::new(alloc.clone()?),
            spare: false,
            done: Vec::new(alloc.clone()?),
            claimed: VecDeque::new(alloc.clone()?),
            claimed_done: Vec::new(alloc.clone()?),
            won: Vec::new(alloc.clone()?),
            scanned: Vec::new(alloc),
            won_room: 0,
            block_room: 0,
            names: Tag::of::<(&Heap<A>, &Collection<A>), Numbered>(&(heap, collection)),
            memory: Spare::none(),
        })
    }
}
