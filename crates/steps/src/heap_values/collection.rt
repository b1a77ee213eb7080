//! A collection that was opened, and what its workers bring back.
ghost use Rattle.std.specs.Prelude.{◌≡◌, map};
ghost use Rattle.steps.specs.SlotView.{slot_value};

use crate::heap_values::numbering::Numbering;
use crate::heap_values::report::{Delivery, WorkerReport};
use crate::heap_values::root_id::RootId;
use crate::heap_values::spare::Spare;
use block_pool::{Block, RankedSet};
use forwarding::Forwards;
use layout::Place;
use std::alloc::{Allocator, Global};
use std::marker::Model;

/// Where a collection starts: what leads to an object that it may keep.
#[derive(Clone, Copy, Debug)]
pub enum Slot {
    /// A root that leads to an object.
    Root {
        root: RootId,
        target: Place,
    },
    /// A pointer of an older object.
    Field {
        holder: Place,
        field: u32,
        target: Place,
    },
}

impl Slot {
    ghost use Rattle.steps.specs.CollectionValue.{target_of_slot};
    ghost use Rattle.layout.specs.Place.{place_word};

    /// What the slot leads to.
    pub fn target(&self) -> Place
        ensures { place_word result ≡ target_of_slot (slot_value self.now) }
    {
        match self {
            Slot::Root { target, .. } | Slot::Field { target, .. } => *target,
        }
    }
}

/// A collection that was opened on a heap. It borrows nothing.
#[derive(Debug, Drop)]
pub struct Collection<A: Allocator = Global> {
    generation: u8,
    slots: Vec<Slot, A>,
    free: RankedSet<A>,
    numbering: Numbering<A>,
    cells: u32,
}

impl<A: Allocator> Model for Collection<A> {
    ghost use Rattle.std.specs.Prelude.{map};
    ghost use Rattle.steps.specs.CollectionValue.{CollectionValue};
    ghost use Rattle.steps.specs.CollectionCode.{collection_code};

    ghost Value = { CollectionValue };

    ghost coded = { collection_code };

    ghost use Rattle.steps.specs.SlotView.{slot_value};

    ghost view = { λ c. record {
      generation = c.generation;
      slots = map slot_value c.slots.items;
      free = c.free;
      numbering = c.numbering;
      cells = c.cells;
    } };
}

impl<A: Allocator> Collection<A> {
    /// The collection of the generations 0 to `generation`, with its parts.
    pub fn new(
        generation: u8,
        slots: Vec<Slot, A>,
        free: RankedSet<A>,
        numbering: Numbering<A>,
        cells: u32,
    ) -> Self
        ensures { result ≡ record {
          generation = generation;
          slots = map slot_value slots.items;
          free = free;
          numbering = numbering;
          cells =
              cells;
        } }
    {
        Collection {
            generation,
            slots,
            free,
            numbering,
            cells,
        }
    }

    /// The generations 0 to this one are collected.
    pub fn generation(&self) -> u8
        ensures { result ≡ self.now.generation }
    {
        self.generation
    }

    /// The roots by rising number, and then the pointers of older objects into the generations collected.
    pub fn slots(&self) -> &[Slot]
        ensures { map slot_value result.now ≡ self.now.slots }
    {
        self.slots.as_slice()
    }

    /// The free blocks, rising.
    pub fn free(&self) -> &RankedSet<A>
        ensures { result.now ≡ self.now.free }
    {
        &self.free
    }

    /// How many objects there are in the generations collected. They are numbered from 0.
    pub fn cells(&self) -> u32
        ensures { result ≡ self.now.cells }
    {
        self.cells
    }

    /// How these objects are numbered.
    pub fn numbering(&self) -> &Numbering<A>
        ensures { result.now ≡ self.now.numbering }
    {
        &self.numbering
    }
}

/// What the workers of a collection bring back.
#[derive(Drop)]
pub struct Settled<A: Allocator = Global> {
    /// The collection that was opened, whose objects are numbered.
    pub collection: Collection<A>,
    /// The new place of each object by its number, or none where it is gone.
    pub places: Forwards<A>,
    /// The blocks that hold the copies.
    pub blocks: Vec<Block<A>, A>,
    /// What each worker won and scanned, by its number.
    pub workers: Vec<WorkerReport<A>, A>,
    /// The blocks that were exported and taken.
    pub deliveries: Vec<Delivery, A>,
    /// Memory that they did not need.
    pub spare: Spare<A>,
}
