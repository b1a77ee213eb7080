//! What became of the blocks that were exported.
ghost use Rattle.std.specs.Prelude.{◌≡◌, ◌<◌, [], length, map, replicate, slice_index_or, slice_set, Some, IfOk, OnOk};
ghost use Rattle.pending_queues.specs.Written.{left, with_name, with_taker};

use crate::exports::label::Label;
use std::alloc::{AllocError, Allocator, Global};
use std::marker::Model;

/// What became of one exported block.
#[derive(Clone, Copy, PartialEq, Eq, Debug)]
pub struct Delivery {
    /// How many objects it had.
    pub objects: usize,
    /// The number of the seat that took it. `None` says that it is left.
    pub taker: Option<u32>,
}

/// For each exporter, what became of its blocks, by position.
#[derive(Drop)]
pub struct Deliveries<A: Allocator = Global> {
    lists: Vec<Vec<Delivery, A>, A>,
}

impl<A: Allocator> Model for Deliveries<A> {
    ghost use Rattle.std.specs.Prelude.{List, map};
    ghost use Rattle.pending_queues.specs.declared.exports.deliveries.Delivery.{Delivery};

    ghost Value = { List (List Delivery) };

    ghost view = { λ d. map (λ l. l.items) d.lists.items };
}

/// Blocks with these numbers of objects, which nobody took.
fn left_blocks<A: Allocator>(alloc: A, sizes: &[usize]) -> Result<Vec<Delivery, A>, AllocError>
    ensures { IfOk result (λ v. v.items ≡ map left sizes.now) }
{
    let mut list = Vec::with_capacity(alloc, sizes.len())?;
    for objects in sizes {
        list.push_reserved(Delivery {
            objects: *objects,
            taker: None,
        });
    }
    Ok(list)
}

/// Names the taker of the block at a position.
fn name_at<A: Allocator>(list: &mut Vec<Delivery, A>, position: usize, taker: u32)
    ensures { list.new.items ≡ with_name list.old.items position taker }
{
    if position < list.len() {
        list[position].taker = Some(taker);
    }
}

impl<A: Allocator + Clone> Deliveries<A> {
    /// So many exporters, of whom nothing is told yet. An error says that memory ran out.
    pub fn untold(alloc: &A, count: usize) -> Result<Self, AllocError>
        ensures { IfOk result (λ d. d ≡ replicate count []) }
    {
        let mut lists = Vec::with_capacity(alloc.clone()?, count)?;
        for _ in 0..count {
            lists.push_reserved(Vec::new(alloc.clone()?));
        }
        Ok(Deliveries { lists })
    }
}

impl<A: Allocator> Deliveries<A> {
    /// What became of the blocks of each exporter, by position.
    pub fn from_lists(lists: Vec<Vec<Delivery, A>, A>) -> Self
        ensures { result ≡ map (λ l. l.items) lists.items }
    {
        Deliveries { lists }
    }

    /// What became of the blocks of the exporter `exporter`, by position. No exporter's: none.
    pub fn of(&self, exporter: u32) -> &[Delivery]
        ensures { result.now ≡ slice_index_or self.now exporter [] }
    {
        match self.lists.get(exporter as usize) {
            Some(list) => list,
            None => &[],
        }
    }

    /// Tells that an exporter's blocks had these numbers of objects, as if nobody had taken one. An error says that memory ran
    /// out.
    pub fn tell_left(&mut self, alloc: A, exporter: u32, sizes: &[usize]) -> Result<(), AllocError>
        requires { exporter < length self.old }
        ensures many { length self.new ≡ length self.old }
        ensures told { OnOk result (self.new ≡ slice_set self.old exporter (map left sizes.now)) }
    {
        self.lists[exporter as usize] = left_blocks(alloc, sizes)?;
        Ok(())
    }

    /// Names the taker of the block with that label, if there is one.
    pub fn name_taker(&mut self, label: Label, taker: u32)
        ensures { self.new ≡ with_taker self.old taker (Some (label.exporter, label.position)) }
    {
        let from = label.exporter as usize;
        if from < self.lists.len() {
            name_at(&mut self.lists[from], label.position as usize, taker);
        }
    }
}
