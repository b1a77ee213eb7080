//! Memory that a heap keeps from one collection for the next.
ghost use Rattle.std.specs.Prelude.{◌≡◌, ◌<◌, ◌≤◌, ◌+◌, ◌-◌, ◌^◌, ◌↔◌, ◌⊎◌, [], length, min, IsTrue, IsSome, IfOk, IfSome, OnOk};
ghost use Rattle.block_pool.specs.BlockValue.{empty_block};
ghost use Rattle.forwarding.specs.CellMemoryValue.{long_room};
ghost use Rattle.steps.specs.SpareValue.{no_spare};

use crate::heap_values::packed::PackedPlace;
use crate::heap_values::report::{Won, WorkerReport};
use block_pool::{Block, order_by_memory};
use forwarding::CellMemory;
use std::alloc::{AllocError, Allocator, Global};
use std::collections::VecDeque;
use std::marker::Model;
use std::mem;

/// Lists are kept that have room for no more than three times what they hold and so many entries, all together.
const FEW_ENTRIES: usize = 1024;

/// Blocks, cells and lists whose contents have no meaning any more, of which a collection makes use before it asks for new
/// memory. A block is cleared when it is given out. It is memory alone: contracts see how much it has, and a collection
/// does the same without it.
#[derive(Drop)]
pub struct Spare<A: Allocator = Global> {
    // The block that is given out first stands in front.
    blocks: Option<VecDeque<Block<A>, A>>,
    cells: Option<CellMemory<A>>,
    // What workers won and scanned, whatever it was.
    lists: Option<Vec<WorkerReport<A>, A>>,
}

impl<A: Allocator> Model for Spare<A> {
    ghost use Rattle.std.specs.Prelude.{vec_len};
    ghost use Rattle.std.specs.VecDeque.{deque_len, deque_capacity};
    ghost use Rattle.forwarding.specs.CellMemoryValue.{long_room};
    ghost use Rattle.steps.specs.SpareValue.{SpareValue, count_in};

    ghost Value = { SpareValue };

    ghost view = { λ s. record {
      blocks = count_in deque_len s.blocks;
      room = count_in deque_capacity s.blocks;
      cells = count_in long_room s.cells;
      lists = count_in vec_len s.lists;
    } };
}

/// Whether the block, which has no object, has so many words.
fn has_words<A: Allocator>(block: &Block<A>, words: usize) -> bool
    requires few { words ≤ 512 }
    requires empty { block.now.objects ≡ [] }
    ensures { IsTrue result ↔ (block.now.words ≡ words) }
{
    block.fits(words) && !block.fits(words + 1)
}

impl<A: Allocator> Spare<A> {
    /// No memory.
    pub fn none() -> Self
        ensures { result ≡ no_spare }
    {
        Spare {
            blocks: None,
            cells: None,
            lists: None,
        }
    }

    /// How many blocks it has.
    pub fn block_count(&self) -> usize
        ensures { result ≡ self.now.blocks }
    {
        match &self.blocks {
            Some(blocks) => blocks.len(),
            None => 0,
        }
    }

    /// Takes all of it.
    pub fn take(&mut self) -> Spare<A>
        ensures all { result ≡ self.old }
        ensures left { self.new ≡ no_spare }
    {
        mem::replace(self, Spare::none())
    }

    /// Keeps a block for later, where there is room for it, and else gives its memory back.
    pub fn keep(&mut self, block: Block<A>)
        ensures kept { self.old.blocks < self.old.room → self.new ≡ record self.old { blocks = self.old.blocks + 1 } }
        ensures full { self.old.room ≤ self.old.blocks → self.new ≡ self.old }
    {
        if let Some(blocks) = &mut self.blocks {
            if blocks.len() < blocks.capacity() {
                blocks.push_back_reserved(block);
            }
        }
    }

    /// Keeps so many blocks at most, and gives the memory of the others back.
    pub fn keep_blocks(&mut self, most: usize)
        ensures { self.new ≡ record self.old { blocks = min most self.old.blocks } }
    {
        if let Some(blocks) = &mut self.blocks {
            blocks.truncate(most);
        }
    }

    /// Puts the blocks in the order of the numbers that they were given first, which is mostly that of their memory. An error
    /// says that memory ran out, and leaves them as they are.
    pub fn order_by_memory(&mut self, alloc: A) -> Result<(), AllocError>
        ensures { self.new ≡ self.old }
    {
        match &mut self.blocks {
            Some(blocks) => order_by_memory(alloc, blocks.make_contiguous()),
            None => Ok(()),
        }
    }

    /// Keeps the memory of cells for later, if it is no more than so many words, and else gives it back.
    pub fn keep_cells(&mut self, cells: CellMemory<A>, most: usize)
        ensures kept { long_room cells ≤ most → self.new ≡ record self.old { cells = long_room cells } }
        ensures given_back { most < long_room cells → self.new ≡ self.old }
    {
        if cells.capacity() <= most {
            self.cells = Some(cells);
        }
    }

    /// Keeps the memory of these lists for later, for as many workers, if a good part of it was used, and else gives it back. One
    /// worker may have done much less than another, and do more the next time: so they count together.
    pub fn keep_lists(&mut self, lists: Vec<WorkerReport<A>, A>)
        ensures { (self.new ≡ record self.old { lists = length lists.items }) ⊎ (self.new ≡ self.old) }
    {
        let room = lists
            .iter()
            .fold(0usize, |sum, report| sum.saturating_add(report.room()));
        let held = lists
            .iter()
            .fold(0usize, |sum, report| sum.saturating_add(report.entries()));
        if room <= held.saturating_mul(3).saturating_add(FEW_ENTRIES) {
            self.lists = Some(lists);
        }
    }

    /// Hands one worker's lists to a part of its own, which has none. An error says that memory ran out, and drops them.
    fn hand_lists(&mut self, alloc: A, part: &mut Spare<A>) -> Result<(), AllocError>
        requires { part.old.lists ≡ 0 }
        ensures left { self.new ≡ record self.old { lists = self.old.lists - 1 } }
        ensures handed { OnOk result (part.new ≡ record part.old { lists = min 1 self.old.lists }) }
    {
        let Some(lists) = &mut self.lists else {
            return Ok(());
        };
        let Some(report) = lists.pop() else {
            return Ok(());
        };
        let mut own = Vec::with_capacity(alloc, 1)?;
        own.push_reserved(report);
        part.lists = Some(own);
        Ok(())
    }

    /// Empty lists for what one worker wins and scans, where some are kept.
    pub fn lists(&mut self) -> Option<(Vec<Won, A>, Vec<PackedPlace, A>)>
        ensures empty { IfSome result (λ lists. (lists.0.items ≡ []) × (lists.1.items ≡ [])) }
        ensures some { IsSome result ↔ (0 < self.old.lists) }
        ensures left { self.new ≡ record self.old { lists = self.old.lists - 1 } }
    {
        let report = self.lists.as_mut()?.pop()?;
        let (mut won, mut scanned) = report.into_lists();
        won.clear();
        scanned.clear();
        Some((won, scanned))
    }

    /// Memory for cells, with whatever stands in it.
    pub fn cells(&mut self, alloc: A) -> CellMemory<A>
        ensures cells { long_room result ≡ self.old.cells }
        ensures left { self.new ≡ record self.old { cells = 0 } }
    {
        match self.cells.take() {
            Some(cells) => cells,
            None => CellMemory::none(alloc),
        }
    }

    /// Makes room for so many more blocks. An error says that memory ran out.
    fn reserve(&mut self, alloc: A, more: usize) -> Result<(), AllocError>
        ensures room { OnOk result (self.new.blocks + more ≤ self.new.room) }
        ensures rest { self.new ≡ record self.old { room = self.new.room } }
    {
        match &mut self.blocks {
            Some(blocks) => blocks.reserve(more),
            None => {
                self.blocks = Some(VecDeque::with_capacity(alloc, more)?);
                Ok(())
            }
        }
    }

    /// An empty block of so many words: one of these, or else a new one. An error says that memory ran out.
    pub fn block(&mut self, alloc: A, words: usize) -> Result<Block<A>, AllocError>
    where
        A: Clone,
        requires words_from { 16 ≤ words }
        requires words_to { words ≤ 512 }
        ensures block { IfOk result (λ block. block ≡ empty_block words) }
        ensures left { self.new ≡ record self.old { blocks = self.old.blocks - 1 } }
    {
        if let Some(blocks) = &mut self.blocks {
            if let Some(mut block) = blocks.pop_front() {
                block.clear();
                block.label(0, 0, 0);
                if has_words(&block, words) {
                    return Ok(block);
                }
            }
        }
        Block::new(alloc, words)
    }

    /// Moves so many blocks, or all where there are fewer, and one worker's lists to a part of its own. An error says that
    /// memory ran out, and drops some.
    pub fn split(&mut self, alloc: A, count: usize) -> Result<Spare<A>, AllocError>
    where
        A: Clone,
        ensures part { IfOk result
            (λ part. (part.blocks ≡ min count self.old.blocks) × (part.cells ≡ 0) ×
            (part.lists ≡ min 1 self.old.lists)) }
        ensures left { OnOk result
            (self.new ≡ record self.old { blocks = self.old.blocks - count; lists = self.old.lists - 1 }) }
    {
        let mut part = Spare::none();
        self.hand_lists(alloc.clone()?, &mut part)?;
        part.reserve(alloc, count)?;
        for _ in 0..count {
            let Some(block) = self.pop() else {
                break;
            };
            part.keep(block);
        }
        Ok(part)
    }

    /// The next block.
    fn pop(&mut self) -> Option<Block<A>>
        ensures some { IsSome result ↔ (0 < self.old.blocks) }
        ensures left { self.new ≡ record self.old { blocks = self.old.blocks - 1 } }
    {
        match &mut self.blocks {
            Some(blocks) => blocks.pop_front(),
            None => None,
        }
    }

    /// Takes the blocks of another one too, and has room for so many more. An error says that memory ran out, and drops them.
    pub fn join(&mut self, alloc: A, mut other: Spare<A>, room: usize) -> Result<(), AllocError>
        ensures blocks { OnOk result (self.new.blocks ≡ self.old.blocks + other.blocks) }
        ensures room { OnOk result (other.blocks + room < 2 ^ 64 → self.new.blocks + room ≤ self.new.room) }
        ensures rest { (self.new.cells ≡ self.old.cells) × (self.new.lists ≡ self.old.lists) }
    {
        let more = other.block_count();
        self.reserve(alloc, more.saturating_add(room))?;
        for _ in 0..more {
            if let Some(block) = other.pop() {
                self.keep(block);
            }
        }
        Ok(())
    }
}
