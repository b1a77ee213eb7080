//! What one worker has of the queues: a pass and a mark for each, and a log of what it sent and took.
use crate::exports::{Cargo, Label};
use crate::lanes::LanePass;
use crate::tally::TallySeat;
use block_pool::Block;
use std::alloc::{AllocError, Allocator, Global};
use std::marker::Model;
use std::snapshot::Snapshot;

/// One worker's right to export to its own queue and to take from each.
#[derive(Drop)]
pub struct PendingSeat<C: Cargo, A: Allocator = Global> {
    pub(crate) index: u32,
    pub(crate) key: Snapshot<C::Key>,
    pub(crate) passes: Vec<LanePass<C::Key, A>, A>,
    pub(crate) marks: Vec<TallySeat, A>,
    pub(crate) sizes: Vec<usize, A>,
    pub(crate) log: Vec<Label, A>,
    pub(crate) taken: Vec<Snapshot<Block<A>>, A>,
    pub(crate) cleared: u64,
}

impl<C: Cargo, A: Allocator> Model for PendingSeat<C, A> {
    ghost use Rattle.std.specs.Prelude.{map};
    ghost use Rattle.pending_queues.specs.PendingValue.{SeatValue};
    ghost use Rattle.pending_queues.specs.Seated.{IsSeated, sent_by};

    ghost Value = { SeatValue A C.Key };

    ghost view = { λ s. record {
      source = record { key = s.key.value; lanes = map (λ p. p.lane) s.passes.items; tallies = map (λ m. m.name) s.marks.items };
      index = s.index;
      sent = sent_by s.passes.items s.index;
      taken = map (λ b. b.value) s.taken.items;
      cleared = s.cleared;
    } };

    ghost invariant = { λ s. IsSeated s.key.value s.index s.passes.items s.marks.items s.sizes.items s.log.items (map (λ b. b.value) s.taken.items) s.cleared };
}

/// What a seat writes down of its exports and takes.
#[derive(Drop)]
struct Logs<A: Allocator> {
    sizes: Vec<usize, A>,
    log: Vec<Label, A>,
    taken: Vec<Snapshot<Block<A>>, A>,
}

impl<A: Allocator + Clone> Logs<A> {
    ghost use Rattle.std.specs.Prelude.{◌≡◌, [], IfOk};

    /// Nothing is written yet.
    fn empty(alloc: &A) -> Result<Logs<A>, AllocError>
        ensures { IfOk result (λ r. (r.sizes.items ≡ []) × (r.log.items ≡ []) × (r.taken.items ≡ [])) }
    {
        let sizes = Vec::new(alloc.clone()?);
        let log = Vec::new(alloc.clone()?);
        let taken = Vec::new(alloc.clone()?);
        Ok(Logs { sizes, log, taken })
    }
}

impl<C: Cargo, A: Allocator + Clone> PendingSeat<C, A> {
    ghost use Rattle.std.specs.Prelude.{◌≡◌, length, map, IfOk};
    ghost use Rattle.pending_queues.specs.TallyValue.{unraised};
    ghost use Rattle.pending_queues.specs.PendingValue.{new_seat};
    ghost use Rattle.pending_queues.specs.Dealt.{AreNewPasses};

    /// A seat that has exported and taken nothing.
    pub(crate) fn fresh(
        alloc: &A,
        index: u32,
        key: &C::Key,
        passes: Vec<LanePass<C::Key, A>, A>,
        marks: Vec<TallySeat, A>,
    ) -> Result<PendingSeat<C, A>, AllocError>
        requires passes { AreNewPasses key.now (map (λ p. p.lane) passes.items)
            (length passes.items) index passes.items }
        requires marks { marks.items ≡ map unraised (map (λ m. m.name) marks.items) }
        requires many { length marks.items ≡ length passes.items }
        ensures { IfOk result
            (λ s. s ≡ new_seat (record {
              key = key.now;
              lanes = map (λ p. p.lane) passes.items;
              tallies = map
                  (λ m. m.name) marks.items;
            }) index) }
    {
        let logs = Logs::empty(alloc)?;
        let Logs { sizes, log, taken } = logs;
        Ok(PendingSeat {
            index,
            key: Snapshot::of(key),
            passes,
            marks,
            sizes,
            log,
            taken,
            cleared: 0,
        })
    }
}

impl<C: Cargo, A: Allocator> PendingSeat<C, A> {
    ghost use Rattle.std.specs.Prelude.{◌≡◌};

    /// The seat's number, which is that of its own queue.
    pub fn index(&self) -> u32
        ensures { result ≡ self.now.index }
    {
        self.index
    }
}
