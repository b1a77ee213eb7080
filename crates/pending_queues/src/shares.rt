//! What several seats have of the queues together.
ghost use Rattle.std.specs.Prelude.{◌≡◌, ◌<◌, ◌≤◌, ℕ, All, Some, length, map, slice_get};
ghost use Rattle.pending_queues.specs.PassValue.{PassValue, both};
ghost use Rattle.pending_queues.specs.SeatPass.{AtEach};
ghost use Rattle.pending_queues.specs.Gathered.{IsSettled};
ghost use Rattle.pending_queues.specs.TallyValue.{TallySeatValue, both_seats};

use crate::exports::Cargo;
use crate::lanes::{Lane, LanePass};
use crate::tally::{Tally, TallySeat};
use std::alloc::Allocator;
use std::sync::Wait;

/// A pass of each queue, and a mark in each tally.
#[derive(Drop)]
pub(crate) struct Shares<C: Cargo, A: Allocator> {
    pub(crate) passes: Vec<LanePass<C::Key, A>, A>,
    pub(crate) marks: Vec<TallySeat, A>,
}

/// Passes of the same queues become one of each.
pub(crate) fn gather_passes<C: Cargo, A: Allocator>(
    lanes: &Vec<Lane<C, A>, A>,
    passes: &mut Vec<LanePass<C::Key, A>, A>,
    mut others: Vec<LanePass<C::Key, A>, A>,
)
    requires passes { map (λ p. p.lane) passes.old.items ≡ lanes.now.items }
    requires others { map (λ p. p.lane) others.items ≡ lanes.now.items }
    requires parts { All (λ p. 0 < p.parts) passes.old.items }
    requires other_parts { All (λ p. 0 < p.parts) others.items }
    ensures lanes { map (λ p. p.lane) passes.new.items ≡ lanes.now.items }
    ensures both { (u : ℕ) (p q : PassValue A C.Key) → slice_get passes.old.items u ≡ Some p →
        slice_get others.items u ≡ Some q
        → slice_get passes.new.items u ≡ Some (both p q) }
{
    while let Some(other) = others.pop() {
        let number = others.len();
        lanes[number].gather(&mut passes[number], other);
    }
}

/// Marks in the same tallies become one in each.
pub(crate) fn gather_marks<A: Allocator>(
    tallies: &Vec<Tally<A>, A>,
    marks: &mut Vec<TallySeat, A>,
    mut others: Vec<TallySeat, A>,
)
    requires marks { map (λ m. m.name) marks.old.items ≡ map (λ t. t.name) tallies.now.items }
    requires others { map (λ m. m.name) others.items ≡ map (λ t. t.name) tallies.now.items }
    ensures tallies { map (λ m. m.name) marks.new.items ≡ map (λ t. t.name) tallies.now.items }
    ensures both { (u : ℕ) (p q : TallySeatValue) → slice_get marks.old.items u ≡ Some p →
        slice_get others.items u ≡ Some q
        → slice_get marks.new.items u ≡ Some (both_seats p q) }
{
    while let Some(other) = others.pop() {
        let number = others.len();
        tallies[number].gather(&mut marks[number], other);
    }
}

/// Shows what passes tell that have all parts of their queues.
pub(crate) fn settle_passes<C: Cargo, A: Allocator, R: Wait>(
    rt: &R,
    lanes: &Vec<Lane<C, A>, A>,
    passes: &mut Vec<LanePass<C::Key, A>, A>,
)
    requires lanes { map (λ p. p.lane) passes.old.items ≡ lanes.now.items }
    requires parts { All (λ p. (0 < p.parts) × (p.parts ≡ p.about.seats)) passes.old.items }
    ensures { AtEach (λ u p. IsSettled p) passes.old.items }
{
    for number in 0..lanes.len() {
        lanes[number].settle(rt, &mut passes[number]);
    }
}

/// Shows what marks tell that have all parts of their tallies.
pub(crate) fn settle_marks<A: Allocator>(tallies: &Vec<Tally<A>, A>, marks: &mut Vec<TallySeat, A>)
    requires tallies { map (λ m. m.name) marks.old.items ≡ map (λ t. t.name) tallies.now.items }
    requires seats { All (λ t. t.seats ≡ length tallies.now.items) tallies.now.items }
    requires parts { All (λ m. m.parts ≡ length tallies.now.items) marks.old.items }
    ensures { AtEach (λ u m. m.seen ≤ m.raised) marks.old.items }
{
    for number in 0..tallies.len() {
        tallies[number].settle(&mut marks[number]);
    }
}
