//! Word cells: one word for each name, in one table.
ghost use Rattle.std.specs.Prelude.{◌≡◌, ℕ, ◌<◌, [], Some};
ghost use Rattle.layout.specs.declared.place.Place.{Place as At};
ghost use Rattle.layout.specs.Place.{IsPointer, place_word};
ghost use Rattle.forwarding.specs.Known.{known_in};
ghost use Rattle.forwarding.specs.Learned.{Learns, RaceEnds, place_after};

use crate::cell_memory::Zeros;
use crate::cells::Outcome;
use crate::word_cells::plays::{Look, Mind, Plan, Race, Rule};
use atomic_table::{Seat, Table};
use layout::{Place, pointer_of};
use std::alloc::{Allocator, Global};
use std::marker::Model;

/// One word for each name: 0, or the word of the place that was won. A load or one exchange from 0 is the only step, so
/// that threads share the cells. No call takes memory but those that make the cells, and no look and no race waits.
#[derive(Drop)]
pub struct WordCells<A: Allocator = Global> {
    pub(crate) table: Table<(), Mind, Plan, Rule, A>,
    pub(crate) plan: Plan,
    /// What the table was copied from, kept for cells to come.
    pub(crate) zeros: Zeros<A>,
}

impl<A: Allocator> Model for WordCells<A> {
    ghost use Rattle.forwarding.specs.Words.{WordsValue, AreCells};

    ghost Value = { WordsValue };

    ghost view = { λ c. record { id = c.table.shared.table_id; count = c.plan.count; passes = c.plan.passes } };

    ghost invariant = { λ c. AreCells c.table.shared.table_id c.table.shared.key c.plan c.zeros.room };
}

/// What one worker knows and has won. It has no bytes.
#[derive(Drop)]
pub struct WordPass {
    pub(crate) seat: Seat<(), Mind>,
}

impl Model for WordPass {
    ghost use Rattle.forwarding.specs.Words.{WordPassValue, IsOnePass};

    ghost Value = { WordPassValue };

    ghost view = { λ p. record { id = p.seat.table_id; known = p.seat.me.0.known; won = p.seat.me.0.won } };

    ghost invariant = { λ p. IsOnePass p.seat.me };
}

impl WordPass {
    pub(crate) fn into_seat(self) -> Seat<(), Mind>
        ensures cells { result.table_id ≡ self.id }
        ensures known { result.me.0.known ≡ self.known }
        ensures won { result.me.0.won ≡ self.won }
        ensures one { (result.me.1 ≡ []) × (result.me.0.parts ≡ 1) }
    {
        let WordPass { seat } = self;
        seat
    }
}

/// How a race ended whose exchange found the word of this place. Few races are lost: a loop that races has no registers to give
/// for one that is.
#[cold]
fn lost_to(found: u64) -> Outcome
    requires { IsPointer found }
    ensures { (first : At) → place_word first ≡ found → result ≡ Outcome.Lost first }
{
    match pointer_of(found) {
        None => Outcome::Won,
        Some(first) => Outcome::Lost(first),
    }
}

/// How a race ended whose exchange found that word.
#[inline(always)]
fn outcome_of(found: u64) -> Outcome
    requires { IsPointer found }
    ensures won { found ≡ 0 → result ≡ Outcome.Won }
    ensures lost { (first : At) → place_word first ≡ found → result ≡ Outcome.Lost first }
{
    if found == 0 {
        return Outcome::Won;
    }
    lost_to(found)
}

impl<A: Allocator> WordCells<A> {
    /// The number of cells. Names are below it.
    pub fn count(&self) -> u32
        ensures { result ≡ self.now.count }
    {
        self.plan.count
    }

    /// The place that the name's word shows, which the pass then knows.
    #[inline(always)]
    pub fn look(&self, pass: &mut WordPass, name: u32) -> Option<Place>
        requires pass { pass.old.id ≡ self.now.id }
        requires name { name < self.now.count }
        ensures pass { pass.new.id ≡ pass.old.id }
        ensures known { Learns (known_in pass.old.known) (known_in pass.new.known) name result }
        ensures won { pass.new.won ≡ pass.old.won }
    {
        let word = self
            .table
            .shared
            .load::<Look>(&mut pass.seat, name as usize);
        pointer_of(word)
    }

    /// Exchanges the name's word from 0 to that of the place. Won: the pass has won the pair; Lost: it knows the place
    /// that the word shows.
    #[inline(always)]
    pub fn race(&self, pass: &mut WordPass, name: u32, place: Place) -> Outcome
        requires pass { pass.old.id ≡ self.now.id }
        requires name { name < self.now.count }
        ensures pass { pass.new.id ≡ pass.old.id }
        ensures known { Learns (known_in pass.old.known) (known_in pass.new.known) name
            (Some (place_after result place)) }
        ensures won { RaceEnds (known_in pass.old.known name) pass.old.won pass.new.won name place result }
    {
        let found = self
            .table
            .shared
            .compare_exchange::<Race>(&mut pass.seat, name as usize, 0, place.to_word());
        outcome_of(found)
    }
}
