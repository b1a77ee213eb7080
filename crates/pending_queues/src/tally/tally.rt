//! A count that threads raise and read, and the seats by which they do.
ghost use Rattle.std.specs.Prelude.{◌≡◌, ◌+◌, ◌<◌, ◌≤◌, [], length, max, IfOk};
ghost use Rattle.std.specs.List.{All};
ghost use Rattle.pending_queues.specs.Tallied.{known};
ghost use Rattle.pending_queues.specs.TallyValue.{unraised, both_seats};

use crate::tally::tally_plays::{Check, Count, Deal, Gather, Raise, Read, Rule};
use atomic_table::{Seat, Table};
use std::alloc::{AllocError, Allocator, Global};
use std::marker::Model;

/// A word that seats raise and read. It counts the raises of all seats.
#[derive(Drop)]
pub struct Tally<A: Allocator = Global> {
    table: Table<(), Count, usize, Rule, A>,
    seats: u32,
}

impl<A: Allocator> Model for Tally<A> {
    ghost use Rattle.std.specs.Prelude.{◌≡◌};
    ghost use Rattle.pending_queues.specs.TallyValue.{TallyValue, tally_code};

    ghost Value = { TallyValue };

    ghost coded = { tally_code };

    ghost view = { λ t. record { name = t.table.shared.table_id; seats = t.seats } };

    ghost invariant = { λ t. (t.table.shared.key ≡ t.seats) × (t.table.shared.table_id.words ≡ 1) × (t.table.shared.table_id.slots ≡ 0) };
}

/// A thread's right to raise and read a tally. It has no bytes.
#[derive(Drop)]
pub struct TallySeat {
    seat: Seat<(), Count>,
}

impl Model for TallySeat {
    ghost use Rattle.std.specs.Prelude.{◌≡◌, ◌<◌, []};
    ghost use Rattle.pending_queues.specs.TallyValue.{TallySeatValue, tally_seat_code};

    ghost Value = { TallySeatValue };

    ghost coded = { tally_seat_code };

    ghost view = { λ s. record { name = s.seat.table_id; parts = s.seat.me.0.parts; raised = s.seat.me.0.raised; seen = s.seat.me.0.seen } };

    ghost invariant = { λ s. (0 < s.seat.me.0.parts) × (s.seat.me.1 ≡ []) };
}

/// A seat for each part of the first one.
fn deal<A: Allocator, B: Allocator>(
    table: &Table<(), Count, usize, Rule, A>,
    mut first: Seat<(), Count>,
    mut seats: Vec<TallySeat, B>,
    count: u32,
) -> Result<Vec<TallySeat, B>, AllocError>
    requires table { (first.table_id ≡ table.now.shared.table_id) × (0 < table.now.shared.table_id.words) }
    requires parts { first.me ≡ (known count 0 0, []) }
    requires seats { seats.items ≡ [] }
    ensures count { IfOk result (λ all. length all.items ≡ count) }
    ensures seats { IfOk result (λ all. All (λ s. s ≡ unraised table.now.shared.table_id) all.items) }
{
    for _ in 0..count {
        let seat = table.shared.split_seat::<Deal>(&mut first);
        seats.push(TallySeat { seat })?;
    }
    Ok(seats)
}

impl<A: Allocator + Clone> Tally<A> {
    /// A tally of zero, and so many seats. An error says that memory ran out.
    pub fn new(alloc: A, seats: u32) -> Result<(Tally<A>, Vec<TallySeat, A>), AllocError>
        ensures count { IfOk result (λ r. (r.0.seats ≡ seats) × (length r.1.items ≡ seats)) }
        ensures seats { IfOk result (λ r. All (λ s. s ≡ unraised r.0.name) r.1.items) }
    {
        let made = Vec::with_capacity(alloc.clone()?, seats as usize)?;
        let (table, first) = Table::of_words(alloc, &[0], &(seats as usize))?;
        let made = deal(&table, first, made, seats)?;
        Ok((Tally { table, seats }, made))
    }
}

impl<A: Allocator> Tally<A> {
    /// Counts one more.
    pub fn raise(&self, seat: &mut TallySeat)
        requires seat { seat.old.name ≡ self.now.name }
        ensures { seat.new ≡ record seat.old { raised = seat.old.raised + 1 } }
    {
        self.table.shared.fetch_add::<Raise>(&mut seat.seat, 0, 1);
    }

    /// The count, which the seat then has seen: there were at least as many raises, and there are for good.
    pub fn read(&self, seat: &mut TallySeat) -> u64
        requires seat { seat.old.name ≡ self.now.name }
        ensures { seat.new ≡ record seat.old { seen = max seat.old.seen result } }
    {
        self.table.shared.load::<Read>(&mut seat.seat, 0)
    }

    /// What two seats raised and saw goes into one.
    pub fn gather(&self, seat: &mut TallySeat, other: TallySeat)
        requires seats { (seat.old.name ≡ self.now.name) × (other.name ≡ self.now.name) }
        ensures { seat.new ≡ both_seats seat.old other }
    {
        let TallySeat { seat: other } = other;
        self.table.shared.join_seat::<Gather>(&mut seat.seat, other);
    }

    /// Shows that what was seen was raised, where one seat has all parts.
    pub fn settle(&self, seat: &mut TallySeat)
        requires seat { seat.old.name ≡ self.now.name }
        requires all { seat.old.parts ≡ self.now.seats }
        ensures same { seat.new ≡ seat.old }
        ensures raised { seat.old.seen ≤ seat.old.raised }
    {
        self.table.shared.load::<Check>(&mut seat.seat, 0);
    }
}
