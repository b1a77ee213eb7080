//! The count of idle seats, and the seats.
ghost use Rattle.std.specs.Prelude.{◌≡◌, ◌+◌, ◌<◌, ◌≤◌, ◌++◌, ◌∷◌, ◌↔◌, [], true, false, length, not, IfOk};
ghost use Rattle.std.specs.List.{All, count_by};
ghost use Rattle.model.specs.Total.{one_if};
ghost use Rattle.idle_count.specs.Idled.{share};
ghost use Rattle.idle_count.specs.IdleValue.{IsSeatOf, HasEnded, busy};
ghost use Rattle.idle_count.specs.declared.polled.Polled.TheVariants.{Ended};

use crate::idle_plays::{Deal, Gather, Look, Rest, Rule, Share, Wake};
use crate::polled::Polled;
use atomic_table::{Seat, Table};
use std::alloc::{AllocError, Allocator, Global};
use std::marker::Model;

/// One word, which counts the idle seats.
#[derive(Drop)]
pub struct Idle<A: Allocator = Global> {
    table: Table<(), Share, usize, Rule, A>,
    seats: u32,
}

impl<A: Allocator> Model for Idle<A> {
    ghost use Rattle.std.specs.Prelude.{◌≡◌, ◌<◌, ◌^◌};
    ghost use Rattle.idle_count.specs.IdleValue.{IdleValue, idle_code};

    ghost Value = { IdleValue };

    ghost coded = { idle_code };

    ghost view = { λ i. record { name = i.table.shared.table_id; seats = i.seats } };

    ghost invariant = { λ i. (i.table.shared.key ≡ i.seats) × (i.table.shared.table_id.words ≡ 1) × (i.table.shared.table_id.slots ≡ 0) × (i.seats < 2 ^ 32) };
}

/// A worker's seat: whether it is idle, and the count of idle seats that it last made or saw.
#[derive(Drop)]
pub struct IdleSeat {
    seat: Seat<(), Share>,
    idle: bool,
    seen: u32,
}

impl Model for IdleSeat {
    ghost use Rattle.std.specs.Prelude.{◌≡◌, []};
    ghost use Rattle.idle_count.specs.Idled.{IsTold};
    ghost use Rattle.idle_count.specs.IdleValue.{IdleSeatValue, idle_seat_code};

    ghost Value = { IdleSeatValue };

    ghost coded = { idle_seat_code };

    ghost view = { λ s. record { name = s.seat.table_id; seats = s.seat.me.0.seats; idle = s.idle; seen = s.seen; steps = s.seat.me.0.steps } };

    ghost invariant = { λ s. IsTold s.seat.me.0 s.idle s.seen × (s.seat.me.1 ≡ []) };
}

impl IdleSeat {
    /// Whether the seat is idle.
    pub fn is_idle(&self) -> bool
        ensures { result ≡ self.now.idle }
    {
        self.idle
    }

    fn into_seat(self) -> Seat<(), Share>
        ensures name { result.table_id ≡ self.name }
        ensures share { result.me ≡ (share self.seats 1 (one_if self.idle) self.seen self.steps, []) }
    {
        let IdleSeat {
            seat,
            idle: _,
            seen: _,
        } = self;
        seat
    }
}

/// A seat for each part of the first one.
fn deal<A: Allocator, B: Allocator>(
    table: &Table<(), Share, usize, Rule, A>,
    mut first: Seat<(), Share>,
    mut seats: Vec<IdleSeat, B>,
    count: u32,
) -> Result<Vec<IdleSeat, B>, AllocError>
    requires table { (first.table_id ≡ table.now.shared.table_id) × (0 < table.now.shared.table_id.words) }
    requires key { table.now.shared.key ≡ count }
    requires parts { first.me ≡ (share count count 0 0 0, []) }
    requires seats { seats.items ≡ [] }
    ensures count { IfOk result (λ all. length all.items ≡ count) }
    ensures seats { IfOk result
        (λ all. All (λ s. s ≡ busy (record { name = table.now.shared.table_id; seats = count })) all.items) }
{
    for _ in 0..count {
        let seat = table.shared.split_seat::<Deal>(&mut first);
        seats.push(IdleSeat {
            seat,
            idle: false,
            seen: 0,
        })?;
    }
    Ok(seats)
}

/// What the seats count as and have seen, in one seat.
fn gather<A: Allocator, B: Allocator>(
    table: &Table<(), Share, usize, Rule, A>,
    last: IdleSeat,
    mut seats: Vec<IdleSeat, B>,
) -> Seat<(), Share>
    requires words { 0 < table.now.shared.table_id.words }
    requires last { last.name ≡ table.now.shared.table_id }
    requires seats { All (λ s. s.name ≡ table.now.shared.table_id) seats.items }
    ensures name { result.table_id ≡ table.now.shared.table_id }
    ensures parts { result.me.0.parts ≡ length (seats.items ++ last ∷ []) }
    ensures idles { result.me.0.idles ≡ count_by (λ s. s.idle) (seats.items ++ last ∷ []) }
    ensures seen { All (λ s. s.seen ≤ result.me.0.seen) (seats.items ++ last ∷ []) }
{
    let mut all = last.into_seat();
    while let Some(seat) = seats.pop() {
        table.shared.join_seat::<Gather>(&mut all, seat.into_seat());
    }
    all
}

impl<A: Allocator + Clone> Idle<A> {
    /// A count, and so many seats, of which none is idle. An error says that memory ran out.
    pub fn new(alloc: A, seats: u32) -> Result<(Idle<A>, Vec<IdleSeat, A>), AllocError>
        ensures count { IfOk result (λ r. (r.0.seats ≡ seats) × (length r.1.items ≡ seats)) }
        ensures seats { IfOk result (λ r. All (λ s. s ≡ busy r.0) r.1.items) }
    {
        let made = Vec::with_capacity(alloc.clone()?, seats as usize)?;
        let (table, first) = Table::of_words(alloc, &[0], &(seats as usize))?;
        let made = deal(&table, first, made, seats)?;
        Ok((Idle { table, seats }, made))
    }
}

impl<A: Allocator> Idle<A> {
    /// The seat becomes idle, in one step. It has seen the count that it made: at least 1, and all seats if it was the last
    /// one to become idle.
    pub fn idle(&self, seat: &mut IdleSeat)
        requires seat { IsSeatOf self.now seat.old }
        requires busy { seat.old.idle ≡ false }
        ensures seat { seat.new ≡ record seat.old { idle = true; seen = seat.new.seen; steps = seat.old.steps + 1 } }
        ensures least { 0 < seat.new.seen }
        ensures most { seat.new.seen ≤ self.now.seats }

        // Who isn't idle has not seen the end.
        ensures going { seat.old.seen < self.now.seats }
    {
        let found = self.table.shared.fetch_add::<Rest>(&mut seat.seat, 0, 1);
        seat.idle = true;
        seat.seen = found as u32 + 1;
    }

    /// Whether all seats are idle, by one step that reads the count, which the seat then has seen. All are idle for good: a
    /// seat that was told Ended is told so from then on.
    pub fn poll(&self, seat: &mut IdleSeat) -> Polled
        requires seat { IsSeatOf self.now seat.old }
        requires idle { seat.old.idle ≡ true }
        ensures seat { seat.new ≡ record seat.old { seen = seat.new.seen; steps = seat.old.steps + 1 } }
        ensures ended { (result ≡ Ended) ↔ HasEnded seat.new }
        ensures lasting { HasEnded seat.old → HasEnded seat.new }
        ensures least { 0 < seat.new.seen }
        ensures most { seat.new.seen ≤ self.now.seats }
    {
        seat.seen = self.table.shared.load::<Look>(&mut seat.seat, 0) as u32;
        if seat.seen == self.seats {
            Polled::Ended
        } else {
            Polled::Going
        }
    }

    /// The seat is no longer idle, if the count still is what it last saw: one step, which is tried once. It is not tried by a
    /// seat that has seen that all are idle.
    pub fn wake(&self, seat: &mut IdleSeat) -> bool
        requires seat { IsSeatOf self.now seat.old }
        requires idle { seat.old.idle ≡ true }

        ensures seat { seat.new ≡ record seat.old { idle = not result; steps = seat.new.steps } }

        // True means that not all were idle.
        ensures awake { result ≡ true → seat.old.seen < self.now.seats }
        ensures going { seat.old.seen < self.now.seats → seat.new.steps ≡ seat.old.steps + 1 }
        ensures ended { HasEnded seat.old → (result ≡ false) × (seat.new ≡ seat.old) }
    {
        let seen = seat.seen;
        if seen == self.seats {
            return false;
        }
        let found = self
            .table
            .shared
            .compare_exchange::<Wake>(&mut seat.seat, 0, seen as u64, (seen - 1) as u64);
        if found != seen as u64 {
            return false;
        }
        seat.idle = false;
        true
    }

    /// How many seats are idle. It takes all the seats that `new` gave.
    pub fn close<B: Allocator>(self, mut seats: Vec<IdleSeat, B>) -> u32
        requires seats { All (IsSeatOf self) seats.items }
        requires all { length seats.items ≡ self.seats }
        ensures count { result ≡ count_by (λ s. s.idle) seats.items }

        // Where any has seen the end, all are idle.
        ensures ended { All (λ s. HasEnded s → result ≡ self.seats) seats.items }
        ensures all_idle { result ≡ self.seats → All (λ s. s.idle ≡ true) seats.items }
    {
        let Some(last) = seats.pop() else {
            return 0;
        };
        let Idle { table, seats: _ } = self;
        let seat = gather(&table, last, seats);
        let closed = table.close_with(seat);
        let idle = closed.word(0);
        closed.free();
        idle as u32
    }
}
