//! The draw counter over a free list, and the seats that draw.
ghost use Rattle.std.specs.Prelude.{◌≡◌, ◌<◌, ◌≤◌, ◌^◌, ◌++◌, ◌∷◌, [], ℕ, true, false, length, take, nat_eq, IfOk, IfSome, None};
ghost use Rattle.std.specs.List.{All, Contains, IsDistinct};
ghost use Rattle.std.specs.Option.{MatchOption};
ghost use Rattle.model.specs.Total.{one_if};
ghost use Rattle.block_pool.specs.Drawn.{share, times_in};
ghost use Rattle.block_pool.specs.ClaimsValue.{Source, unused, IsSeatOf, all_drawn, any_out};

use crate::claims::claim_plays::{Deal, Draw, Gather, Plan, Rule, Share};
use crate::number_sets::RankedSet;
use atomic_table::{Seat, Table};
use std::alloc::{AllocError, Allocator, Global};
use std::marker::Model;

/// A counter over a free list, by which the threads of a collection draw numbers.
#[derive(Drop)]
pub struct Claims<A: Allocator = Global> {
    table: Table<(), Share, Plan<A>, Rule, A>,
    plan: Plan<A>,
}

impl<A: Allocator> Model for Claims<A> {
    ghost use Rattle.std.specs.Prelude.{◌≡◌, ◌<◌, ◌^◌, length, nat_eq};
    ghost use Rattle.std.specs.List.{IsDistinct};
    ghost use Rattle.block_pool.specs.ClaimsValue.{ClaimsValue, claims_code};

    ghost Value = { ClaimsValue };

    ghost coded = { claims_code };

    ghost view = { λ c. record { source = record { name = c.table.shared.table_id; free = c.plan.free; seats = c.plan.seats } } };

    ghost invariant = { λ c. (c.table.shared.key ≡ c.plan) × (c.table.shared.table_id.words ≡ 1) × (c.table.shared.table_id.slots ≡ 0) × (c.plan.seats < 2 ^ 32) × (length c.plan.free < 2 ^ 32) × IsDistinct nat_eq c.plan.free };
}

/// A thread's right to draw, and what it has drawn. Its only byte says whether it found none left.
#[derive(Drop)]
pub struct ClaimSeat {
    seat: Seat<(), Share>,
    out: bool,
}

impl Model for ClaimSeat {
    ghost use Rattle.std.specs.Prelude.{◌≡◌, ◌≤◌, ℕ, true, [], length};
    ghost use Rattle.model.specs.Total.{one_if};
    ghost use Rattle.block_pool.specs.Drawn.{times_in};
    ghost use Rattle.block_pool.specs.ClaimsValue.{SeatValue, seat_code};

    ghost Value = { SeatValue };

    ghost coded = { seat_code };

    ghost view = { λ s. record { source = record { name = s.seat.table_id; free = s.seat.me.0.free; seats = s.seat.me.0.seats }; drawn = s.seat.me.0.drawn; out = s.out } };

    ghost invariant = { λ s. (s.seat.me.0.parts ≡ 1) × (s.seat.me.0.outs ≡ one_if s.out) × (length s.seat.me.0.drawn ≤ length s.seat.me.0.free) × (s.seat.me.1 ≡ []) × (s.out ≡ true → s.seat.me.0.seats ≡ 1 → (x : ℕ) → times_in x s.seat.me.0.drawn ≡ times_in x s.seat.me.0.free) };
}

impl ClaimSeat {
    fn into_seat(self) -> Seat<(), Share>
        ensures name { result.table_id ≡ self.source.name }
        ensures share { result.me ≡ (share self.source.free self.source.seats 1 self.drawn (one_if self.out), []) }
    {
        let ClaimSeat { seat, out: _ } = self;
        seat
    }
}

/// A seat for each part of the first one.
fn deal<A: Allocator, B: Allocator>(
    table: &Table<(), Share, Plan<A>, Rule, A>,
    mut first: Seat<(), Share>,
    mut seats: Vec<ClaimSeat, B>,
    count: u32,
) -> Result<Vec<ClaimSeat, B>, AllocError>
    requires table { (first.table_id ≡ table.now.shared.table_id) × (0 < table.now.shared.table_id.words) }
    requires parts { first.me ≡ (share table.now.shared.key.free table.now.shared.key.seats count [] 0, []) }
    requires seats { seats.items ≡ [] }
    ensures count { IfOk result (λ all. length all.items ≡ count) }
    ensures seats { IfOk result
        (λ all. All (λ s. s ≡
        unused (record {
          name = table.now.shared.table_id;
          free = table.now.shared.key.free;
          seats =
              table.now.shared.key.seats;
        })) all.items) }
{
    for _ in 0..count {
        let seat = table.shared.split_seat::<Deal>(&mut first);
        seats.push(ClaimSeat { seat, out: false })?;
    }
    Ok(seats)
}

/// All that the seats drew, in one seat.
fn gather<A: Allocator, B: Allocator>(
    table: &Table<(), Share, Plan<A>, Rule, A>,
    last: ClaimSeat,
    mut seats: Vec<ClaimSeat, B>,
) -> Seat<(), Share>
    requires words { 0 < table.now.shared.table_id.words }
    requires last { last.source.name ≡ table.now.shared.table_id }
    requires seats { All (λ s. s.source.name ≡ table.now.shared.table_id) seats.items }
    ensures name { result.table_id ≡ table.now.shared.table_id }
    ensures parts { result.me.0.parts ≡ length (seats.items ++ last ∷ []) }
    ensures drawn { result.me.0.drawn ≡ all_drawn (seats.items ++ last ∷ []) }
    ensures outs { any_out (seats.items ++ last ∷ []) ≡ true → 0 < result.me.0.outs }
{
    let mut all = last.into_seat();
    while let Some(seat) = seats.pop() {
        table.shared.join_seat::<Gather>(&mut all, seat.into_seat());
    }
    all
}

impl<A: Allocator + Clone> Claims<A> {
    /// Claims over a free list, and so many seats, with which nothing was drawn. An error says that memory ran out.
    pub fn new(
        alloc: A,
        free: RankedSet<A>,
        seats: u32,
    ) -> Result<(Claims<A>, Vec<ClaimSeat, A>), AllocError>
        ensures free { IfOk result (λ made. made.0.source.free ≡ free) }
        ensures count { IfOk result (λ made. (made.0.source.seats ≡ seats) × (length made.1.items ≡ seats)) }
        ensures seats { IfOk result (λ made. All (λ s. s ≡ unused made.0.source) made.1.items) }
    {
        // What `len` ensures: the numbers rise, so each stands in the list once.
        let _count = free.len();
        let made = Vec::with_capacity(alloc.clone()?, seats as usize)?;
        let plan = Plan { free, seats };
        let (table, first) = Table::of_words(alloc, &[0], &plan)?;
        let made = deal(&table, first, made, seats)?;
        Ok((Claims { table, plan }, made))
    }

    /// Claims over a free list, and one seat alone, for which no list is made. Nothing was drawn with it. An error says
    /// that memory ran out.
    pub fn alone(alloc: A, free: RankedSet<A>) -> Result<(Claims<A>, ClaimSeat), AllocError>
        ensures free { IfOk result (λ made. made.0.source.free ≡ free) }
        ensures count { IfOk result (λ made. made.0.source.seats ≡ 1) }
        ensures seat { IfOk result (λ made. made.1 ≡ unused made.0.source) }
    {
        // What `len` ensures: the numbers rise, so each stands in the list once.
        let _count = free.len();
        let plan = Plan { free, seats: 1 };
        let (table, seat) = Table::of_words(alloc, &[0], &plan)?;
        Ok((Claims { table, plan }, ClaimSeat { seat, out: false }))
    }
}

impl<A: Allocator> Claims<A> {
    /// The next number of the free list, or None where all were drawn. A seat that got None gets it from then on.
    /// It is one step on the counter, or none, and takes no memory.
    pub fn draw(&self, seat: &mut ClaimSeat) -> Option<u32>
        requires seat { IsSeatOf self.now.source seat.old }
        ensures seat { IsSeatOf self.now.source seat.new }
        ensures drawn { MatchOption result (seat.new ≡ record seat.old { out = true })
            (λ n. (seat.new ≡ record seat.old { drawn = seat.old.drawn ++ n ∷ [] }) × Contains self.now.source.free n) }
        ensures fresh { IfSome result (λ n. ¬ Contains seat.old.drawn n) }
        ensures few { length seat.new.drawn ≤ length self.now.source.free }
        ensures out { seat.old.out ≡ true → result ≡ None }

        // The only seat finds none only where it drew all.
        ensures used_up { result ≡ None → self.now.source.seats ≡ 1 → (x : ℕ) →
            times_in x seat.old.drawn ≡ times_in x self.now.source.free }
    {
        if seat.out {
            return None;
        }
        let at = self.table.shared.fetch_add::<Draw>(&mut seat.seat, 0, 1);
        let number = self.plan.free.nth(at as usize);
        seat.out = number.is_none();
        number
    }

    /// How many numbers were drawn. It takes all the seats that `new` gave.
    pub fn close<B: Allocator>(self, mut seats: Vec<ClaimSeat, B>) -> u32
        requires seats { All (IsSeatOf self.source) seats.items }
        requires all { length seats.items ≡ self.source.seats }

        // They are that many numbers of the free list, from the first on.
        ensures count { length (all_drawn seats.items) ≡ result }
        ensures most { result ≤ length self.source.free }
        ensures first { (x : ℕ) → times_in x (all_drawn seats.items) ≡ times_in x (take result self.source.free) }

        // So each was drawn by one seat, once.
        ensures once { IsDistinct nat_eq (all_drawn seats.items) }
        ensures members { All (Contains self.source.free) (all_drawn seats.items) }

        // A seat found none only where all were drawn.
        ensures used_up { any_out seats.items ≡ true → result ≡ length self.source.free }
    {
        let Some(last) = seats.pop() else {
            return 0;
        };
        let Claims { table, plan } = self;
        let seat = gather(&table, last, seats);
        let closed = table.close_with(seat);
        let drawn = closed.word(0);
        closed.free();
        drawn.min(plan.free.len() as u64) as u32
    }
}
