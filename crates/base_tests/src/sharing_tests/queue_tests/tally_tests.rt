//! A count that seats raise and read.
ghost use Rattle.std.specs.Prelude.{◌≡◌, ◌<◌, IfSome, length};
ghost use Rattle.std.specs.List.{All};

use pending_queues::{Tally, TallySeat};
use std::test::Fail;

/// A raise by one of the seats.
fn raise_by(tally: &Tally, seats: &mut Vec<TallySeat>, at: usize)
    requires seats { All (λ s. s.name ≡ tally.now.name) seats.old.items }
    requires at { at < length seats.old.items }
    ensures seats { All (λ s. s.name ≡ tally.now.name) seats.new.items }
    ensures count { length seats.new.items ≡ length seats.old.items }
{
    tally.raise(&mut seats[at]);
}

/// What one of the seats reads.
fn read_by(tally: &Tally, seats: &mut Vec<TallySeat>, at: usize) -> u64
    requires seats { All (λ s. s.name ≡ tally.now.name) seats.old.items }
    requires at { at < length seats.old.items }
    ensures seats { All (λ s. s.name ≡ tally.now.name) seats.new.items }
    ensures count { length seats.new.items ≡ length seats.old.items }
{
    tally.read(&mut seats[at])
}

/// One seat raises once and the other one twice. Whether each of both reads three then, and the first one none before.
fn raises_add_up(tally: &Tally, seats: &mut Vec<TallySeat>) -> bool
    requires seats { All (λ s. s.name ≡ tally.now.name) seats.old.items }
    requires two { 1 < length seats.old.items }
{
    let before = read_by(tally, seats, 0);
    raise_by(tally, seats, 0);
    raise_by(tally, seats, 1);
    raise_by(tally, seats, 1);
    before == 0 && read_by(tally, seats, 0) == 3 && read_by(tally, seats, 1) == 3
}

/// Both seats in one, once it has shown that what they saw was raised.
fn gather_two(tally: &Tally, mut seats: Vec<TallySeat>) -> Option<TallySeat>
    requires seats { All (λ s. (s.name ≡ tally.now.name) × (s.parts ≡ 1)) seats.items }
    requires count { tally.now.seats ≡ 2 }
    ensures { IfSome result (λ s. s.name ≡ tally.now.name) }
{
    let other = seats.pop()?;
    let mut seat = seats.pop()?;
    tally.gather(&mut seat, other);
    tally.settle(&mut seat);
    Some(seat)
}

#[test]
fn seats_count_together(rt: HostRuntime) -> Result<(), Fail> {
    let (tally, mut seats) = Tally::new(rt.alloc(), 2)?;
    assert!(rt; raises_add_up(&tally, &mut seats));
    Ok(())
}

#[test]
fn two_seats_become_one(rt: HostRuntime) -> Result<(), Fail> {
    let (tally, seats) = Tally::new(rt.alloc(), 2)?;
    let mut seat = gather_two(&tally, seats).ok_or("no seat")?;
    tally.raise(&mut seat);
    assert_eq!(rt; tally.read(&mut seat), 1);
    Ok(())
}

#[test]
fn a_tally_may_have_no_seats(rt: HostRuntime) -> Result<(), Fail> {
    let (tally, seats) = Tally::new(rt.alloc(), 0)?;
    assert_eq!(rt; seats.len(), 0);
    drop(tally);
    Ok(())
}
