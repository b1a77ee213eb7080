//! The count of idle seats, on one thread.
ghost use Rattle.std.specs.Prelude.{◌≡◌, true, false, IfOk};
ghost use Rattle.idle_count.specs.IdleValue.{IsSeatOf};

use idle_count::{Idle, IdleSeat, Polled};
use std::alloc::{AllocError, Global};
use std::test::Fail;

/// A count with two seats.
fn two_seats(alloc: Global) -> Result<(Idle, IdleSeat, IdleSeat), Fail>
    ensures count { IfOk result (λ r. r.0.seats ≡ 2) }
    ensures seats { IfOk result (λ r. IsSeatOf r.0 r.1 × IsSeatOf r.0 r.2) }
    ensures busy { IfOk result (λ r. (r.1.idle ≡ false) × (r.2.idle ≡ false)) }
{
    let (idle, mut seats) = Idle::new(alloc, 2)?;
    let (Some(one), Some(zero)) = (seats.pop(), seats.pop()) else {
        return Err(Fail::from("two seats were asked for"));
    };
    Ok((idle, zero, one))
}

/// How many of two seats are idle.
fn close_two(alloc: Global, idle: Idle, zero: IdleSeat, one: IdleSeat) -> Result<u32, AllocError>
    requires count { idle.seats ≡ 2 }
    requires seats { IsSeatOf idle zero × IsSeatOf idle one }
{
    Ok(idle.close(vec![in alloc; zero, one]?))
}

/// Whether a seat that alone is idle is not told that all are, and wakes.
fn wakes_alone(idle: &Idle, seat: &mut IdleSeat) -> bool
    requires seat { IsSeatOf idle.now seat.old }
    requires busy { seat.old.idle ≡ false }
    ensures seat { IsSeatOf idle.now seat.new }
    ensures awake { result ≡ true → seat.new.idle ≡ false }
{
    idle.idle(seat);
    let polled = idle.poll(seat);
    let woke = idle.wake(seat);
    woke && polled == Polled::Going
}

/// Both seats become idle. Whether both are told so, and the first one does not wake.
fn end_together(idle: &Idle, zero: &mut IdleSeat, one: &mut IdleSeat) -> bool
    requires seats { IsSeatOf idle.now zero.old × IsSeatOf idle.now one.old }
    requires busy { (zero.old.idle ≡ false) × (one.old.idle ≡ false) }
    ensures seats { IsSeatOf idle.now zero.new × IsSeatOf idle.now one.new }
{
    idle.idle(zero);
    idle.idle(one);
    let polled = (idle.poll(zero), idle.poll(one));
    let woke = idle.wake(zero);
    polled == (Polled::Ended, Polled::Ended) && !woke
}

#[test]
fn idle_and_wake(rt: HostRuntime) -> Result<(), Fail> {
    let (idle, mut zero, mut one) = two_seats(rt.alloc())?;
    let woke = wakes_alone(&idle, &mut zero);
    assert!(rt; woke);
    assert!(rt; end_together(&idle, &mut zero, &mut one));
    assert_eq!(rt; close_two(rt.alloc(), idle, zero, one)?, 2);
    Ok(())
}

/// Both seats become idle. Whether the first one does not wake, and is told that all are idle.
fn stays_idle(idle: &Idle, zero: &mut IdleSeat, one: &mut IdleSeat) -> bool
    requires seats { IsSeatOf idle.now zero.old × IsSeatOf idle.now one.old }
    requires busy { (zero.old.idle ≡ false) × (one.old.idle ≡ false) }
    ensures seats { IsSeatOf idle.now zero.new × IsSeatOf idle.now one.new }
{
    idle.idle(zero);
    idle.idle(one);
    !idle.wake(zero) && idle.poll(zero) == Polled::Ended
}

// The second seat made 2 of the 1 that the first one has seen.
#[test]
fn no_seat_wakes_from_a_count_that_changed(rt: HostRuntime) -> Result<(), Fail> {
    let (idle, mut zero, mut one) = two_seats(rt.alloc())?;
    assert!(rt; stays_idle(&idle, &mut zero, &mut one));
    assert_eq!(rt; close_two(rt.alloc(), idle, zero, one)?, 2);
    Ok(())
}

#[test]
fn busy_seats_are_not_counted(rt: HostRuntime) -> Result<(), Fail> {
    let (idle, zero, mut one) = two_seats(rt.alloc())?;
    idle.idle(&mut one);
    assert_eq!(rt; close_two(rt.alloc(), idle, zero, one)?, 1);
    Ok(())
}

#[test]
fn a_count_may_have_no_seats(rt: HostRuntime) -> Result<(), Fail> {
    let (idle, seats) = Idle::new(rt.alloc(), 0)?;
    assert_eq!(rt; idle.close(seats), 0);
    Ok(())
}
