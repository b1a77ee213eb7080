//! The count of idle seats, with threads that rest and wake.
ghost use Rattle.std.specs.Prelude.{◌≡◌, true, false, IfOk, length, vec_len};
ghost use Rattle.std.specs.List.{All};
ghost use Rattle.idle_count.specs.IdleValue.{IsSeatOf};

use idle_count::{Idle, IdleSeat, Polled};
use std::alloc::{AllocError, Global};
use std::sync::Wait;
use std::test::Fail;
use std::thread;
use std::thread::{Promise, Threads};

/// How often a worker looks at most.
const TURNS: u32 = 1_000_000;

/// What a worker does once it is idle.
#[derive(Clone, Copy, PartialEq, Eq)]
enum Manner {
    /// It looks until all are idle.
    Patient,
    /// After each look it tries to wake.
    Restless,
}

/// Becomes idle, and looks until all are, or it woke.
fn rest(idle: &Idle, mut seat: IdleSeat, manner: Manner) -> IdleSeat
    requires seat { IsSeatOf idle.now seat }
    requires busy { seat.idle ≡ false }
    ensures { IsSeatOf idle.now result }
{
    idle.idle(&mut seat);
    for _ in 0..TURNS {
        if idle.poll(&mut seat) == Polled::Ended {
            return seat;
        }
        if manner == Manner::Restless && idle.wake(&mut seat) {
            return seat;
        }
        thread::yield_now();
    }
    seat
}

/// What a worker gives back is a seat of this count.
#[derive(Clone, Copy)]
struct OfIdle<'a>(&'a Idle);

impl<'a> Promise<IdleSeat> for OfIdle<'a> {
    ghost kept_by = { λ p s. IsSeatOf p.0.now s };
}

/// Each seat becomes idle in a thread of its own.
fn rest_apart<R: Threads + Wait>(
    rt: &R,
    alloc: Global,
    idle: &Idle,
    seats: Vec<IdleSeat>,
    manner: Manner,
) -> Result<Vec<IdleSeat>, AllocError>
    requires { All (λ s. IsSeatOf idle.now s × (s.idle ≡ false)) seats.items }
    ensures { IfOk result (λ all. (vec_len all ≡ vec_len seats) × All (IsSeatOf idle.now) all.items) }
{
    thread::scope(
        thread::scope_env(),
        rt,
        |scope| -> Result<Vec<IdleSeat>, AllocError>
            requires { All (λ s. IsSeatOf idle.now s × (s.idle ≡ false)) seats.items }
            ensures { IfOk result (λ all. (vec_len all ≡ vec_len seats) × All (IsSeatOf idle.entry.now) all.items) }
        {
            let mut handles = Vec::with_capacity(alloc, seats.len())?;
            for seat in seats {
                let handle = scope.spawn_with(OfIdle(idle), move || rest(idle, seat, manner))?;
                handles.push_reserved(handle);
            }
            Ok(thread::join_promised(rt, handles)?)
        },
    )
}

/// How many seats are told that all are idle, of those that are.
fn ended_count(idle: &Idle, seats: &mut [IdleSeat]) -> usize
    requires { All (IsSeatOf idle.now) seats.old }
    ensures seats { All (IsSeatOf idle.now) seats.new }
    ensures count { length seats.new ≡ length seats.old }
{
    let mut ended = 0usize;
    for seat in seats.iter_mut() {
        if seat.is_idle() && idle.poll(seat) == Polled::Ended {
            ended = ended.wrapping_add(1);
        }
    }
    ended
}

/// A count of four workers, and their seats after each became idle in a thread of its own.
fn four_rest<R: Threads + Wait>(
    rt: &R,
    alloc: Global,
    manner: Manner,
) -> Result<(Idle, Vec<IdleSeat>), AllocError>
    ensures seats { IfOk result (λ r. All (IsSeatOf r.0) r.1.items) }
    ensures all { IfOk result (λ r. length r.1.items ≡ r.0.seats) }
{
    let (idle, seats) = Idle::new(alloc, 4)?;
    let seats = rest_apart(rt, alloc, &idle, seats, manner)?;
    Ok((idle, seats))
}

#[test]
fn four_workers_end_together(rt: HostRuntime) -> Result<(), Fail> {
    let (idle, mut seats) = four_rest(&rt, rt.alloc(), Manner::Patient)?;
    assert_eq!(rt; ended_count(&idle, &mut seats), 4);
    assert_eq!(rt; idle.close(seats), 4);
    Ok(())
}

// Each seat says whether it woke.
#[test]
fn idle_workers_are_counted_where_some_wake(rt: HostRuntime) -> Result<(), Fail> {
    let (idle, seats) = four_rest(&rt, rt.alloc(), Manner::Restless)?;
    let resting = seats.iter().filter(|seat| seat.is_idle()).count();
    assert_eq!(rt; idle.close(seats) as usize, resting);
    Ok(())
}
