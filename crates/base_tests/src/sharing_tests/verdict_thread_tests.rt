//! The verdict, which threads raise.
ghost use Rattle.std.specs.Prelude.{◌≡◌, IfOk, vec_len};
ghost use Rattle.std.specs.List.{All};

use idle_count::{Cause, Verdict, VerdictSeat};
use std::alloc::{AllocError, Global};
use std::sync::Wait;
use std::test::Fail;
use std::thread;
use std::thread::{Promise, Threads};

/// What one worker gives back: its seat, and the cause that it was told stands.
#[derive(Drop)]
struct Told {
    seat: VerdictSeat,
    cause: Cause,
}

/// What a worker gives back is a seat of this verdict.
#[derive(Clone, Copy)]
struct OfVerdict<'a>(&'a Verdict);

impl<'a> Promise<Told> for OfVerdict<'a> {
    ghost kept_by = { λ p t. t.seat.name ≡ p.0.now.name };
}

/// Raises a cause.
fn raise_one(verdict: &Verdict, mut seat: VerdictSeat, cause: Cause) -> Told
    requires { seat.name ≡ verdict.now.name }
    ensures { result.seat.name ≡ verdict.now.name }
{
    let cause = verdict.raise(&mut seat, cause);
    Told { seat, cause }
}

fn other_than(cause: Cause) -> Cause {
    match cause {
        Cause::Ended => Cause::Refused,
        Cause::Refused => Cause::Ended,
    }
}

/// Each seat raises a cause in a thread of its own, every second one another.
fn raise_apart<R: Threads + Wait>(
    rt: &R,
    alloc: Global,
    verdict: &Verdict,
    seats: Vec<VerdictSeat>,
) -> Result<Vec<Told>, AllocError>
    requires { All (λ s. s.name ≡ verdict.now.name) seats.items }
    ensures { IfOk result (λ all. (vec_len all ≡ vec_len seats) × All (λ t. t.seat.name ≡ verdict.now.name) all.items) }
{
    thread::scope(
        thread::scope_env(),
        rt,
        |scope| -> Result<Vec<Told>, AllocError>
            requires { All (λ s. s.name ≡ verdict.now.name) seats.items }
            ensures { IfOk result (λ all. (vec_len all ≡ vec_len seats) ×
                All (λ t. t.seat.name ≡ verdict.entry.now.name) all.items) }
        {
            let mut handles = Vec::with_capacity(alloc, seats.len())?;
            let mut cause = Cause::Ended;
            for seat in seats {
                let handle = scope.spawn_with(
                    OfVerdict(verdict),
                    move || raise_one(verdict, seat, cause),
                )?;
                handles.push_reserved(handle);
                cause = other_than(cause);
            }
            Ok(thread::join_promised(rt, handles)?)
        },
    )
}

/// Whether a worker was told this cause, and is told it again. Its seat is compared with this one.
fn agrees(verdict: &Verdict, first: &mut VerdictSeat, cause: Cause, told: Told) -> bool
    requires first { first.old.name ≡ verdict.now.name }
    requires told { told.seat.name ≡ verdict.now.name }
    ensures { first.new ≡ first.old }
{
    let Told {
        mut seat,
        cause: other,
    } = told;
    verdict.compare(first, &mut seat);
    other == cause && verdict.read(&mut seat) == Some(cause)
}

/// Whether each worker was told this cause.
fn all_agree(verdict: &Verdict, mut first: VerdictSeat, cause: Cause, all: Vec<Told>) -> bool
    requires first { first.name ≡ verdict.now.name }
    requires all { All (λ t. t.seat.name ≡ verdict.now.name) all.items }
{
    let mut agree = true;
    for told in all {
        agree &= agrees(verdict, &mut first, cause, told);
    }
    agree
}

#[test]
fn four_workers_are_told_one_cause(rt: HostRuntime) -> Result<(), Fail> {
    let (verdict, seats) = Verdict::new(rt.alloc(), 4)?;
    let mut all = raise_apart(&rt, rt.alloc(), &verdict, seats)?;
    let Some(Told { seat, cause }) = all.pop() else {
        return Err(Fail::from("four workers were asked for"));
    };
    assert_eq!(rt; all.len(), 3);
    assert!(rt; all_agree(&verdict, seat, cause, all));
    Ok(())
}
