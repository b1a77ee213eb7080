//! The verdict, on one thread.
ghost use Rattle.std.specs.Prelude.{◌≡◌, IfOk};

use idle_count::{Cause, Verdict, VerdictSeat};
use std::alloc::Global;
use std::test::Fail;

/// A verdict with two seats.
fn two_seats(alloc: Global) -> Result<(Verdict, VerdictSeat, VerdictSeat), Fail>
    ensures { IfOk result (λ r. (r.1.name ≡ r.0.name) × (r.2.name ≡ r.0.name)) }
{
    let (verdict, mut seats) = Verdict::new(alloc, 2)?;
    let (Some(one), Some(zero)) = (seats.pop(), seats.pop()) else {
        return Err(Fail::from("two seats were asked for"));
    };
    Ok((verdict, zero, one))
}

/// Whether the cause that a seat raises first stands for both, which raise two.
fn first_of_two_stands(verdict: &Verdict, zero: &mut VerdictSeat, one: &mut VerdictSeat) -> bool
    requires seats { (zero.old.name ≡ verdict.now.name) × (one.old.name ≡ verdict.now.name) }
    ensures seats { (zero.new.name ≡ verdict.now.name) × (one.new.name ≡ verdict.now.name) }
{
    let told = (
        verdict.raise(one, Cause::Refused),
        verdict.raise(zero, Cause::Ended),
    );
    told == (Cause::Refused, Cause::Refused)
}

/// Whether each seat reads this cause.
fn both_read(verdict: &Verdict, zero: &mut VerdictSeat, one: &mut VerdictSeat, cause: Cause) -> bool
    requires seats { (zero.old.name ≡ verdict.now.name) × (one.old.name ≡ verdict.now.name) }
    ensures seats { (zero.new.name ≡ verdict.now.name) × (one.new.name ≡ verdict.now.name) }
{
    let read = (verdict.read(zero), verdict.read(one));
    read == (Some(cause), Some(cause))
}

#[test]
fn first_cause_stands(rt: HostRuntime) -> Result<(), Fail> {
    let (verdict, mut zero, mut one) = two_seats(rt.alloc())?;
    assert!(rt; first_of_two_stands(&verdict, &mut zero, &mut one));
    assert!(rt; both_read(&verdict, &mut zero, &mut one, Cause::Refused));
    verdict.compare(&mut zero, &mut one);
    Ok(())
}

/// Whether a seat that has raised nothing reads nothing, and then what the other one raises.
fn is_told(verdict: &Verdict, zero: &mut VerdictSeat, one: &mut VerdictSeat) -> bool
    requires seats { (zero.old.name ≡ verdict.now.name) × (one.old.name ≡ verdict.now.name) }
    ensures seats { (zero.new.name ≡ verdict.now.name) × (one.new.name ≡ verdict.now.name) }
{
    let nothing = verdict.read(zero);
    let raised = verdict.raise(one, Cause::Ended);
    nothing.is_none() && raised == Cause::Ended && verdict.read(zero) == Some(Cause::Ended)
}

/// Whether this cause changes nothing, whichever seat raises it.
fn changes_nothing(
    verdict: &Verdict,
    zero: &mut VerdictSeat,
    one: &mut VerdictSeat,
    cause: Cause,
    stands: Cause,
) -> bool
    requires seats { (zero.old.name ≡ verdict.now.name) × (one.old.name ≡ verdict.now.name) }
{
    let told = (verdict.raise(zero, cause), verdict.raise(one, cause));
    told == (stands, stands)
}

// A seat that has raised nothing is told too, and what it raises then changes nothing.
#[test]
fn a_seat_is_told(rt: HostRuntime) -> Result<(), Fail> {
    let (verdict, mut zero, mut one) = two_seats(rt.alloc())?;
    assert!(rt; is_told(&verdict, &mut zero, &mut one));
    assert!(rt; changes_nothing(&verdict, &mut zero, &mut one, Cause::Refused, Cause::Ended));
    Ok(())
}
