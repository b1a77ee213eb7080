//! Boxed cells on one thread.
ghost use Rattle.std.specs.Prelude.{◌≡◌, ◌<◌, IfOk, length};
ghost use Rattle.forwarding.specs.Noted.{IsPassOf, IsApart};

use crate::sharing_tests::cell_tests::{finds_what_another_won, first_place_stays, is_second};
use forwarding::{BoxCells, BoxPass, Cells, Forwards, Outcome, SettleError, look_then_race};
use layout::Place;
use std::alloc::{AllocError, Global};
use std::test::Fail;

/// Cells for so many names, and two passes.
fn two_passes(alloc: Global, count: u32) -> Result<(BoxCells, BoxPass, BoxPass), Fail>
    ensures count { IfOk result (λ r. length r.0 ≡ count) }
    ensures passes { IfOk result (λ r. IsPassOf r.0 r.1 × IsPassOf r.0 r.2) }
    ensures numbers { IfOk result (λ r. (r.1.number ≡ 0) × (r.2.number ≡ 1)) }
    ensures apart { IfOk result (λ r. IsApart r.1 r.2) }
{
    let (cells, mut passes) = BoxCells::new(alloc, alloc, count, 2)?;
    let (Some(one), Some(zero)) = (passes.pop(), passes.pop()) else {
        return Err(Fail::from("two passes were asked for"));
    };
    Ok((cells, zero, one))
}

/// The first pass wins name 1, and the second one does not. Whether the first place stays.
fn first_box_stays(
    cells: &BoxCells,
    zero: &mut BoxPass,
    one: &mut BoxPass,
    a: Place,
    b: Place,
) -> Result<bool, AllocError>
    requires name { 1 < length cells.now }
    requires passes { IsPassOf cells.now zero.old × IsPassOf cells.now one.old }
    requires apart { IsApart zero.old one.old }
    ensures passes { IsPassOf cells.now zero.new × IsPassOf cells.now one.new }
    ensures apart { IsApart zero.new one.new }
{
    let mut shared = cells;
    first_place_stays(&mut shared, zero, one, a, b)
}

/// What two passes settle.
fn settle_two(
    cells: BoxCells,
    alloc: Global,
    zero: BoxPass,
    one: BoxPass,
) -> Result<Forwards, SettleError>
    requires passes { IsPassOf cells zero × IsPassOf cells one }
    requires apart { IsApart zero one }
{
    let Ok(mut passes) = Vec::with_capacity(alloc, 2) else {
        return Err(SettleError::NoMemory);
    };
    passes.push_reserved(zero);
    passes.push_reserved(one);
    cells.settle(alloc, passes)
}

/// What one pass alone settles.
fn settle_one(cells: BoxCells, alloc: Global, pass: BoxPass) -> Result<Forwards, SettleError>
    requires { IsPassOf cells pass }
{
    let Ok(mut passes) = Vec::with_capacity(alloc, 1) else {
        return Err(SettleError::NoMemory);
    };
    passes.push_reserved(pass);
    cells.settle(alloc, passes)
}

// Two passes of two names, on one thread: the first place stays.
#[test]
fn two_passes_race_for_a_box(rt: HostRuntime) -> Result<(), Fail> {
    let (a, b) = (Place::small(0, 4), Place::small(7, 0));
    let (cells, mut zero, mut one) = two_passes(rt.alloc(), 2)?;
    let stays = first_box_stays(&cells, &mut zero, &mut one, a, b)?;
    assert!(rt; stays);
    let forwards = settle_two(cells, rt.alloc(), zero, one)?;
    assert!(rt; is_second(&forwards, a));
    Ok(())
}

// The same, where a large object's place comes first.
#[test]
fn two_passes_race_with_a_large_place(rt: HostRuntime) -> Result<(), Fail> {
    let (a, b) = (Place::large(65534), Place::small(65533, 511));
    let (cells, mut zero, mut one) = two_passes(rt.alloc(), 2)?;
    let stays = first_box_stays(&cells, &mut zero, &mut one, a, b)?;
    assert!(rt; stays);
    let forwards = settle_two(cells, rt.alloc(), zero, one)?;
    assert!(rt; is_second(&forwards, a));
    Ok(())
}

/// Whether both passes are answered the place that the first one proposes for name 2 of three.
fn first_answer_is_for_both(
    cells: &BoxCells,
    zero: &mut BoxPass,
    one: &mut BoxPass,
) -> Result<bool, AllocError>
    requires name { 2 < length cells.now }
    requires passes { IsPassOf cells.now zero.old × IsPassOf cells.now one.old }
{
    let (a, b) = (Place::small(7, 0), Place::small(8, 2));
    let (mut shared, mut again) = (cells, cells);
    let first = look_then_race(&mut shared, zero, 2, a)?;
    let second = look_then_race(&mut again, one, 2, b)?;
    Ok(first == a && second == a && Cells::count(&shared) == 3)
}

// Whoever comes second gets the place of who came first, through the trait.
#[test]
fn boxes_show_the_first_place(rt: HostRuntime) -> Result<(), Fail> {
    let (cells, mut zero, mut one) = two_passes(rt.alloc(), 3)?;
    let shown = first_answer_is_for_both(&cells, &mut zero, &mut one)?;
    assert!(rt; shown);
    assert_eq!(rt; cells.count(), 3);
    Ok(())
}

/// The first pass wins name 0, and the second one, which knows nothing, looks. Whether it finds what the first one set.
fn finds_what_is_set(
    cells: &BoxCells,
    zero: &mut BoxPass,
    one: &mut BoxPass,
) -> Result<bool, AllocError>
    requires name { 0 < length cells.now }
    requires passes { IsPassOf cells.now zero.old × IsPassOf cells.now one.old }
    requires apart { IsApart zero.old one.old }
    ensures passes { IsPassOf cells.now zero.new × IsPassOf cells.now one.new }
    ensures apart { IsApart zero.new one.new }
{
    let a = Place::small(1, 1);
    let won = cells.race(zero, 0, a)?;
    let seen = cells.look(one, 0);
    Ok(won == Outcome::Won && seen == Some(a))
}

// A pass that knows nothing finds what another one set.
#[test]
fn a_new_pass_finds_a_set_box(rt: HostRuntime) -> Result<(), Fail> {
    let (cells, mut zero, mut one) = two_passes(rt.alloc(), 1)?;
    let found = finds_what_is_set(&cells, &mut zero, &mut one)?;
    assert!(rt; found);
    assert!(rt; settle_two(cells, rt.alloc(), zero, one).is_ok());
    Ok(())
}

// The same through the trait by which threads share boxes, whether the place of a small or a large object.
#[test]
fn a_new_pass_finds_a_won_box(rt: HostRuntime) -> Result<(), Fail> {
    for a in [Place::small(0, 4), Place::large(65534)] {
        let (cells, mut zero, mut one) = two_passes(rt.alloc(), 2)?;
        let found = finds_what_another_won(&cells, &mut zero, &mut one, a)?;
        assert!(rt; found);
    }
    Ok(())
}

// Where the pass that won is not there, what the other one knows is not settled.
#[test]
fn a_place_that_nobody_won_is_unsettled(rt: HostRuntime) -> Result<(), Fail> {
    let (cells, mut zero, mut one) = two_passes(rt.alloc(), 1)?;
    let found = finds_what_is_set(&cells, &mut zero, &mut one)?;
    assert!(rt; found);
    let refusal = settle_one(cells, rt.alloc(), one).err();
    assert!(rt; refusal == Some(SettleError::Unsettled));
    Ok(())
}
