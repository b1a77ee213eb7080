//! Cells of each kind on one thread, and a caller that serves them all.
ghost use Rattle.std.specs.Prelude.{◌≡◌, ◌<◌, length, IfOk};
ghost use Rattle.forwarding.specs.Plain.{IsFit, Differ};

use forwarding::{
    CellMemory, Cells, Forwards, Outcome, PlainCells, PlainPass, SettleError, SharedCells,
    WordCells, WordPass, look_then_race, settled,
};
use layout::Place;
use std::alloc::{AllocError, Global};
use std::test::Fail;

/// Two passes race for name 1, which nobody won. Whether the first place stays, and the second pass finds it before it races.
pub(crate) fn first_place_stays<C: Cells>(
    cells: &mut C,
    zero: &mut C::Pass,
    one: &mut C::Pass,
    a: Place,
    b: Place,
) -> Result<bool, AllocError>
    requires name { 1 < C.limit cells.old }
    requires fits { C.fits cells.old zero.old × C.fits cells.old one.old }
    requires apart { C.apart zero.old one.old × C.apart one.old zero.old }
    ensures fits { C.fits cells.new zero.new × C.fits cells.new one.new }
    ensures home_of_zero { (other : C) → C.at_home other zero.old → C.at_home other zero.new }
    ensures home_of_one { (other : C) → C.at_home other one.old → C.at_home other one.new }
    ensures apart { C.apart zero.new one.new × C.apart one.new zero.new }
{
    let nothing = cells.look(zero, 1);
    let won = cells.race(zero, 1, a)?;
    let found = cells.look(one, 1);
    let lost = cells.race(one, 1, b)?;
    let seen = cells.look(zero, 1);
    let first = nothing.is_none() && won == Outcome::Won && found == Some(a);
    Ok(first && lost == Outcome::Lost(a) && seen == Some(a))
}

/// The first pass wins name 1 of cells that threads share, and the second one looks before and after. Whether it finds nothing
/// and then that place.
pub(crate) fn finds_what_another_won<S: SharedCells>(
    cells: &S,
    zero: &mut S::Pass,
    one: &mut S::Pass,
    a: Place,
) -> Result<bool, AllocError>
    requires name { 1 < S.limit cells.now }
    requires zero { S.is_pass cells.now 0 zero.old }
    requires one { S.is_pass cells.now 1 one.old }
{
    let nothing = cells.look_at(one, 1);
    let won = cells.race_for(zero, 1, a)?;
    let found = cells.look_at(one, 1);
    Ok(nothing.is_none() && won == Outcome::Won && found == Some(a))
}

/// Word cells for two names in that memory, and two passes.
fn two_word_passes(
    alloc: Global,
    memory: CellMemory,
) -> Result<(WordCells, WordPass, WordPass), Fail>
    ensures cells { IfOk result (λ r. (r.0.count ≡ 2) × (r.0.passes ≡ 2)) }
    ensures passes { IfOk result (λ r. (r.1.id ≡ r.0.id) × (r.2.id ≡ r.0.id)) }
{
    let (cells, mut passes) = WordCells::within(alloc, memory, 2, 2)?;
    let (Some(one), Some(zero)) = (passes.pop(), passes.pop()) else {
        return Err(Fail::from("two passes were asked for"));
    };
    Ok((cells, zero, one))
}

/// The same for word cells that are shared.
fn first_word_stays(
    cells: &WordCells,
    zero: &mut WordPass,
    one: &mut WordPass,
    a: Place,
    b: Place,
) -> Result<bool, AllocError>
    requires name { 1 < cells.now.count }
    requires passes { (zero.old.id ≡ cells.now.id) × (one.old.id ≡ cells.now.id) }
    ensures { (zero.new.id ≡ cells.now.id) × (one.new.id ≡ cells.now.id) }
{
    let mut shared = cells;
    first_place_stays(&mut shared, zero, one, a, b)
}

/// Whether name 1 of two has this place, and no other name has one.
pub(crate) fn is_second(forwards: &Forwards, place: Place) -> bool {
    forwards.place(0).is_none()
        && forwards.place(1) == Some(place)
        && forwards.place(2).is_none()
        && forwards.len() == 2
}

/// The places that two passes of word cells settle on.
fn settle_words(
    alloc: Global,
    cells: WordCells,
    zero: WordPass,
    one: WordPass,
) -> Result<Forwards, SettleError>
    requires all { cells.passes ≡ 2 }
    requires passes { (zero.id ≡ cells.id) × (one.id ≡ cells.id) }
{
    let Ok(mut passes) = Vec::with_capacity(alloc, 2) else {
        return Err(SettleError::NoMemory);
    };
    passes.push_reserved(zero);
    passes.push_reserved(one);
    cells.settle(passes)
}

/// Whether name 1 of word cells within that memory holds the first place after two passes raced for it, and the places that
/// they settle on.
fn raced_words(
    alloc: Global,
    memory: CellMemory,
    a: Place,
    b: Place,
) -> Result<(bool, Forwards), Fail> {
    let (cells, mut zero, mut one) = two_word_passes(alloc, memory)?;
    let stays = first_word_stays(&cells, &mut zero, &mut one, a, b)?;
    Ok((stays, settle_words(alloc, cells, zero, one)?))
}

/// The places that two passes of plain cells settle on.
fn settle_plain(
    alloc: Global,
    cells: PlainCells,
    zero: PlainPass,
    one: PlainPass,
) -> Result<Forwards, SettleError>
    requires all { cells.passes ≡ 2 }
    requires fits { IsFit cells zero × IsFit cells one }
    requires apart { Differ zero one }
{
    let Ok(mut passes) = Vec::with_capacity(alloc, 2) else {
        return Err(SettleError::NoMemory);
    };
    passes.push_reserved(zero);
    passes.push_reserved(one);
    cells.settle(passes)
}

#[test]
fn two_passes_race_for_a_word(rt: HostRuntime) -> Result<(), Fail> {
    let (a, b) = (Place::small(0, 4), Place::large(65534));
    let (stays, forwards) = raced_words(rt.alloc(), CellMemory::none(rt.alloc()), a, b)?;
    assert!(rt; stays);
    assert!(rt; is_second(&forwards, a));
    Ok(())
}

// A pass of shared words finds what another one won, whether the place of a small or a large object.
#[test]
fn a_new_pass_finds_a_won_word(rt: HostRuntime) -> Result<(), Fail> {
    for a in [Place::small(0, 4), Place::large(65534)] {
        let (cells, mut zero, mut one) = two_word_passes(rt.alloc(), CellMemory::none(rt.alloc()))?;
        let found = finds_what_another_won(&cells, &mut zero, &mut one, a)?;
        assert!(rt; found);
    }
    Ok(())
}

#[test]
fn two_passes_race_for_a_plain_cell(rt: HostRuntime) -> Result<(), Fail> {
    let (a, b) = (Place::large(3), Place::small(65533, 511));
    let (mut cells, mut passes) = PlainCells::new(rt.alloc(), 2, 2)?;
    let mut one = passes.pop().ok_or("no pass")?;
    let mut zero = passes.pop().ok_or("no pass")?;
    let stays = first_place_stays(&mut cells, &mut zero, &mut one, a, b)?;
    assert!(rt; stays);
    let forwards = settle_plain(rt.alloc(), cells, zero, one)?;
    assert!(rt; is_second(&forwards, a));
    Ok(())
}

/// Whether name 1 holds the first place after a pass alone raced for it with two.
fn first_of_two_stays(
    cells: &mut PlainCells,
    pass: &mut PlainPass,
    a: Place,
    b: Place,
) -> Result<bool, AllocError>
    requires name { 1 < length cells.old.held }
    requires fits { IsFit cells.old pass.old }
    ensures fits { IsFit cells.new pass.new }
    ensures passes { pass.new.passes ≡ pass.old.passes }
{
    let won = cells.race(pass, 1, a)?;
    let lost = cells.race(pass, 1, b)?;
    Ok(won == Outcome::Won && lost == Outcome::Lost(a))
}

/// Whether name 1 of plain cells within that memory holds the first place after a pass alone raced for it with two, and the
/// places that it settles on.
fn raced_alone(
    alloc: Global,
    memory: CellMemory,
    a: Place,
    b: Place,
) -> Result<(bool, Forwards), AllocError> {
    let (mut cells, mut pass) = PlainCells::alone_within(alloc, memory, 2)?;
    let stays = first_of_two_stays(&mut cells, &mut pass, a, b)?;
    Ok((stays, cells.settle_alone(pass)))
}

#[test]
fn a_pass_alone_settles_what_it_won(rt: HostRuntime) -> Result<(), Fail> {
    let (a, b) = (Place::small(1, 2), Place::large(0));
    let (mut cells, mut pass) = PlainCells::alone(rt.alloc(), 2)?;
    let stays = first_of_two_stays(&mut cells, &mut pass, a, b)?;
    assert!(rt; stays);
    assert!(rt; is_second(&cells.settle_alone(pass), a));
    Ok(())
}

#[test]
fn cells_in_used_memory_hold_nothing(rt: HostRuntime) -> Result<(), Fail> {
    let (a, b) = (Place::small(1, 2), Place::large(0));
    let used = vec![in rt.alloc(); 65536u32; 3]?;
    let (stays, forwards) = raced_alone(rt.alloc(), CellMemory::of(used), a, b)?;
    assert!(rt; stays);
    assert!(rt; is_second(&forwards, a));

    let used = vec![in rt.alloc(); 65536u32; 3]?;
    let (stays, forwards) = raced_words(rt.alloc(), CellMemory::of(used), a, b)?;
    assert!(rt; stays);
    assert!(rt; is_second(&forwards, a));
    Ok(())
}

#[test]
fn memory_that_cells_leave_serves_either_kind(rt: HostRuntime) -> Result<(), Fail> {
    let (a, b) = (Place::small(1, 2), Place::large(0));
    let (stays, of_words) = raced_words(rt.alloc(), CellMemory::none(rt.alloc()), a, b)?;
    assert!(rt; stays);
    assert!(rt; is_second(&of_words, a));

    let (stays, of_plain) = raced_alone(rt.alloc(), of_words.into_memory(), b, a)?;
    assert!(rt; stays);
    assert!(rt; is_second(&of_plain, b));

    let (stays, forwards) = raced_words(rt.alloc(), of_plain.into_memory(), a, b)?;
    assert!(rt; stays);
    assert!(rt; is_second(&forwards, a));
    Ok(())
}

/// Whether a second place for name 0 of one, which nobody won, is not taken.
fn first_answer_stays<C: Cells>(
    cells: &mut C,
    pass: &mut C::Pass,
    a: Place,
    b: Place,
) -> Result<bool, AllocError>
    requires name { 0 < C.limit cells.old }
    requires pass { C.fits cells.old pass.old }
{
    let first = look_then_race(cells, pass, 0, a)?;
    let second = look_then_race(cells, pass, 0, b)?;
    Ok(first == a && second == a && cells.count() == 1)
}

#[test]
fn a_later_place_is_not_taken_for_a_word(rt: HostRuntime) -> Result<(), Fail> {
    let (words, mut passes) = WordCells::new(rt.alloc(), 1, 1)?;
    let mut pass = passes.pop().ok_or("no pass")?;
    let (a, b) = (Place::small(7, 0), Place::small(8, 2));
    let stays = first_answer_stays(&mut &words, &mut pass, a, b)?;
    assert!(rt; stays && words.count() == 1);
    Ok(())
}

#[test]
fn a_later_place_is_not_taken_for_a_plain_cell(rt: HostRuntime) -> Result<(), Fail> {
    let (mut plain, mut passes) = PlainCells::new(rt.alloc(), 1, 1)?;
    let mut pass = passes.pop().ok_or("no pass")?;
    let (a, b) = (Place::small(7, 0), Place::small(8, 2));
    let stays = first_answer_stays(&mut plain, &mut pass, b, a)?;
    assert!(rt; stays);
    Ok(())
}

#[test]
fn settled_pairs(rt: HostRuntime) {
    let (a, b) = (Place::small(1, 1), Place::large(1));
    assert!(rt; settled(&[(0, a)], &[(0, a)]));
    assert!(rt; !settled(&[(0, b)], &[(0, a)]));
    assert!(rt; settled(&[], &[]));
    assert!(rt; settled(&[(2, b), (1, a)], &[(1, a), (0, b), (2, b)]));
    assert!(rt; !settled(&[(1, a), (2, a)], &[(1, a), (2, b)]));
}
