//! Flags, and places that are noted.
ghost use Rattle.std.specs.Prelude.{◌<◌};

use block_pool::Flags;
use layout::Place;
use remembered_set::Remembered;
use std::alloc::{AllocError, Global};
use std::process::Abort;
use std::test::Fail;

/// How many blocks have places that are noted.
const BLOCKS: u16 = 200;

/// How many places of each block are noted.
const OFFSETS: u16 = 500;

/// Sets two flags.
fn set_two(flags: &mut Flags) -> Result<(), AllocError> {
    flags.reserve(200)?;
    flags.set(200);
    flags.reserve(3)?;
    flags.set(3);
    Ok(())
}

/// Asserts which of two flags are found, and which is left.
fn assert_flags(rt: &impl Abort, flags: &mut Flags) {
    assert_eq!(rt;
        (flags.next(0), flags.next(3), flags.next(4), flags.next(201)),
        (Some(3), Some(3), Some(200), None)
    );
    flags.unset(3);
    flags.unset(9999);
    assert_eq!(rt;
        (flags.is_set(3), flags.is_set(200), flags.is_set(9999)),
        (false, true, false)
    );
}

#[test]
fn flags_are_found_lowest_first(rt: HostRuntime) -> Result<(), Fail> {
    let mut flags = Flags::new(rt.alloc());
    set_two(&mut flags)?;
    assert_flags(&rt, &mut flags);
    Ok(())
}

/// Notes places one after another, where there is such a generation.
fn note_all(sets: &mut Remembered, generation: usize, places: &[Place]) -> Result<(), AllocError> {
    for place in places {
        if generation < sets.generations() {
            sets.note(generation, *place)?;
        }
    }
    Ok(())
}

/// Whether these are the members in the order of noting.
fn is_noted(sets: &Remembered, generation: usize, places: &[Place]) -> bool {
    let mut same = sets.len(generation) == places.len();
    for (k, place) in places.iter().enumerate() {
        same = same && k < sets.len(generation) && sets.member(generation, k) == *place;
    }
    same
}

/// Whether these are the members by rising place.
fn is_rising(
    alloc: Global,
    sets: &Remembered,
    generation: usize,
    places: &[Place],
) -> Result<bool, AllocError> {
    let members = sets.members(alloc, generation)?;
    Ok(members.as_slice() == places)
}

/// Notes a large place twice, and asserts that the second of two generations has three places, each once.
fn assert_noted_once(rt: &impl Abort, alloc: Global, sets: &mut Remembered) -> Result<(), Fail> {
    let (low, small, large) = (Place::small(0, 8), Place::small(3, 500), Place::large(7));
    note_all(sets, 1, &[large, small, large, low])?;
    assert_eq!(rt; (sets.generations(), sets.len(0), sets.len(2)), (2, 0, 0));
    assert!(rt; is_noted(sets, 1, &[large, small, low]));
    assert!(rt; sets.contains(1, small) && !sets.contains(0, small) && !sets.contains(2, small));
    assert!(rt; is_rising(alloc, sets, 1, &[low, small, large])?);
    Ok(())
}

#[test]
fn places_are_noted_once(rt: HostRuntime) -> Result<(), Fail> {
    let mut sets = Remembered::new(rt.alloc(), 2)?;
    assert_noted_once(&rt, rt.alloc(), &mut sets)
}

/// Takes two of three places back, of which one is noted once more.
fn assert_taken_back(rt: &impl Abort, sets: &mut Remembered) -> Result<(), Fail> {
    let (low, small, large) = (Place::small(0, 0), Place::small(0, 511), Place::large(0));
    note_all(sets, 0, &[large, small, low])?;
    assert!(rt; 0 < sets.len(0));
    sets.remove(0, 0);
    assert!(rt; is_noted(sets, 0, &[low, small]) && !sets.contains(0, large));
    assert!(rt; 0 < sets.generations());
    sets.cut(0, 1);
    assert!(rt; is_noted(sets, 0, &[low]) && !sets.contains(0, small));
    note_all(sets, 0, &[small])?;
    assert!(rt; is_noted(sets, 0, &[low, small]));
    Ok(())
}

#[test]
fn places_are_taken_back(rt: HostRuntime) -> Result<(), Fail> {
    let mut sets = Remembered::new(rt.alloc(), 1)?;
    assert_taken_back(&rt, &mut sets)
}

/// Notes the first places of a block, where there is a generation.
fn note_row(sets: &mut Remembered, block: u16) -> Result<(), AllocError>
    requires { block < 65535 }
{
    for offset in 0..OFFSETS {
        if 0 < sets.generations() {
            sets.note(0, Place::small(block, offset))?;
        }
    }
    Ok(())
}

/// Notes the first places of each block.
fn note_rows(sets: &mut Remembered) -> Result<(), AllocError> {
    for block in 0..BLOCKS {
        note_row(sets, block)?;
    }
    Ok(())
}

// 100,000 places are noted twice, which is soon done where a place is looked up without going over all members.
#[test]
fn many_places_are_noted_once(rt: HostRuntime) -> Result<(), Fail> {
    let mut sets = Remembered::new(rt.alloc(), 1)?;
    note_rows(&mut sets)?;
    note_rows(&mut sets)?;
    assert_eq!(rt; sets.len(0), 100_000);
    Ok(())
}
