//! A set of numbers, full and empty, over several words.
use block_pool::{NumberSet, RankedSet};
use std::process::Abort;
use std::test::Fail;

/// Asserts that the members of a full set of three come lowest first, one that comes back too.
fn assert_lowest_first(rt: &impl Abort, set: &mut NumberSet) {
    assert_eq!(rt; (set.limit(), set.len()), (3, 3));
    assert_eq!(rt; (set.pop_first(), set.pop_first()), (Some(0), Some(1)));
    assert!(rt; 0 < set.limit() && !set.contains(0));
    set.insert(0);
    assert_eq!(rt;
        (set.pop_first(), set.pop_first(), set.pop_first()),
        (Some(0), Some(2), None)
    );
    assert_eq!(rt; set.len(), 0);
}

#[test]
fn members_come_lowest_first(rt: HostRuntime) -> Result<(), Fail> {
    let mut set = NumberSet::full(rt.alloc(), 3)?;
    assert_lowest_first(&rt, &mut set);
    Ok(())
}

/// Removes the first and the last member of words of a full set of 200.
fn assert_removed(rt: &impl Abort, set: &mut NumberSet) {
    for member in [0, 63, 64, 199] {
        assert!(rt; set.contains(member));
        set.remove(member);
    }
    assert_eq!(rt;
        (set.contains(63), set.contains(65), set.contains(200)),
        (false, true, false)
    );
}

/// Asserts which members have so many others below them.
fn assert_ranked(rt: &impl Abort, ranked: &RankedSet) {
    for (place, member) in [
        (0, Some(1)),
        (61, Some(62)),
        (62, Some(65)),
        (125, Some(128)),
        (195, Some(198)),
        (196, None),
    ] {
        assert_eq!(rt; ranked.nth(place), member, "at {place}");
    }
}

#[test]
fn members_are_found_in_all_words(rt: HostRuntime) -> Result<(), Fail> {
    let mut set = NumberSet::full(rt.alloc(), 200)?;
    assert_removed(&rt, &mut set);
    let ranked = set.ranked(rt.alloc())?;
    assert_eq!(rt; ranked.len(), 196);
    assert_ranked(&rt, &ranked);
    let shared = ranked.share()?;
    drop(ranked);
    assert_ranked(&rt, &shared);
    Ok(())
}

#[test]
fn an_empty_set_has_no_members(rt: HostRuntime) -> Result<(), Fail> {
    let mut set = NumberSet::full(rt.alloc(), 0)?;
    assert_eq!(rt; (set.pop_first(), set.contains(0)), (None, false));
    let ranked = set.ranked(rt.alloc())?;
    assert_eq!(rt; (ranked.len(), ranked.nth(0)), (0, None));
    Ok(())
}
