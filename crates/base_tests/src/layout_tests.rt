//! Words of places and headers, the order of places, and sizes.
use layout::{Header, Place, TooBig, is_large, size, word_of};
use std::cmp::Ordering;

/// Whether the place is that word, and is read back from it.
fn is_word_of(place: Place, word: u64) -> bool {
    place.to_word() == word
        && word_of(Some(place)) == word
        && Place::from_word(word) == Some(Some(place))
}

/// How many pointers and plain words a header has, and its ordinal.
fn header_of(word: u64) -> Option<(u32, u32, u16)> {
    let header = Header::unpack(word)?;
    Some((header.pointers, header.plain, header.ordinal))
}

#[test]
fn words_of_places(rt: HostRuntime) {
    let table = [
        (Place::small(0, 0), 65536),
        (Place::small(65534, 508), 4294902268),
        (Place::large(5), 9223372036854775813),
    ];
    for (place, word) in table {
        assert!(rt; is_word_of(place, word), "at {word}");
    }
    assert_eq!(rt; word_of(None), 0);
    assert_eq!(rt; Place::from_word(0), Some(None));
    assert_eq!(rt; Place::from_word(65535), None);
}

#[test]
fn words_of_headers(rt: HostRuntime) {
    assert_eq!(rt; Header::pack(1, 2, 3), Ok(844424963686401));
    assert_eq!(rt; Header::pack(100001, 0, 0), Err(TooBig));
    assert_eq!(rt; header_of(844424963686401), Some((1, 2, 3)));
    assert_eq!(rt; header_of(100001), None);
}

#[test]
fn sizes(rt: HostRuntime) {
    assert_eq!(rt; size(0, 3), 4);
    assert!(rt; !is_large(4, 16));
    assert!(rt; is_large(5, 16));
}

/// Whether the first place is below the second, and its word too.
fn rises(low: Place, high: Place) -> bool {
    low < high && low.to_word() < high.to_word() && high.cmp(&low) == Ordering::Greater
}

#[test]
fn places_are_ordered_as_their_words(rt: HostRuntime) {
    let pairs = [
        (Place::small(0, 0), Place::small(0, 511)),
        (Place::small(0, 511), Place::small(1, 0)),
        (Place::small(65534, 511), Place::large(0)),
        (Place::large(0), Place::large(65534)),
    ];
    for (low, high) in pairs {
        assert!(rt; rises(low, high));
    }
}
