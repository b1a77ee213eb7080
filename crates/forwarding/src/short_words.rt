//! Words of pointers in four bytes.
ghost use Rattle.std.specs.Prelude.{◌≡◌, Option};
ghost use Rattle.layout.specs.declared.place.Place.{Place as At};
ghost use Rattle.layout.specs.Place.{IsPointer, place_word, pointer_word};
ghost use Rattle.forwarding.specs.ShortWords.{long_word};

use layout::Place;

/// How far apart the short words of two neighbouring blocks are, and those of two large objects.
const UNIT: u32 = 1 << 16;

/// What stands in the lower half of a large object's short word. In a small object's an offset stands there, which is less.
const LARGE: u32 = 1 << 15;

/// The word of the large object with the number 0.
const FIRST_LARGE: u64 = 1 << 63;

/// The short word of the place.
#[inline(always)]
pub(crate) fn short_word_of(place: Place) -> u32
    ensures { long_word result ≡ place_word place }
{
    match place {
        Place::Small(at) => (at.block as u32 + 1) * UNIT + at.offset as u32,
        Place::Large(of) => of.number as u32 * UNIT + LARGE,
    }
}

/// The place that a short word shows. Each such word is 0 or that of a place, so none is tested.
#[inline(always)]
pub(crate) fn place_in(word: u32) -> Option<Place>
    requires { IsPointer (long_word word) }
    ensures { (pointer : Option At) → pointer_word pointer ≡ long_word word → result ≡ pointer }
{
    if word == 0 {
        return None;
    }
    let (high, low) = (word / UNIT, word % UNIT);
    if low >= LARGE {
        return Some(Place::large(high as u16));
    }
    Some(Place::small((high - 1) as u16, low as u16))
}

/// The word of which it is the short one.
pub(crate) fn long_word_of(word: u32) -> u64
    ensures { result ≡ long_word word }
{
    if word % UNIT >= LARGE {
        return FIRST_LARGE + (word / UNIT) as u64;
    }
    word as u64
}
