//! The word of a pointer.
ghost use Rattle.std.specs.Prelude.{◌≡◌};
ghost use Rattle.layout.specs.Place.{pointer_word, IsPointer};

use crate::place::{BLOCK_UNIT, FIRST_LARGE, Place};

/// The word of a pointer, which is 0 for nil.
pub fn word_of(pointer: Option<Place>) -> u64
    ensures { result ≡ pointer_word pointer }
{
    match pointer {
        Some(place) => place.to_word(),
        None => 0,
    }
}

/// The pointer with this word, where one has it. It looks for nothing that no pointer's word has.
#[inline(always)]
pub fn pointer_of(word: u64) -> Option<Place>
    requires { IsPointer word }
    ensures { pointer_word result ≡ word }
{
    if word == 0 {
        return None;
    }
    if word >= FIRST_LARGE {
        return Some(Place::large((word - FIRST_LARGE) as u16));
    }
    let block = word / BLOCK_UNIT - 1;
    Some(Place::small(block as u16, (word % BLOCK_UNIT) as u16))
}
