//! Where an object is, and the word of a place.
ghost use Rattle.std.specs.Prelude.{◌≡◌, ◌≢◌, ◌<◌, Some, IfSome, IfNone, Option};

/// Where a small object is: a block's number, and the index of the object's first word in it.
#[derive(Clone, Copy, Debug, PartialEq, Eq, PartialOrd, Ord, Hash)]
pub struct SmallPlace {
    /// The block's number, below 65,535.
    pub block: u16,
    /// The index of the object's first word, its header, in the block, below 512.
    pub offset: u16,
    pub ghost block_in_range: { block < 65535 },
    pub ghost offset_in_range: { offset < 512 },
}

/// The number of a large object.
#[derive(Clone, Copy, Debug, PartialEq, Eq, PartialOrd, Ord, Hash)]
pub struct LargeNumber {
    /// Below 65,535.
    pub number: u16,
    pub ghost in_range: { number < 65535 },
}

/// Where an object is. Small places come first, by block and offset, and then large numbers, as the words of pointers do.
#[derive(Clone, Copy, Debug, PartialEq, Eq, PartialOrd, Ord, Hash)]
pub enum Place {
    /// Of a small object, which lies in a block.
    Small(SmallPlace),
    /// Of a large object, which has memory of its own.
    Large(LargeNumber),
}

/// Blocks and large objects have numbers below this.
const MOST_NUMBERS: u64 = 65535;

/// How many words a block has at most, so that each offset is below.
const MOST_OFFSETS: u64 = 512;

/// How far apart the words of two neighbouring blocks are.
pub(crate) const BLOCK_UNIT: u64 = 1 << 16;

/// The word of the large object with the number 0.
pub(crate) const FIRST_LARGE: u64 = 1 << 63;

impl Place {
    ghost use Rattle.layout.specs.Place.{small_word, large_word, place_word, pointer_word, IsSmallAt, IsLargeAt};

    /// The place of the small object at that offset of that block.
    pub fn small(block: u16, offset: u16) -> Self
        requires block_in_range { block < 65535 }
        requires offset_in_range { offset < 512 }
        ensures at { IsSmallAt result block offset }
        ensures word { place_word result ≡ small_word block offset }
    {
        Place::Small(SmallPlace { block, offset })
    }

    /// The place of the large object with that number.
    pub fn large(number: u16) -> Self
        requires { number < 65535 }
        ensures at { IsLargeAt result number }
        ensures word { place_word result ≡ large_word number }
    {
        Place::Large(LargeNumber { number })
    }

    /// The word of a pointer to this place, which is never 0.
    pub fn to_word(self) -> u64
        ensures { result ≡ place_word self }
    {
        match self {
            Place::Small(at) => (at.block as u64 + 1) * BLOCK_UNIT + at.offset as u64,
            Place::Large(of) => FIRST_LARGE + of.number as u64,
        }
    }

    /// The pointer with that word: `Some(None)` is nil, and `None` says that no pointer has it.
    pub fn from_word(word: u64) -> Option<Option<Place>>
        ensures reads { IfSome result (λ pointer. pointer_word pointer ≡ word) }
        ensures back { (pointer : Option Place) → pointer_word pointer ≡ word → result ≡ Some pointer }
        ensures none { IfNone result ((pointer : Option Place) → pointer_word pointer ≢ word) }
    {
        if word == 0 {
            return Some(None);
        }
        if word >= FIRST_LARGE {
            let number = word - FIRST_LARGE;
            if number < MOST_NUMBERS {
                return Some(Some(Place::large(number as u16)));
            }
            return None;
        }
        let high = word / BLOCK_UNIT;
        let offset = word % BLOCK_UNIT;
        if high >= 1 && high <= MOST_NUMBERS && offset < MOST_OFFSETS {
            return Some(Some(Place::small((high - 1) as u16, offset as u16)));
        }
        None
    }
}
