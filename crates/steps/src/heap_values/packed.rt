//! A place in four bytes.
ghost use Rattle.std.specs.Prelude.{◌≡◌, ◌≢◌, ◌<◌};

use layout::Place;

/// Stands for the block of a large object, which has none. No block has this number.
const NO_BLOCK: u16 = 65535;

/// A place in four bytes, for lists that have an entry for each live object.
#[derive(Clone, Copy, Debug, PartialEq, Eq)]
pub struct PackedPlace {
    // The offset in the block, or the number of the large object.
    rest: u16,
    block: u16,
    pub ghost offset_in_range: { block ≢ 65535 → rest < 512 },
    pub ghost number_in_range: { block ≡ 65535 → rest < 65535 },
}

impl PackedPlace {
    ghost use Rattle.layout.specs.Place.{place_word};
    ghost use Rattle.steps.specs.Packed.{packed_word};

    /// The place in four bytes.
    #[inline(always)]
    pub fn new(place: Place) -> Self
        ensures { packed_word result ≡ place_word place }
    {
        match place {
            Place::Small(at) => PackedPlace {
                block: at.block,
                rest: at.offset,
            },
            Place::Large(of) => PackedPlace {
                block: NO_BLOCK,
                rest: of.number,
            },
        }
    }

    /// The place itself.
    pub fn place(self) -> Place
        ensures { place_word result ≡ packed_word self }
    {
        if self.block == NO_BLOCK {
            return Place::large(self.rest);
        }
        Place::small(self.block, self.rest)
    }
}
