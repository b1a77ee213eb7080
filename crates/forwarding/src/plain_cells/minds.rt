//! What cells and passes remember for contracts alone, and what each step makes of it.
use crate::plain_cells::held::Held;
use crate::plain_cells::plain_pass::PlainPass;
use crate::plain_cells::remembered::{Remembered, Tells};
use layout::Place;
use std::collections::LinkedList;

/// What each cell holds. No value of it is made.
pub type Holdings = LinkedList<Option<Held>>;

/// The number of a pass and how many were made with it, the place that it knows for each name, and the pairs that it
/// won. No value of it is made.
pub struct Mind {
    /// The number of the pass, from 0 and below `passes`.
    pub number: usize,
    /// How many passes were made with the cells, this one included.
    pub passes: usize,
    /// One entry for each name, by its number: the place that is known, or `None`.
    pub known: LinkedList<Option<Place>>,
    /// The names that it won, each with the place that it raced with, in the order of the races.
    pub won: LinkedList<(u32, Place)>,
}

/// So many cells hold nothing.
pub(crate) struct Empty;

impl Tells<u32, Holdings> for Empty {
    ghost use Rattle.std.specs.Prelude.{None, replicate};

    ghost told = { λ count. replicate count None };
}

/// The name's cell holds the place, which the pass won.
pub(crate) struct Filled;

impl Tells<(&Remembered<Holdings>, &PlainPass, u32, Place), Holdings> for Filled {
    ghost use Rattle.forwarding.specs.Minds.{filled};

    ghost told = { λ x. filled x.0.now.value x.1.now.number x.2 x.3 };
}

/// Of so many cells, and of so many passes, the one with the number: it knows nothing, and has won nothing.
pub(crate) struct Fresh;

impl Tells<(u32, usize, usize), Mind> for Fresh {
    ghost use Rattle.std.specs.Prelude.{[], None, replicate};

    ghost told = { λ x. record { number = x.2; passes = x.1; known = replicate x.0 None; won = [] } };
}

/// The place of the name is known.
pub(crate) struct Learned;

impl Tells<(&Remembered<Mind>, u32, Place), Mind> for Learned {
    ghost use Rattle.std.specs.Prelude.{Some, slice_set};

    ghost told = { λ x. record x.0.now.value { known = slice_set x.0.now.value.known x.1 (Some x.2) } };
}

/// The pair is won.
pub(crate) struct Winner;

impl Tells<(&Remembered<Mind>, u32, Place), Mind> for Winner {
    ghost use Rattle.std.specs.Prelude.{[], ◌∷◌, ◌++◌};

    ghost told = { λ x. record x.0.now.value { won = x.0.now.value.won ++ (x.1, x.2) ∷ [] } };
}
