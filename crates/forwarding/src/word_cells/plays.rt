//! The rule of the words, and what each step tells.
use atomic_table::{Join, Play, Split, TableRule};
use layout::Place;
use std::collections::LinkedList;

/// How many cells and passes there are.
#[derive(Clone, Copy)]
pub struct Plan {
    /// How many cells there are. Names are below it.
    pub count: u32,
    /// How many passes there are, at least 1.
    pub passes: usize,
}

/// What a pass knows: its parts of the right to know all, the pairs that it knows, and those that it won. No value of
/// it is made.
pub struct Mind {
    /// 1 for a pass of one worker, and as many as there are passes before they are dealt and once all are gathered.
    pub parts: u64,
    /// Names with the places that it knows, those that it won among them. A name may stand there more than once.
    pub known: LinkedList<(u32, Place)>,
    /// Names with the places that it won, in the order of the races where it is the pass of one worker.
    pub won: LinkedList<(u32, Place)>,
}

/// A word that is set is that of a place, which one pass has won, once.
pub struct Rule;

impl TableRule<(), Mind, Plan> for Rule {
    ghost use Rattle.forwarding.specs.Kept.{mind, IsKeptWords};
    ghost use Rattle.std.specs.Prelude.{[]};

    ghost holds = { IsKeptWords };

    ghost first = { λ plan. mind plan.passes [] [] };
}

/// A load: the place that the word shows is known.
pub struct Look;

impl Play<(), Mind> for Look {
    ghost use Rattle.forwarding.specs.Kept.{Looked};

    ghost then = { Looked };
}

/// An exchange from 0: the place is won, or that of the word is known.
pub struct Race;

impl Play<(), Mind> for Race {
    ghost use Rattle.forwarding.specs.Kept.{Raced};

    ghost then = { Raced };
}

/// A new pass gets one part.
pub struct Deal;

impl Split<Mind> for Deal {
    ghost use Rattle.forwarding.specs.Kept.{dealt, newcomer};

    ghost left = { dealt };

    ghost right = { λ _. newcomer };
}

/// Two passes are made one.
pub struct Gather;

impl Join<Mind> for Gather {
    ghost use Rattle.forwarding.specs.Kept.{both, spent};

    ghost both = { both };

    ghost spent = { spent };
}
