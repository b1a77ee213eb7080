//! The rule of a tally, and what a step on it tells.
use atomic_table::{Join, Play, Split, TableRule};

/// What a seat knows: its parts of the right to know all, how often it raised the tally, and the greatest count that it read. No value of
/// it is made.
pub struct Count {
    /// 1 for a dealt seat, and as many as there are seats before they are dealt and once all are gathered.
    pub parts: u64,
    /// How often it raised the tally, by one each time.
    pub raised: u64,
    /// The greatest count that it read, 0 where it read none.
    pub seen: u64,
}

/// The word is the number of raises of all seats, modulo 2^64, and no seat has seen more than that number.
pub struct Rule;

impl TableRule<(), Count, usize> for Rule {
    ghost use Rattle.pending_queues.specs.Tallied.{known, IsKeptTally};

    ghost holds = { IsKeptTally };

    ghost first = { λ seats. known seats 0 0 };
}

/// An add of one: the seat has raised once more.
pub struct Raise;

impl Play<(), Count> for Raise {
    ghost use Rattle.pending_queues.specs.Tallied.{Raised};

    ghost then = { Raised };
}

/// A load: the seat has seen the count, and keeps the greatest that it has seen.
pub struct Read;

impl Play<(), Count> for Read {
    ghost use Rattle.pending_queues.specs.Tallied.{Saw};

    ghost then = { Saw };
}

/// A load by a seat that has all parts: it has raised at least what it has seen. Nothing changes.
pub struct Check;

impl Play<(), Count> for Check {
    ghost use Rattle.pending_queues.specs.Tallied.{Checked};

    ghost then = { Checked };
}

/// A new seat gets one part. It has raised and seen nothing.
pub struct Deal;

impl Split<Count> for Deal {
    ghost use Rattle.pending_queues.specs.Tallied.{dealt, newcomer};

    ghost left = { dealt };

    ghost right = { newcomer };
}

/// Two seats are made one, with the sum of parts and of raises, and the greater count seen.
pub struct Gather;

impl Join<Count> for Gather {
    ghost use Rattle.pending_queues.specs.Tallied.{both, spent};

    ghost both = { both };

    ghost spent = { spent };
}
