//! The rule of the idle count, and what a step on it tells.
use atomic_table::{Join, Play, Split, TableRule};

/// What a seat knows: how many seats there are, its parts of the right to know all, how many idle seats it counts as, the
/// count that it last made or saw, and how many steps it took. No value of it is made.
pub struct Share {
    /// How many seats there are, below 2^32.
    pub seats: u64,
    /// 1 for a dealt seat, and as many as there are seats before they are dealt and once all are gathered.
    pub parts: u64,
    /// 0 or 1 for a dealt seat, and never more than its parts.
    pub idles: u64,
    /// A count from 0 to the number of seats, 0 where it has seen none.
    pub seen: u64,
    /// Its steps on the word: each idle, each poll, and each wake that was tried.
    pub steps: u64,
}

/// The word is the number of idle seats. Where a seat has seen that all are idle, they stay so.
pub struct Rule;

impl TableRule<(), Share, usize> for Rule {
    ghost use Rattle.idle_count.specs.Idled.{share, IsKeptIdling};

    ghost holds = { IsKeptIdling };

    ghost first = { λ seats. share seats seats 0 0 0 };
}

/// An add of one: the seat is idle, and has seen the count that it made.
pub struct Rest;

impl Play<(), Share> for Rest {
    ghost use Rattle.idle_count.specs.Idled.{Rested};

    ghost then = { Rested };
}

/// A load: the seat has seen the count, in which it counts itself.
pub struct Look;

impl Play<(), Share> for Look {
    ghost use Rattle.idle_count.specs.Idled.{Looked};

    ghost then = { Looked };
}

/// An exchange of the count seen for one less: the seat is busy where the word was that count.
pub struct Wake;

impl Play<(), Share> for Wake {
    ghost use Rattle.idle_count.specs.Idled.{Woke};

    ghost then = { Woke };
}

/// A new seat gets one part. It is busy and has seen nothing.
pub struct Deal;

impl Split<Share> for Deal {
    ghost use Rattle.idle_count.specs.Idled.{dealt, newcomer};

    ghost left = { dealt };

    ghost right = { newcomer };
}

/// Two seats are made one, with the sum of parts, of idles and of steps, and the greater count seen.
pub struct Gather;

impl Join<Share> for Gather {
    ghost use Rattle.idle_count.specs.Idled.{both, spent};

    ghost both = { both };

    ghost spent = { spent };
}
