//! Sets of numbers below a limit, as words of flags.
mod growing_flags;
mod number_set;
mod ranked_set;
mod ranking;

pub use growing_flags::Flags;
pub use number_set::NumberSet;
pub use ranked_set::RankedSet;
