//! Claims by which threads draw the numbers of free blocks, each once.
mod claim_plays;
mod claims;

pub use crate::claims::claims::{ClaimSeat, Claims};
pub use crate::number_sets::{NumberSet, RankedSet};
