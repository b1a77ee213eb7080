//! Blocks of words that hold objects, the pool of block numbers, sets of numbers, and claims by which threads draw them.
#![tactic(auto)]

mod begun;
mod block;
mod claims;
mod number_sets;
mod ordering;
mod pool;
mod words;

pub use block::Block;
pub use claims::{ClaimSeat, Claims, RankedSet};
pub use number_sets::{Flags, NumberSet};
pub use ordering::order_by_memory;
pub use pool::{GrantError, Pool};
