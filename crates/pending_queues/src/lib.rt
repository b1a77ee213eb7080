//! Queues of blocks that wait to be scanned, one for each worker that exports them.
#![tactic(auto)]

mod closing;
mod exports;
mod lanes;
mod opening;
mod plain_queues;
mod ruled_pending;
mod seat;
mod shares;
mod tally;
mod telling;

pub use exports::{Cargo, Deliveries, Delivery, Label};
pub use lanes::{Lane, LanePass};
pub use plain_queues::{PlainPending, PlainSeat};
pub use ruled_pending::RuledPending;
pub use seat::PendingSeat;
pub use tally::{Tally, TallySeat};
