//! Queues of blocks that wait to be scanned, for one thread.
mod plain_pending;
mod plain_queue;

pub use crate::exports::{Cargo, Deliveries, Delivery};
pub use plain_pending::{PlainPending, PlainSeat};
