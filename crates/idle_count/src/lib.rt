//! How the workers of a collection agree that it has ended: the count of those that are idle, and the verdict that says
//! why it ended.
#![tactic(auto)]

mod cause;
mod idle;
mod idle_plays;
mod polled;
mod verdict;

pub use cause::Cause;
pub use idle::{Idle, IdleSeat};
pub use polled::Polled;
pub use verdict::{Verdict, VerdictSeat};
