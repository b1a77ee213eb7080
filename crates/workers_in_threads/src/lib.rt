//! Workers of a collection, the first on the caller's thread and each other on one of its own: a worker's loop, how threads are
//! started, and what they bring together.
#![tactic(auto)]

mod apart;
mod dealing;
mod gathering;
mod joining;
mod kit;
mod packing;
mod separating;
mod sharing_worker;
mod supplying;
mod thread;
mod threads;

pub use apart::{MOST_WORKERS, scavenged_apart};
pub use gathering::gathered;
pub use joining::{threads_are_stuck, threads_below_bound, threads_keep, threads_settle};
pub use separating::{Apart, Seats};
pub use sharing_worker::Outcome;
