//! A whole collection: a heap is opened, its live objects are evacuated, and what the workers bring is committed.
#![tactic(auto)]

mod apart;
mod crew;

pub use crate::apart::{CellKind, ThreadsError, collect};
pub use crate::crew::Crew;
pub use one_worker::{CollectError, collect_one};
