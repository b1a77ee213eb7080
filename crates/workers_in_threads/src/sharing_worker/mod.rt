//! One worker among several that share cells, draws and queues, on a thread of its own.
mod queueing;
mod racing;
mod readers;
mod resting;
mod sweep;
mod sweeping;
mod taking;
mod worker;
mod working;

pub use resting::{Outcome, Rested};
pub use worker::{SharingParts, SharingWorker};
