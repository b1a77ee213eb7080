//! A collection by one worker: event by event, all events in their order to the end, and from the opening to the commit.
#![tactic(auto)]

mod collecting;
mod drawing;
mod new;
mod parts;
mod queueing;
mod racing;
mod readers;
mod serial;
mod serial_settling;
mod serial_steps;
mod sweep;
mod taking;

pub use collecting::{CollectError, collect_one};
