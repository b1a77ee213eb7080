//! Carries out a trace whose collections have schedules.
#![tactic(auto)]

mod collecting;
mod replaying;
mod schedule_events;
mod schedules;

pub use replaying::replay;
