//! A machine: several workers of a collection on one thread, by any list of lawful events, and what they bring in the end.
#![tactic(auto)]

mod carrying;
mod ending;
mod interleaved_settling;
mod machine;
mod machine_error;
mod running;
mod step_error;
mod stepping;
mod workers_in_turn;

pub use crate::workers_in_turn::Event;
pub use interleaved_settling::SettleError;
pub use machine::Machine;
pub use machine_error::MachineError;
pub use scavenge::LookError;
pub use step_error::StepError;
