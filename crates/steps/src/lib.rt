//! The sizes of a heap and its steps; what a heap tells of itself, what a collection takes from it, and what its workers bring back.
#![tactic(auto)]

mod all_steps;
mod config;
mod destinations;
mod heap_values;
mod step_id;

pub use all_steps::MOST_STEPS;
pub use config::{BadConfig, Config, Sizes};
pub use destinations::Destinations;
pub use heap_values::{
    Census, Collection, Delivery, LargeCount, Numbering, PackedPlace, Report, RootId, Settled,
    Slot, Spare, StepCount, Won, WorkerReport,
};
pub use step_id::StepId;
