//! The heap: objects, roots, and what a collection takes from it and gives back.
#![tactic(auto)]

mod barrier;
mod counts;
mod fields;
mod found;
mod heap;
mod heap_commit;
mod opening;
mod remembering;
mod roots;

pub use found::{Found, FoundSmall};
pub use heap::{
    AllocateError, FieldError, Heap, LoadError, MakeError, NoRoot, OpenError, StoreError,
};
pub use steps::{
    BadConfig, Census, Collection, Config, Delivery, PackedPlace, Report, RootId, Settled, Sizes,
    Slot, Spare, StepCount, StepId, Won, WorkerReport,
};
