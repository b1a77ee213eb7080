//! What a heap tells of itself, what a collection takes from it, and what its workers bring back: plain data.
mod census;
mod collection;
mod numbering;
mod packed;
mod report;
mod root_id;
mod spare;

pub use census::{Census, LargeCount, StepCount};
pub use collection::{Collection, Settled, Slot};
pub use numbering::Numbering;
pub use packed::PackedPlace;
pub use report::{Delivery, Report, Won, WorkerReport};
pub use root_id::RootId;
pub use spare::Spare;
