//! Carries out the schedule of a collection, line by line, on a machine.
mod automatic;
mod brought;
mod carrying;
mod lines;

pub use automatic::settled_by_itself;
pub use brought::settled_by_schedule;
