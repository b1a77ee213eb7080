//! One exporter's queue under its rule, and what each seat knows of it.
mod lane;
mod lane_pass;
mod rule;
mod view;

pub use crate::exports::Cargo;
pub use lane::Lane;
pub use lane_pass::LanePass;
