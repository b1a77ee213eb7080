//! What blocks are handed over for, the labels they get, and what became of each.
mod cargo;
mod deliveries;
mod label;

pub use cargo::Cargo;
pub use deliveries::{Deliveries, Delivery};
pub use label::Label;
