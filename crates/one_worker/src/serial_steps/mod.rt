//! A collection by one worker, event by event in its order.
mod events;
mod running;
mod sweeping;

pub use crate::serial_steps::events::step;
pub use crate::serial_steps::running::run_to_end;
