//! Cells that threads share, of any kind: how they begin, how each worker steps with its own pass, and how they end.
mod boxes;
mod gate;
mod lent;
mod shared;
mod words;

pub use gate::{Gate, OpenGate, StepKind};
pub use lent::Lent;
pub use shared::SharedCells;
