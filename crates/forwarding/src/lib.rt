//! Forwarding cells, each set once: where the workers of a collection agree on the place of an object's one copy.
#![tactic(auto)]

mod box_cells;
mod cell_memory;
mod cells;
mod looking;
mod plain_cells;
mod settled_pairs;
mod shared_cells;
mod short_words;
mod word_cells;

pub use box_cells::{BoxCells, BoxPass};
pub use cell_memory::CellMemory;
pub use cells::{Cells, Forwards, Outcome, SettleError};
pub use looking::look_then_race;
pub use plain_cells::{PlainCells, PlainPass};
pub use settled_pairs::settled;
pub use shared_cells::{Gate, Lent, OpenGate, SharedCells, StepKind};
pub use word_cells::{WordCells, WordPass};
