//! What one worker of a collection does: it evacuates what its slots lead to, and scavenges the copies.
#![tactic(auto)]

mod bound;
mod copies;
mod evacuating;
mod looking;
mod proposing;
mod racing;
mod slots;
mod sweep;
mod to_space;
mod workspace;

pub use bound::space_bound;
pub use copies::{Copies, CopiesKey};
pub use evacuating::{Evacuated, evacuate};
pub use looking::{LookError, look};
pub use racing::race;
pub use slots::has_slot;
pub use sweep::Sweep;
pub use to_space::AllocationBlocks;
pub use workspace::{Parts, Workspace};
