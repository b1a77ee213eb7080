//! What one worker of a collection has in hand and at hand.
mod current;
mod hand;
mod new;
mod opening;
mod proposed;
mod proposing;
mod racing;
mod reading;
mod room;
mod scanning;
mod workspace;

pub use current::Current;
pub use hand::Hand;
pub use proposed::Proposed;
pub use workspace::{Parts, Workspace};
