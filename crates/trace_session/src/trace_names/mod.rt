//! The names in use, and what each leads to.
mod hash;
mod names;

pub use names::Names;
pub(crate) use names::{put_in, room_for};
