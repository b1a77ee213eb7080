//! The objects that a collection of younger generations has to look at: how it reads them, and which it leaves.
mod copies;
mod ending;
mod holders;
mod large_copies;
mod lens;
mod lowest;
mod old_slots;

pub use ending::commit;
pub use old_slots::push_old_slots;
