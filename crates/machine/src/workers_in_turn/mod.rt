//! A collection by several workers on one thread, event by event, in whatever order.
mod doing;
mod event;
mod interleaved;
mod lawful;
mod member;
mod new;
mod next;
mod parts;
mod queueing;
mod racing;
mod resting;
mod taking;

pub use event::Event;
pub use interleaved::InterleavedCollection;
pub use member::Member;
pub use parts::InterleavedParts;
