//! The events of a collection that the events of a schedule name.
mod naming;

pub use naming::named_event;
