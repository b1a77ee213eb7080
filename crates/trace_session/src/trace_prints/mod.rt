//! The commands of a trace that print.
mod apart;
mod printing;

pub use apart::{collect_apart, make_room_apart};
pub use printing::{census, collect, make_room, show_heap};
