//! The parts of the plain program: sizes, objects, rooms, names in byte order, and what is reached.
mod config;
mod object;
mod room;
mod spread;
mod trace_name;

pub use config::Config;
pub use object::Object;
pub use room::{Room, full_rooms};
pub use spread::{has, reached};
pub use trace_name::{Named, add_name, drop_name, find_name};
