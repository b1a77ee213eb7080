//! What one line of a trace does.
mod apart;
mod asking;
mod attempting;
mod step;

pub use apart::carry_out_apart;
pub use asking::collected;
pub use attempting::attempt_line;
pub use step::carry_out;
