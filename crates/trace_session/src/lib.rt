//! What a run of a trace keeps between its lines, and what one line does.
#![tactic(auto)]

mod fields;
mod session;
mod trace_lines;
mod trace_names;
mod trace_prints;
mod trace_step;

pub use session::Session;
pub use trace_lines::{Attempt, Fault, Lines, MOST_PIECE, Next, write_fault};
pub use trace_step::{attempt_line, carry_out, carry_out_apart, collected};
