//! From bytes to bytes: a run, a replay, and the whole program over any reader and writers.
#![tactic(auto)]

mod apart;
mod command_line;
mod config;
mod program;
mod replaying;
mod running;
mod whole;

pub use apart::run;
pub use collector::CellKind;
pub use config::RunConfig;
pub use heap_text::{CountedReader, ReadFailed, Source};
pub use program::{main_at, main_with};
pub use replaying::replay;
pub use running::run_one;
pub use trace_session::Fault;
pub use whole::{NoWords, main_of};
