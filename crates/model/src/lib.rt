//! What a heap, a collection and a trace mean.
#![tactic(auto)]

mod command;
mod kind;
mod laws;

pub use command::Command;
pub use kind::Kind;
pub use laws::{
    dest_count_is_exact, destination_list_is_exact, live_count_is_one, live_words_are_one,
    old_slots_are_exact, reached_list_is_exact, worked_rows,
};
