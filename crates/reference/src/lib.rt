//! A plain program that computes what a trace means: objects in a list by fixed names, and each command as it is defined.
#![tactic(auto)]

mod census_text;
mod changes;
mod collecting;
mod counting;
mod growing;
mod reference_data;
mod refusal;
mod store;

pub use reference_data::Config;
pub use refusal::Refusal;
pub use store::Store;
