//! For each generation the places that are to be looked at when younger generations are collected.
#![tactic(auto)]

mod place_set;
mod remembered;

pub use remembered::Remembered;
