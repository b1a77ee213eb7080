//! How a collection by one worker ends.
mod settled;

pub use settled::settle;
