//! How a collection by several workers ends.
mod settle_error;
mod settled;

pub use settle_error::SettleError;
pub use settled::settle;
