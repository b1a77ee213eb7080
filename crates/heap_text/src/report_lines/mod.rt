//! What a collection and its workers report, as text.
mod report;

pub use crate::Cause;
pub use report::{workers_text, write_report};
