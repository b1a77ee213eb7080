//! Where bytes come from and go to, and the texts of a heap: census, report and listing, written to a sink.
#![tactic(auto)]

mod byte_streams;
mod cause;
mod census;
mod collection;
mod error;
mod listing;
mod numbering;
mod report_lines;

pub use byte_streams::{Counted, CountedReader, ReadFailed, Sink, Source, WriteFailed, write_all};
pub use cause::Cause;
pub use census::write_census;
pub use collection::write_collection;
pub use error::WriteError;
pub use listing::{Name, write_heap};
pub use report_lines::{workers_text, write_report};
