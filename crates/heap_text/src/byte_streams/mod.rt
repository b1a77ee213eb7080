//! Bytes in and out, with the counts of the reads and writes that failed.
mod sink;
mod source;

pub use sink::{Counted, Sink, WriteFailed, write_all};
pub use source::{CountedReader, ReadFailed, Source};
