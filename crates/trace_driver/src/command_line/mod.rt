//! The words of a command line. It knows no heap and no trace, but for the default sizes and the kinds of cells.
mod words;

pub use words::{Options, Refused, Task, read_words};
