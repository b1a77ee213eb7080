//! How a heap is laid out in words: places, pointers, headers and objects. It takes no memory.
#![tactic(auto)]

mod header;
mod object;
mod place;
mod pointer;

pub use header::{Header, MOST_FIELDS, TooBig, is_large, size};
pub use object::ObjectRef;
pub use place::{LargeNumber, Place, SmallPlace};
pub use pointer::{pointer_of, word_of};
