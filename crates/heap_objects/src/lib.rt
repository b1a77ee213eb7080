//! The objects of a heap: small ones in blocks, and large ones beside them. They make a graph.
#![tactic(auto)]

mod heap_graph;
mod heap_space;
mod large;
mod objects;
mod renewing;

pub use objects::HeapObjects;
