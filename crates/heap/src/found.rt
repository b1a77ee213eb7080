//! What a look-up tells of an object.
use block_pool::Block;
use layout::ObjectRef;
use std::alloc::{Allocator, Global};
use steps::StepId;

/// An object, its generation and step, and its number in a collection of its generation.
#[derive(Clone, Copy, Debug)]
pub struct Found<'a> {
    /// The object where it lies.
    pub object: ObjectRef<'a>,
    /// Its generation and step.
    pub at: StepId,
    /// Its number, where its generation is collected.
    pub number: Option<u32>,
}

/// The block in which a small object lies, its generation and step, and its number in a collection of its generation.
#[derive(Drop)]
pub struct FoundSmall<'a, A: Allocator = Global> {
    /// The block in which it lies.
    pub block: &'a Block<A>,
    /// The object's generation and step, which are the block's.
    pub at: StepId,
    /// The object's number, where its generation is collected.
    pub number: Option<u32>,
}
