//! What a seat knows of one queue.
use block_pool::Block;
use std::alloc::Allocator;
use std::collections::LinkedList;

/// No value of it is made. What the queue is about is None until its first pass says it.
pub struct View<K, A: Allocator> {
    /// The key, the number of the exporter, from 0, and how many seats there are.
    pub about: Option<(K, u32, u32)>,
    /// How many parts it has of the queue, of which each seat gets one. Who has all may settle it.
    pub parts: u64,
    /// 1 where it may send, else 0.
    pub senders: u64,
    /// The blocks that it sent, in order, each with its label.
    pub sent: LinkedList<Block<A>>,
    /// The blocks that it took, each with its label. Those that one seat took are in order.
    pub taken: LinkedList<Block<A>>,
}
