//! What a worker has in hand.
ghost use Rattle.std.specs.Prelude.{◌≡◌, IsTrue, ◌↔◌};
ghost use Rattle.scavenge.specs.declared.workspace.hand.Hand.TheVariants.{Open};

use block_pool::Block;
use layout::Place;
use std::alloc::{Allocator, Global};

/// What a worker scans.
#[derive(Drop)]
pub enum Hand<A: Allocator = Global> {
    /// No block and no large object is in hand.
    Nothing,
    /// The allocation block for a destination, which is still copied into.
    Open(usize),
    /// A block that was retired or taken.
    Holding(Block<A>),
    /// A large object, where it stands.
    Large(Place),
}

impl<A: Allocator> Hand<A> {
    /// Whether it is the allocation block for this destination.
    pub(crate) fn is_open(&self, d: usize) -> bool
        ensures { IsTrue result ↔ (self.now ≡ Open d) }
    {
        match self {
            Hand::Open(e) => *e == d,
            _ => false,
        }
    }
}
