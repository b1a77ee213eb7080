//! How the objects of a collection are numbered.
ghost use Rattle.std.specs.Prelude.{◌≡◌};

use std::alloc::{Allocator, Global};
use std::marker::Model;

/// How many of the objects of a collection stand before each block, and before each large object. So the number of an
/// object in a block is that of its block and its ordinal there, and a large object has a number of its own.
#[derive(Debug, Drop)]
pub struct Numbering<A: Allocator = Global> {
    blocks: Vec<u32, A>,
    large: Vec<u32, A>,
}

impl<A: Allocator> Model for Numbering<A> {
    ghost use Rattle.steps.specs.Numbering.{NumberingValue, numbering_code};

    ghost Value = { NumberingValue };

    ghost coded = { numbering_code };

    ghost view = { λ n. record { blocks = n.blocks.items; large = n.large.items } };
}

impl<A: Allocator> Numbering<A> {
    /// The numbering with these counts, by the number of a block and by the number of a large object.
    pub fn new(blocks: Vec<u32, A>, large: Vec<u32, A>) -> Self
        ensures { result ≡ record { blocks = blocks.items; large = large.items } }
    {
        Numbering { blocks, large }
    }

    /// How many objects stand before each block.
    pub fn blocks(&self) -> &[u32]
        ensures { result.now ≡ self.now.blocks }
    {
        self.blocks.as_slice()
    }

    /// How many objects stand before the large object with each number.
    pub fn large(&self) -> &[u32]
        ensures { result.now ≡ self.now.large }
    {
        self.large.as_slice()
    }
}
