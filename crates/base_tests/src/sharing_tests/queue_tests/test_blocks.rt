//! Blocks that tests hand over.
ghost use Rattle.std.specs.Prelude.{◌≡◌, IfOk};

use block_pool::Block;
use pending_queues::{Cargo, Deliveries, Delivery};
use std::alloc::{AllocError, Global};
use std::process::Abort;

/// Blocks of as many words as the key says.
pub struct OfWords;

impl Cargo for OfWords {
    type Key = usize;

    ghost use Rattle.std.specs.Prelude.{◌≡◌};

    ghost fits = { λ words b. b.words ≡ words };
}

/// A block of so many objects, at most 3, of which the first is scanned.
pub fn block_of(alloc: Global, objects: usize) -> Result<Block, AllocError>
    ensures { IfOk result (λ b. b.words ≡ 16) }
{
    let mut block = Block::new(alloc, 16)?;
    for _ in 0..objects.min(3) {
        if block.fits(2) {
            block.push_new(1, 0);
        }
    }
    if block.front() < block.len() {
        block.advance_front();
    }
    Ok(block)
}

/// The label, the objects and the front of a block that was taken.
pub type Seen = Option<(Option<(u32, u64)>, usize, usize)>;

/// Asserts that the first queue's blocks of one, two and three objects were taken, in this order.
pub fn assert_in_order(rt: &impl Abort, seen: (Seen, Seen, Seen)) {
    let (first, second, third) = seen;
    assert_eq!(rt; first, Some((Some((0, 0)), 1, 1)));
    assert_eq!(rt; second, Some((Some((0, 1)), 2, 1)));
    assert_eq!(rt; third, Some((Some((0, 2)), 3, 1)));
}

/// What became of blocks of one, two and three objects, with these takers.
pub fn told_of(takers: [Option<u32>; 3]) -> [Delivery; 3] {
    let [first, second, third] = takers;
    [
        Delivery {
            objects: 1,
            taker: first,
        },
        Delivery {
            objects: 2,
            taker: second,
        },
        Delivery {
            objects: 3,
            taker: third,
        },
    ]
}

/// Asserts who took the blocks of one, two and three objects that this exporter sent, and that the other one sent none.
pub fn assert_delivered(
    rt: &impl Abort,
    deliveries: &Deliveries,
    exporter: u32,
    takers: [Option<u32>; 3],
) {
    let told = told_of(takers);
    assert_eq!(rt; deliveries.of(exporter), told.as_slice());
    assert!(rt; deliveries.of(1 - exporter.min(1)).is_empty());
}
