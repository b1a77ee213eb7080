//! What the queues carry.

/// What blocks are handed over for: a key that all seats know, and what holds of it and of each block that is handed over.
pub trait Cargo {
    /// What all seats know, and a cargo is checked against: in a collection, the heap that is collected.
    type Key;

    ghost use Rattle.block_pool.specs.BlockValue.{BlockValue};

    /// The block, as the exporter's label stands on it, meets the fact with the key.
    ghost fits: { Self.Key → BlockValue → Type 0 };
}
