//! How names are hashed.
use std::hash::{BuildHasher, DefaultHasher, Hasher};

/// Hashes by SipHash-1-3 behind a seed. Who doesn't know the seed can't choose names that collide.
#[derive(Clone, Copy)]
pub(crate) struct SeededHash {
    /// What has read the seed and nothing else.
    start: DefaultHasher,
}

impl SeededHash {
    pub(crate) fn new(seed: u128) -> SeededHash {
        let mut start = DefaultHasher::new();
        start.write_u128(seed);
        SeededHash { start }
    }
}

impl BuildHasher for SeededHash {
    type Hasher = DefaultHasher;

    ghost build_hasher = { λ s. s.start };

    fn build_hasher(&self) -> DefaultHasher {
        self.start
    }
}
