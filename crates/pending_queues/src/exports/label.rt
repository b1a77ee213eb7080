//! The label of an exported block.

/// Who exported a block, and at which position among its exports.
#[derive(Clone, Copy)]
pub struct Label {
    /// The number of the seat that exported it, from 0, which is that of its queue too.
    pub exporter: u32,
    /// How many blocks that exporter exported before, 0 for its first.
    pub position: u64,
}
