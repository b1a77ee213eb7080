//! Names of objects in traces that are made.

/// The name of object `k` has this number, so that all are of one length.
pub(crate) fn name_of(k: u16) -> u64 {
    1000 + k as u64
}
