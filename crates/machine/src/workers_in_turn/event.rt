//! What can come in a collection.

/// One event of a collection, of the worker that is numbered first.
#[derive(Clone, Copy, Debug, PartialEq, Eq)]
pub enum Event {
    /// It looks at its current slot.
    Look(u32),
    /// It races for what it proposes.
    Race(u32),
    /// Its current object is scanned.
    Scan(u32),
    /// It exports the oldest block that it has aside.
    Export(u32),
    /// It takes the block that the second worker exported first.
    Take(u32, u32),
    /// It takes its allocation block for a destination in hand.
    Own(u32, usize),
    /// It takes the large object that it claimed first in hand.
    OwnLarge(u32),
    /// It goes idle.
    Idle(u32),
    /// It is idle no longer.
    Wake(u32),
    /// It ends.
    End(u32),
}
