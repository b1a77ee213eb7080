//! One worker among several.
use pending_queues::PlainSeat;
use scavenge::Workspace;
use std::alloc::{Allocator, Global};
use std::marker::Model;

/// A worker's own part and its seat at the queues, the exporter and position of each block that it took, and whether it is
/// idle and has ended.
#[derive(Drop)]
pub struct Member<A: Allocator = Global> {
    pub(crate) seat: PlainSeat,
    pub(crate) workspace: Workspace<A>,
    pub(crate) taken: Vec<(u32, u64), A>,
    pub(crate) idle: bool,
    pub(crate) ended: bool,
}

impl<A: Allocator> Model for Member<A> {
    ghost use Rattle.machine.specs.InterleavedValue.{MemberValue};

    ghost Value = { MemberValue };

    ghost view = { λ m. record { seat = m.seat; workspace = m.workspace; taken = m.taken.items; idle = m.idle; ended = m.ended } };
}
