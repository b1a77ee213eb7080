//! What is tried, and what is counted of requests for memory.
use crate::ways::Way;
use collector::CellKind;
use refusing::Refusing;
use std::alloc::Global;

/// The ways to collect that are tried.
pub(crate) const WAYS: [Way; 5] = [
    Way::Alone,
    Way::InTurn,
    Way::OnThreads(1, CellKind::Word),
    Way::OnThreads(2, CellKind::Word),
    Way::OnThreads(2, CellKind::Box),
];

/// More requests than a heap makes, and what is tried of it.
pub(crate) const MANY: u64 = 100_000;

/// How many requests are not returned.
pub(crate) fn outstanding(refusing: &Refusing<Global>) -> u64 {
    refusing.asked().saturating_sub(refusing.returned())
}
