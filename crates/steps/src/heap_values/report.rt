//! What the workers of a collection report.
ghost use Rattle.std.specs.Prelude.{◌≡◌, map};
ghost use Rattle.steps.specs.Packed.{packed_word};
ghost use Rattle.steps.specs.ReportView.{won_value};

use crate::heap_values::packed::PackedPlace;
use std::alloc::{Allocator, Global};
use std::marker::Model;

/// An object that a worker won: its number in the collection, and its new place.
#[derive(Clone, Copy, Debug)]
pub struct Won {
    /// The object's number among those of the generations collected, from 0.
    pub number: u32,
    /// The place of its copy. A large object stays at its own.
    pub place: PackedPlace,
}

/// What one worker won, and the places that it scanned, each in order.
#[derive(Debug, Drop)]
pub struct WorkerReport<A: Allocator = Global> {
    won: Vec<Won, A>,
    scanned: Vec<PackedPlace, A>,
}

impl<A: Allocator> Model for WorkerReport<A> {
    ghost use Rattle.std.specs.Prelude.{map};
    ghost use Rattle.steps.specs.ReportValue.{WorkerLists, lists_code};

    ghost Value = { WorkerLists };

    ghost coded = { lists_code };

    ghost use Rattle.steps.specs.Packed.{packed_word};
    ghost use Rattle.steps.specs.ReportView.{won_value};

    ghost view = { λ w. record { won = map won_value w.won.items; scanned = map packed_word w.scanned.items } };
}

impl<A: Allocator> WorkerReport<A> {
    /// The lists of a worker. Takes no memory.
    pub fn new(won: Vec<Won, A>, scanned: Vec<PackedPlace, A>) -> Self
        ensures { result ≡ record { won = map won_value won.items; scanned = map packed_word scanned.items } }
    {
        WorkerReport { won, scanned }
    }

    /// How many entries both lists hold.
    pub(crate) fn entries(&self) -> usize {
        self.won.len().saturating_add(self.scanned.len())
    }

    /// For how many entries both lists have room.
    pub(crate) fn room(&self) -> usize {
        self.won.capacity().saturating_add(self.scanned.capacity())
    }

    /// The lists themselves.
    pub(crate) fn into_lists(self) -> (Vec<Won, A>, Vec<PackedPlace, A>)
        ensures won { map won_value result.0.items ≡ self.won }
        ensures scanned { map packed_word result.1.items ≡ self.scanned }
    {
        (self.won, self.scanned)
    }

    /// The objects that the worker won, in the order of the races.
    pub fn won(&self) -> &[Won]
        ensures { map won_value result.now ≡ self.now.won }
    {
        self.won.as_slice()
    }

    /// The new places of the objects that the worker scanned, in this order.
    pub fn scanned(&self) -> &[PackedPlace]
        ensures { map packed_word result.now ≡ self.now.scanned }
    {
        self.scanned.as_slice()
    }
}

/// A block that one worker exported and another, or the same, took.
#[derive(Clone, Copy, Debug, PartialEq, Eq)]
pub struct Delivery {
    /// The number of the worker that exported it, from 0.
    pub exporter: u32,
    /// The place of the block among its exporter's, from 0.
    pub position: u64,
    /// How many objects the block holds.
    pub objects: u32,
    /// The number of the worker that took it, from 0.
    pub taker: u32,
}

/// What a collection kept and freed, and what its workers did.
#[derive(Debug, Drop)]
pub struct Report<A: Allocator = Global> {
    /// How many objects of the generations collected are live.
    pub kept: u64,
    /// How many others of these generations are gone.
    pub freed: u64,
    /// What each worker won and scanned, by its number.
    pub workers: Vec<WorkerReport<A>, A>,
    /// The blocks that were exported and taken.
    pub deliveries: Vec<Delivery, A>,
}
