//! How a caller of many collections has them carried out.
ghost use Rattle.std.specs.Prelude.{◌≡◌, ◌≢◌, ◌↔◌, ◌<◌, ◌≤◌, IfOk, OnErr, Err};
ghost use Rattle.settling.specs.Collects.{ScansAlone, IsStuckAlone};
ghost use Rattle.workers_in_threads.specs.Reports.{CollectsApart, IsShortOfBlocksFor, IsStuckFor};

use crate::apart::{CellKind, ThreadsError, collect};
use forwarding::Gate;
use heap::{Heap, Report};
use std::alloc::{AllocGlobal, Allocator};
use std::marker::Model;
use std::sync::Wait;
use std::thread::Threads;

/// How many workers carry out each collection, over which cells, and the gate before the steps that they share.
#[derive(Drop)]
pub struct Crew<'a, R, G> {
    rt: &'a R,
    workers: u32,
    kind: CellKind,
    gate: &'a G,
}

impl<'a, R, G> Model for Crew<'a, R, G> {
    ghost use Rattle.std.specs.Prelude.{◌<◌, ◌≤◌};
    ghost use Rattle.collector.specs.CrewValue.{CrewValue};

    ghost Value = { CrewValue };

    ghost view = { λ c. record { workers = c.workers; kind = c.kind } };

    ghost invariant = { λ c. (0 < c.workers) × (c.workers ≤ 16) };
}

impl<'a, R: Threads + Wait + Sync + AllocGlobal, G: Gate + Sync> Crew<'a, R, G> {
    /// So many workers, 1 to 16, the first on the caller's thread and each other on one of its own.
    pub fn new(rt: &'a R, workers: u32, kind: CellKind, gate: &'a G) -> Self
        requires some { 0 < workers }
        requires most { workers ≤ 16 }
        ensures workers { result.workers ≡ workers }
        ensures kind { result.kind ≡ kind }
    {
        Crew {
            rt,
            workers,
            kind,
            gate,
        }
    }

    /// Collects the generations 0 to `generation`, as `collect` does.
    pub fn collect<A: Allocator + Clone + Send + Sync>(
        &self,
        alloc: A,
        heap: &mut Heap<A>,
        generation: u64,
    ) -> Result<Report<A>, ThreadsError>
        ensures ok { IfOk result
            (λ report. CollectsApart heap.old generation self.now.workers report.kept report.freed report.workers.items
            report.deliveries.items heap.new) }
        ensures alone { self.now.workers ≡ 1 → IfOk result
            (λ report. ScansAlone heap.old generation report.workers.items report.deliveries.items) }
        ensures config { result ≢ Err ThreadsError.BadConfig }
        ensures generation { (result ≡ Err ThreadsError.NoGeneration) ↔
            (heap.old.config.shape.generations ≤ generation) }
        ensures full { result ≡ Err ThreadsError.HeapFull → IsShortOfBlocksFor heap.old generation self.now.workers }
        ensures stuck { result ≡ Err ThreadsError.HeapFull → IsStuckFor heap.old generation self.now.workers }
        ensures stuck_alone { self.now.workers ≡ 1 → result ≡ Err ThreadsError.HeapFull →
            IsStuckAlone heap.old generation }
        ensures words { self.now.kind ≡ CellKind.Word → result ≢ Err ThreadsError.Unsettled }
        ensures one_settles { self.now.workers ≡ 1 → result ≢ Err ThreadsError.Unsettled }
        ensures err { OnErr result (heap.new ≡ heap.old) }
    {
        collect(
            self.rt,
            alloc,
            heap,
            generation,
            self.workers,
            self.kind,
            self.gate,
        )
    }
}
