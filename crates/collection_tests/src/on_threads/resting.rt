//! A worker that has nothing to do rests, and doesn't wake where there is nothing to take.
use crate::heaps::{add_tree, heap_of, sizes_for};
use crate::on_threads::late_work::wait_for;
use collector::{CellKind, collect};
use forwarding::{Gate, StepKind};
use std::alloc::AllocGlobal;
use std::process::Abort;
use std::sync::Wait;
use std::sync::atomic::{AtomicBool, AtomicU64, Ordering};
use std::test::Fail;
use std::thread::Threads;

/// How often the worker that rests polls before the other one begins.
const POLLS: u64 = 1_000;

/// Holds worker 0 before its first step until worker 1 polled so often, and counts how often that one tried to wake before.
#[derive(Drop)]
struct Resting {
    polls: AtomicU64,
    wakes: AtomicU64,
    rested: AtomicBool,
    late: AtomicBool,
}

impl Resting {
    fn before_second(&self, step: StepKind) {
        if step == StepKind::Poll && self.polls.fetch_add(1, Ordering::SeqCst) >= POLLS {
            self.rested.store(true, Ordering::SeqCst);
        }
        if step == StepKind::Wake && !self.rested.load(Ordering::SeqCst) {
            self.wakes.fetch_add(1, Ordering::SeqCst);
        }
    }
}

impl Gate for Resting {
    fn before(&self, worker: u32, step: StepKind) {
        if worker == 0 {
            wait_for(&self.rested, &self.late);
        } else {
            self.before_second(step);
        }
    }
}

/// Asserts that a worker without a slot rests while nothing was exported, and that all is collected then.
fn assert_rests<R: Threads + Wait + Sync + AllocGlobal + Abort>(
    rt: &R,
    kind: CellKind,
) -> Result<(), Fail> {
    let mut heap = heap_of(rt.alloc(), sizes_for(60, 40))?;
    let _top = add_tree(rt.alloc(), &mut heap, 60)?;
    let gate = Resting {
        polls: AtomicU64::new(0),
        wakes: AtomicU64::new(0),
        rested: AtomicBool::new(false),
        late: AtomicBool::new(false),
    };
    let report = collect(rt, rt.alloc(), &mut heap, 0, 2, kind, &gate)?;
    assert_eq!(rt; (report.kept, report.freed), (60, 0));
    assert!(rt; !gate.late.load(Ordering::SeqCst), "{kind:?}");
    assert_eq!(rt; gate.wakes.load(Ordering::SeqCst), 0, "{kind:?}");
    Ok(())
}

#[test]
fn a_worker_without_work_does_not_wake(rt: HostRuntime) -> Result<(), Fail> {
    assert_rests(&rt, CellKind::Word)?;
    assert_rests(&rt, CellKind::Box)
}
