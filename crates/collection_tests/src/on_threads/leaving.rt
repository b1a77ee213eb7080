//! A worker on a thread is refused memory while the other one has all its work before it.
use crate::heaps::{add_tree, heap_of, sizes_for};
use crate::refused::trials::{MANY, outstanding};
use collector::{CellKind, ThreadsError, collect};
use crossbeam_utils::Backoff;
use forwarding::{Gate, StepKind};
use heap::Heap;
use refusing::Refusing;
use std::alloc::{AllocGlobal, Global};
use std::process::Abort;
use std::sync::Wait;
use std::sync::atomic::{AtomicBool, AtomicU64, Ordering};
use std::test::Fail;
use std::thread::Threads;

/// How many objects each of two trees has, one for each worker.
const OBJECTS: u32 = 60;

/// Holds worker 0 before each of its steps until the request was refused, or worker 1 has nothing left to do, and counts its races.
#[derive(Drop)]
struct Behind<'a> {
    refusing: &'a Refusing<Global>,
    refused: u64,
    is_idle: AtomicBool,
    is_held: AtomicBool,
    races: AtomicU64,
}

impl<'a> Gate for Behind<'a> {
    fn before(&self, worker: u32, step: StepKind) {
        if worker == 1 {
            if step == StepKind::Idle {
                self.is_idle.store(true, Ordering::SeqCst);
            }
            return;
        }
        if step == StepKind::Race {
            self.races.fetch_add(1, Ordering::SeqCst);
        }
        self.is_held.store(true, Ordering::SeqCst);
        let backoff = Backoff::new();
        for _turn in 0..1_000_000 {
            if self.refusing.asked() > self.refused || self.is_idle.load(Ordering::SeqCst) {
                return;
            }
            backoff.snooze();
        }
    }
}

/// What comes of a collection where one request is refused.
#[derive(Clone, Copy, Debug)]
struct Tried {
    /// How many workers reported, or what was wanting.
    answer: Result<usize, ThreadsError>,
    was_refused: bool,
    /// Whether worker 0 was held until it was refused, so that worker 1 was refused it.
    is_of_second: bool,
    /// How many races worker 0 ran.
    races: u64,
}

/// Collects by two workers, and drops the report.
fn outcome<'a, R: Threads + Wait + Sync + AllocGlobal>(
    rt: &R,
    refusing: &'a Refusing<Global>,
    heap: &mut Heap<&'a Refusing<Global>>,
    refused: u64,
) -> Tried {
    let gate = Behind {
        refusing,
        refused,
        is_idle: AtomicBool::new(false),
        is_held: AtomicBool::new(false),
        races: AtomicU64::new(0),
    };
    let answer = collect(rt, refusing, heap, 0, 2, CellKind::Word, &gate).map(|report| report
        .workers
        .len());
    let is_idle = gate.is_idle.load(Ordering::SeqCst);
    Tried {
        answer,
        was_refused: refusing.asked() > refused,
        is_of_second: !is_idle && gate.is_held.load(Ordering::SeqCst),
        races: gate.races.load(Ordering::SeqCst),
    }
}

/// Makes two trees with a root each, and collects them.
fn tried_trees<R: Threads + Wait + Sync + AllocGlobal>(
    rt: &R,
    refusing: &Refusing<Global>,
    refused: u64,
) -> Result<Tried, Fail> {
    let mut heap = heap_of(refusing, sizes_for(2 * OBJECTS, 40))?;
    let _first = add_tree(refusing, &mut heap, OBJECTS)?;
    let _second = add_tree(refusing, &mut heap, OBJECTS)?;
    Ok(outcome(rt, refusing, &mut heap, refused))
}

/// How many requests for memory the making of the trees takes.
fn requests_of_making(alloc: Global) -> Result<u64, Fail> {
    let refusing = Refusing::new(alloc, MANY);
    let mut heap = heap_of(&refusing, sizes_for(2 * OBJECTS, 40))?;
    let _first = add_tree(&refusing, &mut heap, OBJECTS)?;
    let _second = add_tree(&refusing, &mut heap, OBJECTS)?;
    Ok(refusing.asked())
}

/// Asserts that a collection by two workers that is refused a request says so, or is carried out by both where the request
/// comes once more, and that one of which the second worker was refused a request is refused.
fn assert_told<R: Threads + Wait + Sync + AllocGlobal + Abort>(
    rt: &R,
    refused: u64,
) -> Result<Tried, Fail> {
    let refusing = Refusing::new(rt.alloc(), refused);
    let tried = tried_trees(rt, &refusing, refused)?;
    let is_refused = tried.answer == Err(ThreadsError::NoMemory);
    assert!(rt;
        is_refused || tried.answer == Ok(2),
        "{tried:?} at {refused}"
    );
    assert!(rt; is_refused || !tried.is_of_second, "{tried:?} at {refused}");
    assert_eq!(rt; outstanding(&refusing), tried.was_refused as u64);
    Ok(tried)
}

/// Each request is refused in turn. Worker 0, who is held meanwhile, goes on to the end of its block at most where worker 1 was refused
/// one, at least where it is told in time.
#[test]
fn a_worker_leaves_where_the_other_is_refused(rt: HostRuntime) -> Result<(), Fail> {
    let mut of_second = 0_u32;
    let mut fewest = u64::MAX;
    for refused in requests_of_making(rt.alloc())?..MANY {
        let tried = assert_told(&rt, refused)?;
        if !tried.was_refused {
            assert!(&rt; of_second >= 8, "{of_second}");
            assert!(&rt; fewest < OBJECTS as u64, "{fewest}");
            return Ok(());
        }
        if tried.is_of_second {
            of_second = of_second.saturating_add(1);
            fewest = fewest.min(tried.races);
        }
    }
    Err(Fail::from("each collection was refused"))
}
