//! In which order workers tell the gate of their steps.
use forwarding::{Gate, StepKind};
use std::sync::atomic::{AtomicBool, AtomicU64, Ordering};

/// The number of a kind of step, from 1 on.
fn number_of(step: StepKind) -> u64 {
    match step {
        StepKind::Look => 1,
        StepKind::Race => 2,
        StepKind::Export => 3,
        StepKind::Take => 4,
        StepKind::Idle => 5,
        StepKind::Wake => 6,
        StepKind::Poll => 7,
        StepKind::Verdict => 8,
    }
}

/// The kind of step that has this number.
fn kind_of(number: u64) -> Option<StepKind> {
    match number {
        1 => Some(StepKind::Look),
        2 => Some(StepKind::Race),
        3 => Some(StepKind::Export),
        4 => Some(StepKind::Take),
        5 => Some(StepKind::Idle),
        6 => Some(StepKind::Wake),
        7 => Some(StepKind::Poll),
        8 => Some(StepKind::Verdict),
        _ => None,
    }
}

/// Whether a worker to which no memory is refused may tell of this step right after that one, or as its first one.
fn may_follow(last: Option<StepKind>, step: StepKind) -> bool {
    match step {
        StepKind::Look => matches!(
            last,
            None | Some(StepKind::Look) | Some(StepKind::Race) | Some(StepKind::Take)
        ),
        StepKind::Race => last == Some(StepKind::Look),
        StepKind::Export | StepKind::Wake => last == Some(StepKind::Verdict),
        StepKind::Take => matches!(last, Some(StepKind::Verdict) | Some(StepKind::Take)),
        StepKind::Idle => last == Some(StepKind::Take),
        StepKind::Poll => matches!(
            last,
            Some(StepKind::Idle) | Some(StepKind::Verdict) | Some(StepKind::Wake)
        ),
        StepKind::Verdict => !matches!(last, Some(StepKind::Verdict) | Some(StepKind::Idle)),
    }
}

/// Holds no one, and notes whether each of at most three workers tells of its steps in order, and of which one last.
#[derive(Drop)]
pub(crate) struct Order {
    last: [AtomicU64; 3],
    broken: AtomicBool,
}

impl Order {
    pub(crate) fn new() -> Order {
        Order {
            last: [AtomicU64::new(0), AtomicU64::new(0), AtomicU64::new(0)],
            broken: AtomicBool::new(false),
        }
    }

    /// Of which step a worker told last.
    pub(crate) fn last_of(&self, worker: u32) -> Option<StepKind> {
        match self.last.get(worker as usize) {
            Some(last) => kind_of(last.load(Ordering::SeqCst)),
            None => None,
        }
    }

    /// Whether so many workers told of their steps in order, and each of this one last.
    pub(crate) fn is_ended_by(&self, workers: u32, step: StepKind) -> bool {
        for worker in 0..workers {
            if self.last_of(worker) != Some(step) {
                return false;
            }
        }
        !self.broken.load(Ordering::SeqCst)
    }
}

impl Gate for Order {
    fn before(&self, worker: u32, step: StepKind) {
        if !may_follow(self.last_of(worker), step) {
            self.broken.store(true, Ordering::SeqCst);
        }
        if let Some(last) = self.last.get(worker as usize) {
            last.store(number_of(step), Ordering::SeqCst);
        }
    }
}
