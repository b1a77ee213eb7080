//! Gates that hold each of two workers until the other comes to a step.
use crate::meetings::gates::wait_for;
use forwarding::{Gate, StepKind};
use std::sync::atomic::{AtomicBool, AtomicU64, Ordering};

/// Before which steps a worker is held, and to which the other one comes for that it goes on.
#[derive(Clone, Copy, Debug)]
pub(crate) struct Hold {
    pub(crate) before: StepKind,
    pub(crate) until: StepKind,
}

/// Holds each of two workers after its first race until the other, after its first race, comes to a step.
#[derive(Drop)]
pub(crate) struct Turns {
    holds: (Hold, Hold),
    first_goes: AtomicBool,
    second_goes: AtomicBool,
    late: AtomicBool,
    first_races: AtomicU64,
    second_races: AtomicU64,
}

impl Turns {
    pub(crate) fn new(first: Hold, second: Hold) -> Turns {
        Turns {
            holds: (first, second),
            first_goes: AtomicBool::new(false),
            second_goes: AtomicBool::new(false),
            late: AtomicBool::new(false),
            first_races: AtomicU64::new(0),
            second_races: AtomicU64::new(0),
        }
    }

    /// How many races each worker ran, where no one was late.
    pub(crate) fn races(&self) -> Option<(u64, u64)> {
        if self.late.load(Ordering::SeqCst) {
            return None;
        }
        let first = self.first_races.load(Ordering::SeqCst);
        Some((first, self.second_races.load(Ordering::SeqCst)))
    }

    /// What comes before its first race doesn't count.
    fn before_first(&self, step: StepKind) {
        let races = self.first_races.load(Ordering::SeqCst);
        if step == StepKind::Race {
            self.first_races
                .store(races.saturating_add(1), Ordering::SeqCst);
        }
        if races > 0 && step == self.holds.1.until {
            self.second_goes.store(true, Ordering::SeqCst);
        }
        if races > 0 && step == self.holds.0.before {
            wait_for(&self.first_goes, &self.late);
        }
    }

    /// What comes before its first race doesn't count.
    fn before_second(&self, step: StepKind) {
        let races = self.second_races.load(Ordering::SeqCst);
        if step == StepKind::Race {
            self.second_races
                .store(races.saturating_add(1), Ordering::SeqCst);
        }
        if races > 0 && step == self.holds.0.until {
            self.first_goes.store(true, Ordering::SeqCst);
        }
        if races > 0 && step == self.holds.1.before {
            wait_for(&self.second_goes, &self.late);
        }
    }
}

impl Gate for Turns {
    fn before(&self, worker: u32, step: StepKind) {
        if worker == 0 {
            self.before_first(step);
        } else {
            self.before_second(step);
        }
    }
}
