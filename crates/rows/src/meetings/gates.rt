//! Gates that hold workers until others come.
use crate::meetings::order::Order;
use crossbeam_utils::Backoff;
use forwarding::{Gate, StepKind};
use std::sync::atomic::{AtomicBool, AtomicU64, Ordering};

/// How many turns a gate holds a worker at most.
const TURNS: u32 = 10_000;

/// How many yields a turn has.
const YIELDS: u32 = 1_000;

/// Waits until the flag is up, or for so many turns. Then it lets go, and raises `late`. Where that is up, nobody waits.
pub(crate) fn wait_for(flag: &AtomicBool, late: &AtomicBool) {
    if late.load(Ordering::SeqCst) {
        return;
    }
    let backoff = Backoff::new();
    for _turn in 0..TURNS {
        for _yield in 0..YIELDS {
            if flag.load(Ordering::SeqCst) {
                return;
            }
            backoff.snooze();
        }
    }
    late.store(true, Ordering::SeqCst);
}

/// Holds each of two workers before its first race until the other one is there too.
#[derive(Drop)]
pub(crate) struct Meeting {
    first: AtomicBool,
    second: AtomicBool,
    late: AtomicBool,
    races: AtomicU64,
}

impl Meeting {
    pub(crate) fn new() -> Meeting {
        Meeting {
            first: AtomicBool::new(false),
            second: AtomicBool::new(false),
            late: AtomicBool::new(false),
            races: AtomicU64::new(0),
        }
    }

    /// Whether both came, neither too late.
    pub(crate) fn met(&self) -> bool {
        self.first.load(Ordering::SeqCst)
            && self.second.load(Ordering::SeqCst)
            && !self.late.load(Ordering::SeqCst)
    }

    /// How many races there were.
    pub(crate) fn races(&self) -> u64 {
        self.races.load(Ordering::SeqCst)
    }
}

impl Gate for Meeting {
    fn before(&self, worker: u32, step: StepKind) {
        if step != StepKind::Race {
            return;
        }
        self.races.fetch_add(1, Ordering::SeqCst);
        if worker == 0 {
            self.first.store(true, Ordering::SeqCst);
            wait_for(&self.second, &self.late);
        } else {
            self.second.store(true, Ordering::SeqCst);
            wait_for(&self.first, &self.late);
        }
    }
}

/// Which of so many workers hands a block to which.
#[derive(Clone, Copy, Debug)]
pub(crate) struct Hands {
    pub(crate) workers: u32,
    pub(crate) from: u32,
    pub(crate) to: u32,
}

/// Holds one worker before its exports until another rests, and before its first step after its first export until the other
/// comes to a look at a block that it took. A third worker takes nothing before.
#[derive(Drop)]
pub(crate) struct Handover {
    hands: Hands,
    order: Order,
    rested: AtomicBool,
    woke: AtomicBool,
    sought_twice: AtomicBool,
    exported: AtomicBool,
    held: AtomicBool,
    sought: AtomicBool,
    looked: AtomicBool,
    late: AtomicBool,
    races: [AtomicU64; 3],
}

impl Handover {
    pub(crate) fn new(hands: Hands) -> Handover {
        Handover {
            hands,
            order: Order::new(),
            rested: AtomicBool::new(false),
            woke: AtomicBool::new(false),
            sought_twice: AtomicBool::new(false),
            exported: AtomicBool::new(false),
            held: AtomicBool::new(false),
            sought: AtomicBool::new(false),
            looked: AtomicBool::new(false),
            late: AtomicBool::new(false),
            races: [AtomicU64::new(0), AtomicU64::new(0), AtomicU64::new(0)],
        }
    }

    /// Whether the one worker was held and the other came, not too late.
    pub(crate) fn handed_over(&self) -> bool {
        self.held.load(Ordering::SeqCst)
            && self.looked.load(Ordering::SeqCst)
            && !self.late.load(Ordering::SeqCst)
    }

    /// Whether each worker told of its steps in order, and of a poll last, and the other of a wake and of two takes in a row:
    /// one of its own queue, and one of another's.
    pub(crate) fn is_told(&self) -> bool {
        self.order.is_ended_by(self.hands.workers, StepKind::Poll)
            && self.woke.load(Ordering::SeqCst)
            && self.sought_twice.load(Ordering::SeqCst)
    }

    /// How many races worker `t` ran.
    pub(crate) fn races_of(&self, t: usize) -> u64 {
        match self.races.get(t) {
            Some(races) => races.load(Ordering::SeqCst),
            None => 0,
        }
    }

    /// The other worker rests, and then wakes and seeks a block in its own queue and in another's.
    fn before_rest(&self, step: StepKind) {
        match step {
            StepKind::Poll => self.rested.store(true, Ordering::SeqCst),
            StepKind::Wake => self.woke.store(true, Ordering::SeqCst),
            StepKind::Take if self.order.last_of(self.hands.to) == Some(step) => {
                self.sought_twice.store(true, Ordering::SeqCst)
            }
            _ => {}
        }
    }

    /// What its first slot leads to has no pointers, so a look after it sought a block is one at a block that it took.
    fn before_taker(&self, step: StepKind) {
        if step == StepKind::Take {
            self.sought.store(true, Ordering::SeqCst);
        }
        if step == StepKind::Look && self.sought.load(Ordering::SeqCst) {
            self.looked.store(true, Ordering::SeqCst);
        }
    }

    fn before_exporter(&self, step: StepKind) {
        if self.exported.load(Ordering::SeqCst) && !self.held.swap(true, Ordering::SeqCst) {
            wait_for(&self.looked, &self.late);
        }
        if step == StepKind::Export {
            wait_for(&self.rested, &self.late);
            self.exported.store(true, Ordering::SeqCst);
        }
    }
}

impl Gate for Handover {
    fn before(&self, worker: u32, step: StepKind) {
        if step == StepKind::Race {
            if let Some(races) = self.races.get(worker as usize) {
                races.fetch_add(1, Ordering::SeqCst);
            }
        }
        if worker == self.hands.to {
            self.before_rest(step);
            self.before_taker(step);
        } else if worker == self.hands.from {
            self.before_exporter(step);
        } else if step == StepKind::Take {
            wait_for(&self.looked, &self.late);
        }
        self.order.before(worker, step);
    }
}
