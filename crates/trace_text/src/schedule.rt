//! What a line of a schedule says.
use model::Kind;

/// One event of a collection, of the worker that is numbered first. A schedule may name any numbers: whether there are
/// such workers and destinations is told where the event is to come.
#[derive(Clone, Copy, Debug, PartialEq, Eq)]
pub enum ScheduleEvent {
    /// It looks at its current slot.
    Look(u64),
    /// It races for what it proposes.
    Race(u64),
    /// Its current object is scanned.
    Scan(u64),
    /// It exports the oldest block that it has aside.
    Export(u64),
    /// It takes the block that the second worker exported first.
    Take(u64, u64),
    /// It takes its allocation block for a destination in hand.
    Own(u64, u64),
    /// It takes the large object that it claimed first in hand.
    OwnLarge(u64),
    /// It goes idle.
    Idle(u64),
    /// It is idle no longer.
    Wake(u64),
    /// It ends.
    End(u64),
}

/// A line of a schedule.
#[derive(Clone, Copy, Debug, PartialEq, Eq)]
pub enum ScheduleLine {
    /// A blank line or a comment.
    Nothing,
    /// An event of a worker, whether or not it may come now.
    Event(ScheduleEvent),
    /// The next events come until every worker has ended.
    Finish,
    /// The schedule ends, and the collection is carried through.
    Commit,
}

/// What is wrong with a line of a schedule.
#[derive(Clone, Copy, Debug, PartialEq, Eq)]
pub enum ScheduleKind {
    /// A first word that names no event.
    UnknownEvent,
    /// An event with too few or too many words.
    WrongWords,
    /// A word that should be a number, and has no number's form, or is one of 2^64 or more.
    BadNumber,
    /// The event may not come now.
    NotLawful,
    /// Some worker hasn't ended.
    NotEnded,
    /// The trace ends before the schedule does.
    UnfinishedSchedule,
}

/// What is wrong with a line: as with any line of a trace, or as with one of a schedule.
#[derive(Clone, Copy, Debug, PartialEq, Eq)]
pub enum LineFault {
    /// As with any line of a trace.
    Trace(Kind),
    /// As with a line of a schedule alone.
    Schedule(ScheduleKind),
}
