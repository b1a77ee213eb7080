//! From the numbers of a schedule to those of a collection.
ghost use Rattle.std.specs.Prelude.{◌≡◌, ◌^◌, ◌≤◌, IfSome, IfNone};
ghost use Rattle.machine.specs.SystemEvents.{event_of};
ghost use Rattle.trace_replay.specs.Naming.{meant, IsNeverLawful};

use machine::Event;
use trace_text::ScheduleEvent;

/// A worker's number, if there may be such a worker.
fn worker(number: u64) -> Option<u32>
    ensures some { IfSome result (λ found. found ≡ number) }
    ensures none { IfNone result (2 ^ 32 ≤ number) }
{
    u32::try_from(number).ok()
}

/// The event of a collection that an event of a schedule names. There is none where a worker's number is so great that
/// the event isn't lawful in any collection.
pub fn named_event(event: ScheduleEvent) -> Option<Event>
    ensures some { IfSome result (λ found. event_of found ≡ meant event) }
    ensures none { IfNone result (IsNeverLawful (meant event)) }
{
    match event {
        ScheduleEvent::Look(t) => Some(Event::Look(worker(t)?)),
        ScheduleEvent::Race(t) => Some(Event::Race(worker(t)?)),
        ScheduleEvent::Scan(t) => Some(Event::Scan(worker(t)?)),
        ScheduleEvent::Export(t) => Some(Event::Export(worker(t)?)),
        ScheduleEvent::Take(t, u) => Some(Event::Take(worker(t)?, worker(u)?)),
        ScheduleEvent::Own(t, d) => Some(Event::Own(worker(t)?, d as usize)),
        ScheduleEvent::OwnLarge(t) => Some(Event::OwnLarge(worker(t)?)),
        ScheduleEvent::Idle(t) => Some(Event::Idle(worker(t)?)),
        ScheduleEvent::Wake(t) => Some(Event::Wake(worker(t)?)),
        ScheduleEvent::End(t) => Some(Event::End(worker(t)?)),
    }
}
