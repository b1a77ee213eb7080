//! A lawful event comes.
ghost use Rattle.std.specs.Prelude.{◌≡◌, Err, OnOk, OnErr};
ghost use Rattle.workers.specs.Lawful.{IsLawful, IsRefused};
ghost use Rattle.machine.specs.InterleavedValue.{Goes, Stays, setting_in, system_of};
ghost use Rattle.machine.specs.SystemEvents.{event_of};

use crate::workers_in_turn::{Event, InterleavedCollection};
use heap::{Collection, Heap};
use scavenge::LookError;
use std::alloc::Allocator;

/// The event, which is lawful, comes. An error says that a block was wanted and none is left, or that memory ran out;
/// nothing came then.
pub(crate) fn carry_out<A: Allocator + Clone>(
    alloc: A,
    heap: &Heap<A>,
    collection: &Collection<A>,
    workers: &mut InterleavedCollection<A>,
    event: Event,
) -> Result<(), LookError>
    requires heap { heap.now ≡ workers.old.heap }
    requires collection { collection.now ≡ workers.old.collection }
    requires lawful { IsLawful (setting_in workers.old) (system_of workers.old) (event_of event) }
    ensures ok { OnOk result (Goes (event_of event) workers.old workers.new) }
    ensures full { result ≡ Err LookError.HeapFull →
        IsRefused (setting_in workers.old) (system_of workers.old) (event_of event) }
    ensures err { OnErr result (Stays workers.old workers.new) }
{
    match event {
        Event::Look(t) => return workers.look(t, alloc, heap, collection),
        Event::Race(t) => workers.race(t, heap, collection)?,
        Event::Scan(t) => workers.scan(t)?,
        Event::Export(t) => workers.export(t)?,
        Event::Take(t, u) => workers.take(t, u)?,
        Event::Own(t, d) => workers.own(t, d),
        Event::OwnLarge(t) => workers.own_large(t),
        Event::Idle(t) => workers.idle(t),
        Event::Wake(t) => workers.wake(t),
        Event::End(t) => workers.end(t),
    }
    Ok(())
}
