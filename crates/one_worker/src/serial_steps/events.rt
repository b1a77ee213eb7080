//! The events of a collection by one worker, in their order.
ghost use Rattle.std.specs.Prelude.{◌≡◌, true, false, Ok, Err, OnErr};
ghost use Rattle.one_worker.specs.SerialValue.{Stays};
ghost use Rattle.one_worker.specs.Stepping.{IsOf, GoesOn, HasNothingInHand, IsDone, IsFullForLook};

use crate::serial::SerialCollection;
use heap::{Collection, Heap};
use scavenge::LookError;
use std::alloc::Allocator;

/// The race for what is proposed, else a look at the current slot, else the scan of what is in hand. Tells whether there was
/// one of these.
fn go_on<A: Allocator + Clone>(
    alloc: A,
    heap: &Heap<A>,
    collection: &Collection<A>,
    serial: &mut SerialCollection<A>,
) -> Result<bool, LookError>
    requires { IsOf heap.now collection.now serial.old }
    ensures some { result ≡ Ok true → GoesOn serial.old serial.new }
    ensures none { result ≡ Ok false → HasNothingInHand serial.old × (serial.new ≡ serial.old) }
    ensures full { result ≡ Err LookError.HeapFull → IsFullForLook serial.old serial.new }
    ensures err { OnErr result (Stays serial.old serial.new) }
{
    if serial.has_proposal() {
        serial.race(heap, collection)?;
        return Ok(true);
    }
    if serial.look(alloc, heap, collection)? {
        return Ok(true);
    }
    if serial.has_hand() {
        serial.scan()?;
        return Ok(true);
    }
    Ok(false)
}

/// Finds something else to scan: exports what is aside, else takes from the queue, else takes what lies in an allocation block
/// or is large. Tells whether there was one of these.
fn find_work<A: Allocator>(serial: &mut SerialCollection<A>) -> Result<bool, LookError>
    requires { HasNothingInHand serial.old }
    ensures some { result ≡ Ok true → GoesOn serial.old serial.new }
    ensures none { result ≡ Ok false → IsDone serial.old × (serial.new ≡ serial.old) }
    ensures full { result ≡ Err LookError.HeapFull → IsFullForLook serial.old serial.new }
    ensures err { OnErr result (Stays serial.old serial.new) }
{
    if serial.has_aside() {
        serial.export()?;
        return Ok(true);
    }
    if serial.has_queued() {
        serial.take()?;
        return Ok(true);
    }
    if let Some(d) = serial.lowest_open() {
        serial.own(d);
        return Ok(true);
    }
    if serial.has_large() {
        serial.own_large();
        return Ok(true);
    }
    Ok(false)
}

/// The next event. Tells whether there was one.
pub fn step<A: Allocator + Clone>(
    alloc: A,
    heap: &Heap<A>,
    collection: &Collection<A>,
    serial: &mut SerialCollection<A>,
) -> Result<bool, LookError>
    requires { IsOf heap.now collection.now serial.old }
    ensures some { result ≡ Ok true → GoesOn serial.old serial.new }
    ensures none { result ≡ Ok false → IsDone serial.old × (serial.new ≡ serial.old) }
    ensures full { result ≡ Err LookError.HeapFull → IsFullForLook serial.old serial.new }
    ensures err { OnErr result (Stays serial.old serial.new) }
{
    if go_on(alloc, heap, collection, serial)? {
        return Ok(true);
    }
    find_work(serial)
}
