//! One event after another.
ghost use Rattle.std.specs.Prelude.{◌≡◌, ◌<◌, ◌≤◌, ◌⊎◌, true, false, Ok, Err, OnOk, OnErr};
ghost use Rattle.one_worker.specs.SerialValue.{Stays};
ghost use Rattle.scavenge.specs.ReadyToCollect.{IsReadyToCollect};
ghost use Rattle.one_worker.specs.Stepping.{IsOf, IsDone, IsFullForLook, IsLeftToStep, ScansNext, ScavengesAndSteps, HasStepped, left_to_do};

use crate::serial::SerialCollection;
use crate::serial_steps::events::step;
use crate::serial_steps::sweeping::swept;
use heap::{Collection, Heap};
use scavenge::{Evacuated, LookError};
use std::alloc::{AllocError, Allocator};

/// The next events, where they want neither a block nor the queue: a look with the race for what it proposes, or a scan.
/// Tells whether there were some: else the next one is left to `step`, and nothing came. An error says that memory ran out
/// in a scan, which didn't come.
#[inline(always)]
fn scavenge_one<A: Allocator + Clone>(
    heap: &Heap<A>,
    collection: &Collection<A>,
    serial: &mut SerialCollection<A>,
) -> Result<bool, AllocError>
    requires ready { IsReadyToCollect heap.now collection.now }
    requires same { IsOf heap.now collection.now serial.old }
    requires stepped { HasStepped serial.old }
    ensures same { IsOf heap.now collection.now serial.new }
    ensures stepped { HasStepped serial.new }
    ensures some { result ≡ Ok true → left_to_do serial.new < left_to_do serial.old }
    ensures none { result ≡ Ok false → IsLeftToStep serial.new × Stays serial.old serial.new }
    ensures err { OnErr result (ScansNext serial.new × Stays serial.old serial.new) }
{
    if serial.has_proposal() {
        return Ok(false);
    }
    match serial.evacuate(heap, collection) {
        Evacuated::Left => Ok(false),
        Evacuated::NoSlot => {
            if serial.has_hand() {
                serial.scan_to_next()
            } else {
                Ok(false)
            }
        }
        Evacuated::Looked | Evacuated::Raced => Ok(true),
    }
}

/// Goes on until the next event is left to `step`. An error says that memory ran out in a scan, which didn't come.
fn scavenge<A: Allocator + Clone>(
    heap: &Heap<A>,
    collection: &Collection<A>,
    serial: &mut SerialCollection<A>,
) -> Result<(), AllocError>
    requires ready { IsReadyToCollect heap.now collection.now }
    requires same { IsOf heap.now collection.now serial.old }
    requires stepped { HasStepped serial.old }
    ensures same { IsOf heap.now collection.now serial.new }
    ensures stepped { HasStepped serial.new }
    ensures less { left_to_do serial.new ≤ left_to_do serial.old }
    ensures ok { OnOk result (IsLeftToStep serial.new) }
    ensures err { OnErr result (ScansNext serial.new) }
{
    while scavenge_one(heap, collection, serial)? {}
    Ok(())
}

/// Goes on so, and then the next event. Tells whether there was one. An error leaves what didn't come as the next event.
fn scavenge_and_step<A: Allocator + Clone>(
    alloc: A,
    heap: &Heap<A>,
    collection: &Collection<A>,
    serial: &mut SerialCollection<A>,
) -> Result<bool, LookError>
    requires ready { IsReadyToCollect heap.now collection.now }
    requires same { IsOf heap.now collection.now serial.old }
    requires stepped { HasStepped serial.old }
    ensures same { IsOf heap.now collection.now serial.new }
    ensures stepped { HasStepped serial.new }
    ensures some { result ≡ Ok true → ScavengesAndSteps serial.old serial.new }
    ensures less { result ≡ Ok true → left_to_do serial.new < left_to_do serial.old }
    ensures none { result ≡ Ok false → IsDone serial.new }
    ensures full { result ≡ Err LookError.HeapFull → IsFullForLook serial.new serial.new }
    ensures err { OnErr result (ScansNext serial.new ⊎ IsLeftToStep serial.new) }
{
    scavenge(heap, collection, serial)?;
    step(alloc, heap, collection, serial)
}

/// Carries the collection on until nothing is left to do. Where a block is held in hand, a sweep goes over it first. An error
/// leaves what didn't come as the next event.
pub fn run_to_end<A: Allocator + Clone>(
    alloc: A,
    heap: &Heap<A>,
    collection: &Collection<A>,
    mut serial: SerialCollection<A>,
) -> (SerialCollection<A>, Result<(), LookError>)
    requires ready { IsReadyToCollect heap.now collection.now }
    requires same { IsOf heap.now collection.now serial }
    requires stepped { HasStepped serial }
    ensures same { IsOf heap.now collection.now result.0 }
    ensures stepped { HasStepped result.0 }
    ensures ok { OnOk result.1 (IsDone result.0) }
    ensures full { result.1 ≡ Err LookError.HeapFull → IsFullForLook result.0 result.0 }
{
    loop {
        if serial.holds_block() && !serial.has_proposal() {
            if serial.reserve_sweep().is_err() {
                return (serial, Err(LookError::NoMemory));
            }
            serial = swept(heap, collection, serial);
        }
        let Ok(own) = alloc.clone() else {
            return (serial, Err(LookError::NoMemory));
        };
        match scavenge_and_step(own, heap, collection, &mut serial) {
            Ok(true) => {}
            Ok(false) => return (serial, Ok(())),
            Err(error) => return (serial, Err(error)),
        }
    }
}
