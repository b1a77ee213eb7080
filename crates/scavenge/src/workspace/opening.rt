//! Which start slots are a worker's.
ghost use Rattle.std.specs.Prelude.{◌≡◌, ◌<◌, ◌+◌, ◌%◌, ℕ, IfOk, map};
ghost use Rattle.layout.specs.Place.{place_word};
ghost use Rattle.heap.specs.SlotView.{slot_value};
ghost use Rattle.heap.specs.CollectionValue.{target_of_slot};
ghost use Rattle.workers.specs.System.{every};

use heap::Slot;
use layout::Place;
use std::alloc::{AllocError, Allocator};

/// Whose turn it is after that worker of `n`.
#[inline(always)]
fn turn_after(turn: usize, n: usize) -> usize
    requires { turn < n }
    ensures { (i : ℕ) → turn ≡ i % n → result ≡ (i + 1) % n }
{
    if turn + 1 == n { 0 } else { turn + 1 }
}

/// What every n-th slot leads to, from slot `t` on.
pub(crate) fn every_target<A: Allocator>(
    alloc: A,
    slots: &[Slot],
    t: u32,
    n: u32,
) -> Result<Vec<Place, A>, AllocError>
    requires { t < n }
    ensures { IfOk result
        (λ targets. map place_word targets.items ≡ every n t 0 (map target_of_slot (map slot_value slots.now))) }
{
    let workers = n as usize;
    let mut targets = Vec::with_capacity(alloc, slots.len() / workers + 1)?;
    let mut turn = 0;
    for slot in slots {
        if turn == t as usize {
            targets.push(slot.target())?;
        }
        turn = turn_after(turn, workers);
    }
    Ok(targets)
}
