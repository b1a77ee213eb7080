//! Room for one more object, and blocks that go back to the pool.
ghost use Rattle.std.specs.Prelude.{◌≡◌, ℕ, ◌<◌, ◌||◌, true, false, nat_eq, length, replicate, IfOk, OnOk, slice_index_or};
ghost use Rattle.std.specs.List.{IsDistinct};
ghost use Rattle.slab.specs.Slab.{HasRoomFor};
ghost use Rattle.model.specs.Reached.{has};

use crate::stored::StoredObject;
use block_pool::{Flags, Pool};
use layout::LargeNumber;
use slab::Slab;
use std::alloc::{AllocError, Allocator};

/// Numbers of large objects are below this.
const MOST_NUMBERS: usize = 65535;

/// Words that are all 0. An error says that memory ran out.
pub(crate) fn zeros<A: Allocator + Clone>(
    alloc: &A,
    count: usize,
) -> Result<Vec<u64, A>, AllocError>
    ensures { IfOk result (λ words. words.items ≡ replicate count 0) }
{
    vec![in alloc.clone()?; 0; count]
}

/// Makes room for one more object and its flag, and tells the number that it gets. At an error, too, no object changes.
pub(crate) fn make_room<A: Allocator>(
    slab: &mut Slab<StoredObject<A>, A>,
    used: &mut Flags<A>,
) -> Result<LargeNumber, AllocError>
    ensures number { IfOk result (λ of. of.number ≡ slab.old.vacant_key) }
    ensures room { OnOk result (HasRoomFor slab.new 1) }
    ensures flag { OnOk result (slab.old.vacant_key < length used.new) }
    ensures slots { slab.new.slots ≡ slab.old.slots }
    ensures next { slab.new.vacant_key ≡ slab.old.vacant_key }
    ensures flags { (n : ℕ) → slice_index_or used.new n false ≡ slice_index_or used.old n false }
{
    let key = slab.vacant_key();
    if key >= MOST_NUMBERS {
        return Err(AllocError);
    }
    slab.reserve(1)?;
    used.reserve(key)?;
    Ok(LargeNumber { number: key as u16 })
}

/// Gives blocks back to the pool, of which none is free.
pub(crate) fn give_back_all<B: Allocator>(pool: &mut Pool<B>, blocks: &[u32])
    requires in_limit { (n : ℕ) → has blocks.now n ≡ true → n < pool.old.limit }
    requires taken { (n : ℕ) → has blocks.now n ≡ true → has pool.old.free n ≡ false }
    requires once { IsDistinct nat_eq blocks.now }
    ensures free { (n : ℕ) → has pool.new.free n ≡ (has blocks.now n || has pool.old.free n) }
    ensures limit { pool.new.limit ≡ pool.old.limit }
{
    for number in blocks {
        pool.give_back(*number);
    }
}
