//! The first unscanned object of a block, and the place behind the last.
ghost use Rattle.std.specs.Prelude.{◌≡◌, ◌+◌, ◌<◌, Some, length, slice_get, slice_set, nat_lt};
ghost use Rattle.std.specs.Option.{option_map};
ghost use Rattle.layout.specs.Object.{Raw};
ghost use Rattle.layout.specs.Place.{place_word, small_word, IsPointer};
ghost use Rattle.block_pool.specs.BlockValue.{offset_of, used_of, with_pointer_word};
ghost use Rattle.workers.specs.Joined.{OnSome};
ghost use Rattle.scavenge.specs.Fronts.{raw_field, front_raw, front_field};

use block_pool::Block;
use layout::{Place, pointer_of};
use std::alloc::Allocator;

/// Pointer `i` of the first unscanned object, where there is one.
#[inline(always)]
pub fn front_pointer<A: Allocator>(block: &Block<A>, i: usize) -> Option<Option<Place>>
    requires { OnSome IsPointer (raw_field i (front_raw (Some block.now))) }
    ensures { option_map (option_map place_word) result ≡ front_field i (Some block.now) }
{
    let front = block.front();
    if front < block.len() && i < block.pointer_count(front) {
        return Some(pointer_of(block.pointer(front, i)));
    }
    None
}

/// Writes pointer `i` of the first unscanned object.
#[inline(always)]
pub fn write_front<A: Allocator>(block: &mut Block<A>, i: usize, word: u64)
    ensures { (raw : Raw) → slice_get block.old.objects block.old.front ≡ Some raw → i < length raw.pointers
        → block.new ≡ record block.old {
          objects = slice_set block.old.objects block.old.front
              (with_pointer_word raw i word);
        } }
{
    let front = block.front();
    if front < block.len() && i < block.pointer_count(front) {
        block.set_pointer(front, i, word);
    }
}

/// Counts the first unscanned object as scanned, and tells its place and whether another is unscanned.
#[inline(always)]
pub fn pass_front<A: Allocator>(block: &mut Block<A>) -> (Place, bool)
    requires { block.old.front < length block.old.objects }
    ensures place { place_word result.0 ≡ small_word block.old.number (offset_of block.old.objects block.old.front) }
    ensures more { result.1 ≡ nat_lt (block.old.front + 1) (length block.old.objects) }
    ensures block { block.new ≡ record block.old { front = block.old.front + 1 } }
{
    let place = Place::small(block.number() as u16, block.offset(block.front()) as u16);
    block.advance_front();
    let more = block.front() < block.len();
    (place, more)
}

/// The place behind the last object of a block.
#[inline(always)]
pub fn place_behind<A: Allocator>(block: &Block<A>) -> Place
    requires { used_of block.now < block.now.words }
    ensures { place_word result ≡ small_word block.now.number (used_of block.now) }
{
    let _words = block.words();
    Place::small(block.number() as u16, block.used() as u16)
}
