//! Where a sweep stands in the block in hand.
ghost use Rattle.std.specs.Prelude.{◌≡◌, ◌<◌, Some, length, slice_get, slice_set};
ghost use Rattle.std.specs.Option.{option_map};
ghost use Rattle.layout.specs.Object.{Raw};
ghost use Rattle.layout.specs.Place.{place_word, IsPointer};
ghost use Rattle.block_pool.specs.BlockValue.{with_pointer_word};
ghost use Rattle.workers.specs.Joined.{OnSome};
ghost use Rattle.scavenge.specs.Fronts.{raw_field, front_raw, front_field};
ghost use Rattle.scavenge.specs.Cursors.{StandsAt};

use block_pool::Block;
use layout::{Place, pointer_of};
use std::alloc::Allocator;

/// The first unscanned object of a block: the offset in words at which it begins, and how many pointers it has.
#[derive(Clone, Copy)]
pub struct Cursor {
    /// Where the object begins: its offset in words from the block's first word.
    pub at: usize,
    /// How many pointers the object has, 0 or more.
    pub pointers: usize,
}

/// The first unscanned object of a block.
#[inline(always)]
pub fn cursor_of<A: Allocator>(block: &Block<A>) -> Cursor
    requires { block.now.front < length block.now.objects }
    ensures { StandsAt block.now result }
{
    let at = block.offset(block.front());
    Cursor {
        at,
        pointers: block.pointer_count_from(at),
    }
}

/// Pointer `i` of the first unscanned object, where there is one.
#[inline(always)]
pub fn pointer_at<A: Allocator>(block: &Block<A>, cursor: Cursor, i: usize) -> Option<Option<Place>>
    requires stands { StandsAt block.now cursor }
    requires pointer { OnSome IsPointer (raw_field i (front_raw (Some block.now))) }
    ensures { option_map (option_map place_word) result ≡ front_field i (Some block.now) }
{
    if i < cursor.pointers {
        return Some(pointer_of(block.pointer_from(cursor.at, i)));
    }
    None
}

/// Writes pointer `i` of the first unscanned object.
#[inline(always)]
pub fn write_at<A: Allocator>(block: &mut Block<A>, cursor: Cursor, i: usize, word: u64)
    requires stands { StandsAt block.old cursor }
    requires field { i < cursor.pointers }
    ensures written { (raw : Raw) → slice_get block.old.objects block.old.front ≡ Some raw →
        block.new ≡ record block.old {
          objects = slice_set block.old.objects block.old.front
              (with_pointer_word raw i word);
        } }
    ensures stands { StandsAt block.new cursor }
{
    block.set_pointer_from(cursor.at, i, word);
}
